ghost use Rattle.std.specs.Prelude.{◌≡◌};
ghost use Rattle.plan_table.specs.Laws.{OneTable};

use crate::paths::MOST_LAST_INDEX;

/// Two tables whose agents rise and that have the same row for every agent are the same table.
pub fn one_table()
    ensures { OneTable }
{}

/// The limit of paths, in steps: a last index is at most 131,071.
pub fn limit_of_paths()
    ensures { MOST_LAST_INDEX ≡ 131071 }
{}
