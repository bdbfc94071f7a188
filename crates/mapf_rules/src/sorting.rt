ghost use Rattle.std.specs.Prelude.{Contains};
ghost use Rattle.plan_table.specs.Order.{ListsAll};
ghost use Rattle.mapf_rules.specs.ConflictList.{listing_key};

use crate::entries::Conflict;
use grid_cells::List;

/// The entries in the order in which they are listed, each once.
pub fn sorted(mut entries: Vec<Conflict>) -> List<Conflict>
    ensures { ListsAll listing_key (Contains entries.items) result }
{
    entries.sort_unstable();
    entries.dedup();
    List::new(entries)
}
