ghost use Rattle.std.specs.Prelude.{OnOk};
ghost use Rattle.mapf_rules.specs.Finding.{Offers};

use crate::entries::Conflict;
use grid_cells::OutOfMemory;

/// Adds the entry that was found, if any.
pub fn offer(entries: &mut Vec<Conflict>, found: Option<Conflict>) -> Result<(), OutOfMemory>
    ensures { OnOk result (Offers entries.old.items entries.new.items found) }
{
    if let Some(entry) = found {
        entries.push(entry)?;
    }
    Ok(())
}
