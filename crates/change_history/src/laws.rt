ghost use Rattle.change_history.specs.Moved.{MovesLeadOn};

use crate::items::Item;

/// A law: what was there, without what went and with what came, is what is there.
pub fn moves_lead_on<T: Item>()
    ensures { MovesLeadOn T }
{
    T::told_apart();
}
