use crate::spot_sets::Spot;
use std::collections::btree_set::Range;

/// Who is in one cell at steps from one on. Both parts go by time, then agent.
#[derive(Drop)]
pub struct Occupants<'a> {
    /// Agents that are in the cell at the time of their spot.
    pub stands: Range<'a, Spot>,
    /// Agents that are in the cell from the time of their spot on, for ever. That time may be
    /// before the first step.
    pub tails: Range<'a, Spot>,
}
