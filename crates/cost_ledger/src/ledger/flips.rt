//! How a ledger changes where a cell opens or closes.
ghost use Rattle.std.specs.Prelude.{◌≡◌, IfOk};
ghost use Rattle.grid_cells.specs.Grid.{Chart};
ghost use Rattle.cost_ledger.specs.Ledger.{StandsForMap, SameClosedBut, SameAt};
ghost use Rattle.cost_ledger.specs.Through.{AreThrough};

use super::CostLedger;
use crate::along::set_blocked;
use grid_cells::{Cell, Grid, OutOfMemory};
use mapf_rules::{Visit, is_closed};

impl CostLedger {
    /// Gives the cell the state that it has in the grid. It goes along the plan of every row, as
    /// `flip_at` doesn't.
    ///
    /// # Errors
    ///
    /// Want of memory. The ledger is gone then.
    pub fn flip(self, cell: Cell, grid: &Grid) -> Result<CostLedger, OutOfMemory>
        ensures rows { IfOk result (λ ledger. ledger.rows ≡ self.rows) }
        ensures stands { IfOk result (λ ledger. (old new : Chart) → StandsForMap self old
            → SameClosedBut old new cell → SameAt grid.now new cell → StandsForMap ledger new) }
    {
        let Ok(visits) = self.rows.through(self.alloc, cell) else {
            drop(self);
            return Err(OutOfMemory);
        };
        self.flip_at(cell, grid, &visits)
    }

    /// Gives the cell the state that it has in the grid, for a caller who knows the visits to it: each
    /// agent and time, up to the last index of the agent's plan, at which the plan is in the cell, in
    /// any order. The cost follows their number.
    ///
    /// # Errors
    ///
    /// Want of memory. The ledger is gone then.
    pub fn flip_at(
        mut self,
        cell: Cell,
        grid: &Grid,
        visits: &[Visit],
    ) -> Result<CostLedger, OutOfMemory>
        ensures rows { IfOk result (λ ledger. ledger.rows ≡ self.rows) }
        ensures stands { IfOk result (λ ledger. (old new : Chart)
            → AreThrough self.rows cell visits.now
            → StandsForMap self old → SameClosedBut old new cell → SameAt grid.now new cell → StandsForMap ledger new) }
    {
        match set_blocked(&mut self.blocked, visits, is_closed(grid, cell)) {
            Ok(()) => {
                let _count = self.blocked.len();
                Ok(self)
            }
            Err(refused) => {
                drop(self);
                Err(refused)
            }
        }
    }
}
