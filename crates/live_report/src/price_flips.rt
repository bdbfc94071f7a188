ghost use Rattle.std.specs.Prelude.{◌≡◌, IfOk};
ghost use Rattle.grid_cells.specs.Grid.{Chart};
ghost use Rattle.plan_table.specs.Route.{tracks_of};
ghost use Rattle.plan_table.specs.declared.tracks.Mode.{Mode};
ghost use Rattle.goal_fields.specs.Target.{Covers};
ghost use Rattle.cost_ledger.specs.Ledger.{StandsForMap, SameClosedBut, SameAt};
ghost use Rattle.live_report.specs.Fleet.{AreOfFleet};

use crate::fleet::FleetBooks;
use cost_ledger::CostLedger;
use grid_cells::{Cell, Grid, OutOfMemory};
use std::alloc::Global;

/// The ledger for another grid of the same size, whose state differs at most at the cells. The fleet
/// is that of the ledger's rows.
pub(crate) fn flip_all(
    alloc: Global,
    costs: CostLedger,
    cells: &[Cell],
    fleet: &FleetBooks,
    grid: &Grid,
) -> Result<CostLedger, OutOfMemory>
    ensures rows { IfOk result (λ ledger. ledger.rows ≡ costs.rows) }
    ensures stands { IfOk result (λ ledger. (mode : Mode) (old : Chart)
        → AreOfFleet (tracks_of mode costs.rows) fleet.now
        → old.size ≡ grid.now.size → Covers cells.now old grid.now → StandsForMap costs old → StandsForMap ledger grid.now) }
{
    let mut ledger = costs;
    for cell in cells {
        ledger = flip_one(alloc, ledger, *cell, fleet, grid)?;
    }
    Ok(ledger)
}

// Gives the cell the state that it has in the grid.
fn flip_one(
    alloc: Global,
    costs: CostLedger,
    cell: Cell,
    fleet: &FleetBooks,
    grid: &Grid,
) -> Result<CostLedger, OutOfMemory>
    ensures rows { IfOk result (λ ledger. ledger.rows ≡ costs.rows) }
    ensures stands { IfOk result (λ ledger. (mode : Mode) (old new : Chart)
        → AreOfFleet (tracks_of mode costs.rows) fleet.now
        → StandsForMap costs old → SameClosedBut old new cell → SameAt grid.now new cell → StandsForMap ledger new) }
{
    let Ok(visits) = fleet.visits(alloc, cell) else {
        drop(costs);
        return Err(OutOfMemory);
    };
    costs.flip_at(cell, grid, &visits)
}
