//! Lines go along with the rows where they stand. Where they find no memory they go, and are made anew
//! when a report is asked for.
ghost use Rattle.std.specs.Prelude.{◌≡◌, Some, None};
ghost use Rattle.grid_cells.specs.Grid.{Chart};
ghost use Rattle.goal_fields.specs.Target.{Covers};
ghost use Rattle.goal_fields.specs.Held.{HasGoal, StandFor};
ghost use Rattle.live_report.specs.Lines.{WhereLinesStand};
ghost use Rattle.live_report.specs.Prices.{Rows, with_row_in, AreOfRows};

use crate::lines::{Lines, line};
use crate::prices::PriceBooks;
use goal_fields::Fields;
use grid_cells::{Agent, Cell, Grid};
use plan_table::Row;

// The agent has that row.
pub(crate) fn with_line(
    lines: Option<Lines>,
    agent: Agent,
    row: &Row,
    fields: &Fields,
) -> Option<Lines>
    requires { HasGoal fields.now.fields row.now.goal }
    ensures { (grid : Chart) (rows : Rows) → StandFor grid fields.now.fields → WhereLinesStand grid rows lines
        → WhereLinesStand grid (with_row_in rows agent (Some row.now)) result }
{
    let mut lines = lines?;
    match lines.put(line(agent, row, fields)) {
        Ok(()) => Some(lines),
        Err(_) => {
            drop(lines);
            None
        }
    }
}

// The agent has no row.
pub(crate) fn without_line(lines: Option<Lines>, agent: Agent) -> Option<Lines>
    ensures { (grid : Chart) (rows : Rows) → WhereLinesStand grid rows lines → WhereLinesStand grid (with_row_in rows agent None) result }
{
    let mut lines = lines?;
    lines.take(agent);
    Some(lines)
}

// The map becomes the grid, which has another state at no other cell than those: where there are any,
// each bound may change, so no lines stand.
pub(crate) fn unflipped(
    lines: Option<Lines>,
    cells: &[Cell],
    prices: &PriceBooks,
    grid: &Grid,
) -> Option<Lines>
    ensures { (old : Chart) (rows : Rows) → AreOfRows old rows prices.now → old.size ≡ grid.now.size → Covers cells.now old grid.now
        → WhereLinesStand old rows lines → WhereLinesStand grid.now rows result }
{
    let _size = grid.size();
    let _goals = prices.fields().count();
    if cells.is_empty() {
        lines
    } else {
        drop(lines);
        None
    }
}
