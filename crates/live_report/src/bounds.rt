ghost use Rattle.std.specs.Prelude.{All};
ghost use Rattle.grid_cells.specs.Grid.{Chart};
ghost use Rattle.grid_cells.specs.Size.{Holds};
ghost use Rattle.grid_cells.specs.Walks.{IsDistance};
ghost use Rattle.goal_fields.specs.Held.{HasGoal, StandFor};
ghost use Rattle.desk_report.specs.Report.{IsBound};

use goal_fields::Fields;
use grid_cells::{Cell, Step};
use plan_table::Row;

// The distance in steps from the cell to a goal that has a field.
fn distance_to(fields: &Fields, from: Cell, goal: Cell) -> Option<u32>
    requires { HasGoal fields.now.fields goal }
    ensures { (grid : Chart) → StandFor grid fields.now.fields → Holds grid.size from → IsDistance grid from goal result }
{
    match fields.field(goal) {
        Some(field) => field.distance(from),
        None => unreachable!(),
    }
}

/// The lower bound of the row's agent, in steps: the distance from where its path begins to its goal.
pub(crate) fn bound(fields: &Fields, row: &Row) -> Option<u32>
    requires { HasGoal fields.now.fields row.now.goal }
    ensures { (grid : Chart) → StandFor grid fields.now.fields → All (Holds grid.size) row.now.plan → IsBound grid row.now result }
{
    distance_to(fields, row.plan.at(Step::new(0)), row.goal)
}
