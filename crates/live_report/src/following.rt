//! Books go along from a scene to the next: its cells first, and then agent by agent.
ghost use Rattle.std.specs.Prelude.{◌≡◌, ◌+◌, min, IfOk};
ghost use Rattle.std.specs.List.{sum_by};
ghost use Rattle.grid_cells.specs.Grid.{Chart};
ghost use Rattle.goal_fields.specs.Target.{Covers};
ghost use Rattle.plan_table.specs.Plans.{row_of};
ghost use Rattle.change_history.specs.Moved.{Follows};
ghost use Rattle.live_report.specs.Prices.{Rows};
ghost use Rattle.live_report.specs.Books.{AreOf, Keep};
ghost use Rattle.live_report.specs.Following.{AreLeft, former_apart};

use crate::books::Books;
use crate::standing_lines::unflipped;
use change_history::Moves;
use grid_cells::{Cell, OutOfMemory};
use mapf_rules::Conflict;
use scene_edits::{Former, Scene};

impl Books {
    // The map becomes that of the scene, which has another state at no other cell than those.
    pub(crate) fn flip(self, cells: &[Cell], scene: &Scene) -> Result<Books, OutOfMemory>
        requires { (old : Chart) × (rows : Rows) × Keep scene.now.mode old rows self × (old.size ≡ scene.now.grid.size) × Covers cells.now old scene.now.grid }
        ensures kept { IfOk result (λ books. (old : Chart) (rows : Rows) → Keep scene.now.mode old rows self
            → old.size ≡ scene.now.grid.size → Covers cells.now old scene.now.grid → Keep scene.now.mode scene.now.grid rows books) }
        ensures fleet { IfOk result (λ books. books.fleet ≡ self.fleet) }
    {
        let (alloc, fleet, prices, lines) = self.into_parts();
        let lines = unflipped(lines, cells, &prices, scene.grid());
        let Ok(prices) = prices.flip(alloc, cells, &fleet, scene.grid()) else {
            drop(fleet);
            drop(lines);
            return Err(OutOfMemory);
        };
        Ok(Books {
            alloc,
            fleet,
            prices,
            lines,
        })
    }

    // The agents that are listed get the rows that they have in the scene. Notes the entries that come and go.
    pub(crate) fn catch_up(
        self,
        formers: &[Former<'_>],
        scene: &Scene,
        moves: &mut Moves<Conflict>,
    ) -> Result<Books, OutOfMemory>
        requires { (rows : Rows) × Keep scene.now.mode scene.now.grid rows self × AreLeft rows (row_of scene.now.rows) formers.now }
        ensures kept { IfOk result (AreOf scene.now) }
        ensures touched { IfOk result (λ books. books.fleet.index.touched
            ≡ min (self.fleet.index.touched + sum_by (former_apart scene.now.mode scene.now.rows) formers.now) u64.MAX) }
        ensures follows { IfOk result (λ books. Follows self.fleet.conflicts books.fleet.conflicts moves.old moves.new) }
    {
        let _touched = self.fleet.touched();
        let mut books = self;
        for former in formers {
            match books.change(former, scene, moves) {
                Ok(changed) => books = changed,
                Err(refused) => return Err(refused),
            }
        }
        Ok(books)
    }
}
