//! Whether a scene's plans solve, by the books.
ghost use Rattle.desk_report.specs.Solves.{IsVerdict};
ghost use Rattle.live_report.specs.Books.{AreOf};

use crate::books::Books;
use crate::judging::quick_solves;
use desk_report::Kinds;
use scene_edits::Scene;

impl Books {
    /// Whether the scene's plans solve by those kinds: what its report says, without its lists.
    pub fn solves(&self, scene: &Scene, kinds: Kinds) -> bool
        requires { AreOf scene.now self.now }
        ensures { IsVerdict scene.now.grid scene.now.mode scene.now.rows kinds result }
    {
        let _plans = scene.plans();
        quick_solves(
            self.fleet.entries(),
            self.prices.costs(),
            self.prices.fields(),
            kinds,
        )
    }
}
