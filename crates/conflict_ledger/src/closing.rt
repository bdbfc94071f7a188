ghost use Rattle.std.specs.Prelude.{◌≡◌, ℕ, ◌<◌, List, IfSome, IsTrue};
ghost use Rattle.std.specs.Option.{option_map};
ghost use Rattle.grid_cells.specs.Cell.{Point};
ghost use Rattle.plan_table.specs.Path.{IsPath};
ghost use Rattle.plan_table.specs.Route.{Fleet, route_of};
ghost use Rattle.where_index.specs.Flows.{leads};
ghost use Rattle.where_index.specs.Asked.{Goes};
ghost use Rattle.mapf_rules.specs.Cycles.{IsRing};
ghost use Rattle.conflict_ledger.specs.Sight.{Sees, TakesStep, own_route};

use crate::sight::Sight;
use grid_cells::Step;
use where_index::Way;

impl Sight<'_> {
    // Whether the agent itself moves that way in the step.
    fn own_goes(&self, time: u32, way: Way) -> bool
        requires { time < u32.MAX }
        ensures { (from to : Point) → TakesStep (own_route self.now) time from to → result ≡ leads way from to }
    {
        let Some(from) = self.own(time) else {
            return false;
        };
        let Some(to) = self.own(time + 1) else {
            return false;
        };
        way.leads(from, to)
    }

    // Whether an agent moves that way in the step, on the agent's own track or on one that the index
    // has.
    fn may_go(&self, time: u32, way: Way) -> bool
        requires { time < u32.MAX }
        ensures { (fleet : Fleet) → Sees self.now fleet → Goes fleet time way → IsTrue result }
    {
        self.index.goes(Step::new(time), way) || self.own_goes(time, way)
    }

    // The agent's own track is along a path.
    fn own_is_path(&self)
        ensures { IfSome self.now.shown (λ track. IsPath track.plan.now) }
    {
        if let Some(track) = &self.shown {
            let _last = track.plan.last();
        }
    }

    // Whether the step can have a ring. Each goes all four ways: it comes back on each way that it
    // goes, and not by the way that it went, since it has three agents at least.
    pub(crate) fn may_have_ring(&self, time: u32) -> bool
        requires { time < u32.MAX }
        ensures { (fleet : Fleet) (ring : List ℕ) → Sees self.now fleet → IsRing fleet time ring → IsTrue result }
    {
        self.own_is_path();
        self.may_go(time, Way::Up)
            && self.may_go(time, Way::Left)
            && self.may_go(time, Way::Right)
            && self.may_go(time, Way::Down)
    }
}
