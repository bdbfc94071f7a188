//! How a pass is split in two, and joined with another.
ghost use Rattle.std.specs.Prelude.{◌≡◌, IfOk, IfErr};
ghost use Rattle.desk_shared.specs.Passes.{Owns};
ghost use Rattle.desk_shared.specs.declared.faults.SplitFault.TheVariants.{PassesFull};
ghost use Rattle.desk_shared.specs.Calls.{KeepsNone, IsSplit, IsJoinOf};

use super::SharedDesk;
use crate::faults::SplitFault;
use crate::numbers::{least, merge};
use crate::passes::Pass;
use crate::plays::{Aside, Compare, Give, Merge};

impl SharedDesk {
    /// A new pass, with the least number that this pass keeps. It has seen what this one has.
    ///
    /// # Errors
    ///
    /// The pass keeps no number, and stays as it was.
    pub fn split(&self, pass: &mut Pass) -> Result<Pass, SplitFault>
        requires owned { Owns self.now pass.old }
        ensures owned { Owns self.now pass.new }
        ensures owns_other { IfOk result (λ other. Owns self.now other) }
        ensures split { IfOk result (λ other. IsSplit pass.old.known pass.new.known other.known) }
        ensures fault { IfErr result (λ fault. KeepsNone pass.old.known × (fault ≡ PassesFull self.now.planners)) }
        ensures same { IfErr result (λ fault. pass.new ≡ pass.old) }
    {
        let Some(planner) = least(&pass.unused) else {
            return Err(SplitFault::PassesFull {
                planners: self.planners,
            });
        };
        let top = &self.table.shared;
        top.load::<Aside>(&mut pass.place, 0);
        let place = top.split_seat::<Give>(&mut pass.place);
        pass.unused[planner.number() as usize] = false;
        Ok(Pass {
            place,
            planner,
            unused: [false; 256],
        })
    }

    /// Joins the other pass into this one, which has then seen what both have, and keeps the unused
    /// numbers of both. The other's own number isn't given again.
    pub fn join(&self, pass: &mut Pass, other: Pass)
        requires owned { Owns self.now pass.old }
        requires owns_other { Owns self.now other }
        ensures owned { Owns self.now pass.new }
        ensures joined { IsJoinOf pass.old.known other.known pass.new.known }
    {
        let Pass { place, unused, .. } = other;
        let top = &self.table.shared;
        top.join_seat::<Merge>(&mut pass.place, place);
        top.load::<Compare>(&mut pass.place, 0);
        merge(&mut pass.unused, &unused);
    }
}
