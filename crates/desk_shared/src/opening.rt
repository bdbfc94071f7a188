ghost use Rattle.std.specs.Prelude.{◌≡◌, IfOk};
ghost use Rattle.desk_shared.specs.Passes.{Owns};
ghost use Rattle.desk_shared.specs.Calls.{MayShare, IsFirst};

use crate::passes::Pass;
use crate::sharing::SharedDesk;
use desk_core::Desk;
use grid_cells::OutOfMemory;
use std::alloc::Global;

impl SharedDesk {
    /// Shares the desk with so many planners, as `open` does where they are 1 to MOST_PLANNERS.
    ///
    /// # Errors
    ///
    /// Want of memory: the desk is gone then.
    pub fn share(
        alloc: Global,
        desk: Desk,
        planners: u32,
    ) -> Result<(SharedDesk, Pass), OutOfMemory>
        requires { MayShare planners }
        ensures shared { IfOk result (λ shared. shared.0.planners ≡ planners) }
        ensures owned { IfOk result (λ shared. Owns shared.0 shared.1) }
        ensures first { IfOk result (λ shared. IsFirst desk planners shared.1.known) }
    {
        match SharedDesk::open(alloc, desk, planners) {
            Ok(shared) => Ok(shared),
            Err((_, desk)) => {
                drop(desk);
                Err(OutOfMemory)
            }
        }
    }
}
