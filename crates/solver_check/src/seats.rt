ghost use Rattle.std.specs.Prelude.{◌≡◌, false, true};
ghost use Rattle.solver_check.specs.Seats.{Sits, StopsKeeping};

use desk_core::Awaits;
use session_protocol::{Keeper, ServeFault};
use std::alloc::Global;
use std::io;
use std::sync::Wait;
use thiserror::Error;

/// Why a planner's session did not come to the end of its input.
#[derive(Clone, Copy, Debug, Drop, Error)]
pub enum SeatFault {
    /// Its thread could not be started. Nothing was heard.
    #[error("no thread")]
    NoThread,
    /// It did not come in time. Nothing was heard.
    #[error("never came")]
    NeverCame,
    /// Its input could not be opened, for the system's reason. Nothing was heard.
    #[error("can't open its input: {0}")]
    NoInput(io::Error),
    /// Its output could not be opened, for the system's reason. Nothing was heard.
    #[error("can't open its output: {0}")]
    NoOutput(io::Error),
    /// There was no memory to seat it. Nothing was heard.
    #[error("out of memory")]
    OutOfMemory,
    /// A line of its session was too long. The lines complete by then were answered.
    #[error("line too long")]
    LineTooLong,
    /// Its session ended before its input did, for the system's reason where there is one.
    #[error("{0}")]
    Session(ServeFault, Option<io::Error>),
    /// The last answers could not be sent, for the system's reason.
    #[error("write failed: {0}")]
    Unsent(io::Error),
}

/// Why planners weren't hosted to their end.
#[derive(Clone, Copy, Debug, PartialEq, Eq, Error)]
pub enum HostFault {
    #[error("too many planners")]
    TooManyPlanners,
    /// The shared desk did not come back at its end.
    #[error("pass lost")]
    PassLost,
    #[error("out of memory")]
    OutOfMemory,
}

/// How many lines a planner's session had, or its fault.
pub type Outcome = Result<u32, SeatFault>;

/// What seats planners: it lets each in, and serves it to the end of its input.
pub trait Seats: Sync {
    ghost use Rattle.std.specs.Prelude.{ℕ};
    ghost use Rattle.solver_check.specs.Inputs.{Input};

    /// What the planner of each number writes, and in which version of lines.
    ghost inputs: { Self → ℕ → Input };

    /// Lets the planner of that number in, and serves it to the end of its input. What a line did is kept
    /// before it is answered.
    ///
    /// # Errors
    ///
    /// It could not be let in, and nothing was heard; or its session's fault.
    fn seat<R: Wait, C: Awaits, K: Keeper<C>>(
        &self,
        rt: &R,
        alloc: Global,
        number: u32,
        counter: &mut C,
        keeper: &mut K,
    ) -> Outcome
        requires sound { K.has_failed keeper.old ≡ false }
        ensures sat { Sits C.counting (inputs self.now number) counter.old counter.new result }
        ensures kept { K.has_failed keeper.new ≡ false → K.keeps keeper.old counter.old → K.keeps keeper.new counter.new }
        ensures unkept { K.has_failed keeper.new ≡ true → StopsKeeping C.counting (inputs self.now number) counter.old counter.new
            (λ told. K.keeps keeper.old counter.old → K.keeps_some keeper.new told counter.new) };

    /// No thread starts for the planner of that number: it isn't let in, and nothing is heard.
    fn miss<R: Wait>(&self, rt: &R, number: u32);
}
