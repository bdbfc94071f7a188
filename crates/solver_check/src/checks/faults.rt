ghost use Rattle.std.specs.Prelude.{◌≡◌};
ghost use Rattle.solver_check.specs.CheckFaults.{of_run};

use crate::faults::RunFault;
use grid_cells::Agent;
use path_files::PathsFault;
use scene_edits::EditFault;
use session_protocol::fault_word;
use thiserror::Error;

/// Why there is no verdict on a text of paths, or no picture.
#[derive(Clone, Copy, Debug, Error)]
pub enum CheckFault {
    /// The text spells no paths.
    #[error("paths: {0}")]
    Paths(PathsFault),
    /// The map and the tasks make no scene.
    #[error("{0}")]
    Run(RunFault),
    /// The agent isn't taken, with the start and the goal that the text tells.
    #[error("paths: agent {}: {}", .agent.number(), fault_word(*.why))]
    Agent {
        agent: Agent,
        why: EditFault,
    },
    /// The agent's path isn't taken; the time, in steps, is that of the first cell that is why.
    #[error("paths: agent {} at time {time}: {}", .agent.number(), fault_word(*.why))]
    Path {
        agent: Agent,
        time: usize,
        why: EditFault,
    },
    /// The verdict or the picture could not be written.
    #[error("write failed")]
    WriteFailed,
    #[error("out of memory")]
    OutOfMemory,
}

impl From<RunFault> for CheckFault {
    ghost from_gives = { λ why fault. fault ≡ of_run why };

    fn from(fault: RunFault) -> CheckFault {
        match fault {
            RunFault::OutOfMemory => CheckFault::OutOfMemory,
            fault => CheckFault::Run(fault),
        }
    }
}
