ghost use Rattle.std.specs.Prelude.{◌≡◌};
ghost use Rattle.desk_log.specs.declared.faults.LogFault.TheVariants.{OutOfMemory};

use thiserror::Error;

/// Why a text is no log. Lines count from 1.
#[derive(Clone, Copy, Debug, PartialEq, Eq, Error)]
pub enum LogFault {
    /// The first line that doesn't fit: no log has it after the lines before it.
    #[error("bad line {line}")]
    BadLine { line: usize },
    #[error("out of memory")]
    OutOfMemory,
}

impl From<std::alloc::AllocError> for LogFault {
    ghost from_gives = { λ _ fault. fault ≡ OutOfMemory };

    fn from(_refused: std::alloc::AllocError) -> LogFault {
        LogFault::OutOfMemory
    }
}
