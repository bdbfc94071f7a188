use bench_reader::MapFault;
use thiserror::Error;

/// How much of a session is heard at most.
#[derive(Clone, Copy, Debug, PartialEq, Eq)]
pub struct Bounds {
    pub lines: u32,
    pub bytes: u64,
}

/// Why a session ended before its input did.
#[derive(Clone, Copy, Debug, PartialEq, Eq, Error)]
pub enum ServeFault {
    /// The input could not be read. The lines complete by then were answered.
    #[error("read failed")]
    ReadFailed,
    /// The output could not be written. The line whose answer failed had its effect.
    #[error("write failed")]
    WriteFailed,
    /// A byte came after as many lines as the bounds allow.
    #[error("too many lines")]
    TooManyLines,
    /// A byte came after as many bytes as the bounds allow.
    #[error("too many bytes")]
    TooManyBytes,
    /// There was no memory for the bytes of a line.
    #[error("out of memory")]
    OutOfMemory,
}

/// Why a session over a map did not begin, or ended before its input did.
#[derive(Clone, Copy, Debug, PartialEq, Eq, Error)]
pub enum StartFault {
    /// The first lines are no map.
    #[error("{0}")]
    Map(MapFault),
    #[error("{0}")]
    Serve(ServeFault),
}
