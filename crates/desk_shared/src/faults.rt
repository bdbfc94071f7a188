use thiserror::Error;

/// The most planners of a shared desk.
pub const MOST_PLANNERS: u32 = 256;

/// Why a desk isn't shared.
#[derive(Clone, Copy, Debug, PartialEq, Eq, Error)]
pub enum ShareFault {
    /// The planners aren't 1 to MOST_PLANNERS.
    #[error("bad planners")]
    BadPlanners,
    #[error("out of memory")]
    OutOfMemory,
}

/// Why a pass isn't split.
#[derive(Clone, Copy, Debug, PartialEq, Eq, Error)]
pub enum SplitFault {
    /// The pass keeps no number to give away. The desk was shared for that many planners.
    #[error("passes full, {planners}")]
    PassesFull { planners: u32 },
}

/// The desk is lost, since the turn wasn't free.
#[derive(Clone, Copy, Debug, PartialEq, Eq, Error)]
#[error("pass lost")]
pub struct PassLost;
