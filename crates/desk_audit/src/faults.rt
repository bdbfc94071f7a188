use thiserror::Error;

/// Why there is no report: the number of workers is not 1 to 64, or memory for a growth, or for the
/// start of a thread, was refused.
#[derive(Clone, Copy, Debug, PartialEq, Eq, Error)]
pub enum AuditFault {
    #[error("bad workers")]
    BadWorkers,
    #[error("out of memory")]
    OutOfMemory,
}
