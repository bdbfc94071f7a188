use thiserror::Error;

/// Why a text is no journal. Lines count from 1.
#[derive(Clone, Copy, Debug, PartialEq, Eq, Error)]
pub enum JournalFault {
    /// The first line that doesn't fit in its place: it is missing, or it has no line feed, or no
    /// journal's text has it after the lines before it.
    #[error("bad line {line}")]
    BadLine { line: usize },
    #[error("out of memory")]
    OutOfMemory,
}
