//! Sources and sinks of bytes, and those that stand on std's readers and writers.
mod sink;
mod source;
mod spout;
mod tap;

pub use sink::{Sink, WriteFailed, put_all};
pub use source::{ReadFailed, Source};
pub use spout::Spout;
pub use tap::Tap;
