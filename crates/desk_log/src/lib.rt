//! The log of a desk: its accepted commits as they stand in a log, each before it is answered.
//!
//! `reading` reads a log as the journal that its entries make, `heads` looks at its head and `tears`
//! at what stands behind the last whole entry; `entries` knows an entry that is spelled as it is written
//! by its `edits` and `numbers`, at little cost; `keeping` keeps a desk's entries in a log, into which `putting` puts
//! them, and `headed` keeps those of a session.
#![tactic(auto)]

mod edits;
mod entries;
mod faults;
mod headed;
mod heads;
mod keeping;
mod numbers;
mod putting;
mod reading;
mod tears;

pub use faults::LogFault;
pub use headed::{HasHead, HeadedKeeper};
pub use heads::{is_log, is_torn_head};
pub use keeping::LogKeeper;
pub use reading::{LogRead, read_log};
