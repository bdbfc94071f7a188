//! A log of entries that outlives a crash: behind each entry stands its commit line, with a check of
//! all before it. An entry's text is whole lines; what they say is not known here.
#![tactic(auto)]

mod checks;
mod heads;
mod laws;
mod logs;
mod memory;
mod reading;
mod writing;

pub use checks::{Check, check_of, commit_line};
pub use heads::{Head, SceneDigest, head_text, read_head, scene_digest};
pub use laws::{cuts_leave_whole_entries, one_list_of_entries};
pub use logs::{Log, LogFailed};
pub use memory::MemoryLog;
pub use reading::{ReadFault, Sealed, next_entry};
pub use writing::LogWriter;
