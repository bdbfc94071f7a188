//! A file that is replaced as a whole: whoever opens it finds the bytes from before or the new ones,
//! also where the process is killed or the machine stops in between.
#![tactic(auto)]

mod documents;
mod elsewhere;
mod holding;
mod memory;
mod named_files;
mod naming;
mod saves;
mod system;
mod system_temporary;
mod temporary_files;

pub use documents::Document;
pub use holding::{HoldError, hold};
pub use memory::{Call, MemoryFile, MemoryTemporary};
pub use named_files::NamedFile;
pub use saves::{SaveError, save};
pub use system::SystemFile;
pub use system_temporary::SystemTemporary;
pub use temporary_files::{FileFailed, TemporaryFile};
