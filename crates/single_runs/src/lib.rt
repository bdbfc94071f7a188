//! Runs over texts, each at a desk of its own: the desk that they open, a session, what is saved of it,
//! an audit, a picture and a page.
//!
//! Each word has a file: `serving` with `saving`, `auditing`, `drawing`, `paging`. `opening` opens the
//! desk of a scene that commits a journal.
#![tactic(auto)]

mod auditing;
mod courses;
mod drawing;
mod laws;
mod opening;
mod paging;
mod saving;
mod serving;

pub use auditing::run_audit;
pub use courses::Courses;
pub use drawing::run_draw;
pub use laws::saved_desks_come_back;
pub use opening::{open_desk, open_keeping};
pub use paging::run_page;
pub use saving::{DeskJournal, save_desk, save_journal};
pub use serving::{run_serve, serve_desk};
