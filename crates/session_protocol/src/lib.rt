//! Sessions of planners over bytes: lines in, answers out.
//!
//! `serving` is the loop over bytes, `dialogues` a session that is called line by line, `hearing` hears
//! the text of a map before it. `answers` finds the
//! reply to a request by way of a `Counter`, and where the session then is (`drafts`); `gathering`
//! keeps edits and watches, and makes commits of them; `keeping` is what keeps what a line did before
//! it is answered. `replies` are data, `writers` and `refusals` their texts.
#![tactic(auto)]

mod answers;
mod bounds;
mod dialogues;
mod drafts;
mod gathering;
mod hearing;
mod inquiries;
mod keeping;
mod listing;
mod refusals;
mod replies;
mod serving;
mod sessions;
mod waiting;
mod writers;

pub use bounds::{Bounds, ServeFault, StartFault};
pub use dialogues::Dialogue;
pub use hearing::hear_map;
pub use keeping::{KeepFailed, Keeper};
pub use refusals::{fault_word, put_refusal};
pub use session_lines::LinesVersion;
pub use sessions::{serve, serve_in, serve_kept};
pub use writers::{is_acceptance, put_report};
