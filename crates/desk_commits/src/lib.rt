//! Commits of edits, the journals that accepted ones make, what a desk answers, and which commits
//! are stale.
#![tactic(auto)]

mod answers;
mod changed;
mod commits;
mod copies;
mod journals;
mod laws;
mod limits;
mod stale;
mod stamps;

pub use answers::{Answer, AskFault, Call, Reading, Refusal, Snapshot};
pub use changed::SinceFault;
pub use commits::{Commit, CommitFault, MOST_EDITS, MOST_WATCHES};
pub use journals::{Journal, ReplayFault};
pub use laws::{
    entries_make_the_scene, legal_journals_replay, limits_of_commits, one_answer_to_a_commit,
    runs_are_legal,
};
pub use limits::{Limit, MOST_ENTRIES};
pub use stale::first_stale;
pub use stamps::{Stamps, with_entry};
