//! The desk: its scene, its journal of accepted commits, and what is asked of it. What a session puts
//! its questions to is a `Counter`.
//!
//! Stamps, books and the history are optional parts of `Desk`, and not of what contracts see of it.
//! `specs/Kept.antt` is the invariant that says what they are where they stand. A call takes a part
//! out, uses it, and puts it back (`keeping`). A commit applies its edits (`src/accepting.rt`), and the
//! books then follow the changes: where they find no memory the commit stands all the same, and the next
//! call that needs books makes them anew. Where a history is to be kept they also report what the commit
//! changes in the report, which the history takes in (`recording`): `asking/changes` answers by it what
//! changed since a version. A trial (`asking/trials`) makes its edits, asks, and takes them back; the
//! books follow both ways, and the history stands aside. What a commit would change (`asking/trying`) is
//! asked so, by a history of its own. `stale` of `desk_commits` decides by the `stamps`, `asking` has the
//! questions as types, `questions` asks the books, `driving` has runs of calls, `replaying` journals.
//! What a commit and a journal are, and when one is stale, is in `desk_commits`.
#![tactic(auto)]

mod accepting;
mod asking;
mod counters;
mod counting;
mod desks;
mod driving;
mod keeping;
mod questions;
mod recording;
mod replaying;

pub use asking::{
    Changing, Copying, Cutting, Distance, Planning, Probing, Question, Showing, Solving, Standing,
    Trial, Trying,
};
pub use counters::{Awaits, Counter};
pub use desk_commits::{
    Answer, AskFault, Call, Commit, CommitFault, Journal, Limit, MOST_EDITS, MOST_ENTRIES,
    MOST_WATCHES, Reading, Refusal, ReplayFault, SinceFault, Snapshot, entries_make_the_scene,
    legal_journals_replay, limits_of_commits, one_answer_to_a_commit, runs_are_legal,
};
pub use desks::Desk;
pub use driving::drive;
pub use mapf_rules::{Conflict, Kind, Ring, Visit};
pub use replaying::replay;
pub use scene_edits::{ApplyFault, Change, Edit, EditFault, EditsFault, Scene, Thing};
