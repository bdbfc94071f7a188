//! Watches and edits that are kept, and commits that are made.
ghost use Rattle.std.specs.Prelude.{◌≡◌, ◌⊎◌, ◌<◌, ◌≤◌, [], ◌∷◌, ◌++◌, length};
ghost use Rattle.session_protocol.specs.Table.{FindsNoMemory, KeepsWatch, KeepsEdit, Commits, CommitsAlone, TriesOut};
ghost use Rattle.session_protocol.specs.Tellings.{after_commit};

use crate::drafts::{Gathered, Session};
use crate::replies::{BadLine, Reply};
use desk_commits::{Commit, MOST_EDITS, MOST_WATCHES};
use desk_core::{Counter, Trying};
use grid_cells::List;
use scene_edits::{Edit, Thing};
use std::alloc::Global;

// One more item of a list that has at most that many.
fn keep<T: Drop>(number: u32, list: List<T>, most: usize, item: T) -> (Reply, List<T>)
    requires { length list ≤ most }
    ensures { ((length list < most) × (result.0 ≡ Reply.Kept) × (result.1 ≡ list ++ item ∷ []))
        ⊎ ((length list ≡ most) × (result.0 ≡ Reply.Bad number BadLine.Full) × (result.1 ≡ list))
        ⊎ ((length list < most) × (result.0 ≡ Reply.NoMemory) × (result.1 ≡ list)) }
{
    let mut items = list.into_items();
    let reply = if items.len() < most {
        match items.push(item) {
            Ok(()) => Reply::Kept,
            Err(_) => Reply::NoMemory,
        }
    } else {
        Reply::Bad {
            line: number,
            why: BadLine::Full,
        }
    };
    (reply, List::new(items))
}

// One more watch.
pub(crate) fn keep_watch(number: u32, gathered: Gathered, thing: Thing) -> (Reply, Session)
    ensures { KeepsWatch number gathered thing result.0 result.1
        ⊎ ((length gathered.watch < MOST_WATCHES) × (result.0 ≡ Reply.NoMemory) × (result.1 ≡ Session.Gathering gathered)) }
{
    let Gathered { base, watch, edits } = gathered;
    let (reply, watch) = keep(number, watch, MOST_WATCHES, thing);
    (reply, Session::Gathering(Gathered { base, watch, edits }))
}

// One more edit.
pub(crate) fn keep_edit(number: u32, gathered: Gathered, edit: Edit) -> (Reply, Session)
    ensures { KeepsEdit number gathered edit result.0 result.1
        ⊎ ((length gathered.edits < MOST_EDITS) × (result.0 ≡ Reply.NoMemory) × (result.1 ≡ Session.Gathering gathered)) }
{
    let Gathered { base, watch, edits } = gathered;
    let (reply, edits) = keep(number, edits, MOST_EDITS, edit);
    (reply, Session::Gathering(Gathered { base, watch, edits }))
}

// The commit of what was gathered.
pub(crate) fn commit<C: Counter>(counter: &mut C, gathered: Gathered) -> (Reply, Session)
    ensures { Commits C.counting counter.old gathered (after_commit gathered) result.0 result.1 counter.new }
{
    let Gathered { base, watch, edits } = gathered;
    let planner = counter.planner();
    let Ok(commit) = Commit::new(planner, base, watch.into_items(), edits.into_items()) else {
        unreachable!()
    };
    match counter.commit(commit) {
        Ok(version) => (Reply::Version(version), Session::Idle),
        Err((refusal, back)) => {
            let (watch, edits) = back.into_parts();
            let gathered = Gathered {
                base,
                watch: List::new(watch),
                edits: List::new(edits),
            };
            (Reply::Refused(refusal), Session::Gathering(gathered))
        }
    }
}

// What the commit of what was gathered would be answered, and would change.
pub(crate) fn try_out<C: Counter>(counter: &mut C, gathered: Gathered) -> (Reply, Session)
    ensures tried { TriesOut C.counting counter.old gathered result.0 counter.new }
    ensures kept { result.1 ≡ Session.Gathering gathered }
{
    let Gathered { base, watch, edits } = gathered;
    let planner = counter.planner();
    let Ok(commit) = Commit::new(planner, base, watch.into_items(), edits.into_items()) else {
        unreachable!()
    };
    let trying = Trying { commit };
    let reply = match counter.ask(&trying) {
        Ok((version, changes)) => Reply::Would(version, changes),
        Err(refusal) => Reply::Refused(refusal),
    };
    let Trying { commit } = trying;
    let (watch, edits) = commit.into_parts();
    let gathered = Gathered {
        base,
        watch: List::new(watch),
        edits: List::new(edits),
    };
    (reply, Session::Gathering(gathered))
}

// The commit of one edit.
pub(crate) fn commit_alone<C: Counter>(alloc: Global, counter: &mut C, edit: Edit) -> Reply
    ensures { CommitsAlone C.counting counter.old edit result Session.Idle counter.new ⊎ ((result ≡ Reply.NoMemory) × (counter.new ≡ counter.old)) }
{
    let mut edits = Vec::new(alloc);
    if let Err(_refused) = edits.push(edit) {
        return Reply::NoMemory;
    }
    let base = counter.version();
    let planner = counter.planner();
    let Ok(commit) = Commit::new(planner, base, Vec::new(alloc), edits) else {
        unreachable!()
    };
    match counter.commit(commit) {
        Ok(version) => Reply::Version(version),
        Err((refusal, _back)) => Reply::Refused(refusal),
    }
}
