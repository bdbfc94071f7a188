//! Which commits are stale.
ghost use Rattle.std.specs.Prelude.{◌≡◌, ◌+◌, ◌<◌, ◌↔◌, IsTrue, Some, length, IfSome, IfNone, slice_get};
ghost use Rattle.desk_commits.specs.Entries.{thing_of, ChangesMap, NamesThing, EntryNames, things_of};
ghost use Rattle.std.specs.Option.{ForSome};
ghost use Rattle.desk_commits.specs.Stale.{IsFreshSince, IsLastNaming, IsStaleBy, IsFresh};
ghost use Rattle.desk_commits.specs.Stamps.{AreStamps};

use crate::commits::Commit;
use crate::stamps::Stamps;
use scene_edits::{Edit, Thing};

// The agent or the cell that the edit is about.
pub(crate) fn thing_named(edit: &Edit) -> Thing
    ensures { result ≡ thing_of edit.now }
{
    match edit {
        Edit::Add { agent, .. }
        | Edit::Drop { agent }
        | Edit::Goal { agent, .. }
        | Edit::Path { agent, .. }
        | Edit::Tail { agent, .. } => Thing::Agent(*agent),
        Edit::Open { cell } | Edit::Close { cell } => Thing::Cell(*cell),
    }
}

// Whether the edit is one of a cell.
fn changes_map(edit: &Edit) -> bool
    ensures { IsTrue result ↔ ChangesMap edit.now }
{
    matches!(edit, Edit::Open { .. } | Edit::Close { .. })
}

// Whether the edit names the thing.
fn names_thing(edit: &Edit, thing: &Thing) -> bool
    ensures { IsTrue result ↔ NamesThing thing.now edit.now }
{
    thing_named(edit) == *thing || (*thing == Thing::Map && changes_map(edit))
}

// Whether an edit of the entry names the thing.
fn names(entry: &Commit, thing: &Thing) -> bool
    ensures { IsTrue result ↔ EntryNames entry.now thing.now }
{
    entry.edits().iter().any(|edit| names_thing(edit, thing))
}

// The last entry after the version that names the thing.
fn last_naming(journal: &[Commit], base: u64, thing: &Thing) -> Option<u64>
    ensures last { IfSome result (IsLastNaming journal.now base thing.now) }
    ensures none { IfNone result (IsFreshSince journal.now base thing.now) }
{
    let mut number = journal.len();
    while number as u64 > base {
        if names(&journal[number - 1], thing) {
            return Some(number as u64);
        }
        number -= 1;
    }
    None
}

// The last entry after the version that names the thing: by its stamp, where the stamps stand.
fn last_named(journal: &[Commit], stamps: Option<&Stamps>, base: u64, thing: &Thing) -> Option<u64>
    requires { ForSome stamps (λ s. AreStamps s.now.size journal.now s.now) }
    ensures last { IfSome result (IsLastNaming journal.now base thing.now) }
    ensures none { IfNone result (IsFreshSince journal.now base thing.now) }
{
    let Some(stamps) = stamps else {
        return last_naming(journal, base, thing);
    };
    let number = stamps.stamp(thing);
    if number > base { Some(number) } else { None }
}

// The commit's thing of that rank, from 0.
fn thing_at(commit: &Commit, rank: usize) -> Thing
    requires { rank < length (things_of commit.now) }
    ensures { slice_get (things_of commit.now) rank ≡ Some result }
{
    let watch = commit.watch();
    if rank < watch.len() {
        watch[rank]
    } else {
        thing_named(&commit.edits()[rank - watch.len()])
    }
}

/// The first thing of the commit that an entry after its base names, and the last such entry.
pub fn first_stale(
    journal: &[Commit],
    stamps: Option<&Stamps>,
    commit: &Commit,
) -> Option<(Thing, u64)>
    requires { ForSome stamps (λ s. AreStamps s.now.size journal.now s.now) }
    ensures stale { IfSome result (λ found. IsStaleBy journal.now commit.now found.0 found.1) }
    ensures fresh { IfNone result (IsFresh journal.now commit.now) }
{
    for rank in 0..commit.watch().len() + commit.edits().len() {
        let thing = thing_at(commit, rank);
        if let Some(number) = last_named(journal, stamps, commit.base(), &thing) {
            return Some((thing, number));
        }
    }
    None
}
