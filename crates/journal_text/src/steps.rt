//! Where a line of a journal leads.
ghost use Rattle.std.specs.Prelude.{◌≡◌, [], ◌∷◌, ◌++◌, IfOk};
ghost use Rattle.journal_text.specs.Begun.{fresh, IsBegun};
ghost use Rattle.journal_text.specs.Places.{settled, IsPlace, LeadsTo};

use crate::headings::{start, versioned};
use crate::lines::{edit_of, head_of, thing_of};
use crate::places::{Begun, Head, Heading, Place};
use crate::spelling::is_end;
use desk_commits::{Commit, MOST_ENTRIES};
use grid_cells::{List, OutOfMemory};
use std::alloc::Global;

// The list, and one more item.
fn pushed<T: Drop>(list: List<T>, item: T) -> Result<List<T>, OutOfMemory>
    ensures { IfOk result (λ longer. longer ≡ list ++ item ∷ []) }
{
    let mut items = list.into_items();
    items.push(item)?;
    Ok(List::new(items))
}

// Inside the entry, or behind it where it lacks nothing.
fn settled(heading: Heading, entries: List<Commit>, entry: Begun) -> Result<Place, OutOfMemory>
    requires { IsBegun entry }
    ensures { IfOk result (λ place. place ≡ settled heading entries entry) }
{
    if entry.watch.items().len() < entry.head.watches
        || entry.edits.items().len() < entry.head.edits
    {
        return Ok(Place::Inside {
            heading,
            entries,
            entry,
        });
    }
    let Begun { head, watch, edits } = entry;
    let made = Commit::new(
        head.planner,
        head.base,
        watch.into_items(),
        edits.into_items(),
    );
    let commit = match made {
        Ok(commit) => commit,
        Err(_) => unreachable!(),
    };
    let entries = pushed(entries, commit)?;
    Ok(Place::Between { heading, entries })
}

// An entry of which no watch and no edit is read.
fn fresh(alloc: Global, head: Head) -> Begun
    ensures { result ≡ fresh head }
{
    Begun {
        head,
        watch: List::new(Vec::new(alloc)),
        edits: List::new(Vec::new(alloc)),
    }
}

// From between two entries.
fn between(
    alloc: Global,
    heading: Heading,
    entries: List<Commit>,
    line: &[u8],
) -> Result<Option<Place>, OutOfMemory>
    requires { IsPlace (Place.Between heading entries) }
    ensures { IfOk result (LeadsTo (Place.Between heading entries) line.now) }
{
    let count = entries.items().len();
    if is_end(line, count) {
        return Ok(Some(Place::Over { heading, entries }));
    }
    if count >= MOST_ENTRIES as usize {
        return Ok(None);
    }
    match head_of(alloc, line)? {
        Some(head) => {
            let entry = fresh(alloc, head);
            Ok(Some(settled(heading, entries, entry)?))
        }
        None => Ok(None),
    }
}

// From inside an entry: one more watch, or one more edit.
fn inside(
    alloc: Global,
    heading: Heading,
    entries: List<Commit>,
    entry: Begun,
    line: &[u8],
) -> Result<Option<Place>, OutOfMemory>
    requires { IsPlace (Place.Inside heading entries entry) }
    ensures { IfOk result (LeadsTo (Place.Inside heading entries entry) line.now) }
{
    let Begun { head, watch, edits } = entry;
    if watch.items().len() < head.watches {
        let Some(thing) = thing_of(alloc, line)? else {
            return Ok(None);
        };
        let watch = pushed(watch, thing)?;
        return Ok(Some(settled(heading, entries, Begun { head, watch, edits })?));
    }
    let Some(edit) = edit_of(alloc, line)? else {
        return Ok(None);
    };
    let edits = pushed(edits, edit)?;
    Ok(Some(settled(heading, entries, Begun { head, watch, edits })?))
}

/// Where the line leads, if it fits.
pub(crate) fn next(alloc: Global, place: Place, line: &[u8]) -> Result<Option<Place>, OutOfMemory>
    requires { IsPlace place }
    ensures { IfOk result (LeadsTo place line.now) }
{
    match place {
        Place::Start => Ok(start(alloc, line)),
        Place::Versioned => Ok(versioned(alloc, line)),
        Place::Between { heading, entries } => between(alloc, heading, entries, line),
        Place::Inside {
            heading,
            entries,
            entry,
        } => inside(alloc, heading, entries, entry, line),
        Place::Over { .. } => Ok(None),
    }
}
