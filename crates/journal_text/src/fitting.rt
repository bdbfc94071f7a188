//! Whether lines are those of one entry.
ghost use Rattle.std.specs.Prelude.{◌≡◌, ◌≢◌, ◌<◌, ℕ, List, [], IfOk, IsTrue, length, false};
ghost use Rattle.desk_commits.specs.Entries.{Entry};
ghost use Rattle.journal_text.specs.declared.places.Heading.{Heading};
ghost use Rattle.journal_text.specs.Fitting.{FitsSo, is_in_one};

use crate::lines::whole_line;
use crate::places::{Heading, Place};
use crate::steps::next;
use grid_cells::{List, OutOfMemory};
use std::alloc::Global;

/// How lines fit in an entry.
#[derive(Clone, Copy, Debug, PartialEq, Eq)]
pub enum Fit {
    /// They are the lines of an entry.
    Whole,
    /// They are the first lines of an entry, or there is none.
    Begun,
    /// The first line that doesn't fit, counted from 1: it has no line feed, or no entry has it after
    /// the lines before it.
    Bad { line: usize },
}

// Before an entry.
fn before(alloc: Global) -> Place
    ensures { result ≡ Place.Between Heading.First [] }
{
    Place::Between {
        heading: Heading::First,
        entries: List::new(Vec::new(alloc)),
    }
}

// Whether an entry is read.
fn is_behind(place: &Place) -> bool
    ensures { IsTrue result → (heading : Heading) × (entries : List Entry) × (place.now ≡ Place.Between heading entries) × (0 < length entries) }
{
    match place {
        Place::Between { entries, .. } => !entries.items().is_empty(),
        _ => false,
    }
}

// How that many lines fit that lead to that place, where nothing stands behind them.
fn fit_at(place: Place, lines: usize) -> Fit
    ensures whole { result ≡ Fit.Whole → (heading : Heading) × (entries : List Entry) × (place ≡ Place.Between heading entries) × (length entries ≡ 1) }
    ensures begun { result ≡ Fit.Begun → (heading : Heading) (entries : List Entry) → place ≡ Place.Between heading entries → length entries ≢ 1 }
    ensures bad { (line : ℕ) → result ≡ Fit.Bad line → is_in_one place ≡ false }
{
    match place {
        Place::Between { entries, .. } => match entries.items().len() {
            0 => Fit::Begun,
            1 => Fit::Whole,
            _ => Fit::Bad { line: lines },
        },
        Place::Inside { .. } => Fit::Begun,
        _ => Fit::Bad { line: lines },
    }
}

/// How the lines of a text fit in an entry.
///
/// # Errors
///
/// Want of memory.
pub fn fit_entry(alloc: Global, text: &[u8]) -> Result<Fit, OutOfMemory>
    ensures { IfOk result (FitsSo text.now) }
{
    let mut place = before(alloc);
    let mut rest = text;
    let mut read: usize = 0;
    'lines: while let Some((line, behind)) = whole_line(rest) {
        if is_behind(&place) {
            return Ok(Fit::Bad { line: read + 1 });
        }
        match next(alloc, place, line)? {
            Some(after) => place = after,
            None => return Ok(Fit::Bad { line: read + 1 }),
        }
        rest = behind;
        read += 1;
    }
    if rest.is_empty() {
        Ok(fit_at(place, read))
    } else {
        Ok(Fit::Bad { line: read + 1 })
    }
}
