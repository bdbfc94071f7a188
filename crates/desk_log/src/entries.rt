//! The text of an entry, spelled as it is written.
ghost use Rattle.std.specs.Prelude.{◌≡◌, ◌++◌, List, length, All, IfSome, IsTrue};
ghost use Rattle.std.specs.List.{flat_map};
ghost use Rattle.scene_edits.specs.declared.changes.Thing.{Thing};
ghost use Rattle.scene_edits.specs.declared.edits.Edit.{Edit};
ghost use Rattle.desk_report.specs.LineText.{line_text};
ghost use Rattle.desk_commits.specs.Entries.{Entry};
ghost use Rattle.journal_text.specs.Lines.{watch_words, edit_words, entry_lines, text_of};
ghost use Rattle.journal_text.specs.Ranges.{IsThing, IsEdit, IsEntry};
ghost use Rattle.journal_text.specs.Fitting.{IsEntryOf};

use crate::edits::{behind_edit, behind_watch};
use crate::heads::behind;
use crate::numbers::{behind_byte, next_number};
use desk_commits::{MOST_EDITS, MOST_WATCHES};
use grid_cells::MOST_PLANNER;

// What stands behind so many lines of watches.
fn behind_watches(text: &[u8], count: u64) -> Option<&[u8]>
    ensures { IfSome result (λ rest. (list : List Thing) × (length list ≡ count) × All IsThing list
        × (text.now ≡ flat_map (λ thing. line_text (watch_words thing)) list ++ rest.now)) }
{
    let mut rest = text;
    let mut left = count;
    'lines: while left > 0 {
        let after = behind_watch(rest)?;
        rest = after;
        left -= 1;
    }
    Some(rest)
}

// What stands behind so many lines of edits.
fn behind_edits(text: &[u8], count: u64) -> Option<&[u8]>
    ensures { IfSome result (λ rest. (list : List Edit) × (length list ≡ count) × All IsEdit list
        × (text.now ≡ flat_map (λ edit. line_text (edit_words edit)) list ++ rest.now)) }
{
    let mut rest = text;
    let mut left = count;
    'lines: while left > 0 {
        let after = behind_edit(rest)?;
        rest = after;
        left -= 1;
    }
    Some(rest)
}

// The end of a text that begins with an entry, behind that.
fn behind_entry(text: &[u8]) -> Option<&[u8]>
    ensures { IfSome result (λ rest. (entry : Entry) × IsEntry entry × (text.now ≡ text_of (entry_lines entry) ++ rest.now)) }
{
    let name = behind(text, b"entry")?;
    let (planner, one) = next_number(name, u64::from(MOST_PLANNER))?;
    let (base, two) = next_number(one, u64::MAX)?;
    let (watches, three) = next_number(two, MOST_WATCHES as u64)?;
    let (edits, end) = next_number(three, MOST_EDITS as u64)?;
    let lines = behind_byte(end, b'\n')?;
    let others = behind_watches(lines, watches)?;
    let rest = behind_edits(others, edits)?;
    Some(rest)
}

/// Whether the text is that of an entry, with numbers of not too many digits. To look is cheap.
#[tactic(auto, using(crate::proofs::Whole::whole_is))]
pub(crate) fn is_plain_entry(text: &[u8]) -> bool
    ensures { IsTrue result → (entry : Entry) × IsEntryOf text.now entry }
{
    match behind_entry(text) {
        Some(rest) => rest.is_empty(),
        None => false,
    }
}
