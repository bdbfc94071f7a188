ghost use Rattle.std.specs.Prelude.{◌≡◌, ◌==◌, ◌+◌, ◌^◌, ◌<◌, ◌≤◌, IfOk, length, not, if◌then◌else◌};
ghost use Rattle.bench_reader.specs.Lines.{lines_of};
ghost use Rattle.scene_edits.specs.declared.scenes.TheConstants.{MOST_AGENTS};
ghost use Rattle.path_files.specs.Answers.{IsRead};
ghost use Rattle.path_files.specs.Columns.{behind_byte, behind_head, column_in, column_told, kept_byte, kept_of, names_plans};
ghost use Rattle.path_files.specs.Moves.{by_rows};
ghost use Rattle.path_files.specs.Lines.{written_from};
ghost use Rattle.path_files.specs.Texts.{by_moves};

use crate::faults::PathsFault;
use crate::forms::Form;
use crate::lines::{next_written, trimmed};
use crate::moves::by_rows;
use crate::paths::SolverPaths;
use grid_cells::List;
use session_lines::is_word;
use std::alloc::Global;

/// Where a text of comma-separated values is: in which field of a record, whether in quotes, and whether
/// behind one that closed them.
#[derive(Clone, Copy)]
pub(crate) struct Place {
    pub(crate) field: usize,
    pub(crate) quoted: bool,
    pub(crate) closed: bool,
}

// Whether the field names the column of plans.
fn names_plans(field: &[u8]) -> bool
    ensures { result ≡ names_plans field.now }
{
    let name = trimmed(field);
    is_word(name, b"solution_plan") || is_word(name, b"\"solution_plan\"")
}

// Whether a line goes on in quotes behind that byte.
fn stays_quoted(quoted: bool, byte: u8) -> bool
    ensures { result ≡ (if byte == 34 then not quoted else quoted) }
{
    if byte == b'"' { !quoted } else { quoted }
}

/// The column of plans in a head line.
pub(crate) fn column_in(line: &[u8]) -> Option<usize>
    ensures { result ≡ column_in line.now }
{
    let mut column = 0;
    let mut front = 0;
    let mut quoted = false;
    for (at, byte) in line.iter().enumerate() {
        if *byte == b',' && !quoted {
            if names_plans(&line[front..at]) {
                return Some(column);
            }
            column += 1;
            front = at + 1;
        } else {
            quoted = stays_quoted(quoted, *byte);
        }
    }
    if names_plans(&line[front..]) {
        Some(column)
    } else {
        None
    }
}

// The field of a record behind that byte, outside quotes.
fn field_behind(field: usize, byte: u8) -> usize
    requires { field + 1 < 2 ^ 64 }
    ensures { result ≡ (if byte == 44 then field + 1 else if byte == 10 then 0 else field) }
{
    if byte == b',' {
        field + 1
    } else if byte == b'\n' {
        0
    } else {
        field
    }
}

// Where the text is behind that byte.
fn behind_byte(place: Place, byte: u8) -> Place
    requires { place.field + 1 < 2 ^ 64 }
    ensures is { result ≡ behind_byte place byte }
    ensures near { result.field ≤ place.field + 1 }
{
    let Place { field, quoted, .. } = place;
    if byte == b'"' {
        return Place {
            field,
            quoted: !quoted,
            closed: quoted,
        };
    }
    if quoted {
        return place;
    }
    Place {
        field: field_behind(field, byte),
        quoted,
        closed: false,
    }
}

// What is kept of the byte there, for that column.
fn kept_byte(column: usize, place: Place, byte: u8) -> u8
    ensures { result ≡ kept_byte column place byte }
{
    if byte == b'\n' {
        byte
    } else if byte == b'"' && !place.closed {
        b' '
    } else if byte == b',' && !place.quoted {
        b' '
    } else if place.field == column {
        byte
    } else {
        b' '
    }
}

// What is kept of a text, for that column.
fn kept_of(alloc: Global, column: usize, text: &[u8]) -> Result<List<u8>, PathsFault>
    ensures { IsRead (kept_of column text.now) result }
{
    let mut kept = Vec::new(alloc);
    let mut place = Place {
        field: 0,
        quoted: false,
        closed: false,
    };
    for byte in text {
        kept.push(kept_byte(column, place, *byte))
            .map_err(|_| PathsFault::OutOfMemory)?;
        place = behind_byte(place, *byte);
    }
    if place.quoted {
        return Err(PathsFault::OpenQuote);
    }
    Ok(List::new(kept))
}

// The column of plans that the first line of a text tells.
fn column_told(text: &[u8]) -> Option<usize>
    ensures { result ≡ column_told (written_from 1 (lines_of text.now)) }
{
    let (_, head, _) = next_written(text, 1)?;
    column_in(head)
}

// What the rows behind the first line spell.
fn behind_head(alloc: Global, form: Form, text: &[u8]) -> Result<SolverPaths, PathsFault>
    ensures is { IsRead (by_rows form (behind_head (written_from 1 (lines_of text.now)))) result }
    ensures few { IfOk result (λ spelled. length spelled.paths ≤ MOST_AGENTS) }
{
    match next_written(text, 1) {
        Some((line, _, below)) => by_rows(alloc, form, below, line + 1),
        None => by_rows(alloc, form, b"", 1),
    }
}

/// The paths of a text by moves: of rows, or where its first line names a column of plans, of the
/// rows in that.
///
/// # Errors
/// `OpenQuote`, or the first fault of the rows; or want of memory.
pub(crate) fn read_moves(alloc: Global, form: Form, text: &[u8]) -> Result<SolverPaths, PathsFault>
    ensures is { IsRead (by_moves form text.now) result }
    ensures few { IfOk result (λ spelled. length spelled.paths ≤ MOST_AGENTS) }
{
    let Some(column) = column_told(text) else {
        return by_rows(alloc, form, text, 1);
    };
    let kept = kept_of(alloc, column, text)?;
    let read = behind_head(alloc, form, kept.items());
    drop(kept);
    read
}
