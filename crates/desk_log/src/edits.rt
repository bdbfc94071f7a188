//! The lines of watches and edits at the front of a text, spelled as they are written.
ghost use Rattle.std.specs.Prelude.{◌≡◌, ◌++◌, List, map, All, IfSome};
ghost use Rattle.grid_cells.specs.Cell.{Point};
ghost use Rattle.scene_edits.specs.declared.changes.Thing.{Thing};
ghost use Rattle.scene_edits.specs.declared.edits.Edit.{Edit};
ghost use Rattle.desk_report.specs.LineText.{line_text, cell_text};
ghost use Rattle.journal_text.specs.Lines.{watch_words, edit_words};
ghost use Rattle.journal_text.specs.Ranges.{IsCell, IsThing, IsEdit};
ghost use Rattle.desk_log.specs.Spaced.{spaced};

use crate::heads::behind;
use crate::numbers::{behind_byte, first_of, next_cell, next_number};
use grid_cells::MOST_AGENT;

// What stands behind cells, each behind a space.
fn behind_cells(text: &[u8]) -> Option<&[u8]>
    ensures { IfSome result (λ rest. (cells : List Point) × All IsCell cells × (text.now ≡ spaced (map cell_text cells) rest.now)) }
{
    let mut rest = text;
    'cells: while let Some(after) = next_cell(rest) {
        rest = after;
    }
    Some(rest)
}

// What stands behind a line that adds an agent.
fn behind_add(text: &[u8]) -> Option<&[u8]>
    ensures { IfSome result (λ rest. (edit : Edit) × IsEdit edit × (text.now ≡ line_text (edit_words edit) ++ rest.now)) }
{
    let name = behind(text, b"agent")?;
    let (agent, one) = next_number(name, u64::from(MOST_AGENT))?;
    let two = next_cell(one)?;
    let end = next_cell(two)?;
    let rest = behind_byte(end, b'\n')?;
    Some(rest)
}

// What stands behind a line that drops an agent.
fn behind_drop(text: &[u8]) -> Option<&[u8]>
    ensures { IfSome result (λ rest. (edit : Edit) × IsEdit edit × (text.now ≡ line_text (edit_words edit) ++ rest.now)) }
{
    let name = behind(text, b"drop")?;
    let (agent, end) = next_number(name, u64::from(MOST_AGENT))?;
    let rest = behind_byte(end, b'\n')?;
    Some(rest)
}

// What stands behind a line of another goal.
fn behind_goal(text: &[u8]) -> Option<&[u8]>
    ensures { IfSome result (λ rest. (edit : Edit) × IsEdit edit × (text.now ≡ line_text (edit_words edit) ++ rest.now)) }
{
    let name = behind(text, b"goal")?;
    let (agent, one) = next_number(name, u64::from(MOST_AGENT))?;
    let end = next_cell(one)?;
    let rest = behind_byte(end, b'\n')?;
    Some(rest)
}

// What stands behind a line of a path.
fn behind_path(text: &[u8]) -> Option<&[u8]>
    ensures { IfSome result (λ rest. (edit : Edit) × IsEdit edit × (text.now ≡ line_text (edit_words edit) ++ rest.now)) }
{
    let name = behind(text, b"path")?;
    let (agent, one) = next_number(name, u64::from(MOST_AGENT))?;
    let end = behind_cells(one)?;
    let rest = behind_byte(end, b'\n')?;
    Some(rest)
}

// What stands behind a line of a tail.
fn behind_tail(text: &[u8]) -> Option<&[u8]>
    ensures { IfSome result (λ rest. (edit : Edit) × IsEdit edit × (text.now ≡ line_text (edit_words edit) ++ rest.now)) }
{
    let name = behind(text, b"tail")?;
    let (agent, one) = next_number(name, u64::from(MOST_AGENT))?;
    let (from, two) = next_number(one, u64::from(u32::MAX))?;
    let end = behind_cells(two)?;
    let rest = behind_byte(end, b'\n')?;
    Some(rest)
}

// What stands behind a line that opens a cell.
fn behind_open(text: &[u8]) -> Option<&[u8]>
    ensures { IfSome result (λ rest. (edit : Edit) × IsEdit edit × (text.now ≡ line_text (edit_words edit) ++ rest.now)) }
{
    let name = behind(text, b"open")?;
    let end = next_cell(name)?;
    let rest = behind_byte(end, b'\n')?;
    Some(rest)
}

// What stands behind a line that closes a cell.
fn behind_close(text: &[u8]) -> Option<&[u8]>
    ensures { IfSome result (λ rest. (edit : Edit) × IsEdit edit × (text.now ≡ line_text (edit_words edit) ++ rest.now)) }
{
    let name = behind(text, b"close")?;
    let end = next_cell(name)?;
    let rest = behind_byte(end, b'\n')?;
    Some(rest)
}

/// What stands behind the line of an edit.
pub(crate) fn behind_edit(text: &[u8]) -> Option<&[u8]>
    ensures { IfSome result (λ rest. (edit : Edit) × IsEdit edit × (text.now ≡ line_text (edit_words edit) ++ rest.now)) }
{
    let (first, _) = first_of(text)?;
    match first {
        b'p' => behind_path(text),
        b't' => behind_tail(text),
        b'g' => behind_goal(text),
        b'o' => behind_open(text),
        b'c' => behind_close(text),
        b'a' => behind_add(text),
        _ => behind_drop(text),
    }
}

// What stands behind a line that watches an agent.
fn behind_watched_agent(text: &[u8]) -> Option<&[u8]>
    ensures { IfSome result (λ rest. (thing : Thing) × IsThing thing × (text.now ≡ line_text (watch_words thing) ++ rest.now)) }
{
    let name = behind(text, b"watch agent")?;
    let (agent, end) = next_number(name, u64::from(MOST_AGENT))?;
    let rest = behind_byte(end, b'\n')?;
    Some(rest)
}

// What stands behind a line that watches a cell.
fn behind_watched_cell(text: &[u8]) -> Option<&[u8]>
    ensures { IfSome result (λ rest. (thing : Thing) × IsThing thing × (text.now ≡ line_text (watch_words thing) ++ rest.now)) }
{
    let name = behind(text, b"watch cell")?;
    let end = next_cell(name)?;
    let rest = behind_byte(end, b'\n')?;
    Some(rest)
}

// What stands behind a line that watches the map.
fn behind_watched_map(text: &[u8]) -> Option<&[u8]>
    ensures { IfSome result (λ rest. (thing : Thing) × IsThing thing × (text.now ≡ line_text (watch_words thing) ++ rest.now)) }
{
    let name = behind(text, b"watch map")?;
    let rest = behind_byte(name, b'\n')?;
    Some(rest)
}

/// What stands behind the line of a watch.
pub(crate) fn behind_watch(text: &[u8]) -> Option<&[u8]>
    ensures { IfSome result (λ rest. (thing : Thing) × IsThing thing × (text.now ≡ line_text (watch_words thing) ++ rest.now)) }
{
    if let Some(rest) = behind_watched_agent(text) {
        return Some(rest);
    }
    if let Some(rest) = behind_watched_cell(text) {
        return Some(rest);
    }
    behind_watched_map(text)
}
