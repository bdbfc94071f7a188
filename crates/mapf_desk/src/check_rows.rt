//! The line that a check of several files of paths has for each.
ghost use Rattle.std.specs.Prelude.{◌≡◌, ℕ, List, [], ◌∷◌, ◌++◌, IfOk, OnOk};
ghost use Rattle.std.specs.List.{filter, flat_map};
ghost use Rattle.bench_reader.specs.Lines.{lines_of};
ghost use Rattle.mapf_desk.specs.Rows.{answer_row, behind_comma, fault_row, is_fact, json_front, json_name, json_row, name_text, verdict_row};

use bench_reader::next_line;
use solver_check::letter_of;
use std::alloc::{AllocError, Global};

// Whether a line of a check stands in its row: not the version, the end and the answer.
fn is_fact(line: &[u8]) -> bool
    ensures { result ≡ is_fact line.now }
{
    line != b"version 0".as_slice() && line != b"end".as_slice() && !line.starts_with(b"solves ")
}

// Adds the file's name, as it is shown, and a colon.
fn add_name(row: &mut Vec<u8>, file: &str) -> Result<(), AllocError>
    ensures { OnOk result (row.new.items ≡ row.old.items ++ name_text file.now) }
{
    for byte in file.as_bytes() {
        row.push(letter_of(*byte) as u8)?;
    }
    row.extend_from_slice(b": ")
}

// Adds each line of a check's text that stands in its row, behind a comma.
fn add_facts(row: &mut Vec<u8>, text: &[u8]) -> Result<(), AllocError>
    ensures { OnOk result (row.new.items ≡ row.old.items ++ flat_map behind_comma (filter is_fact (lines_of text.now))) }
{
    let mut rest = text;
    while let Some((line, later)) = next_line(rest) {
        if is_fact(line) {
            row.extend_from_slice(b", ")?;
            row.extend_from_slice(line)?;
        }
        rest = later;
    }
    Ok(())
}

// The line of a file whose paths have that verdict, by the text of its check.
fn answer_row(alloc: Global, file: &str, solved: bool, text: &[u8]) -> Result<Vec<u8>, AllocError>
    ensures { IfOk result (λ row. row.items ≡ answer_row file.now solved text.now) }
{
    let mut row = Vec::new(alloc);
    add_name(&mut row, file)?;
    if solved {
        row.extend_from_slice(b"solves yes")?;
    } else {
        row.extend_from_slice(b"solves no")?;
    }
    add_facts(&mut row, text)?;
    row.push(b'\n')?;
    Ok(row)
}

// Adds a name as JSON has it between quotes.
fn add_json(row: &mut Vec<u8>, name: &str) -> Result<(), AllocError>
    ensures { OnOk result (row.new.items ≡ row.old.items ++ json_name name.now) }
{
    for byte in name.as_bytes() {
        let letter = letter_of(*byte) as u8;
        if letter == b'"' || letter == b'\\' {
            row.push(b'\\')?;
        }
        row.push(letter)?;
    }
    Ok(())
}

// An object that begins with the file's name, to be gone on with.
fn json_front(alloc: Global, file: &str) -> Result<Vec<u8>, AllocError>
    ensures { IfOk result (λ row. row.items ≡ json_front file.now []) }
{
    let mut row = Vec::new(alloc);
    row.extend_from_slice(b"{\"file\":\"")?;
    add_json(&mut row, file)?;
    row.push(b'"')?;
    Ok(row)
}

// The object that the text of a check is, with the file's name as its first member.
fn json_row(alloc: Global, file: &str, text: &[u8]) -> Result<Vec<u8>, AllocError>
    ensures { IfOk result (λ row. row.items ≡ json_row file.now text.now) }
{
    let mut row = json_front(alloc, file)?;
    row.push(b',')?;
    row.extend_from_slice(text.get(1..).unwrap_or(b""))?;
    Ok(row)
}

/// The row of a file whose paths have that verdict, by the text of its check, in lines or as an object.
///
/// # Errors
///
/// Want of memory.
pub(crate) fn verdict_row(
    alloc: Global,
    is_json: bool,
    file: &str,
    solved: bool,
    text: &[u8],
) -> Result<Vec<u8>, AllocError>
    ensures { IfOk result (λ row. row.items ≡ verdict_row is_json file.now solved text.now) }
{
    if is_json {
        json_row(alloc, file, text)
    } else {
        answer_row(alloc, file, solved, text)
    }
}

/// The row of a file whose paths have no verdict, by why.
///
/// # Errors
///
/// Want of memory.
pub(crate) fn fault_row(
    alloc: Global,
    is_json: bool,
    file: &str,
    why: &str,
) -> Result<Vec<u8>, AllocError>
    ensures { IfOk result (λ row. row.items ≡ fault_row is_json file.now why.now) }
{
    if is_json {
        let mut row = json_front(alloc, file)?;
        row.extend_from_slice(b",\"fault\":\"")?;
        add_json(&mut row, why)?;
        row.extend_from_slice(b"\"}\n")?;
        return Ok(row);
    }
    let mut row = Vec::new(alloc);
    add_name(&mut row, file)?;
    row.extend_from_slice(why.as_bytes())?;
    row.push(b'\n')?;
    Ok(row)
}
