//! The check of one of several files of paths.
ghost use Rattle.std.specs.Prelude.{◌≡◌, ℕ, List, [], IfOk, unwrap_or};
ghost use Rattle.solver_check.specs.Opens.{bytes_of};
ghost use Rattle.mapf_desk.specs.Rows.{IsRow, fault_row};

use crate::check_rows::{fault_row, verdict_row};
use crate::checking::style_asked;
use crate::statuses::{RunEnd, answered};
use desk_cli::CheckWords;
use desk_io::{Folder, More, Texts, problem_of};
use desk_report::Spout;
use solver_check::{Alone, Listing, run_check_in};
use std::alloc::{AllocError, Global};
use std::fmt::Display;

/// What the check of a file came to: its line, and the end of a run of it alone.
#[derive(Drop)]
pub(crate) struct Row {
    pub text: Vec<u8>,
    pub end: RunEnd,
}

/// The row of a file.
///
/// # Errors
///
/// Want of memory.
pub(crate) fn row_of<F: Folder>(
    alloc: Global,
    folder: &F,
    texts: Texts<'_>,
    words: &CheckWords,
    file: &'static str,
) -> Result<Row, AllocError>
    ensures { IfOk result (IsRow (F.holds folder.now) words.now (unwrap_or (bytes_of texts.entry.map) []) (bytes_of texts.entry.scen) file.now) }
{
    let mut more = More::none();
    let bytes = match folder.bytes(file, &mut more) {
        Ok(bytes) => bytes,
        Err(fault) => return faulty(alloc, words.is_json, file, &fault),
    };
    drop(more);
    let mut writer = Spout::new(Vec::new(alloc));
    let ended = run_check_in(
        &Alone,
        alloc,
        problem_of(texts, words.agents, words.mode),
        bytes.as_slice(),
        words.form,
        words.kinds,
        Listing::Counts,
        style_asked(words),
        &mut writer,
    );
    let text = writer.into_inner();
    drop(bytes);
    match ended {
        Ok(checked) => {
            let solved = checked.solved;
            let text = verdict_row(alloc, words.is_json, file, solved, text.as_slice())?;
            Ok(Row {
                text,
                end: answered(solved),
            })
        }
        Err(fault) => faulty(alloc, words.is_json, file, &fault),
    }
}

// The row of a file that has no verdict, by why.
fn faulty<D: Display>(alloc: Global, is_json: bool, file: &str, why: &D) -> Result<Row, AllocError>
    ensures end { IfOk result (λ row. row.end ≡ RunEnd.Faulty) }
    ensures text { IfOk result (λ row. (why : List ℕ) × (row.text.items ≡ fault_row is_json file.now why)) }
{
    let why = format!(in alloc; "{why}")?;
    let text = fault_row(alloc, is_json, file, why.as_str())?;
    Ok(Row {
        text,
        end: RunEnd::Faulty,
    })
}
