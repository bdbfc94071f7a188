//! The word `check` with several files of paths: each has a line, and the status is the worst.
ghost use Rattle.std.specs.Prelude.{◌≡◌, ◌<◌, [], ◌∷◌, None, Some, Err, IfOk, length, map, unwrap_or};
ghost use Rattle.std.specs.List.{flat_map};
ghost use Rattle.std.specs.Option.{option_copied};
ghost use Rattle.std.specs.Io.KnownBytes.{Appends};
ghost use Rattle.solver_check.specs.Opens.{bytes_of};
ghost use Rattle.mapf_desk.specs.Files.{OfFiles};
ghost use Rattle.mapf_desk.specs.Rows.{AreRows, HasCheckedEach, HasCheckedPaths, IsFilled, IsRow, worse, worst};
ghost use Rattle.mapf_desk.specs.Runs.{LacksTasks};

use crate::checking::check_files;
use crate::checking_row::{Row, row_of};
use crate::faults::ProgramFault;
use crate::statuses::{RunEnd, answered};
use desk_cli::CheckWords;
use desk_io::{Folder, More, Noting, Texts, finish, read_from, tell_stage};
use desk_report::{Sink, Spout, WriteFailed, put_all};
use solver_check::{Fault, RunFault};
use std::alloc::{AllocError, Global};
use std::io::BufWriter;
use std::sync::Wait;
use std::thread::Threads;
use std::{io, thread};

/// Checks the paths that the words name, of one file as `check_files` does, and of several each.
///
/// # Errors
///
/// As `check_files`, or `check_each`.
pub fn check_paths<R: AllocGlobal + Print + Eprint + Threads + Wait + Sync, F: Folder + Sync>(
    rt: &R,
    folder: &F,
    words: &CheckWords,
    stages: bool,
    more: &mut More,
) -> Result<RunEnd, ProgramFault>
    ensures { IfOk result (HasCheckedPaths (F.holds folder.now) words.now words.now.more.items) }
{
    if words.more.is_empty() {
        return match check_files(rt, folder, words, stages, more) {
            Ok(solved) => Ok(answered(solved)),
            Err(fault) => Err(fault),
        };
    }
    let Ok(files) = all_files(rt.alloc(), words) else {
        return Err(ProgramFault::Desk(Fault::Run(RunFault::OutOfMemory)));
    };
    let ended = check_each(rt, folder, words, files.as_slice(), stages, more);
    drop(files);
    ended
}

// The files of paths.
fn all_files(alloc: Global, words: &CheckWords) -> Result<Vec<&'static str>, AllocError>
    ensures { IfOk result (λ files. files.items ≡ words.now.paths ∷ words.now.more.items) }
{
    let mut files = Vec::new(alloc);
    files.push(words.paths)?;
    files.extend_from_slice(words.more.as_slice())?;
    Ok(files)
}

// Checks each of the files, as many at once as the words say, each by one thread. Prints a line for each onto standard output, in
// their order. Where it is wanted, its stages are told on standard error.
fn check_each<R: AllocGlobal + Print + Eprint + Threads + Sync, F: Folder + Sync>(
    rt: &R,
    folder: &F,
    words: &CheckWords,
    files: &[&'static str],
    stages: bool,
    more: &mut More,
) -> Result<RunEnd, ProgramFault>
    ensures asked { LacksTasks words.now.agents words.now.scen → result ≡ Err (ProgramFault.Desk Fault.AgentsWithoutScen) }
    ensures checked { IfOk result (λ end. OfFiles (F.holds folder.now) (Some words.now.map.now) (option_copied words.now.scen)
        None None (λ map scen none. HasCheckedEach (F.holds folder.now) words.now files.now map scen end)) }
{
    if words.agents.is_some() && words.scen.is_none() {
        return Err(ProgramFault::Desk(Fault::AgentsWithoutScen));
    }
    tell_stage(rt, stages, "reading the files");
    let named = match read_from(folder, Some(words.map), words.scen, None, None, more) {
        Ok(named) => named,
        Err(fault) => return Err(ProgramFault::Desk(fault)),
    };
    tell_stage(rt, stages, "checking the paths");
    let ended = print_rows(rt, folder, named.texts(), words, files, more);
    drop(named);
    match ended {
        Ok(end) => Ok(end),
        Err(fault) => Err(ProgramFault::Desk(Fault::Run(fault))),
    }
}

// Checks the files over the map and the scenario, and prints their rows.
fn print_rows<R: AllocGlobal + Print + Threads + Sync, F: Folder + Sync>(
    rt: &R,
    folder: &F,
    texts: Texts<'_>,
    words: &CheckWords,
    files: &[&'static str],
    more: &mut More,
) -> Result<RunEnd, RunFault>
    ensures { IfOk result (HasCheckedEach (F.holds folder.now) words.now files.now (bytes_of texts.entry.map) (bytes_of texts.entry.scen)) }
{
    let alloc = rt.alloc();
    let Ok(rows) = rows_of(rt, alloc, folder, texts, words, files) else {
        return Err(RunFault::OutOfMemory);
    };
    let Ok(buffered) = BufWriter::new(alloc, io::writer(rt)) else {
        drop(rows);
        return Err(RunFault::OutOfMemory);
    };
    let mut writer = Spout::new(Noting::new(buffered));
    let put = put_rows(&mut writer, rows.as_slice());
    drop(rows);
    let ended = match put {
        Ok(end) => Ok(end),
        Err(WriteFailed) => Err(RunFault::WriteFailed),
    };
    finish(alloc, ended, texts, writer, more)
}

// The rows of the files, each made by one of so many threads.
fn rows_of<R: Threads + Sync, F: Folder + Sync>(
    rt: &R,
    alloc: Global,
    folder: &F,
    texts: Texts<'_>,
    words: &CheckWords,
    files: &[&'static str],
) -> Result<Vec<Row>, AllocError>
    ensures { IfOk result (λ rows. AreRows (IsRow (F.holds folder.now) words.now (unwrap_or (bytes_of texts.entry.map) []) (bytes_of texts.entry.scen))
        files.now rows.items) }
{
    let mut slots = empty_slots(alloc, files.len())?;
    let fill = move |place: usize, slot: &mut Option<Row>|
        requires { place < length files.now }
        ensures { IsFilled (IsRow (F.holds folder.entry.now) words.entry.now (unwrap_or (bytes_of texts.entry.map) []) (bytes_of texts.entry.scen))
            files.entry.now place slot.exit.now }
    {
        *slot = row_of(alloc, folder, texts, words, files[place]).ok();
    };
    let workers = words.workers.clamp(1, 64) as usize;
    thread::for_each_mut(rt, slots.as_mut_slice(), workers, &fill);
    rows_in(alloc, slots)
}

// So many places without a row.
fn empty_slots(alloc: Global, many: usize) -> Result<Vec<Option<Row>>, AllocError>
    ensures { IfOk result (λ slots. length slots.items ≡ many) }
{
    let mut slots = Vec::new(alloc);
    for _ in 0..many {
        slots.push(None)?;
    }
    Ok(slots)
}

// The rows, where none is missing.
fn rows_in(alloc: Global, slots: Vec<Option<Row>>) -> Result<Vec<Row>, AllocError>
    ensures { IfOk result (λ rows. slots.items ≡ map Some rows.items) }
{
    let mut rows = Vec::new(alloc);
    for slot in slots {
        match slot {
            Some(row) => rows.push(row)?,
            None => return Err(AllocError),
        }
    }
    Ok(rows)
}

// The worst of two ends.
fn worse(one: RunEnd, other: RunEnd) -> RunEnd
    ensures { result ≡ worse one other }
{
    match (one, other) {
        (RunEnd::Faulty, _) | (_, RunEnd::Faulty) => RunEnd::Faulty,
        (RunEnd::No, _) | (_, RunEnd::No) => RunEnd::No,
        (RunEnd::Yes, RunEnd::Yes) => RunEnd::Yes,
    }
}

// Writes the rows, and answers the worst of their ends.
fn put_rows<W: Sink>(writer: &mut W, rows: &[Row]) -> Result<RunEnd, WriteFailed>
    ensures ok { IfOk result (λ end. Appends (W.held writer.old) (W.held writer.new) (flat_map (λ row. row.text.items) rows.now) × (end ≡ worst rows.now)) }
{
    let mut end = RunEnd::Yes;
    for row in rows {
        put_all(writer, row.text.as_slice())?;
        end = worse(end, row.end);
    }
    Ok(end)
}
