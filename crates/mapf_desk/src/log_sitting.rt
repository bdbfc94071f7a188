//! A session whose commits stand in a log before they are answered.
ghost use Rattle.std.specs.Prelude.{◌≡◌, ℕ, List, Option, Some, IfOk, false, true, unwrap_or};
ghost use Rattle.desk_log.specs.Keeping.{IsLogged, IsLoggedInPart};
ghost use Rattle.solver_check.specs.Opens.{bytes_of};
ghost use Rattle.mapf_desk.specs.Logged.{IsKept, IsMapFrom, SatFrom, StopsOn, SitsOn, bounds_behind, head_of};

use crate::faults::ProgramFault;
use crate::log_opening::{no_memory, ready_over, run_fault};
use crate::logs::{Logs, OpenLog, Opened};
use commit_log::Log;
use desk_cli::ServeWords;
use desk_core::Desk;
use desk_io::{Answers, Lines, More, Outlet, Texts};
use desk_log::{HasHead, HeadedKeeper, LogKeeper};
use desk_report::{Sink, Source, Spout};
use plan_table::Mode;
use session_lines::LinesVersion;
use session_protocol::{Bounds, ServeFault, hear_map, serve_kept};
use solver_check::{BOUNDS, MOST_BYTES, MOST_LINES, RunFault};
use std::alloc::Global;
use std::cell::RefCell;
use std::io::{Read, Write};
use std::marker::{Brand, PhantomData};

/// What a session left: its log, and how it ended. Where the log has failed, what the last line did isn't
/// all there, and wasn't answered.
#[derive(Drop)]
pub(crate) struct Sat<L: OpenLog + Drop> {
    pub log: L,
    pub ended: Result<u32, ServeFault>,
    pub has_failed: bool,
}

/// Serves the session from a reader to an outlet, and hands back the log. Where no map was read, its text
/// comes first from the reader.
///
/// # Errors
///
/// The map wasn't heard, or the log isn't ready; or want of memory.
pub(crate) fn sit<R: AllocGlobal + Eprint, B: Logs, I: Read + Drop, O: Write + Drop>(
    rt: &R,
    logs: &B,
    texts: Texts<'_>,
    words: &ServeWords,
    opened: Opened<B::Open>,
    input: I,
    outlet: &RefCell<Outlet<O>>,
    more: &mut More,
) -> Result<Sat<B::Open>, ProgramFault>
    ensures { IfOk result (λ sat. (left1 held0 held1 : Option (List ℕ)) × SatFrom words.now (bytes_of texts.entry.map) (bytes_of texts.entry.scen)
        opened.bytes.items (I.remaining input) left1 held0 held1 sat.ended
        (λ text. IsKept words.now.lines (head_of words.now text (bytes_of texts.entry.scen)) held0 held1 (B.Open.text sat.log) (B.Open.kept sat.log)
        sat.has_failed (B.Open.text opened.log ≡ Some opened.bytes.items))) }
{
    let alloc = rt.alloc();
    let Ok(mut reader) = Lines::new(alloc, input, outlet) else {
        drop(opened);
        return Err(no_memory());
    };
    let (first, bounds) = match hear_first(alloc, texts.map, &mut reader) {
        Ok(heard) => heard,
        Err(why) => {
            drop(opened);
            return Err(run_fault(why));
        }
    };
    let map = first.as_slice();
    let (mut desk, keeper) = match ready_over(rt, logs, texts, map, words, opened, more) {
        Ok(ready) => ready,
        Err(fault) => return Err(fault),
    };
    let mut writer = Spout::new(Answers::new(outlet));
    let (keeper, ended) = serve_headed::<Brand, B::Open, _, _>(
        alloc,
        words.lines,
        words.mode,
        words.agents,
        texts,
        map,
        keeper,
        &mut desk,
        &mut reader,
        &mut writer,
        bounds,
    );
    drop(desk);
    Ok(sat_of(keeper, ended))
}

// Serves the session over a log of that head, which is that of the mode, the agents and the texts (at
// these the clauses alone look).
fn serve_headed<H: HasHead, L: Log + Drop, S: Source, W: Sink>(
    alloc: Global,
    lines: LinesVersion,
    mode: Mode,
    agents: u32,
    texts: Texts<'_>,
    heard: &[u8],
    keeper: LogKeeper<L>,
    desk: &mut Desk,
    reader: &mut S,
    writer: &mut W,
    bounds: Bounds,
) -> (LogKeeper<L>, Result<u32, ServeFault>)
    requires sound { keeper.has_failed ≡ false }
    ensures session { SitsOn lines bounds (S.left reader.old) (S.left reader.new) (W.held writer.old) (W.held writer.new)
        desk.old desk.new result.1 }
    ensures kept { result.0.has_failed ≡ false
        → IsLogged H.head (L.text keeper.writer.log) (L.kept keeper.writer.log) keeper.writer.count keeper.writer.check desk.old.journal
        → IsLogged H.head (L.text result.0.writer.log) (L.kept result.0.writer.log) result.0.writer.count result.0.writer.check desk.new.journal }
    ensures unkept { result.0.has_failed ≡ true → StopsOn lines (W.held writer.old) (W.held writer.new) desk.old desk.new
        (λ told. IsLogged H.head (L.text keeper.writer.log) (L.kept keeper.writer.log) keeper.writer.count keeper.writer.check desk.old.journal
        → IsLoggedInPart H.head (L.text result.0.writer.log) (L.kept result.0.writer.log) told.journal desk.new.journal) }
{
    let mut headed: HeadedKeeper<L, H> = HeadedKeeper {
        keeper,
        of: PhantomData,
    };
    let ended = serve_kept(alloc, lines, &mut headed, desk, reader, writer, bounds);
    let HeadedKeeper { keeper, of: _ } = headed;
    (keeper, ended)
}

// Hears the map's text, where none was read, and else no text; and says what may be heard behind it.
// (generic over the reader alone: beside its type the borrow checker takes no `'static`)
fn hear_first<S: Source>(
    alloc: Global,
    map: Option<&[u8]>,
    reader: &mut S,
) -> Result<(Vec<u8>, Bounds), RunFault>
    ensures heard { IfOk result (λ heard. IsMapFrom (bytes_of map.entry) (S.left reader.old) (S.left reader.new)
        (unwrap_or (bytes_of map.entry) heard.0.items)) }
    ensures bounds { IfOk result (λ heard. heard.1 ≡ bounds_behind (bytes_of map.entry) (unwrap_or (bytes_of map.entry) heard.0.items)) }
{
    if let Some(_) = map {
        return Ok((Vec::new(alloc), BOUNDS));
    }
    match hear_map(alloc, reader, MOST_BYTES) {
        Ok(text) => {
            let bytes = MOST_BYTES - text.len() as u64;
            let lines = MOST_LINES;
            Ok((text, Bounds { lines, bytes }))
        }
        Err(fault) => Err(RunFault::from(fault)),
    }
}

// What the session left.
fn sat_of<L: OpenLog + Drop>(keeper: LogKeeper<L>, ended: Result<u32, ServeFault>) -> Sat<L>
    ensures log { result.log ≡ keeper.writer.log }
    ensures ended { result.ended ≡ ended }
    ensures failed { result.has_failed ≡ keeper.has_failed }
{
    let has_failed = keeper.has_failed();
    let log = keeper.into_log();
    Sat {
        log,
        ended,
        has_failed,
    }
}
