ghost use Rattle.std.specs.Prelude.{◌≡◌, ◌≢◌, ◌||◌, IfOk, IfErr};
ghost use Rattle.solver_check.specs.Checks.{Checks, ChecksIn, IsCheckFault, StopsInCheck, StopsIn};
ghost use Rattle.solver_check.specs.CheckFaults.{has_write_failed};
ghost use Rattle.solver_check.specs.Opens.{bytes_of};

use crate::checks::costs::{Checked, checked_of};
use crate::checks::faults::CheckFault;
use crate::checks::json::counts_in;
use crate::checks::judging::judge;
use crate::checks::listings::{Listing, list};
use crate::checks::styles::{LINES, Style, put_in, set_style};
use crate::reporting::Auditor;
use crate::scenes::Problem;
use desk_report::{Kinds, Sink, WriteFailed};
use path_files::{Form, has_rows_first};
use std::alloc::Global;

/// Writes and answers whether paths that a solver wrote solve their problem, by the kinds of
/// conflicts that are named. The scene is that of a map in a mode, with the agents of the first
/// tasks of a scenario: so many, or else one for each path. With no scenario its agents are those of
/// the paths, each with the start and the goal that their text tells, or else the two ends of its
/// path. The auditor makes the report from scratch, and its lists are printed as asked for.
/// Where the text has no paths, some that aren't any, or a list twice, no report is made, and the
/// answer is no. It is no, too, where there are more or fewer paths than agents, of which those that
/// there are are judged, or the text lists another start or goal than the scenario.
///
/// # Errors
///
/// The first fault of the paths' text, the map, the scenario and the tasks; a path that the scene
/// refuses; want of memory, or a fault of the writer: then a prefix of the text went out. But for the
/// last, nothing is written.
pub fn run_check<A: Auditor, W: Sink>(
    auditor: &A,
    alloc: Global,
    problem: Problem<'_>,
    paths: &[u8],
    form: Option<Form>,
    kinds: Kinds,
    listing: Listing,
    writer: &mut W,
) -> Result<bool, CheckFault>
    ensures ok { IfOk result (Checks problem.entry.map.now (bytes_of problem.entry.scen) problem.entry.agents problem.entry.mode
        paths.now form kinds listing (W.held writer.old) (W.held writer.new)) }
    ensures err { IfErr result (IsCheckFault problem.entry.map.now (bytes_of problem.entry.scen) problem.entry.agents problem.entry.mode paths.now form) }
    ensures broken { W.broken writer.new ≡ (W.broken writer.old || has_write_failed result) }
    ensures silent { IfErr result (λ fault. fault ≢ CheckFault.WriteFailed → W.held writer.new ≡ W.held writer.old) }
    ensures cut { IfErr result (λ fault. fault ≡ CheckFault.WriteFailed → StopsInCheck problem.entry.map.now (bytes_of problem.entry.scen) problem.entry.agents
        problem.entry.mode paths.now form kinds listing (W.held writer.old) (W.held writer.new)) }
{
    let checked = run_check_in(
        auditor, alloc, problem, paths, form, kinds, listing, LINES, writer,
    );
    match checked {
        Ok(checked) => Ok(checked.solved),
        Err(fault) => Err(fault),
    }
}

/// Writes the verdict on paths that a solver wrote, as `run_check`, in a style, and answers what it
/// comes to.
///
/// # Errors
///
/// As `run_check`.
pub fn run_check_in<A: Auditor, W: Sink>(
    auditor: &A,
    alloc: Global,
    problem: Problem<'_>,
    paths: &[u8],
    form: Option<Form>,
    kinds: Kinds,
    listing: Listing,
    style: Style,
    writer: &mut W,
) -> Result<Checked, CheckFault>
    ensures ok { IfOk result (ChecksIn problem.entry.map.now (bytes_of problem.entry.scen) problem.entry.agents problem.entry.mode
        paths.now form kinds listing style (W.held writer.old) (W.held writer.new)) }
    ensures err { IfErr result (IsCheckFault problem.entry.map.now (bytes_of problem.entry.scen) problem.entry.agents problem.entry.mode paths.now form) }
    ensures broken { W.broken writer.new ≡ (W.broken writer.old || has_write_failed result) }
    ensures silent { IfErr result (λ fault. fault ≢ CheckFault.WriteFailed → W.held writer.new ≡ W.held writer.old) }
    ensures cut { IfErr result (λ fault. fault ≡ CheckFault.WriteFailed → StopsIn problem.entry.map.now (bytes_of problem.entry.scen) problem.entry.agents
        problem.entry.mode paths.now form kinds listing style (W.held writer.old) (W.held writer.new)) }
{
    let mut verdict = match judge(auditor, alloc, problem, paths, form, kinds) {
        Ok(verdict) => verdict,
        Err(fault) => return Err(fault),
    };
    let checked = checked_of(&verdict);
    let counts = counts_in(&verdict);
    list(alloc, listing, kinds, &mut verdict);
    set_style(alloc, style, has_rows_first(paths, form), &mut verdict);
    let put = put_in(writer, style, listing.is_quiet(), kinds, counts, &verdict);
    drop(verdict);
    match put {
        Ok(()) => Ok(checked),
        Err(WriteFailed) => Err(CheckFault::WriteFailed),
    }
}
