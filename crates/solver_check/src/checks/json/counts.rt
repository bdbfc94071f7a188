//! The numbers of a report, as JSON.
ghost use Rattle.std.specs.Prelude.{◌≡◌};
ghost use Rattle.desk_report.specs.Bytes.{Puts};
ghost use Rattle.solver_check.specs.JsonTexts.{counts_json, totals_json};
ghost use Rattle.solver_check.specs.Counts.{counts_in, counts_of};

use crate::checks::json::lists::put_words;
use crate::checks::json::values::{given, given_short};
use crate::checks::judging::Verdict;
use crate::checks::quiet::{NONE, count_finished, count_named};
use desk_report::{Kinds, Report, Sink, Word, WriteFailed};

/// How many agents, finished agents, conflicts of each kind that can be asked about, and blocked
/// visits a report has.
#[derive(Clone, Copy)]
pub(crate) struct Counts {
    agents: usize,
    finished: usize,
    conflicts: usize,
    vertex: usize,
    edge: usize,
    follow: usize,
    swap: usize,
    cycle: usize,
    blocked: usize,
}

// Where there is no report.
const NOTHING: Counts = Counts {
    agents: 0,
    finished: 0,
    conflicts: 0,
    vertex: 0,
    edge: 0,
    follow: 0,
    swap: 0,
    cycle: 0,
    blocked: 0,
};

fn counts_of(report: &Report) -> Counts
    ensures { result ≡ counts_of report.now }
{
    let lines = report.lines.items();
    let entries = report.conflicts.items();
    let vertex = Kinds {
        vertex: true,
        ..NONE
    };
    let follow = Kinds {
        follow: true,
        ..NONE
    };
    let cycle = Kinds {
        cycle: true,
        ..NONE
    };
    Counts {
        agents: lines.len(),
        finished: count_finished(lines),
        conflicts: entries.len(),
        vertex: count_named(vertex, entries),
        edge: count_named(Kinds { edge: true, ..NONE }, entries),
        follow: count_named(follow, entries),
        swap: count_named(Kinds { swap: true, ..NONE }, entries),
        cycle: count_named(cycle, entries),
        blocked: report.visits.items().len(),
    }
}

/// The counts of a verdict's report; none of anything where it has no report.
pub(crate) fn counts_in(verdict: &Verdict) -> Counts
    ensures { result ≡ counts_in verdict.now }
{
    match verdict {
        Verdict::Judged { report, .. } => counts_of(report),
        Verdict::NoPaths | Verdict::Repeated { .. } | Verdict::Wrong { .. } => NOTHING,
    }
}

/// Puts the counts.
pub(crate) fn put_counts<W: Sink>(sink: &mut W, counts: Counts) -> Result<(), WriteFailed>
    ensures { Puts W.held W.broken sink.old sink.new result (counts_json counts) }
{
    let words = [
        Word::Text(b",\"counts\":{\"agents\":"),
        Word::Number(counts.agents as u64),
        Word::Text(b",\"finished\":"),
        Word::Number(counts.finished as u64),
        Word::Text(b",\"conflicts\":"),
        Word::Number(counts.conflicts as u64),
        Word::Text(b",\"vertex\":"),
        Word::Number(counts.vertex as u64),
        Word::Text(b",\"edge\":"),
        Word::Number(counts.edge as u64),
        Word::Text(b",\"follow\":"),
        Word::Number(counts.follow as u64),
        Word::Text(b",\"swap\":"),
        Word::Number(counts.swap as u64),
        Word::Text(b",\"cycle\":"),
        Word::Number(counts.cycle as u64),
        Word::Text(b",\"blocked\":"),
        Word::Number(counts.blocked as u64),
        Word::Text(b"}"),
    ];
    put_words(sink, &words)
}

/// Puts the totals.
pub(crate) fn put_totals<W: Sink>(sink: &mut W, report: &Report) -> Result<(), WriteFailed>
    ensures { Puts W.held W.broken sink.old sink.new result (totals_json report.now) }
{
    let words = [
        Word::Text(b",\"totals\":{\"sum\":"),
        given(report.sum),
        Word::Text(b",\"makespan\":"),
        given_short(report.makespan),
        Word::Text(b",\"bounds\":"),
        given(report.bounds),
        Word::Text(b",\"gap\":"),
        given(report.total_gap),
        Word::Text(b"}"),
    ];
    put_words(sink, &words)
}
