//! The text of what changed.
ghost use Rattle.std.specs.Prelude.{◌≡◌, ◌++◌, OnOk, OnErr, is_err, ◌||◌};
ghost use Rattle.std.specs.List.{flat_map};
ghost use Rattle.std.specs.Io.KnownBytes.{Appends};
ghost use Rattle.desk_report.specs.Bytes.{AppendsFront};
ghost use Rattle.desk_report.specs.ChangesText.{gone_line, name_line, changed_text, since_text, changes_text, trial_text};

use crate::bytes::{Sink, WriteFailed, put_all};
use crate::changed::Changes;
use crate::text::listed::{Listed, put_each};
use crate::text::totals::{put_count, put_totals};
use crate::words::{Word, put_line};
use grid_cells::{Agent, List};

impl Listed for Agent {
    ghost line = { name_line };

    fn put_into<W: Sink>(&self, sink: &mut W) -> Result<(), WriteFailed> {
        put_line(sink, b"agent", &[Word::agent(*self)])
    }
}

// The line of what went.
#[tactic(auto, using(crate::proofs::Fronts::fronts))]
fn put_gone<W: Sink, L: Listed>(sink: &mut W, gone: &L) -> Result<(), WriteFailed>
    ensures ok { OnOk result (Appends (W.held sink.old) (W.held sink.new) (gone_line (L.line gone.now))) }
    ensures err { OnErr result (AppendsFront (W.held sink.old) (W.held sink.new) (gone_line (L.line gone.now))) }
    ensures broken { W.broken sink.new ≡ (W.broken sink.old || is_err result) }
{
    put_all(sink, b"gone ")?;
    gone.put_into(sink)
}

// The lines of what went.
#[tactic(auto, using(crate::proofs::Fronts::fronts))]
fn put_each_gone<W: Sink, L: Listed>(sink: &mut W, gone: &[L]) -> Result<(), WriteFailed>
    ensures ok { OnOk result (Appends (W.held sink.old) (W.held sink.new) (flat_map (λ x. gone_line (L.line x)) gone.now)) }
    ensures err { OnErr result (AppendsFront (W.held sink.old) (W.held sink.new) (flat_map (λ x. gone_line (L.line x)) gone.now)) }
    ensures broken { W.broken sink.new ≡ (W.broken sink.old || is_err result) }
{
    for item in gone {
        put_gone(sink, item)?;
    }
    Ok(())
}

// The lines of what went, and of what came.
#[tactic(auto, using(crate::proofs::Fronts::fronts))]
fn put_both<W: Sink, G: Listed, L: Listed>(
    sink: &mut W,
    gone: &[G],
    came: &[L],
) -> Result<(), WriteFailed>
    ensures ok { OnOk result (Appends (W.held sink.old) (W.held sink.new) (flat_map (λ x. gone_line (G.line x)) gone.now ++ flat_map L.line came.now)) }
    ensures err { OnErr result (AppendsFront (W.held sink.old) (W.held sink.new) (flat_map (λ x. gone_line (G.line x)) gone.now ++ flat_map L.line came.now)) }
    ensures broken { W.broken sink.new ≡ (W.broken sink.old || is_err result) }
{
    put_each_gone(sink, gone)?;
    put_each(sink, came)
}

// How many there are, what went, and what came.
#[tactic(auto, using(crate::proofs::Fronts::fronts))]
fn put_changed<W: Sink, G: Listed, L: Listed>(
    sink: &mut W,
    name: &[u8],
    count: usize,
    gone: &List<G>,
    came: &List<L>,
) -> Result<(), WriteFailed>
    ensures ok { OnOk result (Appends (W.held sink.old) (W.held sink.new) (changed_text name.now count G.line gone.now L.line came.now)) }
    ensures err { OnErr result (AppendsFront (W.held sink.old) (W.held sink.new) (changed_text name.now count G.line gone.now L.line came.now)) }
    ensures broken { W.broken sink.new ≡ (W.broken sink.old || is_err result) }
{
    let lost = gone.items();
    let found = came.items();
    put_count(sink, name, count)?;
    put_both(sink, lost, found)
}

// Since which version, and all that changed since.
#[tactic(auto, using(crate::proofs::Fronts::fronts))]
fn put_since<W: Sink>(changes: &Changes, since: u64, sink: &mut W) -> Result<(), WriteFailed>
    ensures ok { OnOk result (Appends (W.held sink.old) (W.held sink.new) (since_text since changes.now)) }
    ensures err { OnErr result (AppendsFront (W.held sink.old) (W.held sink.new) (since_text since changes.now)) }
    ensures broken { W.broken sink.new ≡ (W.broken sink.old || is_err result) }
{
    let came = &changes.came;
    put_line(sink, b"since", &[Word::Number(since)])?;
    put_changed(
        sink,
        b"agents",
        changes.agents,
        &changes.gone_agents,
        &came.lines,
    )?;
    put_changed(
        sink,
        b"conflicts",
        changes.conflicts,
        &changes.gone_conflicts,
        &came.conflicts,
    )?;
    put_changed(
        sink,
        b"blocked",
        changes.blocked,
        &changes.gone_visits,
        &came.visits,
    )?;
    put_totals(sink, came)
}

/// Writes what changed since the version `since` up to the present `version`: what went in lines that
/// begin with `gone`, what came as in a report, times in steps and cells as column and row. It takes no
/// memory. Where the sink fails, or takes no byte, a prefix of the text went out.
#[tactic(auto, using(crate::proofs::Fronts::fronts))]
pub fn write_changes<W: Sink>(
    changes: &Changes,
    version: u64,
    since: u64,
    sink: &mut W,
) -> Result<(), WriteFailed>
    ensures ok { OnOk result (Appends (W.held sink.old) (W.held sink.new) (changes_text version since changes.now)) }
    ensures err { OnErr result (AppendsFront (W.held sink.old) (W.held sink.new) (changes_text version since changes.now)) }
    ensures broken { W.broken sink.new ≡ (W.broken sink.old || is_err result) }
{
    put_line(sink, b"version", &[Word::Number(version)])?;
    put_since(changes, since, sink)
}

/// Writes what a commit to the version `since` would change, which would be `version`. It takes no
/// memory. Where the sink fails, or takes no byte, a prefix of the text went out.
#[tactic(auto, using(crate::proofs::Fronts::fronts))]
pub fn write_trial<W: Sink>(
    changes: &Changes,
    version: u64,
    since: u64,
    sink: &mut W,
) -> Result<(), WriteFailed>
    ensures ok { OnOk result (Appends (W.held sink.old) (W.held sink.new) (trial_text version since changes.now)) }
    ensures err { OnErr result (AppendsFront (W.held sink.old) (W.held sink.new) (trial_text version since changes.now)) }
    ensures broken { W.broken sink.new ≡ (W.broken sink.old || is_err result) }
{
    put_line(sink, b"would", &[Word::Number(version)])?;
    put_since(changes, since, sink)
}
