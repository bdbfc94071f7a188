ghost use Rattle.std.specs.Prelude.{◌≡◌, ◌≤◌, ◌++◌, length, codes, OnOk, OnErr, is_err, ◌||◌};
ghost use Rattle.std.specs.Io.KnownBytes.{Appends};
ghost use Rattle.desk_report.specs.Bytes.{AppendsFront};
ghost use Rattle.desk_report.specs.LineText.{line_text};
ghost use Rattle.journal_text.specs.Ranges.{IsJournal};
ghost use Rattle.journal_text.specs.Lines.{version_words, mode_words, journal_text};

use crate::written::put_each;
use desk_commits::{Commit, MOST_ENTRIES};
use desk_report::{Sink, Word, WriteFailed, put_line};
use plan_table::Mode;

// The line of the mode.
fn put_mode<W: Sink>(sink: &mut W, mode: Mode) -> Result<(), WriteFailed>
    ensures ok { OnOk result (Appends (W.held sink.old) (W.held sink.new) (line_text (mode_words mode))) }
    ensures err { OnErr result (AppendsFront (W.held sink.old) (W.held sink.new) (line_text (mode_words mode))) }
    ensures broken { W.broken sink.new ≡ (W.broken sink.old || is_err result) }
{
    match mode {
        Mode::Stay => put_line(sink, b"mode", &[Word::Text(b"stay")]),
        Mode::Disappear => put_line(sink, b"mode", &[Word::Text(b"disappear")]),
    }
}

// The heading of version 2.
#[tactic(auto, using(desk_report::proofs::Fronts::fronts))]
fn put_heading<W: Sink>(sink: &mut W, mode: Mode) -> Result<(), WriteFailed>
    ensures ok { OnOk result (Appends (W.held sink.old) (W.held sink.new) (line_text (version_words (codes "2")) ++ line_text (mode_words mode))) }
    ensures err { OnErr result (AppendsFront (W.held sink.old) (W.held sink.new) (line_text (version_words (codes "2")) ++ line_text (mode_words mode))) }
    ensures broken { W.broken sink.new ≡ (W.broken sink.old || is_err result) }
{
    put_line(sink, b"journal", &[Word::Text(b"2")])?;
    put_mode(sink, mode)
}

/// Writes the journal of those commits, made on a scene in that mode, as text of version 2. It
/// takes no memory. Where the sink fails, or takes no byte, a prefix of the text went out.
#[tactic(auto, using(desk_report::proofs::Fronts::fronts))]
pub fn write_journal<W: Sink>(
    commits: &[Commit],
    mode: Mode,
    sink: &mut W,
) -> Result<(), WriteFailed>
    requires { length commits.now ≤ MOST_ENTRIES }
    ensures ok { OnOk result (Appends (W.held sink.old) (W.held sink.new) (journal_text mode commits.now)) }
    ensures err { OnErr result (AppendsFront (W.held sink.old) (W.held sink.new) (journal_text mode commits.now)) }
    ensures broken { W.broken sink.new ≡ (W.broken sink.old || is_err result) }
    ensures lawful { OnOk result (IsJournal (record { mode = mode; entries = commits.now })) }
{
    put_heading(sink, mode)?;
    put_each(sink, commits)?;
    put_line(sink, b"end", &[Word::Number(commits.len() as u64)])
}
