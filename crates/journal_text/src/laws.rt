ghost use Rattle.journal_text.specs.Laws.{OneReading, ReadsBack};

/// A law: but for want of memory, a text reads as one journal, or has one first line that doesn't
/// fit.
#[tactic(auto, using(crate::proofs::OneAnswer::one_answer))]
pub fn one_journal_answer()
    ensures { OneReading }
{}

/// A law: the text that is written of a journal reads as that journal.
#[tactic(auto, using(crate::proofs::OneAnswer::reads_back))]
pub fn written_reads_back()
    ensures { ReadsBack }
{}
