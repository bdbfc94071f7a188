ghost use Rattle.std.specs.Prelude.{◌≡◌};
ghost use Rattle.desk_commits.specs.Laws.{OneAnswerToACommit, LegalJournalsReplay, RunsAreLegal, EntriesMakeTheScene};

use crate::commits::{MOST_EDITS, MOST_WATCHES};
use crate::limits::MOST_ENTRIES;

/// Besides want of memory a commit has one answer, and leaves one desk.
pub fn one_answer_to_a_commit()
    ensures { OneAnswerToACommit }
{}

/// A journal that is legal at the opening of a scene replays on that scene, under the same limit or
/// a greater one: it is refused for no other cause than memory.
pub fn legal_journals_replay()
    ensures { LegalJournalsReplay }
{}

/// Whatever the calls, the commits that were accepted are a legal journal at the desk before, and
/// the desk after is the one that they make.
pub fn runs_are_legal()
    ensures { RunsAreLegal }
{}

/// Entries make of a desk's scene the scene after them, and come after its journal.
pub fn entries_make_the_scene()
    ensures { EntriesMakeTheScene }
{}

/// The limits of commits and journals: a commit has at most 4,096 watches and as many edits, and a
/// journal at most 1,000,000 entries.
pub fn limits_of_commits()
    ensures watches { MOST_WATCHES ≡ 4096 }
    ensures edits { MOST_EDITS ≡ 4096 }
    ensures entries { MOST_ENTRIES ≡ 1000000 }
{}
