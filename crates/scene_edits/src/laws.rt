ghost use Rattle.std.specs.Prelude.{◌≡◌};
ghost use Rattle.scene_edits.specs.Laws.{OnePath, OneFaultOrNone, OneChange, EditsKeepScenes, AllEditsKeepScenes};
ghost use Rattle.scene_edits.specs.Laws.{EditsKeepSize, ChangesGoBack, OneAnswer, OneAnswerToAll};

use crate::scenes::MOST_AGENTS;

/// The cells that an agent can follow have one path: those cells without the waits at their end.
pub fn one_path()
    ensures { OnePath }
{}

/// Each edit is allowed, or has exactly one fault.
pub fn one_fault_or_none()
    ensures { OneFaultOrNone }
{}

/// An edit makes one change at most.
#[tactic(auto, using(crate::proofs::OneAnswers::one_change_holds))]
pub fn one_change()
    ensures { OneChange }
{}

/// An edit that is allowed makes a scene of a scene.
pub fn edits_keep_scenes()
    ensures { EditsKeepScenes }
{}

/// Edits in order that are allowed make a scene of a scene.
pub fn all_edits_keep_scenes()
    ensures { AllEditsKeepScenes }
{}

/// Edits keep the size of the map, and the mode.
#[tactic(auto, using(crate::proofs::Returning::edits_keep_size_holds))]
pub fn edits_keep_size()
    ensures { EditsKeepSize }
{}

/// The changes of edits can be taken back, the last one first, and that gives the scene before
/// the edits.
#[tactic(auto, using(crate::proofs::Returning::changes_go_back_holds))]
pub fn changes_go_back()
    ensures { ChangesGoBack }
{}

/// Besides want of memory an edit has one answer at most.
#[tactic(auto, using(crate::proofs::OneAnswers::one_answer_holds))]
pub fn one_answer()
    ensures { OneAnswer }
{}

/// Besides want of memory a list of edits has one answer at most.
#[tactic(auto, using(crate::proofs::OneAnswers::one_answer_to_all_holds))]
pub fn one_answer_to_all()
    ensures { OneAnswerToAll }
{}

/// The limit of fleets: at most 8,192 agents are live at once.
pub fn limit_of_fleets()
    ensures { MOST_AGENTS ≡ 8192 }
{}
