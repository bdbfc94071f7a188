ghost use Rattle.std.specs.Prelude.{◌≡◌, IfOk, IfErr, OnErr};
ghost use Rattle.desk_commits.specs.Runs.{IsCall, IsRun};

use crate::desks::Desk;
use desk_commits::{Answer, Call};
use grid_cells::{List, OutOfMemory};
use std::alloc::Global;

impl Desk {
    /// Answers the call.
    pub fn answer(&mut self, call: Call) -> Answer
        ensures { IsCall self.old call result self.new }
    {
        match call {
            Call::Commit(commit) => match self.commit(commit) {
                Ok(version) => Answer::Done(version),
                Err((refusal, commit)) => Answer::Refused(refusal, commit),
            },
            Call::Read => match self.reading() {
                Ok(reading) => Answer::Shown(reading),
                Err(OutOfMemory) => Answer::NoMemory,
            },
            Call::Distance(agent, cell) => match self.distance(agent, cell) {
                Ok(distance) => Answer::Far(distance),
                Err(fault) => Answer::AskRefused(fault),
            },
            Call::Snapshot => match self.snapshot() {
                Ok(snapshot) => Answer::Copied(snapshot),
                Err(OutOfMemory) => Answer::NoMemory,
            },
        }
    }
}

/// Answers the calls, one after the other.
///
/// # Errors
///
/// Where there is no memory for the answers, nothing is called, and the calls come back.
pub fn drive(
    alloc: Global,
    desk: &mut Desk,
    calls: Vec<Call>,
) -> Result<List<Answer>, (OutOfMemory, Vec<Call>)>
    ensures run { IfOk result (λ answers. IsRun desk.old calls.items answers desk.new) }
    ensures same { OnErr result (desk.new ≡ desk.old) }
    ensures handed_back { IfErr result (λ e. e.1.items ≡ calls.items) }
{
    let Ok(mut answers) = Vec::with_capacity(alloc, calls.len()) else {
        return Err((OutOfMemory, calls));
    };
    for call in calls {
        let answer = desk.answer(call);
        match answers.push(answer) {
            Ok(()) => {}
            Err(_) => unreachable!(),
        }
    }
    Ok(List::new(answers))
}
