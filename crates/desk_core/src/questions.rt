//! What is told of a scene, by the books that are kept of it.
ghost use Rattle.std.specs.Prelude.{◌≡◌, ◌↔◌, IsTrue, IfOk, IfErr, Err, All};
ghost use Rattle.desk_report.specs.Report.{IsReportOf};
ghost use Rattle.live_report.specs.Books.{AreOf};
ghost use Rattle.desk_commits.specs.Goals.{IsAsked};
ghost use Rattle.desk_commits.specs.Questions.{ArePriced, Judges, AnswersDistance, ShowsCut, IsKnown};
ghost use Rattle.desk_commits.specs.State.{DeskState, version_of};

use desk_commits::AskFault;
use desk_report::{Kinds, Report, settle_is_bound_and_gap};
use grid_cells::{Agent, Cell, OutOfMemory};
use live_report::Books;
use scene_edits::Scene;

// The report of the scene, from its books. Its law: where an agent is finished and has no blocked
// visit, its bound is given, and its settle time is the bound and the gap.
pub(crate) fn report(books: &mut Books, scene: &Scene) -> Result<Report, OutOfMemory>
    requires { AreOf scene.now books.old }
    ensures kept { AreOf scene.now books.new }
    ensures report { IfOk result (IsReportOf scene.now.grid scene.now.mode scene.now.rows) }
    ensures priced { IfOk result (λ report. ArePriced scene.now.grid scene.now.rows report.lines) }
{
    settle_is_bound_and_gap();
    let _plans = scene.plans();
    match books.report(scene) {
        Ok(report) => Ok(report),
        Err(refused) => Err(refused),
    }
}

// Whether the scene's plans solve by those kinds: what a reading of a desk that has the scene says.
pub(crate) fn solves(books: &Books, scene: &Scene, kinds: Kinds) -> bool
    requires { AreOf scene.now books.now }
    ensures { (desk : DeskState) → desk.scene ≡ scene.now → Judges desk kinds result }
{
    settle_is_bound_and_gap();
    let _plans = scene.plans();
    books.solves(scene, kinds)
}

// The goal of the agent that is asked of a cell, or the first fault of the question.
pub(crate) fn goal_asked(scene: &Scene, agent: Agent, cell: Cell) -> Result<Cell, AskFault>
    ensures asked { IfOk result (λ goal. IsAsked scene.now agent cell goal) }
    ensures fault { IfErr result (λ fault. AnswersDistance scene.now agent cell (Err fault)) }
{
    let plans = scene.plans();
    let Some(row) = plans.row(agent) else {
        return Err(AskFault::UnknownAgent);
    };
    if !scene.grid().size().holds(cell) {
        return Err(AskFault::OutOfMap);
    }
    Ok(row.goal)
}

// Whether each of the agents is live.
pub(crate) fn all_live(scene: &Scene, agents: &[Agent]) -> bool
    ensures { IsTrue result ↔ All (IsKnown scene.now) agents.now }
{
    agents.iter().all(|agent| is_live(scene, *agent))
}

// Whether the agent is live.
fn is_live(scene: &Scene, agent: Agent) -> bool
    ensures { IsTrue result ↔ IsKnown scene.now agent }
{
    match scene.plans().row(agent) {
        Some(_) => true,
        None => false,
    }
}

// The report of the scene, from its books, cut to those agents.
pub(crate) fn cut(books: &mut Books, scene: &Scene, agents: &[Agent]) -> Result<Report, OutOfMemory>
    requires { AreOf scene.now books.old }
    ensures kept { AreOf scene.now books.new }
    ensures cut { IfOk result (λ report. (desk : DeskState) → desk.scene ≡ scene.now
        → ShowsCut desk agents.now (record { version = version_of desk; report = report })) }
{
    settle_is_bound_and_gap();
    let _plans = scene.plans();
    match books.cut(scene, agents) {
        Ok(report) => Ok(report),
        Err(refused) => Err(refused),
    }
}
