ghost use Rattle.std.specs.Prelude.{◌≡◌, IfSome};
ghost use Rattle.desk_c.specs.Opening.{IsFirst, IsNew, MakesDesk, MakesScene, Opens, Replays};
ghost use Rattle.solver_check.specs.Opens.{bytes_of};

use crate::states::{OpenDesk, Opening, State};
use bench_reader::{MapFault, ScenFault, read_map, read_scen};
use desk_commits::ReplayFault;
use desk_core::{Desk, Limit, replay};
use journal_text::{JournalFault, read_journal};
use plan_table::Mode;
use scene_edits::{Scene, TaskFault};
use session_protocol::Dialogue;
use std::alloc::Global;
use thiserror::Error;

/// How many changes of its report a desk keeps, for the line `changes`.
const HISTORY: usize = 1_000_000;

/// Why no desk was opened.
#[derive(Clone, Copy, Debug, PartialEq, Eq, Error)]
pub enum OpenFault {
    /// The journal may have 1 to 1,000,000 entries.
    #[error("limit")]
    Limit,
    #[error("map: {0}")]
    Map(MapFault),
    #[error("scen: {0}")]
    Scen(ScenFault),
    /// The first tasks of the scenario make no scene on the map.
    #[error("scen: {0}")]
    Tasks(TaskFault),
    #[error("journal: {0}")]
    Journal(JournalFault),
    /// The journal isn't of the scene's mode, or the desk refuses one of its entries.
    #[error("journal: {0}")]
    Replay(ReplayFault),
}

/// What a desk is opened of.
#[derive(Clone, Copy)]
pub(crate) struct Texts<'t> {
    pub(crate) map: &'t [u8],
    pub(crate) scen: Option<&'t [u8]>,
    pub(crate) agents: u32,
    pub(crate) mode: Mode,
    pub(crate) journal: Option<&'t [u8]>,
}

// The scene of the map and the scenario, or their first fault.
fn scene_of(alloc: Global, texts: Texts<'_>) -> Result<Scene, OpenFault>
    ensures { MakesScene texts.entry.map.now (bytes_of texts.entry.scen) texts.entry.agents texts.entry.mode result }
{
    let Texts {
        map,
        scen,
        agents,
        mode,
        journal: _,
    } = texts;
    let grid = match read_map(alloc, map) {
        Ok(grid) => grid,
        Err(fault) => return Err(OpenFault::Map(fault)),
    };
    let Some(scen) = scen else {
        return Ok(Scene::bare(alloc, grid).with_mode(mode));
    };
    let tasks = match read_scen(alloc, scen, grid.size()) {
        Ok(tasks) => tasks,
        Err(fault) => {
            drop(grid);
            return Err(OpenFault::Scen(fault));
        }
    };
    let made = Scene::with_tasks(alloc, grid, tasks.items(), agents);
    drop(tasks);
    match made {
        Ok(scene) => Ok(scene.with_mode(mode)),
        Err((fault, grid)) => {
            drop(grid);
            Err(OpenFault::Tasks(fault))
        }
    }
}

// The desk that is opened on the scene and commits the entries of a journal's text.
fn replayed(
    alloc: Global,
    scene: Scene,
    limit: Limit,
    journal: Option<&[u8]>,
) -> Result<Desk, OpenFault>
    ensures { Replays (bytes_of journal.entry) scene limit result }
{
    let Some(text) = journal else {
        return Ok(Desk::open(alloc, scene, limit));
    };
    let journal = match read_journal(alloc, text) {
        Ok(journal) => journal,
        Err(fault) => {
            drop(scene);
            return Err(OpenFault::Journal(fault));
        }
    };
    match replay(alloc, scene, limit, journal) {
        Ok(desk) => Ok(desk),
        Err(fault) => Err(OpenFault::Replay(fault)),
    }
}

// The desk of the texts, or their first fault.
fn desk_of(alloc: Global, texts: Texts<'_>, limit: Limit) -> Result<Desk, OpenFault>
    ensures { MakesDesk texts.entry.map.now (bytes_of texts.entry.scen) texts.entry.agents texts.entry.mode limit (bytes_of texts.entry.journal) result }
{
    match scene_of(alloc, texts) {
        Ok(scene) => replayed(alloc, scene, limit, texts.journal),
        Err(fault) => Err(fault),
    }
}

// What comes of opening the desk of the texts.
fn opening_of(alloc: Global, texts: Texts<'_>, limit: u32) -> Opening
    ensures { Opens texts.entry.map.now (bytes_of texts.entry.scen) texts.entry.agents texts.entry.mode limit (bytes_of texts.entry.journal) result }
{
    let Some(limit) = Limit::new(limit) else {
        return Opening::Refused(OpenFault::Limit);
    };
    match desk_of(alloc, texts, limit) {
        Ok(mut desk) => {
            desk.keep_history(HISTORY);
            Opening::Open(OpenDesk {
                desk,
                dialogue: Dialogue::new(),
                lines: 0,
            })
        }
        Err(fault) => Opening::Refused(fault),
    }
}

// The first answer: nothing of an open desk, else the text of the fault.
fn first_answer(alloc: Global, opening: &Opening) -> Option<Vec<u8>>
    ensures { IfSome result (λ answer. IsFirst opening.now answer.items) }
{
    match opening {
        Opening::Open(_) => Some(Vec::new(alloc)),
        Opening::Refused(fault) => match format!(in alloc; "{fault}") {
            Ok(text) => Some(text.into_bytes()),
            Err(_) => None,
        },
    }
}

/// What came of opening the desk of the texts, if there is memory to keep it.
pub(crate) fn opened(alloc: Global, texts: Texts<'_>, limit: u32) -> Option<Box<State>>
    ensures { IfSome result (λ state. IsNew texts.entry.map.now (bytes_of texts.entry.scen) texts.entry.agents texts.entry.mode limit
        (bytes_of texts.entry.journal) state.value) }
{
    let opening = opening_of(alloc, texts, limit);
    let Some(answer) = first_answer(alloc, &opening) else {
        drop(opening);
        return None;
    };
    match Box::new(alloc, State { opening, answer }) {
        Ok(state) => Some(state),
        Err(refused) => {
            drop(refused);
            None
        }
    }
}
