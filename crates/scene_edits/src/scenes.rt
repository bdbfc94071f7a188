ghost use Rattle.std.specs.Prelude.{◌≡◌, IfOk, IsOk, []};
ghost use Rattle.scene_edits.specs.Scene.{SceneState, IsScene};
ghost use Rattle.scene_edits.specs.Board.{scene_of};
ghost use Rattle.scene_edits.specs.Answers.{Applied, AllApplied};

use crate::boards::Board;
use crate::changes::Change;
use crate::edits::{ApplyFault, Edit, EditsFault};
use crate::rows::copy_of;
use grid_cells::{Grid, List, OutOfMemory};
use plan_table::{Mode, Plans};
use std::alloc::Global;
use std::marker::Model;

/// The most agents that are live at once.
pub const MOST_AGENTS: u32 = 8_192;

/// A map, the goals and plans of the agents on it, and what an agent does at the end of its path.
#[derive(Debug)]
pub struct Scene {
    pub(crate) board: Board,
}

impl Drop for Scene {
    fn drop(self) {
        let Scene { board: _board } = self;
    }
}

impl Model for Scene {
    ghost use Rattle.scene_edits.specs.Scene.{SceneState};

    ghost Value = { SceneState };

    ghost use Rattle.scene_edits.specs.Scene.{IsScene};
    ghost use Rattle.scene_edits.specs.Board.{scene_of};

    ghost view = { λ s. scene_of s.board };

    ghost invariant = { λ s. IsScene (scene_of s.board) };
}

impl Scene {
    // The scene of its parts.
    pub(crate) fn of(board: Board) -> Scene
        requires { IsScene (scene_of board) }
        ensures { result ≡ scene_of board }
    {
        Scene { board }
    }

    /// The map with no agents, in mode Stay.
    pub fn bare(alloc: Global, grid: Grid) -> Scene
        ensures { result ≡ record { grid = grid; rows = []; mode = Mode.Stay } }
    {
        Scene {
            board: Board {
                alloc,
                grid,
                plans: Plans::new(alloc),
                mode: Mode::Stay,
            },
        }
    }

    pub fn grid(&self) -> &Grid
        ensures grid { result.now ≡ self.now.grid }
        ensures scene { IsScene self.now }
    {
        &self.board.grid
    }

    /// The rows of the live agents. Each plan and goal is on the map.
    pub fn plans(&self) -> &Plans
        ensures rows { result.now.rows ≡ self.now.rows }
        ensures scene { IsScene self.now }
    {
        &self.board.plans
    }

    pub fn mode(&self) -> Mode
        ensures { result ≡ self.now.mode }
    {
        self.board.mode
    }

    pub fn with_mode(self, mode: Mode) -> Scene
        ensures { result ≡ record self { mode = mode } }
    {
        let Scene { board } = self;
        Scene {
            board: Board { mode, ..board },
        }
    }

    /// An equal scene.
    pub fn copy(&self) -> Result<Scene, OutOfMemory>
        ensures { IfOk result (λ scene. scene ≡ self.now) }
    {
        let board = &self.board;
        Ok(Scene {
            board: Board {
                alloc: board.alloc,
                grid: board.grid.copy()?,
                plans: copy_of(board.alloc, &board.plans)?,
                mode: board.mode,
            },
        })
    }

    /// Applies an edit. After any refusal the scene is what it was.
    ///
    /// # Errors
    /// The first fault of the edit, or want of memory, which Add, Path and Tail alone ask for.
    pub fn apply(&mut self, edit: &Edit) -> Result<Change, ApplyFault>
        ensures { Applied self.old edit.now result self.new }
    {
        self.board.apply(edit)
    }

    /// Applies the edits in order, all or none. After any refusal the scene is what it was.
    ///
    /// # Errors
    /// The first fault of the first edit that has one, with the edit's index from 0, or want of
    /// memory.
    pub fn apply_all(&mut self, edits: &[Edit]) -> Result<List<Change>, EditsFault>
        ensures applied { AllApplied self.old edits.now result self.new }
        ensures empty { edits.now ≡ [] → IsOk result }
    {
        self.board.apply_all(edits)
    }
}
