//! Copies of commits.
ghost use Rattle.std.specs.Prelude.{◌≡◌, IfOk};

use crate::commits::Commit;
use grid_cells::{Cell, List, OutOfMemory};
use scene_edits::Edit;
use std::alloc::Global;

impl Commit {
    /// An equal commit.
    ///
    /// # Errors
    ///
    /// Want of memory.
    pub fn copy(&self, alloc: Global) -> Result<Commit, OutOfMemory>
        ensures { IfOk result (λ commit. commit ≡ self.now) }
    {
        let watch = Vec::from_slice(alloc, self.watch())?;
        let edits = copy_of_edits(alloc, self.edits())?;
        match Commit::new(self.planner(), self.base(), watch, edits) {
            Ok(commit) => Ok(commit),
            Err(_) => unreachable!(),
        }
    }
}

// The same edits.
fn copy_of_edits(alloc: Global, edits: &[Edit]) -> Result<Vec<Edit>, OutOfMemory>
    ensures { IfOk result (λ copy. copy.items ≡ edits.now) }
{
    let mut copy = Vec::new(alloc);
    for edit in edits {
        copy.push(copy_of(alloc, edit)?)?;
    }
    Ok(copy)
}

// The same edit.
fn copy_of(alloc: Global, edit: &Edit) -> Result<Edit, OutOfMemory>
    ensures { IfOk result (λ copy. copy ≡ edit.now) }
{
    match edit {
        Edit::Add { agent, start, goal } => Ok(Edit::Add {
            agent: *agent,
            start: *start,
            goal: *goal,
        }),
        Edit::Drop { agent } => Ok(Edit::Drop { agent: *agent }),
        Edit::Goal { agent, goal } => Ok(Edit::Goal {
            agent: *agent,
            goal: *goal,
        }),
        Edit::Path { agent, cells } => {
            let cells = copy_of_cells(alloc, cells.items())?;
            Ok(Edit::Path {
                agent: *agent,
                cells,
            })
        }
        Edit::Tail { agent, from, cells } => {
            let cells = copy_of_cells(alloc, cells.items())?;
            Ok(Edit::Tail {
                agent: *agent,
                from: *from,
                cells,
            })
        }
        Edit::Open { cell } => Ok(Edit::Open { cell: *cell }),
        Edit::Close { cell } => Ok(Edit::Close { cell: *cell }),
    }
}

// The same cells.
fn copy_of_cells(alloc: Global, cells: &[Cell]) -> Result<List<Cell>, OutOfMemory>
    ensures { IfOk result (λ copy. copy ≡ cells.now) }
{
    let copy = Vec::from_slice(alloc, cells)?;
    Ok(List::new(copy))
}
