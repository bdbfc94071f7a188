ghost use Rattle.std.specs.Prelude.{◌≡◌, [], Some, None, OnOk, IfSome, IfNone};
ghost use Rattle.std.specs.Bool.{OnTrue};
ghost use Rattle.where_index.specs.Crowds.{crowd_at, ChangesAt, begun, IsJoined, IsLessened, IsCrowdLeft, HasFew};
ghost use Rattle.where_index.specs.Moves.{AreByAgent};

use crate::moves::{Move, MoveList};
use grid_cells::{Agent, Cell, OutOfMemory};
use std::alloc::Global;
use std::collections::HashMap;
use std::marker::Model;

/// A cell at a time.
#[derive(Clone, Copy, PartialEq, Eq, Hash)]
pub(crate) struct Place {
    pub cell: Cell,
    pub time: u32,
}

/// The moves out of each cell in each step in which more than one agent moves out of it.
#[derive(Drop)]
pub(crate) struct Crowds {
    alloc: Global,
    lists: HashMap<Place, MoveList>,
}

impl Model for Crowds {
    ghost use Rattle.std.specs.Prelude.{List};
    ghost use Rattle.where_index.specs.declared.moves.Move.{Move};
    ghost use Rattle.where_index.specs.declared.crowds.Place.{Place};

    ghost Value = { List (Place × List Move) };

    ghost view = { λ h. h.lists.entries };
}

impl Crowds {
    /// No moves.
    pub(crate) fn new(alloc: Global) -> Crowds
        ensures { result ≡ [] }
    {
        Crowds {
            alloc,
            lists: HashMap::new(alloc),
        }
    }

    /// The moves out of the cell in the step that begins at the time, by agent, where they are kept.
    pub(crate) fn at(&self, cell: Cell, time: u32) -> Option<&[Move]>
        ensures some { IfSome result (λ moves. (crowd_at self.now cell time ≡ Some moves.now) × AreByAgent moves.now) }
        ensures none { IfNone result (crowd_at self.now cell time ≡ None) }
    {
        match self.lists.get(&Place { cell, time }) {
            Some(list) => Some(list.items()),
            None => None,
        }
    }

    /// Adds the move, in the place of the agent's move out of that cell in that step, to those that
    /// are kept; where none are, to the one that is told beside it, if any.
    pub(crate) fn join(
        &mut self,
        cell: Cell,
        time: u32,
        beside: Option<Move>,
        added: Move,
    ) -> Result<(), OutOfMemory>
        ensures { OnOk result (ChangesAt self.old self.new cell time (λ old new. IsJoined added (begun old beside) new)) }
    {
        join_in(&mut self.lists, self.alloc, cell, time, beside, added)
    }

    /// Takes the agent's move out of that cell in that step out of those that are kept.
    pub(crate) fn leave(&mut self, cell: Cell, time: u32, agent: Agent)
        ensures { ChangesAt self.old self.new cell time (IsCrowdLeft agent) }
    {
        if lose_in(&mut self.lists, cell, time, agent) {
            drop_list(&mut self.lists, cell, time);
        }
    }
}

// Adds the move to the place's list; where there is none, to the one beside it, if any.
fn join_in(
    lists: &mut HashMap<Place, MoveList>,
    alloc: Global,
    cell: Cell,
    time: u32,
    beside: Option<Move>,
    added: Move,
) -> Result<(), OutOfMemory>
    ensures { OnOk result (ChangesAt lists.old.entries lists.new.entries cell time (λ old new. IsJoined added (begun old beside) new)) }
{
    if let Some(list) = lists.get_mut(&Place { cell, time }) {
        return list.put(added);
    }
    let Some(other) = beside else {
        return Ok(());
    };
    let mut list = MoveList::new(alloc);
    list.put(other)?;
    list.put(added)?;
    lists.insert(Place { cell, time }, list)?;
    Ok(())
}

// Takes out a list.
fn drop_list(lists: &mut HashMap<Place, MoveList>, cell: Cell, time: u32)
    ensures { ChangesAt lists.old.entries lists.new.entries cell time (λ old new. new ≡ None) }
{
    let _ = lists.remove(&Place { cell, time });
}

// Takes the agent's move out of the place's list, and answers whether at most one is left there.
fn lose_in(lists: &mut HashMap<Place, MoveList>, cell: Cell, time: u32, agent: Agent) -> bool
    ensures lost { ChangesAt lists.old.entries lists.new.entries cell time (IsLessened agent) }
    ensures few { OnTrue result (HasFew (crowd_at lists.new.entries cell time)) }
{
    match lists.get_mut(&Place { cell, time }) {
        Some(list) => {
            list.lose(agent);
            list.items().len() < 2
        }
        None => false,
    }
}
