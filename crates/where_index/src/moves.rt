ghost use Rattle.std.specs.Prelude.{◌≡◌, [], OnOk, IfOk, IfErr};
ghost use Rattle.where_index.specs.Moves.{AreByAgent, HasNone, GainsMove, PutsMove, LosesMover, IsMoveAt, IsMoveGap};

use grid_cells::{Agent, Cell, OutOfMemory};
use std::alloc::Global;
use std::marker::Model;

/// A step of an agent, and the cell that it goes to. A step that stays in its cell is a wait, and no
/// move.
#[derive(Clone, Copy, Debug, PartialEq, Eq, PartialOrd, Ord)]
pub struct Move {
    pub agent: Agent,
    pub to: Cell,
}

/// The moves out of one cell in one step, by agent.
#[derive(Drop)]
pub(crate) struct MoveList {
    moves: Vec<Move>,
}

impl Model for MoveList {
    ghost use Rattle.std.specs.Prelude.{List};
    ghost use Rattle.where_index.specs.declared.moves.Move.{Move};
    ghost use Rattle.where_index.specs.Moves.{AreByAgent};

    ghost Value = { List Move };

    ghost view = { λ l. l.moves.items };

    ghost invariant = { λ l. AreByAgent l.moves.items };
}

impl MoveList {
    /// No moves.
    pub(crate) fn new(alloc: Global) -> MoveList
        ensures { result ≡ [] }
    {
        MoveList {
            moves: Vec::new(alloc),
        }
    }

    /// The moves, by agent.
    pub(crate) fn items(&self) -> &[Move]
        ensures is { result.now ≡ self.now }
        ensures by_agent { AreByAgent self.now }
    {
        self.moves.as_slice()
    }

    // Adds the move of an agent that has none in the list.
    fn add(&mut self, added: Move) -> Result<(), OutOfMemory>
        requires { HasNone self.old added.agent }
        ensures { OnOk result (GainsMove self.old self.new added) }
    {
        match place_of(self.moves.as_slice(), added.agent) {
            Ok(_) => unreachable!(),
            Err(at) => {
                self.moves.insert(at, added)?;
                Ok(())
            }
        }
    }

    /// Puts in the move, in the place of the agent's, if it has one.
    pub(crate) fn put(&mut self, added: Move) -> Result<(), OutOfMemory>
        ensures { OnOk result (PutsMove self.old self.new added) }
    {
        self.lose(added.agent);
        self.add(added)
    }

    /// Takes the agent's move out, if it has one.
    pub(crate) fn lose(&mut self, agent: Agent)
        ensures { LosesMover self.old self.new agent }
    {
        if let Ok(at) = place_of(self.moves.as_slice(), agent) {
            self.moves.remove(at);
        }
    }
}

// Where the agent's move is, or where it would go.
fn place_of(moves: &[Move], agent: Agent) -> Result<usize, usize>
    requires { AreByAgent moves.now }
    ensures found { IfOk result (IsMoveAt moves.now agent) }
    ensures absent { IfErr result (IsMoveGap moves.now agent) }
{
    moves.binary_search_by_key(&agent, |one| one.agent)
}
