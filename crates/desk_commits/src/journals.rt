ghost use Rattle.std.specs.Prelude.{◌≡◌};

use crate::answers::Refusal;
use crate::commits::Commit;
use grid_cells::List;
use plan_table::Mode;
use std::marker::Model;
use thiserror::Error;

/// Accepted commits in their order, and the mode of the scene that they were made on.
#[derive(Debug, Drop, PartialEq)]
pub struct Journal {
    mode: Mode,
    entries: List<Commit>,
}

impl Model for Journal {
    ghost use Rattle.desk_commits.specs.Replays.{Log};

    ghost Value = { Log };

    ghost view = { λ j. record { mode = j.mode; entries = j.entries } };

    ghost inverse = { λ l. record { mode = l.mode; entries = l.entries } };
}

impl Journal {
    /// The journal of those commits, made on a scene in that mode.
    pub fn new(entries: Vec<Commit>, mode: Mode) -> Journal
        ensures { result ≡ record { mode = mode; entries = entries.items } }
    {
        Journal {
            mode,
            entries: List::new(entries),
        }
    }

    /// The commits, in their order.
    pub fn items(&self) -> &[Commit]
        ensures { result.now ≡ self.now.entries }
    {
        self.entries.items()
    }

    /// The commits, in their order.
    pub fn into_items(self) -> Vec<Commit>
        ensures { result.items ≡ self.entries }
    {
        self.entries.into_items()
    }

    /// The mode of the scene that the commits were made on.
    pub fn mode(&self) -> Mode
        ensures { result ≡ self.now.mode }
    {
        self.mode
    }
}

/// Why a journal isn't replayed: the first that holds.
#[derive(Clone, Copy, Debug, PartialEq, Eq, Error)]
pub enum ReplayFault {
    /// The scene's mode isn't the journal's.
    #[error("mode differs")]
    ModeDiffers,
    /// The first entry that the desk refuses, counted from 1, and why it does.
    #[error("entry {entry} refused")]
    Refused { entry: usize, why: Refusal },
    #[error("out of memory")]
    OutOfMemory,
}
