//! What changed in the report since a version.
ghost use Rattle.std.specs.Prelude.{◌≡◌, ◌≤◌, Err, IfErr, IfOk};
ghost use Rattle.desk_commits.specs.Changed.{TellsChanges};
ghost use Rattle.desk_commits.specs.State.{earlier, version_of};
ghost use Rattle.desk_core.specs.Histories.{LeadsOver};

use super::Question;
use crate::desks::Desk;
use desk_commits::SinceFault;
use desk_report::{Changes, settle_is_bound_and_gap};
use grid_cells::OutOfMemory;
use live_report::Turnover;

/// The desk's version, and what changed in the report since that one: the difference of the two
/// reports, whatever came and went in between.
///
/// # Errors
///
/// The version is above the desk's, what changed since is no longer kept, or want of memory.
#[derive(Clone, Copy, Debug)]
pub struct Changing {
    pub version: u64,
}

impl Question for Changing {
    type Answer = Result<(u64, Changes), SinceFault>;

    ghost use Rattle.desk_commits.specs.Changed.{TellsChanges};

    ghost answers = { λ question desk answer. TellsChanges desk question.version answer };

    fn put(&self, desk: &mut Desk) -> Result<(u64, Changes), SinceFault> {
        desk.changes_since(self.version)
    }
}

impl Desk {
    // What changed in the report since that version.
    fn changes_since(&mut self, version: u64) -> Result<(u64, Changes), SinceFault>
        ensures told { TellsChanges self.old version result }
        ensures same { self.new ≡ self.old }
    {
        let now = self.version();
        if version > now {
            return Err(SinceFault::Ahead { now });
        }
        settle_is_bound_and_gap();
        let turnover = self.turnover_since(version)?;
        let _plans = self.scene.plans();
        let Ok(mut books) = self.take_books() else {
            drop(turnover);
            return Err(SinceFault::OutOfMemory);
        };
        let changes = books.changes(turnover, &self.scene);
        self.put_back(books);
        match changes {
            Ok(changes) => Ok((now, changes)),
            Err(OutOfMemory) => Err(SinceFault::OutOfMemory),
        }
    }

    // What came to the report's lists and went from them since that version.
    fn turnover_since(&self, version: u64) -> Result<Turnover, SinceFault>
        requires { version ≤ version_of self.now }
        ensures told { IfOk result (LeadsOver (earlier self.now version).scene self.now.scene) }
        ensures fault { IfErr result (λ fault. TellsChanges self.now version (Err fault)) }
    {
        let now = self.version();
        if version == now {
            return Ok(Turnover::none(self.alloc));
        }
        let Some(history) = &self.history else {
            return Err(SinceFault::Forgotten { first: now });
        };
        let first = now - history.versions() as u64;
        if version < first {
            return Err(SinceFault::Forgotten { first });
        }
        match history.since((version - first) as usize) {
            Ok(turnover) => Ok(turnover),
            Err(OutOfMemory) => Err(SinceFault::OutOfMemory),
        }
    }
}
