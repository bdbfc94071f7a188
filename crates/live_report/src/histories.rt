//! What came to a report's lists and went from them, by version.
ghost use Rattle.std.specs.Prelude.{◌≡◌, ◌↔◌, ◌≤◌, [], IfOk, IsTrue};
ghost use Rattle.live_report.specs.Histories.{AreEven, Grows, IsFollowed, IsNone, Keeps, TellsSince, records_in, versions_in, without};

use crate::turnovers::Turnover;
use change_history::{Log, Moves};
use desk_report::AgentLine;
use grid_cells::OutOfMemory;
use mapf_rules::{Conflict, Visit};
use std::alloc::Global;
use std::marker::Model;

/// What came to each list of a report and went from it at each of the newest versions: of as many
/// versions as have no more elements in all than may be kept.
#[derive(Drop)]
pub struct History {
    conflicts: Log<Conflict>,
    visits: Log<Visit>,
    lines: Log<AgentLine>,
    most: usize,
}

impl Model for History {
    ghost use Rattle.live_report.specs.Histories.{AreEven, HistoryState};

    ghost Value = { HistoryState };

    ghost view = { λ h. record { conflicts = h.conflicts; visits = h.visits; lines = h.lines; most = h.most } };

    ghost invariant = { λ h. AreEven h.conflicts h.visits h.lines };
}

impl History {
    /// The history of no versions, which may have so many elements.
    pub fn new(alloc: Global, most: usize) -> History
        ensures { result ≡ record { conflicts = []; visits = []; lines = []; most = most } }
    {
        History {
            conflicts: Log::new(alloc),
            visits: Log::new(alloc),
            lines: Log::new(alloc),
            most,
        }
    }

    /// How many versions it has.
    pub fn versions(&self) -> usize
        ensures is { result ≡ versions_in self.now }
        ensures even { AreEven self.now.conflicts self.now.visits self.now.lines }
    {
        self.conflicts.versions()
    }

    /// Keeps what came and went at one version more, and forgets the oldest versions while there are too
    /// many elements.
    ///
    /// # Errors
    ///
    /// Want of memory, also where something wasn't followed: the history is gone then.
    pub fn push(self, turnover: Turnover) -> Result<History, OutOfMemory>
        ensures followed { IfOk result (λ _. IsFollowed turnover) }
        ensures kept { IfOk result (Keeps self turnover) }
    {
        if !turnover.is_followed() {
            drop(self);
            drop(turnover);
            return Err(OutOfMemory);
        }
        let mut history = self.grown(turnover)?;
        while !history.fits() {
            let _versions = history.versions();
            history.forget();
        }
        Ok(history)
    }

    /// What came and went from one of its versions on, in all.
    ///
    /// # Errors
    ///
    /// Want of memory.
    pub fn since(&self, version: usize) -> Result<Turnover, OutOfMemory>
        requires { version ≤ versions_in self.now }
        ensures { IfOk result (TellsSince self.now version) }
    {
        let conflicts = self.conflicts.since(version)?;
        let visits = self.visits.since(version)?;
        let lines = self.lines.since(version)?;
        Ok(Turnover {
            conflicts,
            visits,
            lines,
        })
    }

    // One version more.
    fn grown(self, turnover: Turnover) -> Result<History, OutOfMemory>
        ensures { IfOk result (Grows self turnover) }
    {
        let History {
            conflicts,
            visits,
            lines,
            most,
        } = self;
        let Ok(conflicts) = conflicts.push(turnover.conflicts) else {
            drop((visits, lines, turnover.visits, turnover.lines));
            return Err(OutOfMemory);
        };
        let Ok(visits) = visits.push(turnover.visits) else {
            drop((conflicts, lines, turnover.lines));
            return Err(OutOfMemory);
        };
        let Ok(lines) = lines.push(turnover.lines) else {
            drop((conflicts, visits));
            return Err(OutOfMemory);
        };
        Ok(History {
            conflicts,
            visits,
            lines,
            most,
        })
    }

    // Whether it has no more elements than it may have.
    fn fits(&self) -> bool
        ensures { IsTrue result ↔ (records_in self.now ≤ self.now.most) }
    {
        let (conflicts, visits) = (self.conflicts.records(), self.visits.records());
        let lines = self.lines.records();
        conflicts <= self.most
            && visits <= self.most - conflicts
            && lines <= self.most - conflicts - visits
    }

    // Lets go the oldest version, if there is one.
    fn forget(&mut self)
        ensures { self.new ≡ without 1 self.old }
    {
        self.conflicts.forget();
        self.visits.forget();
        self.lines.forget();
    }
}

impl Turnover {
    /// Nothing came and nothing went.
    pub fn none(alloc: Global) -> Turnover
        ensures { IsNone result }
    {
        Turnover {
            conflicts: Moves::new(alloc),
            visits: Moves::new(alloc),
            lines: Moves::new(alloc),
        }
    }

    /// Whether what came and went is followed.
    pub fn is_followed(&self) -> bool
        ensures { IsTrue result ↔ IsFollowed self.now }
    {
        self.conflicts.is_followed() && self.visits.is_followed() && self.lines.is_followed()
    }
}
