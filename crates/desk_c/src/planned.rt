//! Calls on numbers at what is behind a handle.
ghost use Rattle.std.specs.Prelude.{◌≡◌};
ghost use Rattle.desk_c.specs.Handles.{AtOpen, CommitsAt, IsUnfilled, IsUnmoved, OfOpening, TriesAt};
ghost use Rattle.desk_c.specs.Handles.{TellsDistanceAt, TellsEntriesAt, TellsSolvesAt, TellsVersion};

use crate::numbers::{CellNumbers, EntryNumbers};
use crate::planning::{commit_path, distance, entries_of, give_entries, solves, try_path};
use crate::states::{Opening, State};
use crate::statuses::{CLOSED, DONE, give, give_distance};
use desk_report::Kinds;
use std::alloc::Global;

impl State {
    pub(crate) fn version(&self, version: &mut u64) -> u32
        ensures { OfOpening (TellsVersion result version.new) (IsUnmoved result version.old version.new) self.now.opening }
    {
        match &self.opening {
            Opening::Refused(_) => CLOSED,
            Opening::Open(it) => {
                *version = it.desk.version();
                DONE
            }
        }
    }

    pub(crate) fn commit_path(
        &mut self,
        alloc: Global,
        agent: u32,
        path: &[CellNumbers],
        version: &mut u64,
    ) -> u32
        ensures { AtOpen (CommitsAt agent path.now result version.old version.new) (IsUnmoved result version.old version.new)
            self.old.opening self.old self.new }
    {
        match &mut self.opening {
            Opening::Refused(_) => CLOSED,
            Opening::Open(it) => give(commit_path(alloc, &mut it.desk, agent, path), version),
        }
    }

    pub(crate) fn try_path(
        &mut self,
        alloc: Global,
        agent: u32,
        path: &[CellNumbers],
        room: &mut [EntryNumbers],
        count: &mut usize,
    ) -> u32
        ensures same { self.new ≡ self.old }
        ensures told { OfOpening (TriesAt agent path.now result room.old room.new count.old count.new)
            (IsUnfilled result room.old room.new count.old count.new) self.old.opening }
    {
        match &mut self.opening {
            Opening::Refused(_) => CLOSED,
            Opening::Open(it) => {
                let answer = try_path(alloc, &mut it.desk, agent, path);
                give_entries(answer, room, count)
            }
        }
    }

    pub(crate) fn conflicts(
        &mut self,
        alloc: Global,
        agent: u32,
        room: &mut [EntryNumbers],
        count: &mut usize,
    ) -> u32
        ensures same { self.new ≡ self.old }
        ensures told { OfOpening (TellsEntriesAt agent result room.old room.new count.old count.new)
            (IsUnfilled result room.old room.new count.old count.new) self.old.opening }
    {
        match &mut self.opening {
            Opening::Refused(_) => CLOSED,
            Opening::Open(it) => {
                let answer = entries_of(alloc, &mut it.desk, agent);
                give_entries(answer, room, count)
            }
        }
    }

    pub(crate) fn solves(&mut self, kinds: Kinds, answer: &mut bool) -> u32
        ensures same { self.new ≡ self.old }
        ensures told { OfOpening (TellsSolvesAt kinds result answer.old answer.new) (IsUnmoved result answer.old answer.new) self.old.opening }
    {
        match &mut self.opening {
            Opening::Refused(_) => CLOSED,
            Opening::Open(it) => give(solves(&mut it.desk, kinds), answer),
        }
    }

    pub(crate) fn distance(&mut self, agent: u32, cell: CellNumbers, steps: &mut u32) -> u32
        ensures same { self.new ≡ self.old }
        ensures told { OfOpening (TellsDistanceAt agent cell result steps.old steps.new) (IsUnmoved result steps.old steps.new) self.old.opening }
    {
        match &mut self.opening {
            Opening::Refused(_) => CLOSED,
            Opening::Open(it) => give_distance(distance(&mut it.desk, agent, cell), steps),
        }
    }
}
