//! For each thing the number of the last entry that names it, so that a stale commit is told by one
//! look for each of its things.
ghost use Rattle.std.specs.Prelude.{◌≡◌, ◌<◌, ◌≤◌, [], ◌∷◌, ◌++◌, IfOk, length};
ghost use Rattle.scene_edits.specs.declared.edits.Edit.{Edit};
ghost use Rattle.desk_commits.specs.Entries.{thing_of};
ghost use Rattle.desk_commits.specs.Stamps.{stamp_of, HasPlaces, IsOn, NameOnMap, NameCellsOfMap, AreMarked, AreStamps, WhereTheyStand};

use crate::commits::Commit;
use crate::limits::MOST_ENTRIES;
use crate::stale::thing_named;
use grid_cells::{Cell, MOST_AGENT, OutOfMemory, Size};
use scene_edits::{Edit, Thing};
use std::alloc::Global;

/// Stamps of agents by number, of cells by their place on the map, and of the map.
#[derive(Drop)]
pub struct Stamps {
    pub size: Size,
    pub agents: Vec<u32>,
    pub cells: Vec<u32>,
    pub map: u32,
}

impl Stamps {
    // Nothing is named.
    fn blank(alloc: Global, size: Size) -> Result<Stamps, OutOfMemory>
        ensures { IfOk result (AreStamps size []) }
    {
        let cells = size.width() as usize * size.height() as usize;
        Ok(Stamps {
            size,
            agents: vec![in alloc; 0; MOST_AGENT as usize + 1]?,
            cells: vec![in alloc; 0; cells]?,
            map: 0,
        })
    }

    /// The stamps of that journal.
    pub fn of(alloc: Global, size: Size, journal: &[Commit]) -> Result<Stamps, OutOfMemory>
        requires few { length journal.now ≤ MOST_ENTRIES }
        requires on_map { NameCellsOfMap size journal.now }
        ensures { IfOk result (AreStamps size journal.now) }
    {
        let mut stamps = Stamps::blank(alloc, size)?;
        for index in 0..journal.len() {
            stamps.mark_all(journal[index].edits(), index as u32 + 1);
        }
        Ok(stamps)
    }

    /// The number of the last entry that names the thing, 0 where none does.
    pub fn stamp(&self, thing: &Thing) -> u64
        requires { HasPlaces self.now }
        ensures { result ≡ stamp_of self.now thing.now }
    {
        u64::from(match thing {
            Thing::Agent(agent) => self.agents[agent.number() as usize],
            Thing::Cell(cell) => self.stamp_at(*cell),
            Thing::Map => self.map,
        })
    }

    // The stamp of the cell.
    fn stamp_at(&self, cell: Cell) -> u32
        requires { HasPlaces self.now }
        ensures { result ≡ stamp_of self.now (Thing.Cell cell) }
    {
        if self.size.holds(cell) {
            self.cells[self.size.index(cell)]
        } else {
            0
        }
    }

    /// Gives the number to each thing that the edits name.
    pub fn mark_all(&mut self, edits: &[Edit], number: u32)
        requires places { HasPlaces self.old }
        requires on_map { NameOnMap self.old.size edits.now }
        ensures { AreMarked self.old edits.now number self.new }
    {
        for edit in edits {
            self.mark(edit, number);
        }
    }

    // Gives the number to each thing that the edit names.
    fn mark(&mut self, edit: &Edit, number: u32)
        requires places { HasPlaces self.old }
        requires on_map { IsOn self.old.size (thing_of edit.now) }
        ensures { AreMarked self.old (edit.now ∷ []) number self.new }
    {
        match thing_named(edit) {
            Thing::Agent(agent) => self.agents[agent.number() as usize] = number,
            Thing::Cell(cell) => {
                let at = self.size.index(cell);
                self.cells[at] = number;
                self.map = number;
            }
            Thing::Map => self.map = number,
        }
    }
}

/// The stamps after one more entry, where they stand.
pub fn with_entry(
    size: Size,
    stamps: Option<Stamps>,
    journal: &[Commit],
    entry: &Commit,
) -> Option<Stamps>
    requires few { length journal.now < MOST_ENTRIES }
    requires on_map { NameOnMap size entry.now.edits }
    requires stand { WhereTheyStand size journal.now stamps }
    ensures { WhereTheyStand size (journal.now ++ entry.now ∷ []) result }
{
    let mut stamps = stamps?;
    stamps.mark_all(entry.edits(), journal.len() as u32 + 1);
    Some(stamps)
}
