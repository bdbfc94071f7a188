ghost use Rattle.std.specs.Prelude.{◌≡◌, ◌+◌, ◌*◌, ◌<◌, ◌≤◌, ℕ, [], All, Contains, IfOk, IfErr, IfSome, IfNone, sum_by, slice_index, length};
ghost use Rattle.std.specs.List.{AllZip};
ghost use Rattle.grid_cells.specs.Size.{Holds};
ghost use Rattle.grid_cells.specs.Grid.{Chart};
ghost use Rattle.goal_fields.specs.Target.{Covers, IsSound, HaveCounted};
ghost use Rattle.goal_fields.specs.Changes.{IsRepaired};
ghost use Rattle.goal_fields.specs.Rest.{IsRoomOn};
ghost use Rattle.goal_fields.specs.Standings.{AreAtRest, AreRepaired};
ghost use Rattle.goal_fields.specs.Held.{HasGoal, StandFor, HaveDistances, RiseByGoal, SameButGoal, rank_of, IsRising};

use crate::distances::Distances;
use crate::held::Held;
use crate::lending::{give_back, let_go, made};
use crate::lifelong::Lifelong;
use crate::maps::adopt;
use grid_cells::{Cell, Grid, MOST_SIDE, OutOfMemory};
use std::alloc::Global;
use std::marker::Model;

/// A field for each distinct goal that is held, all of them on one grid: the distances to each goal, and
/// once the map, with the queue that is lent to each of them in turn while it is repaired.
pub struct Fields {
    alloc: Global,
    ranks: Vec<u32>,
    fields: Vec<Distances>,
    room: Option<Lifelong>,
}

impl Drop for Fields {
    fn drop(self) {
        let Fields {
            alloc: _,
            ranks: _ranks,
            fields: _fields,
            room: _room,
        } = self;
    }
}

// Clauses see the fields, in the order of their goals, and how many cells the queue has taken in all.
impl Model for Fields {
    ghost use Rattle.goal_fields.specs.Held.{Holding};

    ghost Value = { Holding };

    ghost use Rattle.goal_fields.specs.Kept.{IsKept};
    ghost use Rattle.goal_fields.specs.Rest.{total_in};
    ghost use Rattle.goal_fields.specs.Standings.{HaveRoom, standings};

    ghost view = { λ f. record { fields = standings f.room f.fields.items; total = total_in f.room } };

    ghost invariant = { λ f. IsKept f.ranks.items (standings f.room f.fields.items) × HaveRoom f.fields.items f.room };
}

impl Fields {
    /// No goal is held.
    pub fn new(alloc: Global) -> Fields
        ensures { result ≡ record { fields = []; total = 0 } }
    {
        Fields {
            alloc,
            ranks: Vec::new(alloc),
            fields: Vec::new(alloc),
            room: None,
        }
    }

    /// Holds the goal: where it isn't held, its field on the grid is made.
    pub fn hold(self, grid: &Grid, goal: Cell) -> Result<Fields, OutOfMemory>
        requires inside { Holds grid.now.size goal }
        requires stands { StandFor grid.now self.fields }
        ensures stands { IfOk result (λ held. StandFor grid.now held.fields) }
        ensures held { IfOk result (λ held. HasGoal held.fields goal) }
        ensures others { IfOk result (λ held. SameButGoal self.fields held.fields goal) }
        ensures one_each { IfOk result (λ held. RiseByGoal held.fields) }
        ensures told { IfOk result (λ held. held.total ≡ self.total) }

        // Holding again changes nothing.
        ensures again { HasGoal self.fields goal → IfOk result (λ held. held ≡ self) }
    {
        let rank = rank(goal);
        let Err(at) = place(&self.ranks, rank) else {
            return Ok(self)
        };
        let Fields {
            alloc,
            mut ranks,
            mut fields,
            room,
        } = self;
        let field = Distances::new(alloc, grid, goal)?;
        let room = made(alloc, room, grid, goal)?;
        ranks.insert(at, rank)?;
        fields.insert(at, field)?;
        Ok(Fields {
            alloc,
            ranks,
            fields,
            room: Some(room),
        })
    }

    /// Takes the goal out, where it is held.
    pub fn release(&mut self, goal: Cell)
        ensures gone { HasGoal self.new.fields goal → ⊥ }
        ensures others { SameButGoal self.old.fields self.new.fields goal }
        ensures one_each { RiseByGoal self.new.fields }
        ensures told { 0 < length self.new.fields → self.new.total ≡ self.old.total }
        ensures unheld { (HasGoal self.old.fields goal → ⊥) → self.new ≡ self.old }
    {
        if let Ok(at) = place(&self.ranks, rank(goal)) {
            self.ranks.remove(at);
            self.fields.remove(at);
            let_go(&mut self.room, &self.fields);
        }
    }

    /// Repairs each field for another grid of the same size, whose state differs at most at the
    /// changed cells, and tells how many cells were taken in all.
    pub fn repair(&mut self, grid: &Grid, changed: &[Cell]) -> u64
        requires same_size { All (λ field. grid.now.size ≡ field.grid.size) self.old.fields }
        requires covered { All (λ field. Covers changed.now field.grid grid.now) self.old.fields }
        ensures each { AllZip (IsRepaired grid.now) self.old.fields self.new.fields }
        ensures sum { result ≡ sum_by (λ field. field.taken) self.new.fields }
        ensures told { HaveCounted result self.old.total self.new.total }
    {
        let Some(mut room) = self.room.take() else {
            return 0
        };
        adopt(&mut room.grid, grid, changed);
        let total = repair_each(&mut self.fields, &mut room, changed);
        give_back(&mut self.room, room);
        total
    }

    /// How many goals are held.
    pub fn count(&self) -> usize
        ensures is { result ≡ length self.now.fields }
        ensures sound { All IsSound self.now.fields }
        ensures distances { HaveDistances self.now.fields }
        ensures one_each { RiseByGoal self.now.fields }
    {
        self.fields.len()
    }

    /// The field of the goal, if it is held.
    pub fn field(&self, goal: Cell) -> Option<Held<'_>>
        ensures found { IfSome result (λ field. Contains self.now.fields field × (field.goal ≡ goal)) }
        ensures none { IfNone result (HasGoal self.now.fields goal → ⊥) }
        ensures one_each { RiseByGoal self.now.fields }
    {
        let Some(room) = &self.room else { return None };
        match place(&self.ranks, rank(goal)) {
            Ok(at) => Some(Held {
                map: &room.grid,
                distances: &self.fields[at],
            }),
            Err(_) => None,
        }
    }
}

// The goal's rank in the order by row, then by column.
fn rank(goal: Cell) -> u32
    ensures is { result ≡ rank_of goal }
    ensures column { goal.x < MOST_SIDE }
    ensures row { goal.y < MOST_SIDE }
{
    goal.y() * MOST_SIDE + goal.x()
}

// Where the rank stands, or would stand.
fn place(ranks: &[u32], rank: u32) -> Result<usize, usize>
    requires { IsRising ranks.now }
    ensures within { IfOk result (λ at. at < length ranks.now) }
    ensures found { IfOk result (λ at. slice_index ranks.now at ≡ rank) }
    ensures room { IfErr result (λ at. at ≤ length ranks.now) }
    ensures below { IfErr result (λ at. (k : ℕ) → k < at → slice_index ranks.now k < rank) }
    ensures above { IfErr result (λ at. (k : ℕ) → at ≤ k → k < length ranks.now → rank < slice_index ranks.now k) }
{
    ranks.binary_search(&rank)
}

// Repairs each of the fields for the map of the room, which is lent to one after another.
fn repair_each(fields: &mut [Distances], room: &mut Lifelong, changed: &[Cell]) -> u64
    requires few { length fields.old ≤ 4194304 }
    requires room { IsRoomOn room.old.grid room.old }
    requires at_rest { (old : Chart) × (old.size ≡ room.old.grid.size) × Covers changed.now old room.old.grid × All (AreAtRest old) fields.old }
    ensures each { (on : Chart) → on.size ≡ room.old.grid.size → All (AreAtRest on) fields.old → AllZip (AreRepaired on room.old.grid) fields.old fields.new }
    ensures at_rest { All (AreAtRest room.old.grid) fields.new }
    ensures sum { result ≡ sum_by (λ field. field.taken) fields.new }
    ensures told { HaveCounted result room.old.queue.total room.new.queue.total }
    ensures room { IsRoomOn room.old.grid room.new }
{
    let mut total = 0;
    for field in fields.iter_mut() {
        total += field.repair_in(room, changed);
    }
    total
}
