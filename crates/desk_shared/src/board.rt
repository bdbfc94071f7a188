//! The table that the passes share.
//!
//! Word 0 is the length of the journal, and word 1 is 1 while a pass has the turn. Slot 0 is the
//! desk's place, and the desk is out with the pass that has the turn.
use atomic_table::{Seat, Shared, Table, TableRule};
use desk_core::{Commit, Desk};
use grid_cells::Planner;
use std::alloc::Global;
use std::collections::LinkedList;
use std::marker::PhantomData;
use std::snapshot::Snapshot;

/// Where a pass stands within a call. No value of it is made.
pub(crate) enum Stage {
    /// The first pass, before the desk lies in its place.
    Making,
    Idle,
    Holding,
    /// After a join: what the pass and the other had seen, the numbers of both, and the desk at
    /// the other's sharing.
    Joined(LinkedList<Commit>, LinkedList<Commit>, Planner, Planner, Desk),
}

/// What the table knows of a pass. No value of it is made.
pub(crate) struct Known {
    /// False once the pass was joined into another.
    pub live: bool,
    pub stage: Stage,
    /// The desk as it was when it was shared.
    pub start: Desk,
    /// For how many planners it was shared.
    pub planners: u32,
    /// What the pass has seen of the entries made since then.
    pub made: LinkedList<Commit>,
    /// The greatest front that it was told.
    pub floor: u64,
    pub planner: Planner,
    /// Which numbers it may give to another pass. A clause reads an array as a list of any length.
    pub unused: [bool; 0],
    /// The number of each pass that was joined into it, with the entries of this number.
    pub past: LinkedList<(Planner, LinkedList<Commit>)>,
}

/// What the table is told when it is made.
#[derive(Drop)]
pub(crate) struct About {
    pub start: Snapshot<Desk>,
    pub planners: u32,
    pub unused: [bool; 256],
}

/// The rule of the table.
pub(crate) struct Turns;

impl TableRule<Option<Desk>, Known, About> for Turns {
    ghost use Rattle.desk_shared.specs.Turns.{Ruled, first_known};

    ghost holds = { λ _. Ruled };

    ghost first = { λ about. first_known about.start.value about.planners about.unused };
}

pub(crate) type Top = Table<Option<Desk>, Known, About, Turns, Global>;

pub(crate) type Rows = Shared<Option<Desk>, Known, About, Turns>;

pub(crate) type Place = Seat<Option<Desk>, Known>;
