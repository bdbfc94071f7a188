use desk_commits::Commit;
use grid_cells::{List, Planner};
use plan_table::Mode;
use scene_edits::{Edit, Thing};

/// The version of a journal's text. Version 1 is of mode Stay.
#[derive(Clone, Copy, PartialEq, Eq)]
pub(crate) enum Heading {
    First,
    Second(Mode),
}

/// The numbers of the first line of an entry, the last two being how many watches and edits it has.
#[derive(Clone, Copy, PartialEq, Eq)]
pub(crate) struct Head {
    pub planner: Planner,
    pub base: u64,
    pub watches: usize,
    pub edits: usize,
}

/// An entry, as far as it is read.
#[derive(Drop)]
pub(crate) struct Begun {
    pub head: Head,
    pub watch: List<Thing>,
    pub edits: List<Edit>,
}

/// Where a reader of a journal is.
#[derive(Drop)]
pub(crate) enum Place {
    /// Nothing is read.
    Start,
    /// Behind `journal 2`.
    Versioned,
    /// Behind the heading and whole entries.
    Between {
        heading: Heading,
        entries: List<Commit>,
    },
    /// Inside an entry that lacks a line.
    Inside {
        heading: Heading,
        entries: List<Commit>,
        entry: Begun,
    },
    /// Behind the last line.
    Over {
        heading: Heading,
        entries: List<Commit>,
    },
}
