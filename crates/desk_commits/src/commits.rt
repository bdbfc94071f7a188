ghost use Rattle.std.specs.Prelude.{◌≡◌, ◌<◌, ◌≤◌, length, IfOk, IfErr};
ghost use Rattle.desk_commits.specs.Entries.{Entry, ExplainsCommit};

use grid_cells::{List, Planner};
use scene_edits::{Edit, Thing};
use std::marker::Model;

/// The most edits of a commit.
pub const MOST_EDITS: usize = 4_096;

/// The most things that a commit watches.
pub const MOST_WATCHES: usize = 4_096;

/// Why there is no such commit, the first that holds.
#[derive(Clone, Copy, Debug, PartialEq, Eq)]
pub enum CommitFault {
    /// More than MOST_WATCHES watches.
    TooManyWatches,
    /// More than MOST_EDITS edits.
    TooManyEdits,
}

/// Edits that a planner asks for, all or none, made on the version `base` of the desk. They are
/// refused where an entry after it names one of their things or of the things watched.
#[derive(Debug, PartialEq)]
pub struct Commit {
    planner: Planner,
    base: u64,
    watch: List<Thing>,
    edits: List<Edit>,
}

impl Drop for Commit {
    fn drop(self) {
        let Commit {
            planner: _,
            base: _,
            watch: _watch,
            edits: _edits,
        } = self;
    }
}

impl Model for Commit {
    ghost use Rattle.desk_commits.specs.Entries.{Entry};

    ghost Value = { Entry };

    ghost use Rattle.std.specs.Prelude.{◌≤◌, length};
    ghost use Rattle.desk_commits.specs.declared.commits.TheConstants.{MOST_EDITS, MOST_WATCHES};

    ghost view = { λ c. record { planner = c.planner; base = c.base; watch = c.watch; edits = c.edits } };

    ghost invariant = { λ c. (length c.watch ≤ MOST_WATCHES) × (length c.edits ≤ MOST_EDITS) };

    ghost inverse = { λ e. record { planner = e.planner; base = e.base; watch = e.watch; edits = e.edits } };
}

impl Commit {
    /// The commit of that planner, on that version, with those watches and edits.
    ///
    /// # Errors
    ///
    /// The first fault, and both lists as they were handed in.
    pub fn new(
        planner: Planner,
        base: u64,
        watch: Vec<Thing>,
        edits: Vec<Edit>,
    ) -> Result<Commit, (CommitFault, Vec<Thing>, Vec<Edit>)>
        ensures ok { IfOk result (λ commit. (length watch.items ≤ MOST_WATCHES) × (length edits.items ≤ MOST_EDITS)
            × (commit ≡ record { planner = planner; base = base; watch = watch.items; edits = edits.items })) }
        ensures fault { IfErr result (λ e. ExplainsCommit watch.items edits.items e.0) }
        ensures handed_back { IfErr result (λ e. (e.1.items ≡ watch.items) × (e.2.items ≡ edits.items)) }
    {
        if watch.len() > MOST_WATCHES {
            return Err((CommitFault::TooManyWatches, watch, edits));
        }
        if edits.len() > MOST_EDITS {
            return Err((CommitFault::TooManyEdits, watch, edits));
        }
        Ok(Commit {
            planner,
            base,
            watch: List::new(watch),
            edits: List::new(edits),
        })
    }

    /// Who asks for the edits.
    pub fn planner(&self) -> Planner
        ensures { result ≡ self.now.planner }
    {
        self.planner
    }

    /// The version that the edits were made on.
    pub fn base(&self) -> u64
        ensures { result ≡ self.now.base }
    {
        self.base
    }

    /// The things watched, in their order.
    pub fn watch(&self) -> &[Thing]
        ensures is { result.now ≡ self.now.watch }
        ensures few { length result.now ≤ MOST_WATCHES }
    {
        self.watch.items()
    }

    /// The edits, in their order.
    pub fn edits(&self) -> &[Edit]
        ensures is { result.now ≡ self.now.edits }
        ensures few { length result.now ≤ MOST_EDITS }
    {
        self.edits.items()
    }

    /// The watches and the edits.
    pub fn into_parts(self) -> (Vec<Thing>, Vec<Edit>)
        ensures watch { result.0.items ≡ self.watch }
        ensures edits { result.1.items ≡ self.edits }
    {
        let Commit {
            planner: _,
            base: _,
            watch,
            edits,
        } = self;
        (watch.into_items(), edits.into_items())
    }
}
