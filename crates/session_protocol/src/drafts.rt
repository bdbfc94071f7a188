ghost use Rattle.std.specs.Prelude.{◌≡◌};
ghost use Rattle.session_protocol.specs.Drafts.{nothing_gathered};

use grid_cells::List;
use scene_edits::{Edit, Thing};
use std::alloc::Global;
use std::marker::Model;

/// A commit that is being gathered.
#[derive(Drop)]
pub(crate) struct Gathered {
    pub(crate) base: u64,
    pub(crate) watch: List<Thing>,
    pub(crate) edits: List<Edit>,
}

impl Model for Gathered {
    ghost use Rattle.session_protocol.specs.Drafts.{Draft};

    ghost Value = { Draft };

    ghost use Rattle.std.specs.Prelude.{◌≤◌, length};
    ghost use Rattle.desk_commits.specs.declared.commits.TheConstants.{MOST_EDITS, MOST_WATCHES};

    ghost view = { λ g. record { base = g.base; watch = g.watch; edits = g.edits } };

    ghost invariant = { λ g. (length g.watch ≤ MOST_WATCHES) × (length g.edits ≤ MOST_EDITS) };

    ghost inverse = { λ d. record { base = d.base; watch = d.watch; edits = d.edits } };
}

impl Gathered {
    /// Nothing gathered, on that version.
    pub(crate) fn new(alloc: Global, base: u64) -> Gathered
        ensures { result ≡ nothing_gathered base }
    {
        Gathered {
            base,
            watch: List::new(Vec::new(alloc)),
            edits: List::new(Vec::new(alloc)),
        }
    }
}

/// Where a session is.
#[derive(Drop)]
pub enum Session {
    Idle,
    Gathering(Gathered),
}
