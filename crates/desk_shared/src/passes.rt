ghost use Rattle.std.specs.Prelude.{◌≡◌};

use crate::board::Place;
use grid_cells::Planner;
use std::marker::Model;

/// What one planner uses a shared desk with. It remembers what it has seen of the journal.
#[derive(Drop)]
pub struct Pass {
    pub(crate) place: Place,
    pub(crate) planner: Planner,
    pub(crate) unused: [bool; 256],
}

impl Model for Pass {
    ghost use Rattle.desk_shared.specs.Passes.{Held};

    ghost Value = { Held };

    ghost use Rattle.desk_shared.specs.Turns.{IsIdlePass, shown};

    ghost view = { λ p. record { table_id = p.place.table_id; known = shown p.place.me.0 } };

    ghost invariant = { λ p. IsIdlePass p.place.me p.planner p.unused };
}

impl Pass {
    /// The planner whose pass it is.
    pub fn planner(&self) -> Planner
        ensures { result ≡ self.now.known.planner }
    {
        self.planner
    }
}
