ghost use Rattle.std.specs.Prelude.{◌≡◌};
ghost use Rattle.mapf_rules.specs.Kinds.{is_named};

use crate::entries::Kind;

/// Kinds of conflicts that a planner asks about: `vertex` stands for Vertex and Parked entries.
#[derive(Clone, Copy, PartialEq, Eq)]
pub struct Kinds {
    pub vertex: bool,
    pub edge: bool,
    pub follow: bool,
    pub swap: bool,
    pub cycle: bool,
}

impl Kinds {
    /// Whether the kind is among them.
    pub fn names(self, kind: Kind) -> bool
        ensures { result ≡ is_named self kind }
    {
        match kind {
            Kind::Vertex | Kind::Parked => self.vertex,
            Kind::Edge => self.edge,
            Kind::Following => self.follow,
            Kind::Swapping => self.swap,
            Kind::Cycle => self.cycle,
        }
    }
}
