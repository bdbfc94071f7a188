ghost use Rattle.std.specs.Prelude.{◌≡◌};
ghost use Rattle.desk_pictures.specs.Marks.{is_at, moves, class_text};

use desk_report::Kinds;
use grid_cells::{Agent, Step};

/// What a picture shows of a scene.
#[derive(Clone, Copy)]
pub struct Frame {
    /// The one time of a still picture, in steps; without it the agents move.
    pub at: Option<Step>,
    /// The least and the greatest of the agents that are drawn; without them all are. The entries of
    /// the report are marked all the same.
    pub shown: Option<(Agent, Agent)>,
    /// The kinds of conflicts that the heading's colour goes by; without them all kinds are.
    pub kinds: Option<Kinds>,
}

impl Frame {
    /// Whether the agent is drawn.
    pub fn shows(&self, agent: Agent) -> bool {
        match self.shown {
            Some((least, greatest)) => least <= agent && agent <= greatest,
            None => true,
        }
    }

    // Whether it is a still picture of that time.
    pub(crate) fn is_at(&self, time: Step) -> bool
        ensures { result ≡ is_at self.now.at time }
    {
        match self.at {
            Some(at) => at.number() == time.number(),
            None => false,
        }
    }

    // Whether the agents move.
    pub(crate) fn moves(&self) -> bool
        ensures { result ≡ moves self.now.at }
    {
        match self.at {
            Some(_) => false,
            None => true,
        }
    }
}

/// The class of what is lit, or none.
pub(crate) fn class_text(lit: bool) -> &'static [u8]
    ensures { result.now ≡ class_text lit }
{
    if lit { b" class='lit'" } else { b"" }
}
