//! What a desk is asked: each question is a type, with what may be answered to it.
ghost use Rattle.std.specs.Prelude.{◌≡◌};
ghost use Rattle.desk_commits.specs.State.{DeskState};

mod changes;
mod places;
mod reports;
mod trials;
mod trying;

use crate::desks::Desk;
pub use changes::Changing;
pub use places::{Distance, Planning, Probing, Standing};
pub use reports::{Copying, Cutting, Showing, Solving};
pub use trials::Trial;
pub use trying::Trying;

/// A question that a desk is asked, which changes nothing.
pub trait Question {
    type Answer;

    /// What may be answered of a desk.
    ghost answers: { Self → DeskState → Self.Answer → Type 0 };

    /// Puts it to the desk.
    fn put(&self, desk: &mut Desk) -> Self::Answer
        ensures answer { answers self.now desk.old result }
        ensures same { desk.new ≡ desk.old };
}

impl Desk {
    /// Answers the question.
    pub fn ask<Q: Question>(&mut self, question: &Q) -> Q::Answer
        ensures answer { Q.answers question.now self.old result }
        ensures same { self.new ≡ self.old }
    {
        question.put(self)
    }
}
