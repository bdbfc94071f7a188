//! What a commit would change in the report.
ghost use Rattle.std.specs.Prelude.{◌≡◌};

use super::{Changing, Question};
use crate::desks::Desk;
use desk_commits::{Commit, Refusal};
use desk_report::Changes;

/// The version that the commit would make, and what it would change in the report. The desk is
/// afterwards as before, and nobody else sees it otherwise.
///
/// # Errors
///
/// The first reason to refuse the commit, as `commit` answers it, or want of memory.
#[derive(Debug, Drop)]
pub struct Trying {
    pub commit: Commit,
}

impl Question for Trying {
    type Answer = Result<(u64, Changes), Refusal>;

    ghost use Rattle.desk_commits.specs.Changed.{TellsTrial};

    ghost answers = { λ question desk answer. TellsTrial desk question.commit answer };

    fn put(&self, desk: &mut Desk) -> Result<(u64, Changes), Refusal> {
        let question = Changing {
            version: desk.journal.len() as u64,
        };
        match desk.try_out(&self.commit, &question, usize::MAX) {
            Ok((version, Ok((_, changes)))) => Ok((version, changes)),
            Ok((_, Err(_))) => Err(Refusal::OutOfMemory),
            Err(refusal) => Err(refusal),
        }
    }
}
