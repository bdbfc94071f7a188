//! The log of a session, which goes on from the head that it has.
ghost use Rattle.std.specs.Prelude.{ℕ, List};
ghost use Rattle.desk_log.specs.Keeping.{IsLogged, IsLoggedInPart};

use crate::keeping::LogKeeper;
use commit_log::Log;
use desk_core::Desk;
use session_protocol::{KeepFailed, Keeper};
use std::marker::{Brand, PhantomData};

/// What a log begins with, of which clauses alone speak.
pub trait HasHead {
    ghost head: { List ℕ };
}

impl HasHead for Brand {
    ghost use Rattle.std.specs.Prelude.{[]};

    ghost head = { [] };
}

/// What keeps the entries of a desk in a log of that head.
#[derive(Drop)]
pub struct HeadedKeeper<L: Log, H: HasHead> {
    pub keeper: LogKeeper<L>,
    pub of: PhantomData<H>,
}

impl<L: Log, H: HasHead> Keeper<Desk> for HeadedKeeper<L, H> {
    ghost keeps = { λ it desk. IsLogged H.head (L.text it.keeper.writer.log) (L.kept it.keeper.writer.log) it.keeper.writer.count
        it.keeper.writer.check desk.journal };

    ghost keeps_some = { λ it before desk. IsLoggedInPart H.head (L.text it.keeper.writer.log) (L.kept it.keeper.writer.log) before.journal desk.journal };

    ghost has_failed = { λ it. it.keeper.has_failed };

    fn keep(&mut self, desk: &Desk) -> Result<(), KeepFailed> {
        self.keeper.keep_rest(desk.journal())
    }
}
