//! What each step on the table tells.
ghost use Rattle.desk_shared.specs.Turns.{reached, won, grew, freed, fronted, asided, giver, given, both, nobody, joined};

use crate::board::Known;
use atomic_table::{Join, Play, Split};
use desk_core::Desk;

pub(crate) struct Reach;

impl Play<Option<Desk>, Known> for Reach {
    ghost then = { reached };
}

pub(crate) struct Win;

impl Play<Option<Desk>, Known> for Win {
    ghost then = { won };
}

pub(crate) struct Grow;

impl Play<Option<Desk>, Known> for Grow {
    ghost then = { grew };
}

pub(crate) struct Free;

impl Play<Option<Desk>, Known> for Free {
    ghost then = { freed };
}

pub(crate) struct Front;

impl Play<Option<Desk>, Known> for Front {
    ghost then = { fronted };
}

pub(crate) struct Aside;

impl Play<Option<Desk>, Known> for Aside {
    ghost then = { asided };
}

pub(crate) struct Give;

impl Split<Known> for Give {
    ghost left = { giver };

    ghost right = { given };
}

pub(crate) struct Merge;

impl Join<Known> for Merge {
    ghost both = { both };

    ghost spent = { nobody };
}

pub(crate) struct Compare;

impl Play<Option<Desk>, Known> for Compare {
    ghost then = { joined };
}
