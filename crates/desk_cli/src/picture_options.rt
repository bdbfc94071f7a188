//! The options of the words that show a scene, in a picture or a page.
use crate::arguments::{Argument, Value};
use crate::options::{AGENTS_OF_PATHS, FILE, JOURNAL, LOG, SOLVES};

pub(crate) const AGENTS_OF_A_PICTURE: Argument = Argument {
    help: "How many agents the scenario gives, from 0 to 8192; if it isn't given as many as there are paths, or 0 without paths",
    ..AGENTS_OF_PATHS
};

pub(crate) const JOURNAL_OF_A_PICTURE: Argument = Argument {
    excluded: &["paths"],
    help: "A journal, whose entries are committed first",
    ..JOURNAL
};

pub(crate) const LOG_OF_A_PAGE: Argument = Argument {
    excluded: &["journal", "paths"],
    help: "A log, whose entries are committed first",
    ..LOG
};

pub(crate) const AT: Argument = Argument {
    name: "at",
    value: Value::Number("T", 0, u32::MAX),
    help: "The time of a still picture, in steps; without it the agents move",
    ..FILE
};

pub(crate) const SHOWN: Argument = Argument {
    name: "agents-shown",
    value: Value::Text("A-B"),
    help: "The agents that are drawn, as 0-9; all if it isn't given",
    ..FILE
};

/// Without kinds the heading's colour goes by all of them.
pub(crate) const SOLVES_OF_A_PICTURE: Argument = Argument {
    help: "The kinds of conflicts that the heading's colour goes by; all if none is named",
    ..SOLVES
};

pub(crate) const TITLE: Argument = Argument {
    name: "title",
    value: Value::Text("T"),
    help: "The page's title; the map's file if it isn't given",
    ..FILE
};
