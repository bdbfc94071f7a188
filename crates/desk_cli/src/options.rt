//! The options and files of the program's words.
use crate::arguments::{Argument, Value};

/// A file that may be left out.
pub(crate) const FILE: Argument = Argument {
    name: "",
    short: None,
    value: Value::Text("F"),
    usual: &[],
    is_needed: false,
    excluded: &[],
    help: "",
};

/// An option without a value.
pub(crate) const FLAG: Argument = Argument {
    value: Value::Nothing,
    ..FILE
};

/// The map of a desk; without one it stands first on standard input.
pub(crate) const MAP_OR_INPUT: Argument = Argument {
    name: "map",
    help: "The map, a MovingAI .map file; without it the map stands first on standard input",
    ..FILE
};

/// The map of a word that needs its file.
pub(crate) const MAP: Argument = Argument {
    name: "map",
    is_needed: true,
    help: "The map, a MovingAI .map file",
    ..FILE
};

pub(crate) const SCEN: Argument = Argument {
    name: "scen",
    help: "A MovingAI .scen file, whose first tasks are the agents",
    ..FILE
};

pub(crate) const SCEN_OF_PATHS: Argument = Argument {
    help: "A MovingAI .scen file, whose first tasks are the agents' starts and goals",
    ..SCEN
};

pub(crate) const AGENTS: Argument = Argument {
    name: "agents",
    value: Value::Number("K", 0, 8192),
    usual: &["0"],
    help: "How many agents the scenario gives, from 0 to 8192",
    ..FILE
};

/// Without a number the scenario gives as many agents as there are paths.
pub(crate) const AGENTS_OF_PATHS: Argument = Argument {
    usual: &[],
    help: "How many agents the scenario gives, from 0 to 8192; as many as there are paths if it isn't given",
    ..AGENTS
};

pub(crate) const MODE: Argument = Argument {
    name: "mode",
    value: Value::OneOf("M", &["stay", "disappear"]),
    usual: &["stay"],
    help: "Whether an agent stays at its goal or leaves the map there",
    ..FILE
};

pub(crate) const LIMIT: Argument = Argument {
    name: "limit",
    value: Value::Number("N", 1, 1_000_000),
    usual: &["100000"],
    help: "How many commits the journal takes, from 1 to 1000000",
    ..FILE
};

pub(crate) const JOURNAL: Argument = Argument {
    name: "journal",
    help: "A journal, whose entries are committed first",
    ..FILE
};

pub(crate) const JOURNAL_OF_AN_AUDIT: Argument = Argument {
    help: "A journal, whose entries are committed before the audit",
    ..JOURNAL
};

pub(crate) const SAVE: Argument = Argument {
    name: "save",
    help: "The file that takes the journal at the end of the session, in place of one that is there",
    ..FILE
};

pub(crate) const LOG: Argument = Argument {
    name: "log",
    excluded: &["journal", "save"],
    help: "The log, whose entries are committed first, and which has each commit before it is answered",
    ..FILE
};

pub(crate) const SYNC: Argument = Argument {
    name: "sync",
    value: Value::OneOf("S", &["on", "off"]),
    usual: &["on"],
    help: "Whether a commit is on the disk before it is answered; else it outlives the program alone",
    ..FILE
};

pub(crate) const PATHS: Argument = Argument {
    name: "paths",
    help: "The paths, as a solver wrote them",
    ..FILE
};

pub(crate) const NEEDED_PATHS: Argument = Argument {
    value: Value::Texts("F"),
    is_needed: true,
    help: "The paths, as a solver wrote them; of several files each has a line",
    ..PATHS
};

pub(crate) const FORM: Argument = Argument {
    name: "form",
    value: Value::OneOf(
        "FORM",
        &["time", "agent", "session", "moves", "json", "schedule"],
    ),
    help: "How the paths are written; if it isn't given, their lines say it",
    ..FILE
};

pub(crate) const SOLVES: Argument = Argument {
    name: "solves",
    value: Value::SomeOf("KIND", &["vertex", "edge", "follow", "swap", "cycle"]),
    help: "The kinds of conflicts that count; vertex and swap if none is named",
    ..FILE
};

pub(crate) const QUIET: Argument = Argument {
    name: "quiet",
    help: "Print how many conflicts of each kind there are, and no line for each",
    ..FLAG
};

pub(crate) const WORKERS: Argument = Argument {
    name: "workers",
    value: Value::Number("N", 1, 64),
    usual: &["4"],
    help: "How many threads make the report, from 1 to 64",
    ..FILE
};

pub(crate) const LINES: Argument = Argument {
    name: "lines",
    value: Value::OneOf("V", &["1", "2"]),
    usual: &["1"],
    help: "The version of the session's lines; 2 has more questions",
    ..FILE
};

pub(crate) const HISTORY: Argument = Argument {
    name: "history",
    value: Value::Number("N", 0, 1_000_000_000),
    usual: &["1000000"],
    help: "How many changes of the report are kept for the line changes, from 0 to 1000000000",
    ..FILE
};

pub(crate) const VERBOSE: Argument = Argument {
    name: "verbose",
    short: Some('v'),
    help: "Say more of a fault, in a second line on standard error",
    ..FLAG
};

pub const VERSION: Argument = Argument {
    name: "version",
    short: Some('V'),
    help: "Print the version, and what it is proved with",
    ..FLAG
};
