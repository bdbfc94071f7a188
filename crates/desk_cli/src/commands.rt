//! The program's words, as data.
use crate::arguments::Argument;
use crate::check_options::{FLIP, JSON, ONLY, OWN_CELLS};
use crate::helping::{
    ABOUT, AUDIT_HELP, CHECK_HELP, DRAW_HELP, DRILL_HELP, HOST_HELP, PAGE_HELP, PROGRAM_HELP,
    SERVE_HELP,
};
use crate::options::{
    AGENTS, AGENTS_OF_PATHS, FORM, HISTORY, JOURNAL, JOURNAL_OF_AN_AUDIT, LIMIT, LINES, LOG, MAP,
    MAP_OR_INPUT, MODE, NEEDED_PATHS, PATHS, QUIET, SAVE, SCEN, SCEN_OF_PATHS, SOLVES, SYNC,
    VERBOSE, VERSION, WORKERS,
};
use crate::picture_options::{
    AGENTS_OF_A_PICTURE, AT, JOURNAL_OF_A_PICTURE, LOG_OF_A_PAGE, SHOWN, SOLVES_OF_A_PICTURE, TITLE,
};
use crate::planner_options::{
    LINES_OF_PLANNERS, LINES_OF_SCRIPTS, NAMES, SCRIPTS, VERBOSE_DRILL, WAIT,
};

/// A word, with its arguments in the order in which help names them.
pub(crate) struct Word {
    pub name: &'static str,
    pub about: &'static str,
    pub help: &'static str,
    pub arguments: &'static [Argument],
}

/// The program, without a word.
pub(crate) const PROGRAM: Word = Word {
    name: "mapf_desk",
    about: ABOUT,
    help: PROGRAM_HELP,
    arguments: &[VERSION, VERBOSE],
};

/// The program's words.
pub(crate) const WORDS: [Word; 7] = [
    Word {
        name: "serve",
        about: "Serves one planner's session from standard input to standard output",
        help: SERVE_HELP,
        arguments: &[
            MAP_OR_INPUT,
            SCEN,
            AGENTS,
            LIMIT,
            MODE,
            JOURNAL,
            SAVE,
            LOG,
            SYNC,
            LINES,
            HISTORY,
            VERBOSE,
        ],
    },
    Word {
        name: "audit",
        about: "Prints the report of a map, a scenario's agents and a journal, made from scratch in threads",
        help: AUDIT_HELP,
        arguments: &[
            MAP,
            SCEN,
            AGENTS,
            MODE,
            JOURNAL_OF_AN_AUDIT,
            WORKERS,
            VERBOSE,
        ],
    },
    Word {
        name: "drill",
        about: "Serves planners' scripts at once over one shared desk, and audits what they leave",
        help: DRILL_HELP,
        arguments: &[
            MAP,
            SCEN,
            AGENTS,
            MODE,
            LINES_OF_SCRIPTS,
            HISTORY,
            WORKERS,
            VERBOSE_DRILL,
            SCRIPTS,
        ],
    },
    Word {
        name: "host",
        about: "Shares one desk among planners that are programs of their own, over pipes",
        help: HOST_HELP,
        arguments: &[
            MAP,
            SCEN,
            AGENTS,
            LIMIT,
            MODE,
            JOURNAL,
            SAVE,
            LOG,
            SYNC,
            LINES_OF_PLANNERS,
            HISTORY,
            WAIT,
            WORKERS,
            VERBOSE,
            NAMES,
        ],
    },
    Word {
        name: "check",
        about: "Gives a verdict on the paths that a solver wrote, by its status too",
        help: CHECK_HELP,
        arguments: &[
            MAP,
            NEEDED_PATHS,
            SCEN_OF_PATHS,
            AGENTS_OF_PATHS,
            MODE,
            FORM,
            FLIP,
            SOLVES,
            ONLY,
            OWN_CELLS,
            JSON,
            WORKERS,
            QUIET,
            VERBOSE,
        ],
    },
    Word {
        name: "draw",
        about: "Prints a picture of agents and what the report of them lists, for a browser",
        help: DRAW_HELP,
        arguments: &[
            MAP,
            SCEN,
            AGENTS_OF_A_PICTURE,
            MODE,
            JOURNAL_OF_A_PICTURE,
            PATHS,
            AT,
            SHOWN,
            SOLVES_OF_A_PICTURE,
            VERBOSE,
        ],
    },
    Word {
        name: "page",
        about: "Prints a page that plays plans in a browser, with all that the report of them lists",
        help: PAGE_HELP,
        arguments: &[
            MAP,
            SCEN,
            AGENTS_OF_A_PICTURE,
            MODE,
            JOURNAL_OF_A_PICTURE,
            LOG_OF_A_PAGE,
            PATHS,
            SOLVES,
            TITLE,
            VERBOSE,
        ],
    },
];

/// The arguments of the word of that name.
pub(crate) fn arguments_of(name: &str) -> &'static [Argument] {
    for word in &WORDS {
        if word.name == name {
            return word.arguments;
        }
    }
    &[]
}
