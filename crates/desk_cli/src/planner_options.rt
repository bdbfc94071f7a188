//! The options and files of the words that several planners share a desk by.
use crate::arguments::{Argument, Value};
use crate::options::{FILE, LINES, VERBOSE};

pub(crate) const LINES_OF_SCRIPTS: Argument = Argument {
    help: "The version of the scripts' lines; 2 has more questions",
    ..LINES
};

pub(crate) const LINES_OF_PLANNERS: Argument = Argument {
    usual: &["2"],
    help: "The version of the planners' and the operator's lines; 2 has more questions",
    ..LINES
};

pub(crate) const SCRIPTS: Argument = Argument {
    name: "script",
    value: Value::Listed("SCRIPT"),
    is_needed: true,
    help: "A planner's session, one file for each planner, from 1 to 255 of them",
    ..FILE
};

pub(crate) const WAIT: Argument = Argument {
    name: "wait",
    value: Value::Number("S", 0, 86_400),
    help: "How many seconds a planner may take to come, from 0 to 86400; for ever if it isn't given",
    ..FILE
};

pub(crate) const NAMES: Argument = Argument {
    name: "name",
    value: Value::Listed("NAME"),
    is_needed: true,
    help: "A planner, who writes lines to NAME.in and reads answers from NAME.out; 1 to 255 of them",
    ..FILE
};

pub(crate) const VERBOSE_DRILL: Argument = Argument {
    help: "Say more of a fault, and how the lines of each script were answered, on standard error",
    ..VERBOSE
};
