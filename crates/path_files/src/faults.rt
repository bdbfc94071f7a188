use std::error::Error;
use std::fmt;

/// A member of an object of JSON that tells paths.
#[derive(Clone, Copy)]
pub enum Member {
    TeamSize,
    Start,
    /// `actualPaths`, or where there is none `plannerPaths`.
    Paths,
}

/// Why a text is no file of paths. Lines count from 1, blank ones too; cells of a line from 0.
#[derive(Clone, Copy)]
pub enum PathsFault {
    /// No line begins a form; this is the first one that isn't blank and no remark.
    NoForm { line: usize },
    /// `agents=` without a number.
    BadHeader { line: usize },
    /// A second line `starts=`, `goals=` or `agents=`.
    RepeatedList { line: usize },
    /// The text is over before `solution=` and before its first time.
    MissingSolution,
    /// The line doesn't begin with the next time and a colon, and times come behind it.
    BadTime { line: usize },
    /// The line is of an agent that has a path already, or of none, and agents come behind it: by agent
    /// it doesn't begin with `Agent`, a space, a number and a colon.
    BadAgent { line: usize },
    /// The line is no line `path AGENT CELL..` of a session.
    BadPath { line: usize },
    /// What stands there is no cell, or isn't parted from the one before as the form says, or is
    /// more than may stand at the end.
    BadCell { line: usize, cell: usize },
    /// A list without a cell.
    NoCells { line: usize },
    /// Another number of cells than in the first line of a time.
    CellCount { line: usize },
    /// The line is of more than `MOST_AGENTS` agents, or of one whose number isn't below that.
    TooManyAgents { line: usize },
    /// What stands there is no move; moves count from 0.
    BadMove { line: usize, time: usize },
    /// The text is no object of JSON: what stands there may not, or more should stand behind it. The
    /// column counts the bytes of the line that stand before it.
    BadJson { line: usize, column: usize },
    /// The action model is MAPF_T, where robots turn.
    TurningRobots,
    /// The action model is neither that nor MAPF.
    OtherModel,
    /// A size that is no number below 2^32; or a list that is none, or isn't there.
    BadMember { member: Member },
    /// The agent's start is no list of a row and a column.
    BadStart { agent: usize },
    /// What stands there in the agent's path is no move, or its path is no text; moves count from 0.
    BadAction { agent: usize, time: usize },
    /// There are more than `MOST_AGENTS` starts or paths.
    TooManyPaths,
    /// A quote isn't closed.
    OpenQuote,
    /// The paths are moves, and there is no scenario that says where agents start.
    NoStarts,
    /// The agent has no path, and one with a greater number has.
    MissingAgent { agent: usize },
    /// The text has no path, or says that the solver found none.
    NoPaths,
    /// The line isn't that of the agent's place at that time, or not all of that is told before an agent.
    BadPlace { line: usize, time: usize },
    /// The text is over before the last agent's place at that time is told.
    MissingPlace { time: usize },
    /// The text is over before `schedule:`.
    MissingSchedule,
    /// There was no memory.
    OutOfMemory,
}

// What is wrong with the member.
fn told_of(member: Member) -> &'static str {
    match member {
        Member::TeamSize => "teamSize is no number",
        Member::Start => "start is no list",
        Member::Paths => "no list actualPaths or plannerPaths",
    }
}

impl PathsFault {
    // What is wrong, and in which line.
    fn told(self) -> (&'static str, Option<usize>) {
        match self {
            PathsFault::NoForm { line } => ("no form of paths", Some(line)),
            PathsFault::BadHeader { line } => ("bad header", Some(line)),
            PathsFault::RepeatedList { line } => ("repeated list", Some(line)),
            PathsFault::MissingSolution => ("missing solution", None),
            PathsFault::BadTime { line } => ("bad time", Some(line)),
            PathsFault::BadAgent { line } => ("bad agent", Some(line)),
            PathsFault::BadPath { line } => ("bad path", Some(line)),
            PathsFault::BadCell { line, .. } => ("bad cell", Some(line)),
            PathsFault::NoCells { line } => ("no cells", Some(line)),
            PathsFault::CellCount { line } => ("cell count", Some(line)),
            PathsFault::TooManyAgents { line } => ("too many agents", Some(line)),
            PathsFault::BadMove { line, .. } => ("bad move", Some(line)),
            PathsFault::BadJson { line, .. } => ("bad JSON", Some(line)),
            PathsFault::TurningRobots => ("actionModel MAPF_T turns robots", None),
            PathsFault::OtherModel => ("actionModel isn't MAPF", None),
            PathsFault::BadMember { member } => (told_of(member), None),
            PathsFault::BadStart { .. } => ("bad start", None),
            PathsFault::BadAction { .. } => ("bad move", None),
            PathsFault::TooManyPaths => ("too many agents", None),
            PathsFault::OpenQuote => ("open quote", None),
            PathsFault::NoStarts => ("moves need --scen", None),
            PathsFault::MissingAgent { .. } => ("missing agent", None),
            PathsFault::NoPaths => ("no paths", None),
            PathsFault::BadPlace { line, .. } => ("bad place", Some(line)),
            PathsFault::MissingPlace { .. } => ("missing place", None),
            PathsFault::MissingSchedule => ("missing schedule", None),
            PathsFault::OutOfMemory => ("out of memory", None),
        }
    }
}

impl fmt::Display for PathsFault {
    fn fmt<W: fmt::Write>(&self, f: &mut fmt::Formatter<W>) -> fmt::Result {
        if let PathsFault::BadCell { line, cell } = self {
            return write!(f, "bad cell {cell} in line {line}");
        }
        if let PathsFault::BadMove { line, time } = self {
            return write!(f, "bad move {time} in line {line}");
        }
        if let PathsFault::BadJson { line, column } = self {
            return write!(f, "bad JSON in line {line}, column {column}");
        }
        if let PathsFault::BadStart { agent } = self {
            return write!(f, "bad start of agent {agent}");
        }
        if let PathsFault::BadAction { agent, time } = self {
            return write!(f, "bad move {time} of agent {agent}");
        }
        if let PathsFault::MissingAgent { agent } = self {
            return write!(f, "missing agent {agent}");
        }
        if let PathsFault::BadPlace { line, time } = self {
            return write!(f, "bad place {time} in line {line}");
        }
        if let PathsFault::MissingPlace { time } = self {
            return write!(f, "missing place {time}");
        }
        match self.told() {
            (what, Some(line)) => write!(f, "{what} in line {line}"),
            (what, None) => f.write_str(what),
        }
    }
}

impl fmt::Debug for PathsFault {
    fn fmt<W: fmt::Write>(&self, f: &mut fmt::Formatter<W>) -> fmt::Result {
        fmt::Display::fmt(self, f)
    }
}

impl Error for PathsFault {}
