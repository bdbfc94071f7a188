ghost use Rattle.std.specs.Prelude.{◌≡◌, MatchOption};

use crate::helping::{MAP_PROMPT, SESSION_PROMPT};
use clap::Error;
use grid_cells::Agent;
use mapf_rules::Kinds;
use path_files::Form;
use plan_table::Mode;
use session_lines::LinesVersion;

/// What the words ask for. The files and planners that they name are texts of the words, which stay
/// as long as the program runs.
#[derive(Drop)]
pub enum Words {
    /// What this program is, and what it is proved with.
    Version,
    Serve(ServeWords),
    Audit(AuditWords),
    Drill(DrillWords),
    Host(HostWords),
    Check(CheckWords),
    Draw(DrawWords),
    Page(PageWords),
}

/// The words of `serve`.
#[derive(Drop)]
pub struct ServeWords {
    /// The map's file; without one the map stands first on standard input.
    pub map: Option<&'static str>,
    pub scen: Option<&'static str>,
    /// How many agents the scenario gives, 0 to 8,192.
    pub agents: u32,
    /// How many entries the journal takes, 1 to 1,000,000.
    pub limit: u32,
    pub mode: Mode,
    /// The file of a journal that is committed first.
    pub journal: Option<&'static str>,
    /// The file that the journal is saved in.
    pub save: Option<&'static str>,
    /// The file of a log that keeps the journal as it grows.
    pub log: Option<&'static str>,
    /// Whether an entry is on the disk before it is answered.
    pub is_synced: bool,
    /// The version of the session's lines.
    pub lines: LinesVersion,
    /// How many changes of the report are kept, 0 to 1,000,000,000.
    pub history: u32,
}

impl ServeWords {
    /// What a person reads who is to type the session, and the map before it if none is named.
    pub fn prompt(&self) -> &'static str
        ensures { MatchOption self.now.map (result.now ≡ MAP_PROMPT.now) (λ map. result.now ≡ SESSION_PROMPT.now) }
    {
        match self.map {
            None => MAP_PROMPT,
            Some(_) => SESSION_PROMPT,
        }
    }
}

/// The words of `audit`.
#[derive(Drop)]
pub struct AuditWords {
    pub map: &'static str,
    pub scen: Option<&'static str>,
    /// How many agents the scenario gives, 0 to 8,192.
    pub agents: u32,
    pub mode: Mode,
    /// The file of a journal that is committed first.
    pub journal: Option<&'static str>,
    /// How many threads make the report, 1 to 64.
    pub workers: u32,
}

/// The words of `drill`.
#[derive(Drop)]
pub struct DrillWords {
    pub map: &'static str,
    pub scen: Option<&'static str>,
    /// How many agents the scenario gives, 0 to 8,192.
    pub agents: u32,
    pub mode: Mode,
    /// How many threads make the audit's report, 1 to 64.
    pub workers: u32,
    /// The version of the scripts' lines.
    pub lines: LinesVersion,
    /// How many changes of the report are kept, 0 to 1,000,000,000.
    pub history: u32,
    /// The files of the scripts, in the order of their planners.
    pub scripts: Vec<&'static str>,
}

/// The words of `host`.
#[derive(Drop)]
pub struct HostWords {
    /// The desk that is shared; its map has a file.
    pub desk: ServeWords,
    /// How many seconds a planner may take to come; without it, any number.
    pub wait: Option<u32>,
    /// How many threads make the audit's report, 1 to 64.
    pub workers: u32,
    /// The planners, in their order: each NAME has the files NAME.in and NAME.out.
    pub names: Vec<&'static str>,
}

/// The words of `check`.
#[derive(Drop)]
pub struct CheckWords {
    pub map: &'static str,
    pub scen: Option<&'static str>,
    /// How many agents the scenario gives, 0 to 8,192; without it, as many as there are paths.
    pub agents: Option<u32>,
    pub mode: Mode,
    /// The file of the paths; the first, where several are named.
    pub paths: &'static str,
    /// The files of paths behind it.
    pub more: Vec<&'static str>,
    /// How the paths are written; without it, their first line tells it.
    pub form: Option<Form>,
    /// The conflicts that count.
    pub kinds: Kinds,
    /// Whether conflicts are counted and not listed.
    pub quiet: bool,
    /// Whether only the conflicts that count are listed.
    pub only: bool,
    /// Whether the verdict is one JSON object, and else lines.
    pub is_json: bool,
    /// Whether cells are in the order of coordinates of the file of paths, and else column and row.
    pub own_cells: bool,
    /// How many threads make the report, 1 to 64.
    pub workers: u32,
}

/// The words of `draw`.
#[derive(Drop)]
pub struct DrawWords {
    pub map: &'static str,
    pub scen: Option<&'static str>,
    /// How many agents the scenario gives, 0 to 8,192; without it, as many as there are paths.
    pub agents: Option<u32>,
    pub mode: Mode,
    /// The file of a journal that is committed first; none beside paths.
    pub journal: Option<&'static str>,
    /// The file of the paths; none beside a journal.
    pub paths: Option<&'static str>,
    /// The time of a still picture, in steps.
    pub at: Option<u32>,
    /// The least and the greatest of the agents that are drawn.
    pub shown: Option<(Agent, Agent)>,
    /// The conflicts that the heading's colour goes by, if they are named.
    pub kinds: Option<Kinds>,
}

/// The words of `page`.
#[derive(Drop)]
pub struct PageWords {
    pub map: &'static str,
    pub scen: Option<&'static str>,
    /// How many agents the scenario gives, 0 to 8,192; without it, as many as there are paths.
    pub agents: Option<u32>,
    pub mode: Mode,
    /// The file of a journal, or of a log, that is committed first; none beside paths.
    pub journal: Option<&'static str>,
    /// The file of the paths; none beside a journal.
    pub paths: Option<&'static str>,
    /// The conflicts that count.
    pub kinds: Kinds,
    /// The page's title; without it, the map's file.
    pub title: Option<&'static str>,
}

/// What the words come to.
#[derive(Drop)]
pub enum Asked {
    /// What is asked for, and whether more is to be reported than that asks for.
    For { words: Words, verbose: bool },
    /// Words that aren't the program's, or a request for help.
    Refused(Error),
    NoMemory,
}
