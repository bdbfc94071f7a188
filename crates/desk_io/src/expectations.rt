//! What should stand where a file of paths has a fault.
ghost use Rattle.std.specs.Prelude.{◌≡◌};
ghost use Rattle.desk_io.specs.Expectations.{expected_text};

use path_files::PathsFault;

/// What should stand in the line that a fault of a file of paths is about.
pub(crate) fn expected(why: PathsFault) -> &'static str
    ensures { result.now ≡ expected_text why }
{
    match why {
        PathsFault::NoForm { .. } => {
            "0:(X,Y),.., Agent 0: (ROW,COLUMN)->.., path 0 X,Y .., {JSON}, schedule: or moves udlrw"
        }
        PathsFault::BadHeader { .. } => "a number of agents",
        PathsFault::RepeatedList { .. } => "that once",
        PathsFault::BadTime { .. } => "the next time T, as T:(X,Y),(X,Y),..",
        PathsFault::BadAgent { .. } => "Agent N: (ROW,COLUMN)->.. or agentN:, each N once",
        PathsFault::BadPath { .. } => "path AGENT X,Y X,Y ..",
        PathsFault::BadCell { .. } => "a cell, as (3,0)",
        PathsFault::BadMove { .. } => "u, d, l, r or w",
        PathsFault::BadJson { .. } => "JSON",
        PathsFault::NoCells { .. } => "a cell at least",
        PathsFault::CellCount { .. } => "as many cells as at time 0",
        PathsFault::TooManyAgents { .. } => "8192 agents at most",
        PathsFault::BadPlace { .. } => "a line each of - x: X, y: Y and t: T, the next time",
        _ => "a path",
    }
}
