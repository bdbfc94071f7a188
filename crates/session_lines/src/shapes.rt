ghost use Rattle.std.specs.Prelude.{◌≡◌};
ghost use Rattle.bench_reader.specs.Words.{words_of};
ghost use Rattle.session_lines.specs.Shapes.{only_agent, only_cell, only_version, agent_and_cell, time_and_cell, version_and_seconds};

use crate::values::{agent_of, cell_of, seconds_of, time_of, version_named};
use bench_reader::next_word;
use grid_cells::{Agent, Cell, Step};

/// The agent of a line AGENT.
pub(crate) fn only_agent(line: &[u8]) -> Option<Agent>
    ensures { result ≡ only_agent (words_of line.now) }
{
    let (agent, rest) = next_word(line)?;
    let None = next_word(rest) else {
        return None;
    };
    agent_of(agent)
}

/// The cell of a line X,Y.
pub(crate) fn only_cell(line: &[u8]) -> Option<Cell>
    ensures { result ≡ only_cell (words_of line.now) }
{
    let (cell, rest) = next_word(line)?;
    let None = next_word(rest) else {
        return None;
    };
    cell_of(cell)
}

/// The version of a line VERSION.
pub(crate) fn only_version(line: &[u8]) -> Option<u64>
    ensures { result ≡ only_version (words_of line.now) }
{
    let (version, rest) = next_word(line)?;
    let None = next_word(rest) else {
        return None;
    };
    version_named(version)
}

/// The agent and the cell of a line AGENT X,Y.
pub(crate) fn agent_and_cell(line: &[u8]) -> Option<(Agent, Cell)>
    ensures { result ≡ agent_and_cell (words_of line.now) }
{
    let (agent, rest) = next_word(line)?;
    let (cell, rest) = next_word(rest)?;
    let None = next_word(rest) else {
        return None;
    };
    Some((agent_of(agent)?, cell_of(cell)?))
}

/// The time and the cell of a line TIME X,Y.
pub(crate) fn time_and_cell(line: &[u8]) -> Option<(Step, Cell)>
    ensures { result ≡ time_and_cell (words_of line.now) }
{
    let (time, rest) = next_word(line)?;
    let (cell, rest) = next_word(rest)?;
    let None = next_word(rest) else {
        return None;
    };
    Some((time_of(time)?, cell_of(cell)?))
}

/// The version and the seconds of a line VERSION SECONDS.
pub(crate) fn version_and_seconds(line: &[u8]) -> Option<(u64, u32)>
    ensures { result ≡ version_and_seconds (words_of line.now) }
{
    let (version, rest) = next_word(line)?;
    let (seconds, rest) = next_word(rest)?;
    let None = next_word(rest) else {
        return None;
    };
    Some((version_named(version)?, seconds_of(seconds)?))
}
