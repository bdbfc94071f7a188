ghost use Rattle.std.specs.Prelude.{◌≡◌, ◌⊎◌, [], ◌∷◌, ◌++◌, None, MatchOption, OnOk, IfErr};
ghost use Rattle.bench_reader.specs.Words.{words_of};
ghost use Rattle.session_lines.specs.Agents.{agents_named};
ghost use Rattle.session_lines.specs.Faults.{IsShaped};
ghost use Rattle.session_lines.specs.Values.{agent_of};
ghost use Rattle.session_lines.specs.declared.requests.LineFault.TheVariants.{Shape, OutOfMemory};

use crate::requests::LineFault;
use crate::values::agent_of;
use bench_reader::next_word;
use grid_cells::{Agent, List};
use std::alloc::Global;

// Adds the agent that a word names.
fn add_agent(agents: &mut Vec<Agent>, word: &[u8]) -> Result<(), LineFault>
    ensures ok { OnOk result (MatchOption (agent_of word.now) ⊥ (λ agent. agents.new.items ≡ agents.old.items ++ agent ∷ [])) }
    ensures err { IfErr result (λ fault. (fault ≡ OutOfMemory) ⊎ ((fault ≡ Shape) × (agent_of word.now ≡ None))) }
{
    let Some(agent) = agent_of(word) else {
        return Err(LineFault::Shape);
    };
    agents.push(agent).map_err(|_| LineFault::OutOfMemory)
}

/// The agents that the words of a line name.
///
/// # Errors
/// `Shape` where a word names no agent, or want of memory.
pub(crate) fn agents_of(alloc: Global, line: &[u8]) -> Result<List<Agent>, LineFault>
    ensures { IsShaped (agents_named (words_of line.now)) result }
{
    let mut agents = Vec::new(alloc);
    let mut rest = line;
    while let Some((word, behind)) = next_word(rest) {
        add_agent(&mut agents, word)?;
        rest = behind;
    }
    Ok(List::new(agents))
}
