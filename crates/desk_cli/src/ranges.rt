//! Ranges of agents, as `0-9`.
ghost use Rattle.std.specs.Prelude.{◌≡◌, [], MatchOption};
ghost use Rattle.std.specs.List.{after_first, before_first};
ghost use Rattle.session_lines.specs.Values.{agent_of};
ghost use Rattle.desk_cli.specs.Values.{is_hyphen, range_of};

use bench_reader::number_of;
use grid_cells::Agent;

// The agent of that number in decimal digits, if it is one.
fn agent_of(digits: &str) -> Option<Agent>
    ensures { result ≡ agent_of digits.now }
{
    Agent::new(number_of(digits.as_bytes())?)
}

// What stands before the first hyphen, and behind it.
fn parts(text: &str) -> Option<(&str, &str)>
    ensures { MatchOption result (after_first is_hyphen text.now ≡ [])
        (λ r. (r.0.now ≡ before_first is_hyphen text.now) × (r.1.now ≡ after_first is_hyphen text.now)) }
{
    text.split_once('-')
}

/// The two agents of a text `A-B`, if it is one, and the first isn't greater than the second.
pub(crate) fn range_of(text: &str) -> Option<(Agent, Agent)>
    ensures { result ≡ range_of text.now }
{
    let (least, greatest) = parts(text)?;
    let (least, greatest) = (agent_of(least)?, agent_of(greatest)?);
    if least.number() <= greatest.number() {
        Some((least, greatest))
    } else {
        None
    }
}
