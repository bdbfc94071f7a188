ghost use Rattle.std.specs.Prelude.{◌≡◌, ◌+◌, ◌<◌, ◌≤◌, ◌^◌, length, map};
ghost use Rattle.mapf_rules.specs.Costs.{IsSumOf};

use desk_report::AgentLine;
use grid_cells::MOST_AGENT;

// The number in a wider type.
fn wide(number: u32) -> u64
    ensures is { result ≡ number }
    ensures bound { result < 2 ^ 32 }
{
    u64::from(number)
}

/// The sum of the bounds in steps, if each line has one.
pub(crate) fn sum_of_bounds(lines: &[AgentLine]) -> Option<u64>
    requires { length lines.now ≤ MOST_AGENT + 1 }
    ensures { IsSumOf (map (λ line. line.bound) lines.now) result }
{
    let mut total = 0;
    for line in lines {
        match line.bound {
            Some(bound) => total += wide(bound),
            None => return None,
        }
    }
    Some(total)
}

/// The sum of the gaps in steps, if each line has one.
pub(crate) fn sum_of_gaps(lines: &[AgentLine]) -> Option<u64>
    requires { length lines.now ≤ MOST_AGENT + 1 }
    ensures { IsSumOf (map (λ line. line.gap) lines.now) result }
{
    let mut total = 0;
    for line in lines {
        match line.gap {
            Some(gap) => total += wide(gap),
            None => return None,
        }
    }
    Some(total)
}
