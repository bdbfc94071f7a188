ghost use Rattle.std.specs.Prelude.{◌≡◌};
ghost use Rattle.path_files.specs.Costs.{begins_paths, cost_behind, cost_told, costs_of, with_costs};

use crate::forms::told_by;
use crate::lines::{behind, behind_blanks, next_written, without_mark};
use crate::schedule_lines::is_statistics;
use bench_reader::number_of;

/// The costs that a text states before its paths, in steps: the sum of the agents' costs and the
/// makespan.
#[derive(Clone, Copy)]
pub struct Costs {
    pub soc: Option<u32>,
    pub makespan: Option<u32>,
}

// The number behind the key, where the line begins with the key and ends with a number.
fn cost_behind(key: &[u8], line: &[u8]) -> Option<u32>
    ensures { result ≡ cost_behind key.now line.now }
{
    number_of(behind_blanks(behind(key, line)?))
}

// The same behind one of two keys.
fn cost_told(key: &[u8], other: &[u8], line: &[u8]) -> Option<u32>
    ensures { result ≡ cost_told key.now other.now line.now }
{
    cost_behind(key, line).or(cost_behind(other, line))
}

// The costs with those of one more line, which counts where none was stated before.
fn with_costs(costs: Costs, line: &[u8]) -> Costs
    ensures { result ≡ with_costs costs line.now }
{
    Costs {
        soc: costs.soc.or(cost_told(b"soc=", b"cost:", line)),
        makespan: costs
            .makespan
            .or(cost_told(b"makespan=", b"makespan:", line)),
    }
}

// Whether the paths begin with the line.
fn begins_paths(line: &[u8]) -> bool
    ensures { result ≡ begins_paths line.now }
{
    told_by(line).is_some() && !is_statistics(line)
}

/// The costs that a text of paths states before the first line that tells its form: the first number
/// behind `soc=` or `cost:`, and behind `makespan=` or `makespan:`. What isn't a number there states none.
pub fn costs_of(text: &[u8]) -> Costs
    ensures { result ≡ costs_of text.now }
{
    let mut costs = Costs {
        soc: None,
        makespan: None,
    };
    let mut rest = without_mark(text);
    let mut number = 1;
    while let Some((line, bytes, below)) = next_written(rest, number) {
        if begins_paths(bytes) {
            return costs;
        }
        costs = with_costs(costs, bytes);
        rest = below;
        number = line + 1;
    }
    costs
}
