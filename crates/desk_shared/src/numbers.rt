//! The planner numbers that a pass may give away: at each number whether it may.
ghost use Rattle.std.specs.Prelude.{◌≡◌, ℕ, false, slice_index_or, IfSome, IfNone};
ghost use Rattle.desk_shared.specs.Calls.{MayShare, HasNumbers, either_of};
ghost use Rattle.desk_shared.specs.Numbers.{IsLeastTrue};

use grid_cells::Planner;

// The numbers from 1 up to that one.
pub(crate) fn numbers_to(planners: u32) -> [bool; 256]
    requires { MayShare planners }
    ensures { HasNumbers planners result }
{
    let mut unused = [false; 256];
    for number in 1..planners as usize {
        unused[number] = true;
    }
    unused
}

// The least number, if there is one.
pub(crate) fn least(unused: &[bool; 256]) -> Option<Planner>
    ensures some { IfSome result (IsLeastTrue unused.now) }
    ensures none { IfNone result ((u : ℕ) → slice_index_or unused.now u false ≡ false) }
{
    for number in 0..256u32 {
        if unused[number as usize] {
            let Some(planner) = Planner::new(number) else {
                unreachable!()
            };
            return Some(planner);
        }
    }
    None
}

// Adds the others.
pub(crate) fn merge(unused: &mut [bool; 256], others: &[bool; 256])
    ensures { unused.new ≡ either_of unused.old others.now }
{
    for number in 0..256 {
        unused[number] = unused[number] || others[number];
    }
}
