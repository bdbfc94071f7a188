ghost use Rattle.std.specs.Prelude.{◌≡◌, ◌≢◌, ◌+◌, ◌<◌, min, max, Some, IfSome, IsTrue};
ghost use Rattle.plan_table.specs.Route.{Fleet, position_of};
ghost use Rattle.mapf_rules.specs.declared.entries.Conflict.{Conflict};
ghost use Rattle.mapf_rules.specs.declared.entries.Conflict.TheVariants.{Parked};
ghost use Rattle.mapf_rules.specs.Entries.{IsVertex, IsParked, IsEdge, IsFollowing, IsSwapping};
ghost use Rattle.mapf_rules.specs.ConflictList.{Stands};
ghost use Rattle.mapf_rules.specs.Naming.{IsOfPair};
ghost use Rattle.conflict_ledger.specs.Sight.{AreTogether, IfPasses, InView, Sees, WhereClose};

use crate::sight::Sight;
use grid_cells::{Agent, Cell, Step};
use mapf_rules::Conflict;

// Where the agent meets the other one of an entry: beside it as the step begins, ahead of it then, or
// behind it as the step ends. What is known of the two by the place is not looked up again below.
#[derive(Clone, Copy)]
pub(crate) enum Place {
    Beside,
    Ahead,
    Behind,
}

// A position of the agent's path: it is here at the time, comes from the cell before in the step that
// begins at `past`, and goes on to the next one. Where the step that leads here is not asked about,
// `past` is the time, and `before` is here; `goes` tells whether the step on from here is.
#[derive(Clone, Copy)]
pub(crate) struct Stop {
    pub past: u32,
    pub time: u32,
    pub before: Cell,
    pub here: Cell,
    pub next: Cell,
    pub goes: bool,
}

// The lesser and the greater of two agents.
pub(crate) fn in_order(one: Agent, other: Agent) -> (Agent, Agent)
    ensures { (result.0 ≡ min one other) × (result.1 ≡ max one other) }
{
    if one < other {
        (one, other)
    } else {
        (other, one)
    }
}

// The entry of two agents that are in the cell at the time: Vertex or Parked, and never both. Where one
// of them is known to pass, nothing is looked up.
pub(crate) fn meeting_of(
    sight: &Sight<'_>,
    passing: bool,
    time: u32,
    first: Agent,
    second: Agent,
    cell: Cell,
) -> Option<Conflict>
    ensures stands { IfPasses sight.now passing time first second (λ fleet. AreTogether fleet time first second cell → IfSome result (Stands fleet)) }
    ensures pair { IfSome result (λ entry. IsOfPair entry time first second) }
    ensures vertex { (fleet : Fleet) → Sees sight.now fleet → IsVertex fleet time first second cell → result ≡ Some (Conflict.Vertex time first second cell) }
    ensures parked { IfPasses sight.now passing time first second (λ fleet.
        IsParked fleet time first second cell → result ≡ Some (Parked time first second cell)) }
{
    if passing || sight.passes(time, first, second) {
        return Some(Conflict::Vertex {
            time: Step::new(time),
            first,
            second,
            cell,
        });
    }
    if time == sight.both_end(first, second) {
        Some(Conflict::Parked {
            time: Step::new(time),
            first,
            second,
            cell,
        })
    } else {
        None
    }
}

// The Edge entry of two agents, if they share the move from the cell to the next.
pub(crate) fn edge_of(
    shares: bool,
    time: u32,
    first: Agent,
    second: Agent,
    cell: Cell,
    next: Cell,
) -> Option<Conflict>
    ensures stands { (fleet : Fleet) → (IsTrue shares → IsEdge fleet time first second cell next) → IfSome result (Stands fleet) }
    ensures pair { IfSome result (λ entry. IsOfPair entry time first second) }
    ensures found { IsTrue shares → result ≡ Some (Conflict.Edge time first second cell next) }
{
    if shares {
        Some(Conflict::Edge {
            time: Step::new(time),
            first,
            second,
            cell,
            next,
        })
    } else {
        None
    }
}

// The Following entry of two agents, of whom the leader is in the cell at the time, and the follower
// one step later. Where it is known to stand, nothing is looked up.
pub(crate) fn following_of(
    sight: &Sight<'_>,
    known: bool,
    time: u32,
    follower: Agent,
    leader: Agent,
    cell: Cell,
) -> Option<Conflict>
    requires { time < u32.MAX }
    ensures stands { InView sight.now (λ fleet. WhereClose known fleet time follower leader cell (IfSome result (Stands fleet))) }
    ensures pair { IfSome result (λ entry. IsOfPair entry time follower leader) }
    ensures found { InView sight.now (λ fleet. IsFollowing fleet time follower leader cell → result ≡ Some (Conflict.Following time follower leader cell)) }
{
    let follows = known
        || (!sight.is_at(follower, time, cell) && sight.has_position(leader, time + 1));
    if follows {
        Some(Conflict::Following {
            time: Step::new(time),
            follower,
            leader,
            cell,
        })
    } else {
        None
    }
}

// The Swapping entry of two agents in this order, each in its own cell at the time, if they change
// places.
pub(crate) fn swapping_of(
    swaps: bool,
    time: u32,
    first: Agent,
    second: Agent,
    cell: Cell,
    other: Cell,
) -> Option<Conflict>
    ensures stands { (fleet : Fleet) → (IsTrue swaps → first < second → IsSwapping fleet time first second cell other) → IfSome result (Stands fleet) }
    ensures pair { IfSome result (λ entry. IsOfPair entry time first second) }
    ensures found { IsTrue swaps → first < second → result ≡ Some (Conflict.Swapping time first second cell other) }
{
    if swaps && first < second {
        Some(Conflict::Swapping {
            time: Step::new(time),
            first,
            second,
            cell,
            other,
        })
    } else {
        None
    }
}
