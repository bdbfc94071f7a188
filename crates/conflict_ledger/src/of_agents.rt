//! The entries that name one of some agents, without the ledger.
ghost use Rattle.std.specs.Prelude.{IfOk};
ghost use Rattle.plan_table.specs.Route.{route_of, tracks_of};
ghost use Rattle.where_index.specs.Index.{StandsFor};
ghost use Rattle.conflict_ledger.specs.Named.{AreNamed, HasNamed, WhereOn};

use crate::gather::gather;
use crate::sight::Sight;
use crate::spans::Span;
use crate::turns::{Turn, rings_left};
use grid_cells::{Agent, List, OutOfMemory};
use mapf_rules::{Conflict, sorted};
use plan_table::{Mode, Plans, Track};
use std::alloc::Global;
use where_index::WhereIndex;

// The entries that name the agent, which the index has with that track: those of two agents, and the
// rings that its moves join. One may come more than once.
fn named_along(
    alloc: Global,
    agent: Agent,
    track: Track<'_>,
    index: &WhereIndex,
) -> Result<Vec<Conflict>, OutOfMemory>
    ensures { IfOk result (λ entries. WhereOn index.now agent (route_of track.entry) (λ fleet. HasNamed fleet agent entries.items)) }
{
    let sight = Sight {
        index,
        agent,
        shown: Some(track),
    };
    let mut entries = gather(alloc, &sight, &Span::whole())?;
    let mut rings = rings_left(alloc, &sight, &sight, Turn::Joined, &entries)?;
    entries.append(&mut rings)?;
    Ok(entries)
}

// The entries of the plans that name the agent: none where it has no plan. The index has the plans'
// tracks. One may come more than once.
fn named_of(
    alloc: Global,
    agent: Agent,
    plans: &Plans,
    mode: Mode,
    index: &WhereIndex,
) -> Result<Vec<Conflict>, OutOfMemory>
    ensures { IfOk result (λ entries. StandsFor index.now (tracks_of mode plans.now.rows) → HasNamed (tracks_of mode plans.now.rows) agent entries.items) }
{
    match plans.row(agent) {
        Some(row) => named_along(alloc, agent, row.track(mode), index),
        None => Ok(Vec::new(alloc)),
    }
}

/// The conflict entries of the plans that name one of those agents, in their order, each once. The
/// index has the plans' tracks. The cost follows what the agents meet along their tracks, whatever the
/// rest of the fleet is.
///
/// # Errors
///
/// Want of memory.
pub fn naming(
    alloc: Global,
    agents: &[Agent],
    plans: &Plans,
    mode: Mode,
    index: &WhereIndex,
) -> Result<List<Conflict>, OutOfMemory>
    ensures { IfOk result (λ entries. StandsFor index.now (tracks_of mode plans.now.rows) → AreNamed (tracks_of mode plans.now.rows) agents.now entries) }
{
    let mut entries = Vec::new(alloc);
    for agent in agents {
        let mut named = named_of(alloc, *agent, plans, mode, index)?;
        entries.append(&mut named)?;
    }
    Ok(sorted(entries))
}
