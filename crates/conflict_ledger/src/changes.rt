ghost use Rattle.std.specs.Prelude.{IfOk, OnOk};
ghost use Rattle.plan_table.specs.Route.{route_of};
ghost use Rattle.change_history.specs.Moved.{Follows};
ghost use Rattle.conflict_ledger.specs.Mending.{Enters, TakesOut, TellsShare};

use crate::gather::gather;
use crate::sight::Sight;
use crate::spans::Span;
use crate::turns::{Turn, rings_left};
use change_history::Moves;
use grid_cells::{Agent, OutOfMemory};
use mapf_rules::Conflict;
use plan_table::Track;
use std::alloc::Global;
use std::collections::BTreeSet;
use where_index::WhereIndex;

// What an agent has to do with the entries of a fleet: the entries that name it, the rings of the
// others that its moves break, and those that it joins.
#[derive(Drop)]
pub(crate) struct Share {
    entries: Vec<Conflict>,
    broken: Vec<Conflict>,
    joined: Vec<Conflict>,
}

// The share of the agent with the track at the span's times, beside the others of the index.
pub(crate) fn share_of<'x>(
    alloc: Global,
    agent: Agent,
    track: Track<'x>,
    span: &Span<'x>,
    index: &'x WhereIndex,
) -> Result<Share, OutOfMemory>
    ensures { IfOk result (TellsShare index.now agent (route_of track.entry) span.now) }
{
    let without = Sight {
        index,
        agent,
        shown: None,
    };
    let with = Sight {
        index,
        agent,
        shown: Some(track),
    };
    let entries = gather(alloc, &with, span)?;
    let broken = rings_left(alloc, &without, &with, Turn::Broken, &entries)?;
    let joined = rings_left(alloc, &with, &with, Turn::Joined, &entries)?;
    Ok(Share {
        entries,
        broken,
        joined,
    })
}

// Puts in what comes with the agent whose share it is, and notes what came and went.
pub(crate) fn enter(
    kept: &mut BTreeSet<Conflict>,
    moves: &mut Moves<Conflict>,
    share: Share,
) -> Result<(), OutOfMemory>
    ensures entries { OnOk result (Enters share kept.old.keys kept.new.keys) }
    ensures follows { OnOk result (Follows kept.old.keys kept.new.keys moves.old moves.new) }
{
    moves.take_all(kept, &share.broken);
    moves.put_all(kept, &share.joined)?;
    moves.put_all(kept, &share.entries)
}

// Takes out what goes with the agent whose share it is, and notes what came and went.
pub(crate) fn leave(
    kept: &mut BTreeSet<Conflict>,
    moves: &mut Moves<Conflict>,
    share: Share,
) -> Result<(), OutOfMemory>
    ensures entries { OnOk result (TakesOut share kept.old.keys kept.new.keys) }
    ensures follows { OnOk result (Follows kept.old.keys kept.new.keys moves.old moves.new) }
{
    moves.take_all(kept, &share.joined);
    moves.take_all(kept, &share.entries);
    moves.put_all(kept, &share.broken)
}
