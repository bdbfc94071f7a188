//! The threads of an audit: one for each piece, under a promise that says what its part is.
ghost use Rattle.std.specs.Prelude.{◌≡◌, ◌≤◌, ◌<◌, ◌^◌, ◌+◌, false, length, map, IfOk, IfSome};
ghost use Rattle.plan_table.specs.Route.{tracks_of};
ghost use Rattle.scene_edits.specs.Scene.{IsScene};
ghost use Rattle.desk_audit.specs.Index.{IsIndexOf};
ghost use Rattle.desk_audit.specs.Parts.{IsPart, edge};
ghost use Rattle.desk_audit.specs.Pieces.{IsOfPieces};

use crate::gates::Gate;
use crate::parts::Part;
use crate::sightings::Sightings;
use grid_cells::OutOfMemory;
use scene_edits::Scene;
use std::alloc::Global;
use std::thread::{Promise, PromisedHandle, Scope, Threads};

// The agents of the scene at ranks from one on and before another.
#[derive(Clone, Copy)]
pub(crate) struct Piece<'a> {
    pub scene: &'a Scene,
    pub from: u32,
    pub to: u32,
}

impl<'a> Promise<Result<Part, OutOfMemory>> for Piece<'a> {
    ghost kept_by = { λ p r. IfOk r (IsPart p.scene.now.grid p.scene.now.mode p.scene.now.rows p.from p.to) };
}

/// The part of a piece, which begins at the gate.
pub(crate) fn part_of<G: Gate>(
    alloc: Global,
    scene: &Scene,
    index: &[Sightings],
    from: u32,
    to: u32,
    piece: u32,
    gate: &G,
) -> Result<Part, OutOfMemory>
    requires order { from ≤ to }
    requires within { to ≤ length scene.now.rows }
    requires index { IsIndexOf (tracks_of scene.now.mode scene.now.rows) index.now }
    ensures { IfOk result (IsPart scene.now.grid scene.now.mode scene.now.rows from to) }
{
    gate.begins(piece);
    Part::of(
        alloc,
        scene.grid(),
        scene.mode(),
        scene.plans(),
        index,
        from,
        to,
    )
}

// Where a piece begins, and the one before it ends.
fn edge_of(agents: u32, workers: u32, piece: u32) -> u32
    requires some { 0 < workers }
    requires within { piece ≤ workers }
    ensures edge { result ≡ edge agents workers piece }
    ensures within { result ≤ agents }
{
    (u64::from(piece) * u64::from(agents) / u64::from(workers)) as u32
}

// The part of all agents, where each piece has a thread of its own; none where a growth or the
// start of a thread was refused. Each thread that was started is joined.
pub(crate) fn in_scope<'s, E: 's, G: Gate, R: Threads>(
    rt: &R,
    alloc: Global,
    scope: &'s Scope<'s, E>,
    scene: &'s Scene,
    index: &'s [Sightings],
    workers: u32,
    gate: &'s G,
) -> Option<Part>
    requires some { 0 < workers }
    requires index { IsIndexOf (tracks_of scene.now.mode scene.now.rows) index.now }
    ensures { IfSome result (IsPart scene.now.grid scene.now.mode scene.now.rows 0 (length scene.now.rows)) }
{
    let mut children: Vec<PromisedHandle<Result<Part, OutOfMemory>, Piece<'s>>> = Vec::new(alloc);
    let mut lost = false;
    let mut from = 0;
    'pieces: for piece in 0..workers {
        let to = edge_of(scene.plans().count(), workers, piece + 1);
        let Ok(child) = scope.spawn_with(
            Piece { scene, from, to },
            move || -> Result<Part, OutOfMemory>
                requires order { from ≤ to }
                requires within { to ≤ length scene.now.rows }
                requires index { IsIndexOf (tracks_of scene.now.mode scene.now.rows) index.now }
                ensures { IfOk result (IsPart scene.entry.now.grid scene.entry.now.mode scene.entry.now.rows from to) }
            { part_of(alloc, scene, index, from, to, piece, gate) },
        ) else {
            lost = true;
            break;
        };
        if let Err(refused) = children.push(child) {
            let _ = refused.value.join(rt);
            lost = true;
            break;
        }
        from = to;
    }
    joined(rt, alloc, scene, children, lost)
}

// The parts that the threads answer, put together in turn; none where memory was refused, to one of
// them or here, or where one is known to be lost. Each thread is joined.
fn joined<'s, R: Threads>(
    rt: &R,
    alloc: Global,
    scene: &'s Scene,
    children: Vec<PromisedHandle<Result<Part, OutOfMemory>, Piece<'s>>>,
    lost: bool,
) -> Option<Part>
    ensures all { IfSome result (λ whole. lost ≡ false) }
    ensures part { IfSome result (IsOfPieces scene.now (map (λ child. child.promise) children.entry.items)) }
{
    let mut lost = lost;
    let _agents = scene.plans();
    let mut whole = Part::new(alloc);
    'joins: for child in children {
        match child.join(rt) {
            Ok(part) => match whole.append(part) {
                Ok(()) => {}
                Err(_) => lost = true,
            },
            Err(_) => lost = true,
        }
    }
    if lost {
        return None;
    }
    Some(whole)
}
