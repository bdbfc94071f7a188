//! The threads that make the index of an audit: one for each share of the times, under a promise that
//! says what its sightings are.
ghost use Rattle.std.specs.Prelude.{◌≡◌, ◌<◌, ◌++◌, ◌∷◌, [], false, map, IfOk, IfSome, OnOk};
ghost use Rattle.plan_table.specs.Route.{tracks_of};
ghost use Rattle.desk_audit.specs.Index.{IsIndexOf, IsShareOf};
ghost use Rattle.desk_audit.specs.Pieces.{IsOfShares};

use crate::sightings::{Share, Sightings};
use grid_cells::OutOfMemory;
use scene_edits::Scene;
use std::alloc::Global;
use std::sync::Wait;
use std::thread;
use std::thread::{Promise, PromisedHandle, Scope, Threads};

// The sightings of the scene at the times of a share.
#[derive(Clone, Copy)]
pub(crate) struct Sought<'a> {
    pub scene: &'a Scene,
    pub share: Share,
}

impl<'a> Promise<Result<Sightings, OutOfMemory>> for Sought<'a> {
    ghost kept_by = { λ p r. IfOk r (IsShareOf (tracks_of p.scene.now.mode p.scene.now.rows) p.share) };
}

/// The index of the scene in so many shares, each made by a thread of its own; none where a growth or
/// the start of a thread was refused.
pub(crate) fn index_of<R: Threads + Wait>(
    rt: &R,
    alloc: Global,
    scene: &Scene,
    many: u32,
) -> Option<Vec<Sightings>>
    requires { 0 < many }
    ensures { IfSome result (λ index. IsIndexOf (tracks_of scene.now.mode scene.now.rows) index.items) }
{
    thread::scope(
        thread::scope_env(),
        rt,
        |scope| -> Option<Vec<Sightings>>
            requires { 0 < many }
            ensures { IfSome result (λ index. IsIndexOf (tracks_of scene.entry.now.mode scene.entry.now.rows) index.items) }
        { shares_in(rt, alloc, scope, scene, many) },
    )
}

// The shares of the index, where each has a thread of its own; none where a growth or the start of a
// thread was refused. Each thread that was started is joined.
fn shares_in<'s, E: 's, R: Threads>(
    rt: &R,
    alloc: Global,
    scope: &'s Scope<'s, E>,
    scene: &'s Scene,
    many: u32,
) -> Option<Vec<Sightings>>
    requires { 0 < many }
    ensures { IfSome result (λ index. IsIndexOf (tracks_of scene.now.mode scene.now.rows) index.items) }
{
    let mut children: Vec<PromisedHandle<Result<Sightings, OutOfMemory>, Sought<'s>>> = Vec::new(
        alloc,
    );
    let mut lost = false;
    'shares: for number in 0..many {
        let share = Share { many, number };
        let Ok(child) = scope.spawn_with(
            Sought { scene, share },
            move || -> Result<Sightings, OutOfMemory>
                requires { 0 < share.many }
                ensures { IfOk result (IsShareOf (tracks_of scene.entry.now.mode scene.entry.now.rows) share) }
            { Sightings::new(alloc, scene.mode(), scene.plans(), share) },
        ) else {
            lost = true;
            break;
        };
        if let Err(refused) = children.push(child) {
            let _ = refused.value.join(rt);
            lost = true;
            break;
        }
    }
    shares_of(rt, alloc, scene, many, children, lost)
}

// Adds the sightings of the next share.
fn add_share(index: &mut Vec<Sightings>, sightings: Sightings) -> Result<(), OutOfMemory>
    ensures { OnOk result (index.new.items ≡ index.old.items ++ (sightings ∷ [])) }
{
    index.push(sightings)?;
    Ok(())
}

// The shares that the threads answer, in turn; none where memory was refused, to one of them or here,
// or where one is known to be lost. Each thread is joined.
fn shares_of<'s, R: Threads>(
    rt: &R,
    alloc: Global,
    scene: &'s Scene,
    many: u32,
    children: Vec<PromisedHandle<Result<Sightings, OutOfMemory>, Sought<'s>>>,
    lost: bool,
) -> Option<Vec<Sightings>>
    ensures all { IfSome result (λ index. lost ≡ false) }
    ensures shares { IfSome result (λ index. IsOfShares scene.now many (map (λ child. child.promise) children.entry.items) index.items) }
{
    let mut lost = lost;
    let _agents = scene.plans();
    let mut index = Vec::new(alloc);
    'joins: for child in children {
        match child.join(rt) {
            Ok(sightings) => match add_share(&mut index, sightings) {
                Ok(()) => {}
                Err(_) => lost = true,
            },
            Err(_) => lost = true,
        }
    }
    if lost {
        return None;
    }
    Some(index)
}
