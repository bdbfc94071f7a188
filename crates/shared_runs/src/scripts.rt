//! The scripts of a drill, each served in a thread of its own over the shared desk.
ghost use Rattle.std.specs.Prelude.{◌≡◌, ◌+◌, length, IfErr, IfOk, OnOk};
ghost use Rattle.desk_shared.specs.Passes.{Owns};
ghost use Rattle.shared_runs.specs.DrillFaults.{IsScriptsFault};
ghost use Rattle.solver_check.specs.Inputs.{told};
ghost use Rattle.shared_runs.specs.Drills.{HasGathered, HasServed, IsSession, MaySplit, inputs_of};

use crate::serving::Serving;
use desk_report::Tap;
use desk_shared::{Pass, SharedDesk, Window};
use grid_cells::OutOfMemory;
use session_protocol::{LinesVersion, ServeFault};
use solver_check::{Heard, Hearing, RunFault};
use std::alloc::Global;
use std::snapshot::Snapshot;
use std::sync::Wait;
use std::thread;
use std::thread::{Promise, PromisedHandle, Scope, Threads};

// What the thread of a script gives back: the pass, and how the session ended.
type Ended = (Pass, Result<u32, ServeFault>);

// The script that a thread is to serve, and the pass that it is given.
#[derive(Drop)]
pub(crate) struct Script<'a> {
    pub desk: &'a SharedDesk,
    pub text: &'a [u8],
    pub version: LinesVersion,
    pub before: Snapshot<Pass>,
}

impl<'a> Promise<Ended> for Script<'a> {
    ghost kept_by = { λ p r. Owns p.desk.now r.0 × IsSession p.desk.now p.before.value.known (told p.version p.text.now) r.0.known r.1 };
}

// Serves the script to its end, or to its fault. Whoever goes along is told when the thread begins.
fn serve_script<R: Wait, H: Hearing, P: Serving<R>>(
    rt: &R,
    alloc: Global,
    desk: &SharedDesk,
    pass: Pass,
    text: &[u8],
    number: u32,
    hearing: &H,
    serving: &P,
) -> Ended
    requires { Owns desk.now pass }
    ensures owned { Owns desk.now result.0 }
    ensures session { IsSession desk.now pass.known (told (P.version serving.now) text.now) result.0.known result.1 }
{
    hearing.begins(number);
    let mut reader = Tap::new(text);
    let mut window = Window::new(rt, desk, pass);
    let mut heard = Heard::new(hearing, number);
    let ended = serving.serve(alloc, &mut window, &mut reader, &mut heard);
    (window.into_pass(), ended)
}

// Begins the script's session in a thread of its own, unless that is refused.
fn begin<'s, E: 's, R: Threads + Wait + Sync, H: Hearing + Sync, P: Serving<R>>(
    rt: &'s R,
    alloc: Global,
    scope: &'s Scope<'s, E>,
    desk: &'s SharedDesk,
    pass: Pass,
    text: &'s [u8],
    number: u32,
    hearing: &'s H,
    serving: &'s P,
) -> Result<PromisedHandle<Ended, Script<'s>>, OutOfMemory>
    requires { Owns desk.now pass }
    ensures desk { IfOk result (λ child. child.promise.desk.now ≡ desk.now) }
    ensures text { IfOk result (λ child. child.promise.text.now ≡ text.now) }
    ensures version { IfOk result (λ child. child.promise.version ≡ P.version serving.now) }
    ensures before { IfOk result (λ child. child.promise.before.value ≡ pass) }
{
    let promise = Script {
        desk,
        text,
        version: serving.version(),
        before: Snapshot::of(&pass),
    };
    let started = scope.spawn_with(
        promise,
        move || -> Ended
            requires { Owns desk.now pass }
            ensures owned { Owns desk.entry.now result.0 }
            ensures session { IsSession desk.entry.now pass.known (told (P.version serving.entry.now) text.entry.now) result.0.known result.1 }
        { serve_script(rt, alloc, desk, pass, text, number, hearing, serving) },
    );
    match started {
        Ok(child) => Ok(child),
        Err(_) => Err(OutOfMemory),
    }
}

// Serves the scripts, the first of them as planner number + 1, each in a thread that is joined
// before this returns, and joins their passes into the first one.
fn serve_all<'s, E: 's, R: Threads + Wait + Sync, H: Hearing + Sync, P: Serving<R>>(
    rt: &'s R,
    alloc: Global,
    scope: &'s Scope<'s, E>,
    desk: &'s SharedDesk,
    first: &mut Pass,
    scripts: &'s [Vec<u8>],
    number: u32,
    hearing: &'s H,
    serving: &'s P,
) -> Result<(), RunFault>
    requires first { MaySplit desk.now first.old number (length scripts.now) }
    ensures owned { Owns desk.now first.new }
    ensures gathered { HasGathered first.old.known first.new.known }
    ensures served { OnOk result (HasServed desk.now first.old.known.start first.new.known (number + 1) (inputs_of (P.version serving.now) scripts.now)) }
    ensures refused { IfErr result (IsScriptsFault desk.now first.old.known.start (number + 1) (inputs_of (P.version serving.now) scripts.now)) }
{
    let Some((script, later)) = scripts.split_first() else {
        return Ok(());
    };
    let Ok(pass) = desk.split(first) else {
        unreachable!()
    };
    let text = script.as_slice();
    let Ok(child) = begin(rt, alloc, scope, desk, pass, text, number, hearing, serving) else {
        return Err(RunFault::OutOfMemory);
    };
    let others = serve_all(
        rt,
        alloc,
        scope,
        desk,
        first,
        later,
        number + 1,
        hearing,
        serving,
    );
    let (pass, ended) = child.join(rt);
    desk.join(first, pass);
    match ended {
        Ok(_) => others,
        Err(fault) => Err(RunFault::from(fault)),
    }
}

/// Serves the scripts, the first as planner 1, each in a thread of its own; whoever goes along is
/// told its number from 0 as it begins. The threads and their passes are joined into the first pass.
///
/// # Errors
///
/// The fault of the first script that has one, or the start of a thread was refused.
pub(crate) fn serve_scripts<R: Threads + Wait + Sync, H: Hearing + Sync, P: Serving<R>>(
    rt: &R,
    alloc: Global,
    desk: &SharedDesk,
    first: Pass,
    scripts: &[Vec<u8>],
    hearing: &H,
    serving: &P,
) -> (Pass, Result<(), RunFault>)
    requires first { MaySplit desk.now first 0 (length scripts.now) }
    ensures owned { Owns desk.now result.0 }
    ensures gathered { HasGathered first.known result.0.known }
    ensures served { OnOk result.1 (HasServed desk.now first.known.start result.0.known 1 (inputs_of (P.version serving.now) scripts.now)) }
    ensures refused { IfErr result.1 (IsScriptsFault desk.now first.known.start 1 (inputs_of (P.version serving.now) scripts.now)) }
{
    thread::scope(
        thread::scope_env(),
        rt,
        move |scope| -> (Pass, Result<(), RunFault>)
            requires first { MaySplit desk.now first 0 (length scripts.now) }
            ensures owned { Owns desk.entry.now result.0 }
            ensures gathered { HasGathered first.known result.0.known }
            ensures served { OnOk result.1
                (HasServed desk.entry.now first.known.start result.0.known 1 (inputs_of (P.version serving.entry.now) scripts.entry.now)) }
            ensures refused { IfErr result.1 (IsScriptsFault desk.entry.now first.known.start 1 (inputs_of (P.version serving.entry.now) scripts.entry.now)) }
        {
            let mut first = first;
            let ended = serve_all(
                rt, alloc, scope, desk, &mut first, scripts, 0, hearing, serving,
            );
            (first, ended)
        },
    )
}
