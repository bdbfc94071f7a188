//! Shared desks for the tests.
ghost use Rattle.desk_shared.specs.Calls.{MayShare};
ghost use Rattle.desk_shared.specs.Passes.{Owns};

use desk_core::Desk;
use desk_shared::{Pass, SharedDesk};
use std::alloc::Global;
use std::process::Abort;

/// The desk, shared by so many planners, and the first pass.
pub fn share(rt: &impl Abort, alloc: Global, desk: Desk, planners: u32) -> (SharedDesk, Pass)
    requires { MayShare planners }
    ensures { Owns result.0 result.1 }
{
    SharedDesk::share(alloc, desk, planners).expect(rt, "memory")
}

pub fn split(rt: &impl Abort, shared: &SharedDesk, pass: &mut Pass) -> Pass
    requires { Owns shared.now pass.old }
    ensures old { Owns shared.now pass.new }
    ensures new { Owns shared.now result }
{
    match shared.split(pass) {
        Ok(other) => other,
        Err(_) => panic!(rt; "a number that is kept"),
    }
}
