//! Who writes the log of a shared desk.
ghost use Rattle.std.specs.Prelude.{◌≡◌, ℕ, List, IfOk, drop};
ghost use Rattle.desk_shared.specs.Passes.{Owns};
ghost use Rattle.shared_runs.specs.Logged.{HasWatched, IsKept};

use crate::hosts::gates::Gate;
use commit_log::Log;
use desk_core::{Commit, Desk, Question};
use desk_log::LogKeeper;
use desk_shared::{Pass, SharedDesk};
use grid_cells::OutOfMemory;
use std::alloc::Global;
use std::sync::Wait;

// The entries behind so many of them.
#[derive(Clone, Copy)]
struct Since {
    alloc: Global,
    count: usize,
}

// Copies of the entries.
fn copies_of(alloc: Global, entries: &[Commit]) -> Result<Vec<Commit>, OutOfMemory>
    ensures { IfOk result (λ copies. copies.items ≡ entries.now) }
{
    let mut copies = Vec::new(alloc);
    for entry in entries {
        let copy = entry.copy(alloc)?;
        match copies.push(copy) {
            Ok(()) => {}
            Err(_) => return Err(OutOfMemory),
        }
    }
    Ok(copies)
}

// What stands behind so many of the entries.
fn behind(entries: &[Commit], count: usize) -> &[Commit]
    ensures { result.now ≡ drop count entries.now }
{
    if count >= entries.len() {
        return &[];
    }
    &entries[count..]
}

impl Question for Since {
    type Answer = Result<Vec<Commit>, OutOfMemory>;

    ghost use Rattle.std.specs.Prelude.{◌≡◌, IfOk, drop};

    ghost answers = { λ since desk answer. IfOk answer (λ entries. entries.items ≡ drop since.count desk.journal) };

    fn put(&self, desk: &mut Desk) -> Result<Vec<Commit>, OutOfMemory> {
        copies_of(self.alloc, behind(desk.journal(), self.count))
    }
}

// Puts into the log what the desk has since, and makes a crash leave it, where the log hasn't failed.
fn keep_rest<R: Wait, L: Log>(
    rt: &R,
    alloc: Global,
    desk: &SharedDesk,
    pass: &mut Pass,
    keeper: &mut LogKeeper<L>,
)
    requires { Owns desk.now pass.old }
    ensures owned { Owns desk.now pass.new }
    ensures watched { HasWatched pass.old.known pass.new.known }
    ensures kept { (head : List ℕ)
        → IsKept keeper.old.has_failed head (L.text keeper.old.writer.log) (L.kept keeper.old.writer.log) keeper.old.writer.count keeper.old.writer.check
        pass.old.known.start.journal pass.old.known.made
        → IsKept keeper.new.has_failed head (L.text keeper.new.writer.log) (L.kept keeper.new.writer.log) keeper.new.writer.count keeper.new.writer.check
        pass.old.known.start.journal pass.new.known.made }
{
    if keeper.has_failed() {
        return;
    }
    let count = keeper.count() as usize;
    let Ok(entries) = desk.ask(rt, pass, &Since { alloc, count }) else {
        keeper.give_up();
        return;
    };
    let _kept = keeper.keep_more(entries.as_slice());
    drop(entries);
}

/// Puts into the log, through that pass, what answers at the gate wait for, until all sessions have ended:
/// one sync for all who wait, and none in the pass's turn. Once the log has failed nothing more is put there.
pub(crate) fn attend<R: Wait, L: Log>(
    rt: &R,
    alloc: Global,
    desk: &SharedDesk,
    gate: Option<&Gate>,
    pass: &mut Pass,
    keeper: &mut LogKeeper<L>,
)
    requires { Owns desk.now pass.old }
    ensures owned { Owns desk.now pass.new }
    ensures watched { HasWatched pass.old.known pass.new.known }
    ensures kept { (head : List ℕ)
        → IsKept keeper.old.has_failed head (L.text keeper.old.writer.log) (L.kept keeper.old.writer.log) keeper.old.writer.count keeper.old.writer.check
        pass.old.known.start.journal pass.old.known.made
        → IsKept keeper.new.has_failed head (L.text keeper.new.writer.log) (L.kept keeper.new.writer.log) keeper.new.writer.count keeper.new.writer.check
        pass.old.known.start.journal pass.new.known.made }
{
    let Some(gate) = gate else {
        return;
    };
    for _ in rt.forever() {
        if !gate.next(rt) {
            return;
        }
        keep_rest(rt, alloc, desk, pass, keeper);
        gate.move_to(rt, keeper);
    }
}
