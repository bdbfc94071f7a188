//! A desk that is shared: opened, used through a pass, and closed.
ghost use Rattle.std.specs.Prelude.{◌≡◌, true, IfOk, IfErr};
ghost use Rattle.desk_shared.specs.Passes.{Owns, version_at};
ghost use Rattle.desk_shared.specs.Calls.{MayShare, Unshared, IsFirst, CommitsBy, IsLastSeen, IsFront, IsDeskAtClose};

mod asking;
mod splitting;
mod waiting;

use crate::board::{About, Top};
use crate::faults::{MOST_PLANNERS, PassLost, ShareFault};
use crate::numbers::numbers_to;
use crate::passes::Pass;
use crate::plays::Front;
use crate::steps::{free, grow, reach, win};
use atomic_table::Table;
use desk_core::{Commit, Desk, Refusal};
use grid_cells::Planner;
use std::alloc::{AllocError, Global};
use std::marker::Model;
use std::snapshot;
use std::sync::Wait;

/// A desk that several planners use, in threads of their own, each with a pass.
///
/// A call has the turn for one call of the desk, and gives it back whatever is answered. A thread
/// that waits for the turn sleeps.
pub struct SharedDesk {
    table: Top,
    planners: u32,
}

// How the table is dropped is proved here, and in no crate that drops one.
impl Drop for SharedDesk {
    fn drop(self) {
        let SharedDesk {
            table: _table,
            planners: _,
        } = self;
    }
}

impl Model for SharedDesk {
    ghost use Rattle.std.specs.Prelude.{◌≡◌};
    ghost use Rattle.desk_shared.specs.Passes.{Sharing};

    ghost Value = { Sharing };

    ghost view = { λ d. record { table_id = d.table.shared.table_id; planners = d.planners } };

    ghost invariant = { λ d. (d.table.shared.table_id.words ≡ 2) × (d.table.shared.table_id.slots ≡ 1) };
}

impl SharedDesk {
    /// Shares the desk with so many planners. The first pass has number 0 and keeps the others.
    ///
    /// # Errors
    ///
    /// The planners aren't 1 to MOST_PLANNERS, or there is no memory. The desk comes back as it was.
    pub fn open(
        alloc: Global,
        desk: Desk,
        planners: u32,
    ) -> Result<(SharedDesk, Pass), (ShareFault, Desk)>
        ensures shared { IfOk result (λ r. MayShare planners × (r.0.planners ≡ planners)) }
        ensures owned { IfOk result (λ r. Owns r.0 r.1) }
        ensures first { IfOk result (λ r. IsFirst desk planners r.1.known) }
        ensures fault { IfErr result (λ r. Unshared planners r.0) }
        ensures handed_back { IfErr result (λ r. r.1 ≡ desk) }
    {
        if planners == 0 || planners > MOST_PLANNERS {
            return Err((ShareFault::BadPlanners, desk));
        }
        let Some(planner) = Planner::new(0) else {
            unreachable!()
        };
        let about = About {
            start: snapshot::Snapshot::of(&desk),
            planners,
            unused: numbers_to(planners),
        };
        let _limit = desk.limit().entries();
        let words = [desk.version(), 1];
        let made: Result<(Top, _), AllocError> = Table::vacant(alloc, &words, 1, &about);
        let Ok((table, mut place)) = made else {
            return Err((ShareFault::OutOfMemory, desk));
        };
        reach(&table.shared, &mut place);
        free(&table.shared, &mut place, desk);
        let About { unused, .. } = about;
        let pass = Pass {
            place,
            planner,
            unused,
        };
        Ok((SharedDesk { table, planners }, pass))
    }

    /// Whether the pass is of this shared desk: the condition of each call with a pass. It is
    /// known before the program runs, so the answer is always true.
    pub fn owns(&self, pass: &Pass) -> bool
        requires { Owns self.now pass.now }
        ensures { result ≡ true }
    {
        let _same = pass;
        true
    }

    /// Commits at the desk, in the pass's turn, and answers the new version. It may wait.
    ///
    /// # Errors
    ///
    /// The desk's refusal, and the commit as it was handed in.
    pub fn commit<R: Wait>(
        &self,
        rt: &R,
        pass: &mut Pass,
        commit: Commit,
    ) -> Result<u64, (Refusal, Commit)>
        requires owned { Owns self.now pass.old }
        requires planner { commit.planner ≡ pass.old.known.planner }
        ensures owned { Owns self.now pass.new }
        ensures answer { CommitsBy pass.old.known commit result pass.new.known }
        ensures last { IfOk result (IsLastSeen pass.new.known commit) }
    {
        let (answer, _) = self.commit_at(rt, pass, commit);
        answer
    }

    /// Commits at the desk as `commit` does, and answers too the version that the desk then has.
    pub fn commit_at<R: Wait>(
        &self,
        rt: &R,
        pass: &mut Pass,
        commit: Commit,
    ) -> (Result<u64, (Refusal, Commit)>, u64)
        requires owned { Owns self.now pass.old }
        requires planner { commit.planner ≡ pass.old.known.planner }
        ensures owned { Owns self.now pass.new }
        ensures answer { CommitsBy pass.old.known commit result.0 pass.new.known }
        ensures last { IfOk result.0 (IsLastSeen pass.new.known commit) }
        ensures at { result.1 ≡ version_at pass.new.known.start pass.new.known.made }
    {
        let top = &self.table.shared;
        let mut desk = win(rt, top, &mut pass.place);
        match desk.commit(commit) {
            Ok(version) => {
                grow(top, &mut pass.place, desk);
                (Ok(version), version)
            }
            Err(refused) => {
                let version = desk.version();
                free(top, &mut pass.place, desk);
                (Err(refused), version)
            }
        }
    }

    /// The version of the desk, without a turn. No later answer to the pass is of a lesser one.
    pub fn front(&self, pass: &mut Pass) -> u64
        requires owned { Owns self.now pass.old }
        ensures owned { Owns self.now pass.new }
        ensures answer { IsFront pass.old.known result pass.new.known }
    {
        self.table.shared.load::<Front>(&mut pass.place, 0)
    }

    /// Ends the sharing, and gives the desk back.
    ///
    /// # Errors
    ///
    /// The desk is lost where the turn isn't free. Each call that has returned has given it back.
    pub fn close(self, pass: Pass) -> Result<Desk, PassLost>
        requires owned { Owns self pass }
        ensures { IfOk result (IsDeskAtClose pass.known) }
    {
        let SharedDesk { table, planners: _ } = self;
        let Pass { place, .. } = pass;
        let mut closed = table.close_with(place);
        let turn = closed.word(1);
        let desk = closed.take(0);
        closed.free();
        match desk {
            Some(desk) if turn == 0 => Ok(desk),
            lost => {
                drop(lost);
                Err(PassLost)
            }
        }
    }
}
