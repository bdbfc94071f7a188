//! The texts of faults that no program meets.
use desk_audit::AuditFault;
use desk_shared::{PassLost, ShareFault, SplitFault};
use scene_edits::TaskFault;
use shared_runs::{Fault, RunFault};
use std::alloc::Global;
use std::process::Abort;

const TEXTS: &str =
    "scen: too many agents; scen: task 4 out of map; pass lost; bad workers; out of memory";

fn of_runs(rt: &impl Abort, alloc: Global) {
    let texts = format!(in alloc;
        "{}; {}; {}; {}; {}",
        Fault::Run(RunFault::Tasks(TaskFault::TooManyAgents)),
        Fault::Run(RunFault::Tasks(TaskFault::OutOfMap { task: 4 })),
        Fault::Run(RunFault::PassLost),
        AuditFault::BadWorkers,
        AuditFault::OutOfMemory
    );
    let texts = texts.expect(rt, "memory");
    assert!(rt; texts.as_str() == TEXTS);
}

fn of_shared_desks(rt: &impl Abort, alloc: Global) {
    let full = SplitFault::PassesFull { planners: 3 };
    let texts = format!(in alloc;
        "{}; {}; {full}; {PassLost}",
        ShareFault::BadPlanners,
        ShareFault::OutOfMemory
    );
    let texts = texts.expect(rt, "memory");
    assert!(rt; texts.as_str() == "bad planners; out of memory; passes full, 3; pass lost");
}

#[test]
fn texts_of_faults(rt: HostRuntime) {
    of_runs(&rt, rt.alloc());
    of_shared_desks(&rt, rt.alloc());
}
