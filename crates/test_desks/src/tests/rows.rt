//! Worked examples of calls of a desk, made in one list with ample memory and with too little.
use super::calls::{About, Ask, Told};
use super::drives::drives;
use desk_core::EditFault;

/// A call, and its answer.
pub type Line = (Ask, Told);

/// The lines that make the scene on an open map of 3 x 1 cells, the desk's limit, and the calls.
pub struct Row {
    pub scene: &'static [&'static str],
    pub limit: u32,
    pub calls: &'static [Line],
}

const STALE_SECOND_PLANNER: Row = Row {
    scene: &["agent 3 0,0 2,0"],
    limit: 10,
    calls: &[
        (Ask::Commit(1, 0, &["path 3 0,0 1,0"]), Told::Done(1)),
        (
            Ask::Commit(2, 0, &["goal 3 1,0"]),
            Told::Stale(1, About::Agent(3), 1),
        ),
        (Ask::Snapshot, Told::Copied(1, true, 1, (2, 0), 1)),
    ],
};

// Agents 0 and 1 rest at (0,0), which is one conflict. Each is 2 steps from its goal, and 1 step
// once a commit has changed it.
const WATCH_MAKES_STALE: Row = Row {
    scene: &["agent 0 0,0 2,0", "agent 1 0,0 2,0"],
    limit: 10,
    calls: &[
        (Ask::Commit(1, 0, &["goal 0 1,0"]), Told::Done(1)),
        (
            Ask::Commit(2, 0, &["watch agent 0", "goal 1 1,0"]),
            Told::Stale(1, About::Agent(0), 1),
        ),
        (Ask::Commit(2, 0, &["goal 1 1,0"]), Told::Done(2)),
        (Ask::Read, Told::Shown(2, Some(2), 1)),
        (Ask::Snapshot, Told::Copied(2, true, 2, (1, 0), 0)),
    ],
};

const ALL_OR_NONE_AND_REFUSAL_ORDER: Row = Row {
    scene: &["agent 0 0,0 2,0"],
    limit: 2,
    calls: &[
        (Ask::Read, Told::Shown(0, Some(2), 0)),
        (
            Ask::Commit(0, 0, &["close 1,0", "goal 0 1,0", "path 0 0,0 2,0"]),
            Told::Faulty(2, EditFault::NotAStep { at: 1 }),
        ),
        (Ask::Read, Told::Shown(0, Some(2), 0)),
        (Ask::Commit(0, 1, &["goal 0 1,0"]), Told::Ahead(0)),
        (Ask::Commit(0, 0, &[]), Told::NoEdits),
        (Ask::Commit(0, 0, &["goal 0 1,0"]), Told::Done(1)),
        (Ask::Commit(0, 1, &["goal 0 0,0"]), Told::Done(2)),
        (Ask::Commit(0, 9, &["goal 0 1,0"]), Told::Full(2)),
    ],
};

const ALL_OR_NONE_WITHOUT_A_CELL_EDIT: Row = Row {
    scene: &["agent 0 0,0 2,0"],
    limit: 2,
    calls: &[
        (
            Ask::Commit(0, 0, &["goal 0 1,0", "path 0 0,0 2,0"]),
            Told::Faulty(1, EditFault::NotAStep { at: 1 }),
        ),
        (Ask::Snapshot, Told::Copied(0, true, 1, (2, 0), 0)),
        (Ask::Commit(0, 1, &["goal 0 1,0"]), Told::Ahead(0)),
        (Ask::Commit(0, 0, &[]), Told::NoEdits),
        (Ask::Commit(0, 0, &["goal 0 1,0"]), Told::Done(1)),
        (Ask::Commit(0, 1, &["goal 0 0,0"]), Told::Done(2)),
        (Ask::Commit(0, 9, &["goal 0 1,0"]), Told::Full(2)),
    ],
};

// A snapshot of a desk as it was opened.
const EDITS_IN_A_ROW: Row = Row {
    scene: &["agent 3 0,0 2,0"],
    limit: 10,
    calls: &[(Ask::Snapshot, Told::Copied(0, true, 1, (2, 0), 0))],
};

const DRIVE_WITH_WATCH_OF_THE_MAP: Row = Row {
    scene: &["agent 0 0,0 2,0"],
    limit: 2,
    calls: &[
        (Ask::Distance(0, (0, 0)), Told::Far(Some(2))),
        (Ask::Commit(4, 0, &["close 1,0"]), Told::Done(1)),
        (Ask::Distance(0, (0, 0)), Told::Far(None)),
        (Ask::Distance(9, (0, 0)), Told::UnknownAgent),
        (Ask::Distance(0, (0, 1)), Told::OutOfMap),
        (Ask::Snapshot, Told::Copied(1, false, 1, (2, 0), 0)),
        (
            Ask::Commit(5, 0, &["watch map", "goal 0 1,0"]),
            Told::Stale(1, About::Map, 1),
        ),
    ],
};

#[test]
fn rows_are_driven(rt: HostRuntime) {
    for (row, _name) in &[
        (STALE_SECOND_PLANNER, "stale_second_planner"),
        (WATCH_MAKES_STALE, "watch_makes_stale"),
        (
            ALL_OR_NONE_AND_REFUSAL_ORDER,
            "all_or_none_and_refusal_order",
        ),
        (
            ALL_OR_NONE_WITHOUT_A_CELL_EDIT,
            "all_or_none_without_a_cell_edit",
        ),
        (
            DRIVE_WITH_WATCH_OF_THE_MAP,
            "drive_with_watch_of_the_map, drive_refused_its_room",
        ),
        (EDITS_IN_A_ROW, "edits_in_a_row"),
    ] {
        drives(&rt, rt.alloc(), row);
    }
}
