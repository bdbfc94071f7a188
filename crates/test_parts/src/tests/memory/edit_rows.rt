//! Edits of scenes, and what is answered to them.
use super::edits::Row;
use super::scenes::Answer;
use super::trials::Memory;
use plan_table::Mode;
use scene_edits::EditFault;

const ADDED: &[Answer] = &[("added", None, None)];

const FLIPPED: &[Answer] = &[("flipped", None, None)];

const SAME: &[Answer] = &[("same", None, None)];

const RESTS: &[Answer] = &[("moved", None, None)];

const FROM_ONE: &[Answer] = &[("moved", Some(1), None)];

const FROM_TWO: &[Answer] = &[("moved", Some(2), None)];

const FROM_THREE: &[Answer] = &[("moved", Some(3), None)];

pub const SINCE: &[Row] = &[
    (
        Mode::Disappear,
        "agent 1 0,0 2,0",
        &[
            (&["agent 0 0,0 1,0"], Memory::Little, ADDED),
            (&["path 0 0,0 1,0"], Memory::Little, FROM_ONE),
            (&["path 0 0,0 1,0 1,0 2,0"], Memory::Little, FROM_TWO),
        ],
    ),
    (
        Mode::Stay,
        "agent 1 0,0 2,0",
        &[
            (&["agent 0 0,0 1,0"], Memory::Little, ADDED),
            (&["path 0 0,0 1,0"], Memory::Little, FROM_ONE),
            (&["path 0 0,0 1,0 1,0 2,0"], Memory::Little, FROM_THREE),
        ],
    ),
];

// A path that is cut to a rest, and one with a step more.
pub const CUT: &[Row] = &[
    (
        Mode::Stay,
        "agent 0 0,0 2,0",
        &[
            (&["path 0 0,0 1,0 1,0 2,0"], Memory::Ample, FROM_ONE),
            (&["tail 0 2"], Memory::Little, FROM_THREE),
        ],
    ),
    (
        Mode::Stay,
        "agent 0 0,0 2,0",
        &[
            (&["path 0 0,0"], Memory::Ample, RESTS),
            (&["tail 0 0 1,0"], Memory::Little, FROM_ONE),
        ],
    ),
];

const AIMED: &[Answer] = &[("aimed", Some(2), None), ("moved", Some(1), None)];

const REFUSED: &[Answer] = &[("refused", Some(2), Some(EditFault::NotAStep { at: 1 }))];

// The goal becomes (1,0), and the path one step to there; and a list whose third edit has a fault.
pub const LISTS: &[Row] = &[
    (
        Mode::Stay,
        "agent 3 0,0 2,0",
        &[(&["goal 3 1,0", "path 3 0,0 1,0"], Memory::Little, AIMED)],
    ),
    (
        Mode::Stay,
        "agent 0 0,0 2,0",
        &[(
            &["close 1,0", "goal 0 1,0", "path 0 0,0 2,0"],
            Memory::Little,
            REFUSED,
        )],
    ),
];

pub const FLIPS: Row = (
    Mode::Stay,
    "agent 0 0,0 2,0",
    &[
        (&["open 1,0"], Memory::Ample, SAME),
        (&["close 1,0"], Memory::Ample, FLIPPED),
        (&["close 1,0"], Memory::Ample, SAME),
        (&["open 1,0"], Memory::Ample, FLIPPED),
        (&["path 0 0,0 0,0"], Memory::Ample, RESTS),
        (&["path 0 0,0 1,0 2,0"], Memory::Ample, FROM_ONE),
        (&["path 0 0,0 1,0 1,0 2,0"], Memory::Ample, FROM_TWO),
    ],
);

// What is refused to agent 0, who rests at (0,0).
pub const FAULTY: &[(&str, EditFault)] = &[
    ("agent 0 0,0 0,0", EditFault::AgentTaken),
    ("goal 7 0,0", EditFault::UnknownAgent),
    ("goal 0 3,0", EditFault::OutOfMap),
    ("path 0", EditFault::EmptyPath),
    ("path 0 1,0", EditFault::NotFromStart),
    ("path 0 0,0 2,0", EditFault::NotAStep { at: 1 }),
    ("tail 0 1", EditFault::NoSuchTime),
];
