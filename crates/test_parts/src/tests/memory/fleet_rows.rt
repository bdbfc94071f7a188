//! Turns of fleets, and what is told after each.
use super::fleet_tells::Told;
use super::fleets::Turn;
use super::trials::Memory;
use mapf_rules::Kind;

const THROUGH: &str = "path 0 0,0 1,0 2,0";

// Agent 0 rests at (1,0), and agent 1 comes from (0,0) through that cell to (2,0), and is taken out
// while there is no memory.
pub const TWO: &[Turn] = &[
    (0, ["", "path 0 1,0"], [Memory::Little, Memory::Ample], &[]),
    (
        1,
        ["", THROUGH],
        [Memory::Little, Memory::Ample],
        &[
            Told::Standing(1, (1, 0), &[0, 1]),
            Told::Standing(9, (2, 0), &[1]),
            Told::Moving(0, (0, 0), Some((1, (1, 0)))),
            Told::Records(6, 2),
            Told::End(1, Some((2, (2, 0)))),
        ],
    ),
    (
        1,
        [THROUGH, ""],
        [Memory::No, Memory::Ample],
        &[
            Told::Standing(1, (1, 0), &[0]),
            Told::Moving(0, (0, 0), None),
            Told::End(1, None),
            Told::End(0, Some((0, (1, 0)))),
        ],
    ),
];

// There is room for the few records of the path that comes, so its swap is made without memory.
pub const SWAPPED: &[Turn] = &[
    (
        0,
        ["", THROUGH],
        [Memory::Little, Memory::Ample],
        &[Told::Records(5, 2)],
    ),
    (
        0,
        [THROUGH, "path 0 0,0 1,0 1,0 2,0"],
        [Memory::No, Memory::Ample],
        &[Told::Records(10, 3), Told::End(0, Some((3, (2, 0))))],
    ),
];

// Waits at (1,0), and goes twenty times on to (2,0) and back.
const TO_AND_FRO: &str = "path 0 0,0 1,0 1,0 \
    2,0 1,0 2,0 1,0 2,0 1,0 2,0 1,0 2,0 1,0 \
    2,0 1,0 2,0 1,0 2,0 1,0 2,0 1,0 2,0 1,0 \
    2,0 1,0 2,0 1,0 2,0 1,0 2,0 1,0 2,0 1,0 \
    2,0 1,0 2,0 1,0 2,0 1,0 2,0 1,0 2,0 1,0";

// The path that comes ends at time 42. It has 42 Stand records, a Tail and 41 Moves, of which the path
// before has Stand 0 and 1 and Move 0; that one has a Tail and a Move of its own. So 81 records come
// and 2 go.
pub const SWAPPED_FOR_LONG: &[Turn] = &[
    (
        0,
        ["", THROUGH],
        [Memory::Little, Memory::Ample],
        &[Told::Records(5, 2)],
    ),
    (
        0,
        [THROUGH, TO_AND_FRO],
        [Memory::Little, Memory::Ample],
        &[
            Told::Records(88, 42),
            Told::End(0, Some((42, (1, 0)))),
            Told::Moving(41, (2, 0), Some((0, (1, 0)))),
            Told::Moving(1, (1, 0), None),
        ],
    ),
];

const SWAP: &[u8] = b"conflicts 3\nfollow 0 0 1 1,0\nfollow 0 1 0 0,0\nswap 0 0 1 0,0 1,0\n";

pub const EXCHANGED: &[Turn] = &[
    (0, ["", "path 0 0,0 1,0"], [Memory::Ample, Memory::No], &[]),
    (
        1,
        ["", "path 0 1,0 0,0"],
        [Memory::Ample, Memory::Little],
        &[
            Told::Count(Kind::Following, 2),
            Told::Count(Kind::Swapping, 1),
            Told::Count(Kind::Vertex, 0),
            Told::Listed(Memory::Little, SWAP),
        ],
    ),
    (
        1,
        ["path 0 1,0 0,0", ""],
        [Memory::Ample, Memory::Little],
        &[Told::Listed(Memory::Ample, b"conflicts 0\n")],
    ),
];

const ON: &str = "path 0 0,0 1,0 1,0 2,0";

const MET: &[u8] = b"conflicts 3\nvertex 1 0 1 1,0\nvertex 2 0 1 1,0\nfollow 0 0 1 1,0\n";

const RESTING: &[u8] = b"conflicts 2\nparked 1 0 1 1,0\nfollow 0 0 1 1,0\n";

// Agent 0 goes through the cell where agent 1 rests, and is cut to a rest in that cell.
pub const CUT_TO_A_REST: &[Turn] = &[
    (0, ["", ON], [Memory::Ample, Memory::No], &[]),
    (
        1,
        ["", "path 0 1,0"],
        [Memory::Ample, Memory::Little],
        &[Told::Listed(Memory::Little, MET)],
    ),
    (
        0,
        [ON, "path 0 0,0 1,0 1,0"],
        [Memory::Ample, Memory::Little],
        &[Told::Listed(Memory::Little, RESTING)],
    ),
];

/// The lines of a ring of four.
pub const RING: &[u8] =
    b"conflicts 5\nfollow 0 0 1 1,0\nfollow 0 1 2 1,1\nfollow 0 2 3 0,1\nfollow 0 3 0 0,0\ncycle 0 0 1 2 3\n";

// Four agents who go round a square in step 0. A fifth goes along with the first, and then is gone.
pub const ROUND_AGAIN: &[Turn] = &[
    (0, ["", "path 0 0,0 1,0"], [Memory::Ample; 2], &[]),
    (1, ["", "path 0 1,0 1,1"], [Memory::Ample; 2], &[]),
    (2, ["", "path 0 1,1 0,1"], [Memory::Ample; 2], &[]),
    (3, ["", "path 0 0,1 0,0"], [Memory::Ample; 2], &[]),
    (
        4,
        ["", "path 0 0,0 1,0"],
        [Memory::Ample, Memory::Little],
        &[Told::Count(Kind::Cycle, 0), Told::Count(Kind::Following, 6)],
    ),
    (
        4,
        ["path 0 0,0 1,0", ""],
        [Memory::Ample, Memory::Little],
        &[Told::Listed(Memory::Little, RING)],
    ),
];

// The ring, found at the cell of its first agent.
pub const ROUND: &[Turn] = &[
    (0, ["", "path 0 0,0 1,0"], [Memory::Ample; 2], &[]),
    (1, ["", "path 0 1,0 1,1"], [Memory::Ample; 2], &[]),
    (2, ["", "path 0 1,1 0,1"], [Memory::Ample; 2], &[]),
    (
        3,
        ["", "path 0 0,1 0,0"],
        [Memory::Ample; 2],
        &[Told::Ring(&[0, 1, 2, 3])],
    ),
];
