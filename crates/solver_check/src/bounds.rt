use session_protocol::Bounds;

/// The most bytes that a file or a session may have.
pub const MOST_BYTES: u64 = 1_073_741_824;

/// The most lines that a session may have.
pub const MOST_LINES: u32 = 1_000_000;

/// The bounds of a session.
pub const BOUNDS: Bounds = Bounds {
    lines: MOST_LINES,
    bytes: MOST_BYTES,
};

/// The most bytes that the session of a planner who is hosted may have.
pub const MOST_HOSTED_BYTES: u64 = u64::MAX;

/// The most lines that the session of a planner who is hosted may have.
pub const MOST_HOSTED_LINES: u32 = u32::MAX;

/// The bounds of the session of a planner who is hosted.
pub const SEAT_BOUNDS: Bounds = Bounds {
    lines: MOST_HOSTED_LINES,
    bytes: MOST_HOSTED_BYTES,
};
