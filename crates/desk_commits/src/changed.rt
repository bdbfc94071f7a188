/// Why it isn't told what changed in the report since a version: the first that holds, in this order.
#[derive(Clone, Copy, Debug, PartialEq, Eq)]
pub enum SinceFault {
    /// The version is above the desk's, which is `now`.
    Ahead { now: u64 },
    /// What changed since the version is no longer kept: `first` is the least version from which on
    /// it is.
    Forgotten { first: u64 },
    OutOfMemory,
}
