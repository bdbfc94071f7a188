/// What each piece of an audit passes as its thread begins.
pub trait Gate: Sync {
    /// The piece of that number, from 0, begins.
    fn begins(&self, piece: u32);
}

/// A gate that is open: a piece passes it at once.
#[derive(Clone, Copy)]
pub struct NoGate;

impl Gate for NoGate {
    fn begins(&self, _piece: u32) {}
}
