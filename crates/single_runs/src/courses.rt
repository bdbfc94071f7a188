/// The text that tells where agents go.
#[derive(Clone, Copy, Debug)]
pub enum Courses<'a> {
    /// A journal, whose entries are committed; without one the agents rest at their starts.
    Journal(Option<&'a [u8]>),
    /// Paths as a solver wrote them, in the form that their first line tells.
    Solver(&'a [u8]),
}
