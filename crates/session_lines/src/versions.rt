/// The version of the lines of a session: which words are known.
#[derive(Clone, Copy, Debug, PartialEq, Eq)]
pub enum LinesVersion {
    /// The edits and what goes with them, the report, distances, and whether the plans solve.
    One,
    /// These, and more questions.
    Two,
}
