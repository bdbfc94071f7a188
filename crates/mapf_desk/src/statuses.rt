//! The program's statuses.
ghost use Rattle.std.specs.Prelude.{◌≡◌};
ghost use Rattle.std.specs.Process.{exit_status};
ghost use Rattle.mapf_desk.specs.Statuses.{answered, status};

use desk_io::FAULT;
use std::process::ExitCode;

/// The status of a run whose answer is no.
const NO: u8 = 1;

/// What a run that has no fault of its own comes to.
#[derive(Clone, Copy, PartialEq, Eq)]
pub(crate) enum RunEnd {
    /// It is done, and where it answers a question the answer is yes.
    Yes,
    /// The paths don't solve the problem, or the reports of a desk and of its audit differ.
    No,
    /// A session that was hosted had a fault, which is told.
    Faulty,
}

/// The end of a run that answers a question.
pub(crate) fn answered(yes: bool) -> RunEnd
    ensures { result ≡ answered yes }
{
    if yes { RunEnd::Yes } else { RunEnd::No }
}

/// The status of a run that came to that end.
pub(crate) fn status_of(end: RunEnd) -> ExitCode
    ensures { exit_status result ≡ status end }
{
    match end {
        RunEnd::Yes => ExitCode::from(0),
        RunEnd::No => ExitCode::from(NO),
        RunEnd::Faulty => ExitCode::from(FAULT),
    }
}
