ghost use Rattle.single_runs.specs.Saved.{SavedDesksComeBack};

/// A law: what is saved of a desk after a session, committed where the desk was opened, gives a desk
/// of the same scene and journal, which shows the same report; but for want of memory.
pub fn saved_desks_come_back()
    ensures { SavedDesksComeBack }
{}
