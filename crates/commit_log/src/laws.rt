ghost use Rattle.commit_log.specs.Laws.{CutsLeaveWholeEntries, HasOneListOfEntries};

/// A law: a log that is cut anywhere behind its head stands for the entries that are whole before the
/// cut, with their commit lines, and for no others.
pub fn cuts_leave_whole_entries()
    ensures { CutsLeaveWholeEntries }
{}

/// A law: a text stands for one list of entries.
pub fn one_list_of_entries()
    ensures { HasOneListOfEntries }
{}
