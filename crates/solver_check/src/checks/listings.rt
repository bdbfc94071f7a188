//! What is printed of a report's lists.
ghost use Rattle.std.specs.Prelude.{◌≡◌};
ghost use Rattle.solver_check.specs.Listings.{is_quiet, listed, listing_of, named_alone, named_in, with_named};

use crate::checks::judging::Verdict;
use desk_report::{Kinds, Report};
use grid_cells::List;
use mapf_rules::Conflict;
use std::alloc::Global;
use std::mem;

/// What is printed of a report's lists.
#[derive(Clone, Copy)]
pub enum Listing {
    /// Each agent, conflict and visit.
    Whole,
    /// Each agent and visit, and each conflict of a kind that is asked about.
    Named,
    /// How many there are.
    Counts,
}

impl Listing {
    /// What is asked for: a quiet report, or else one of the conflicts of the named kinds only.
    pub fn of(quiet: bool, only: bool) -> Listing
        ensures { result ≡ listing_of quiet only }
    {
        if quiet {
            Listing::Counts
        } else if only {
            Listing::Named
        } else {
            Listing::Whole
        }
    }

    /// Whether nothing is listed.
    pub(crate) fn is_quiet(self) -> bool
        ensures { result ≡ is_quiet self }
    {
        match self {
            Listing::Whole | Listing::Named => false,
            Listing::Counts => true,
        }
    }
}

// Keeps the conflicts of named kinds.
fn keep_named(kinds: Kinds, entries: &mut Vec<Conflict>)
    ensures { entries.new.items ≡ named_in kinds entries.old.items }
{
    entries.retain(|entry| kinds.names(entry.kind()));
}

// Keeps those of a report.
fn keep_named_of(alloc: Global, kinds: Kinds, report: &mut Report)
    ensures { report.new ≡ with_named kinds report.old }
{
    let mut entries = mem::replace(&mut report.conflicts, List::new(Vec::new(alloc))).into_items();
    keep_named(kinds, &mut entries);
    report.conflicts = List::new(entries);
}

// Keeps those of a verdict's report.
fn keep_named_in(alloc: Global, kinds: Kinds, verdict: &mut Verdict)
    ensures { verdict.new ≡ named_alone kinds verdict.old }
{
    match verdict {
        Verdict::Judged { report, .. } => keep_named_of(alloc, kinds, report),
        Verdict::NoPaths | Verdict::Repeated { .. } | Verdict::Wrong { .. } => {}
    }
}

/// Leaves in the verdict the conflicts that are printed.
pub(crate) fn list(alloc: Global, listing: Listing, kinds: Kinds, verdict: &mut Verdict)
    ensures { verdict.new ≡ listed listing kinds verdict.old }
{
    match listing {
        Listing::Named => keep_named_in(alloc, kinds, verdict),
        Listing::Whole | Listing::Counts => {}
    }
}
