//! The costs that a text of paths states, beside those of the report.
ghost use Rattle.std.specs.Prelude.{◌≡◌};
ghost use Rattle.solver_check.specs.Stated.{checked_of, cost_apart, costs_apart, is_nothing_apart, totals_of};

use crate::checks::judging::Verdict;
use crate::checks::texts::says_yes;
use path_files::Costs;
use std::fmt::{Display, Formatter, Result, Write};

/// The costs of a report, in steps; none where an agent isn't finished.
#[derive(Clone, Copy)]
pub struct Totals {
    pub sum: Option<u64>,
    pub makespan: Option<u64>,
}

/// What a check comes to.
#[derive(Clone, Copy)]
pub struct Checked {
    /// Whether the paths solve the problem.
    pub solved: bool,
    /// The costs of the report, where there is one.
    pub totals: Option<Totals>,
}

/// A cost that is stated in steps, and the one that it should be.
#[derive(Clone, Copy)]
pub struct CostApart {
    pub stated: u32,
    pub due: Option<u64>,
}

/// The costs that a text of paths states otherwise than the report has them.
#[derive(Clone, Copy)]
pub struct CostsApart {
    pub soc: Option<CostApart>,
    pub makespan: Option<CostApart>,
}

// The costs of a verdict's report, if it has one.
fn totals_of(verdict: &Verdict) -> Option<Totals>
    ensures { result ≡ totals_of verdict.now }
{
    match verdict {
        Verdict::Judged { report, .. } => Some(Totals {
            sum: report.sum,
            makespan: report.makespan.map(u64::from),
        }),
        Verdict::NoPaths | Verdict::Repeated { .. } | Verdict::Wrong { .. } => None,
    }
}

/// What the verdict comes to.
pub(crate) fn checked_of(verdict: &Verdict) -> Checked
    ensures { result ≡ checked_of verdict.now }
{
    Checked {
        solved: says_yes(verdict),
        totals: totals_of(verdict),
    }
}

// The stated cost and the due one, where they differ.
fn cost_apart(stated: Option<u32>, due: Option<u64>) -> Option<CostApart>
    ensures { result ≡ cost_apart stated due }
{
    let stated = stated?;
    match due {
        Some(cost) if cost == u64::from(stated) => None,
        _ => Some(CostApart { stated, due }),
    }
}

/// The costs that are stated and differ from those of a report. Without a report none does.
pub fn costs_apart(stated: Costs, totals: Option<Totals>) -> CostsApart
    ensures { result ≡ costs_apart stated totals }
{
    match totals {
        Some(totals) => CostsApart {
            soc: cost_apart(stated.soc, totals.sum),
            makespan: cost_apart(stated.makespan, totals.makespan),
        },
        None => CostsApart {
            soc: None,
            makespan: None,
        },
    }
}

impl Display for CostApart {
    fn fmt<W: Write>(&self, f: &mut Formatter<W>) -> Result {
        match self.due {
            Some(due) => write!(f, "{due}"),
            None => f.write_str("none"),
        }
    }
}

impl Display for CostsApart {
    fn fmt<W: Write>(&self, f: &mut Formatter<W>) -> Result {
        if let Some(soc) = self.soc {
            write!(f, "note: soc={} but sum is {soc}", soc.stated)?;
            if self.makespan.is_some() {
                f.write_str("\n")?;
            }
        }
        match self.makespan {
            Some(makespan) => write!(
                f,
                "note: makespan={} but makespan is {makespan}",
                makespan.stated
            ),
            None => Ok(()),
        }
    }
}

impl CostsApart {
    /// Whether no cost differs.
    pub fn is_none(self) -> bool
        ensures { result ≡ is_nothing_apart self }
    {
        self.soc.is_none() && self.makespan.is_none()
    }
}
