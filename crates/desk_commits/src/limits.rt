ghost use Rattle.std.specs.Prelude.{◌≡◌, ◌≤◌};
ghost use Rattle.std.specs.Option.{SomeIff};

use std::marker::Model;

/// The most entries that a journal can be allowed.
pub const MOST_ENTRIES: u32 = 1_000_000;

/// How many entries a desk's journal may have, 1 to MOST_ENTRIES.
#[derive(Clone, Copy, Debug, PartialEq, Eq, PartialOrd, Ord)]
pub struct Limit {
    entries: u32,
}

impl Model for Limit {
    ghost use Rattle.std.specs.Prelude.{ℕ, ◌≤◌};
    ghost use Rattle.desk_commits.specs.declared.limits.TheConstants.{MOST_ENTRIES};

    ghost Value = { ℕ };

    ghost view = { λ l. l.entries };

    ghost invariant = { λ l. (1 ≤ l.entries) × (l.entries ≤ MOST_ENTRIES) };

    ghost inverse = { λ n. record { entries = n } };
}

impl Limit {
    /// The limit of that many entries, if they are 1 to MOST_ENTRIES.
    pub fn new(entries: u32) -> Option<Limit>
        ensures { SomeIff result ((1 ≤ entries) × (entries ≤ MOST_ENTRIES)) entries }
    {
        if (1..=MOST_ENTRIES).contains(&entries) {
            Some(Limit { entries })
        } else {
            None
        }
    }

    /// How many entries a journal under the limit may have.
    pub fn entries(self) -> u32
        ensures is { result ≡ self }
        ensures some { 1 ≤ result }
        ensures bound { result ≤ MOST_ENTRIES }
    {
        self.entries
    }
}
