//! How often books are made.
ghost use Rattle.std.specs.Prelude.{◌≡◌, ◌+◌, min};

use std::marker::Model;

/// How often books were made, held at the greatest u64. It can only grow.
#[derive(Drop)]
pub struct BuildCount {
    number: u64,
}

impl Model for BuildCount {
    ghost use Rattle.std.specs.Prelude.{ℕ};

    ghost Value = { ℕ };

    ghost view = { λ b. b.number };
}

impl BuildCount {
    /// The count before any books are made.
    pub fn new() -> BuildCount
        ensures { result ≡ 0 }
    {
        BuildCount { number: 0 }
    }

    /// Counts books that are made.
    pub fn count_one(&mut self)
        ensures { self.new ≡ min (self.old + 1) u64.MAX }
    {
        self.number = self.number.saturating_add(1);
    }

    /// How often books were made.
    pub fn number(&self) -> u64
        ensures { result ≡ self.now }
    {
        self.number
    }
}
