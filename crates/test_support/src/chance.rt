ghost use Rattle.std.specs.Prelude.{◌<◌};

/// A chain of numbers without pattern (Knuth's linear congruential generator).
#[derive(Drop)]
pub struct Chain {
    state: u64,
}

impl Chain {
    /// The chain that begins at that seed.
    pub fn new(seed: u64) -> Chain {
        Chain { state: seed }
    }

    /// The next number, below `sides`.
    pub fn roll(&mut self, sides: usize) -> usize
        requires { 0 < sides }
        ensures { result < sides }
    {
        self.state = self
            .state
            .wrapping_mul(6_364_136_223_846_793_005)
            .wrapping_add(1_442_695_040_888_963_407);
        (self.state >> 33) as usize % sides
    }
}
