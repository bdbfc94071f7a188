ghost use Rattle.std.specs.Prelude.{◌≡◌, ◌≢◌, ℕ, ◌+◌, ◌-◌, ◌≤◌, min, [], OnOk, slice_index, vec_len};

use grid_cells::OutOfMemory;
use std::alloc::Global;
use std::marker::Model;

/// A number for each time.
#[derive(Drop)]
pub(crate) struct Tally {
    numbers: Vec<u32>,
}

impl Model for Tally {
    ghost use Rattle.std.specs.Prelude.{ℕ, List};

    ghost Value = { List ℕ };

    ghost view = { λ t. t.numbers.items };
}

impl Tally {
    /// The number 0 for each time.
    pub(crate) fn new(alloc: Global) -> Tally
        ensures { result ≡ [] }
    {
        Tally {
            numbers: Vec::new(alloc),
        }
    }

    /// The time's number.
    pub(crate) fn at(&self, time: u32) -> u32
        ensures { result ≡ slice_index self.now time }
    {
        match self.numbers.get(time as usize) {
            Some(number) => *number,
            None => 0,
        }
    }

    /// Adds one to the time's number, which is held at the greatest u32.
    pub(crate) fn add(&mut self, time: u32) -> Result<(), OutOfMemory>
        ensures here { OnOk result (slice_index self.new time ≡ min (slice_index self.old time + 1) u32.MAX) }
        ensures others { OnOk result ((t : ℕ) → t ≢ time → slice_index self.new t ≡ slice_index self.old t) }
    {
        let index = time as usize;
        reach(&mut self.numbers, index + 1)?;
        self.numbers[index] = self.numbers[index].saturating_add(1);
        Ok(())
    }

    /// Takes one from the time's number, which is held at 0.
    pub(crate) fn lose(&mut self, time: u32)
        ensures here { slice_index self.new time ≡ slice_index self.old time - 1 }
        ensures others { (t : ℕ) → t ≢ time → slice_index self.new t ≡ slice_index self.old t }
    {
        let index = time as usize;
        if index < self.numbers.len() {
            self.numbers[index] = self.numbers[index].saturating_sub(1);
        }
    }
}

// Gives so many times a number, 0 for each new one.
fn reach(numbers: &mut Vec<u32>, many: usize) -> Result<(), OutOfMemory>
    ensures within { OnOk result (many ≤ vec_len numbers.new) }
    ensures same { OnOk result ((t : ℕ) → slice_index numbers.new.items t ≡ slice_index numbers.old.items t) }
{
    for _ in numbers.len()..many {
        numbers.push(0)?;
    }
    Ok(())
}
