//! Memory for rows.
ghost use Rattle.std.specs.Prelude.{◌≡◌, ◌+◌, ◌≤◌, [], length, IfOk};

use crate::plans::Plans;
use grid_cells::OutOfMemory;
use std::alloc::Global;

impl Plans {
    /// No rows, and memory for that many.
    pub fn with_room(alloc: Global, rows: usize) -> Result<Plans, OutOfMemory>
        ensures empty { IfOk result (λ plans. plans.rows ≡ []) }
        ensures room { IfOk result (λ plans. rows ≤ plans.room) }
    {
        let rows = Vec::with_capacity(alloc, rows)?;
        Ok(Plans { rows })
    }

    /// For how many more rows there is memory.
    pub fn room(&self) -> usize
        ensures { result ≡ self.now.room }
    {
        self.rows.capacity() - self.rows.len()
    }

    /// The rows, moved to a table that has none, and room for them. It takes no memory.
    pub fn moved_to(self, spare: Plans) -> Plans
        requires empty { spare.rows ≡ [] }
        requires room { length self.rows ≤ spare.room }
        ensures rows { result.rows ≡ self.rows }
        ensures room { spare.room ≤ result.room + length self.rows }
    {
        let mut from = self;
        let mut plans = spare;
        match plans.rows.append(&mut from.rows) {
            Ok(()) => {}
            Err(_) => unreachable!(),
        }
        drop(from);
        plans
    }
}
