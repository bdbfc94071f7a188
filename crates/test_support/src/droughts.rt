//! What calls answer when there is no memory left. A process is run out of address space, and gets
//! it back step by step.
ghost use Rattle.std.specs.Prelude.{◌≡◌, IfOk};

use grid_cells::OutOfMemory;
use std::alloc::Global;
use std::marker::Model;

/// The greatest block that is asked for, in bytes. The next are half as great each, down to 16.
const GREATEST: usize = 1 << 46;

/// How many blocks the pool is made of, and how great each is, in bytes. The C library takes blocks
/// of this size from the heap.
const POOL_BLOCKS: usize = 64;

const POOL_BLOCK: usize = 65_536;

/// The greatest block, in bytes, that the C library keeps apart once it was freed: what is kept so
/// answers a request of just its size, and no other.
const GREATEST_KEPT: usize = 1_032;

/// The block that is cut from a piece, so that the piece isn't kept apart.
const CUT: usize = 2_048;

/// A process without memory but for a pool of 4 MiB, and of that so much as is left. All memory
/// comes back when it is dropped.
#[derive(Drop)]
pub struct Drought {
    alloc: Global,
    // What is taken of the pool.
    taken: Vec<Vec<u8>>,
    // All memory beside the pool.
    beside: Vec<Vec<u8>>,
}

// Clauses see how many blocks of the pool are taken.
impl Model for Drought {
    ghost use Rattle.std.specs.Prelude.{ℕ, length};

    ghost Value = { ℕ };

    ghost view = { λ d. length d.taken.items };
}

impl Drought {
    /// Takes all memory but the pool, which is free.
    pub fn begin(alloc: Global) -> Result<Drought, OutOfMemory>
        ensures { IfOk result (λ drought. drought ≡ 0) }
    {
        let taken = Vec::with_capacity(alloc, 20_000)?;
        let mut beside = Vec::with_capacity(alloc, 1_000_000)?;
        let mut pool: Vec<Vec<u8>> = Vec::with_capacity(alloc, POOL_BLOCKS)?;
        for _ in 0..POOL_BLOCKS {
            pool.push(Vec::with_capacity(alloc, POOL_BLOCK)?)?;
        }
        take_all(alloc, &mut beside);
        drop(pool);
        Ok(Drought {
            alloc,
            taken,
            beside,
        })
    }

    /// Leaves one piece of so many bytes free, a multiple of 16, or of 16 bytes more. What is taken
    /// from it costs 8 bytes more than was asked for, rounded up to a multiple of 16, and 32 at least.
    pub fn leave(&mut self, bytes: usize) -> Result<(), OutOfMemory> {
        self.relieve();
        let piece: Vec<u8> = Vec::with_capacity(self.alloc, bytes.saturating_add(CUT))?;
        take_all(self.alloc, &mut self.taken);
        for step in 0..64 {
            take_size(self.alloc, &mut self.taken, GREATEST_KEPT - 16 * step);
        }
        drop(piece);
        self.taken.push(Vec::with_capacity(self.alloc, CUT)?)?;
        Ok(())
    }

    /// Frees the whole pool, which is ample memory for what is small.
    pub fn relieve(&mut self)
        ensures { self.new ≡ 0 }
    {
        self.taken.clear();
    }
}

/// Takes blocks, each as great as can be had, until none of 16 bytes can be had or the list has no
/// more room. What is taken goes into the list, and comes back as the list is shortened.
pub fn take_all(alloc: Global, blocks: &mut Vec<Vec<u8>>) {
    for halvings in 0..43u32 {
        take_size(alloc, blocks, GREATEST >> halvings);
    }
}

// Takes the blocks of that size that can be had, as far as the list has room for them.
fn take_size(alloc: Global, blocks: &mut Vec<Vec<u8>>, size: usize) {
    for _ in blocks.len()..blocks.capacity() {
        let Ok(block) = Vec::with_capacity(alloc, size) else {
            return;
        };
        if blocks.push(block).is_err() {
            return;
        }
    }
}
