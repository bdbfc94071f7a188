//! What came and went, by version.
ghost use Rattle.std.specs.Prelude.{◌≡◌, ◌<◌, ◌≤◌, ◌^◌, ◌++◌, [], IfOk, List, length, map, drop, sum};
ghost use Rattle.std.specs.BTreeSet.{IsOrdered};
ghost use Rattle.change_history.specs.Moved.{AreApart, Tell};
ghost use Rattle.change_history.specs.Leading.{AreRecords, Lead};
ghost use Rattle.change_history.specs.Logged.{joined, Logs, LeadSince};

use crate::items::Item;
use crate::moves::Moves;
use crate::records::Record;
use grid_cells::OutOfMemory;
use std::alloc::Global;
use std::collections::{BTreeSet, VecDeque};
use std::marker::Model;

/// What came to a set and went from it at each of some versions, the oldest first.
#[derive(Drop)]
pub struct Log<T: Item> {
    alloc: Global,
    records: VecDeque<Record<T>>,
    counts: VecDeque<u32>,
}

impl<T: Item> Model for Log<T> {
    ghost use Rattle.std.specs.Prelude.{◌≡◌, List, sum, length};
    ghost use Rattle.change_history.specs.declared.records.Record.{Record};
    ghost use Rattle.change_history.specs.Logged.{parts};

    ghost Value = { List (List (Record T)) };

    ghost view = { λ l. parts l.counts.items l.records.items };

    ghost invariant = { λ l. sum l.counts.items ≡ length l.records.items };
}

impl<T: Item> Log<T> {
    /// A log of no versions.
    pub fn new(alloc: Global) -> Log<T>
        ensures { result ≡ [] }
    {
        Log {
            alloc,
            records: VecDeque::new(alloc),
            counts: VecDeque::new(alloc),
        }
    }

    /// Keeps what came and went as the newest version.
    ///
    /// # Errors
    ///
    /// Want of memory: the log is gone then.
    pub fn push(self, moves: Moves<T>) -> Result<Log<T>, OutOfMemory>
        ensures { IfOk result (λ log. Logs self moves.came moves.gone log) }
    {
        let Log {
            alloc,
            records,
            mut counts,
        } = self;
        let before = records.len();
        let Ok(records) = with_moves(records, moves) else {
            drop(counts);
            return Err(OutOfMemory);
        };
        let Ok(count) = u32::try_from(records.len() - before) else {
            drop(counts);
            drop(records);
            return Err(OutOfMemory);
        };
        match counts.push_back(count) {
            Ok(()) => Ok(Log {
                alloc,
                records,
                counts,
            }),
            Err(_) => {
                drop(records);
                Err(OutOfMemory)
            }
        }
    }

    /// Lets go the oldest version, if there is one.
    pub fn forget(&mut self)
        ensures { self.new ≡ drop 1 self.old }
    {
        let count = self.counts.pop_front().unwrap_or(0);
        drop_front(&mut self.records, count as usize);
    }

    /// How many versions it has.
    pub fn versions(&self) -> usize
        ensures { result ≡ length self.now }
    {
        self.counts.len()
    }

    /// How many elements came and went in all.
    pub fn records(&self) -> usize
        ensures is { result ≡ length (joined self.now) }
        ensures small { result < 2 ^ 63 }
    {
        self.records.len()
    }

    /// How many elements came and went from that version on.
    pub fn records_since(&self, version: usize) -> usize
        requires { version ≤ length self.now }
        ensures { result ≡ length (joined (drop version self.now)) }
    {
        sum_from(&self.counts, version)
    }

    /// What came and went from that version on, in all: what did both is neither.
    ///
    /// # Errors
    ///
    /// Want of memory.
    pub fn since(&self, version: usize) -> Result<Moves<T>, OutOfMemory>
        requires { version ≤ length self.now }
        ensures { IfOk result (λ moves. (old new : List T) → LeadSince self.now version old new → AreApart old new moves.came moves.gone) }
    {
        let count = sum_from(&self.counts, version);
        let start = self.records.len() - count;
        moves_from(self.alloc, &self.records, start).followed_through()
    }
}

// The records, and after them those of what came and went.
fn with_moves<T: Item>(
    records: VecDeque<Record<T>>,
    moves: Moves<T>,
) -> Result<VecDeque<Record<T>>, OutOfMemory>
    ensures { IfOk result (λ all. (more : List (Record T)) × AreRecords moves.came moves.gone more × (all.items ≡ records.items ++ more)) }
{
    T::told_apart();
    let (came, gone) = moves.into_sets();
    let records = with_each(records, came, true)?;
    let all = with_each(records, gone, false)?;
    Ok(all)
}

// The records, and after them one for each element, which came or went.
fn with_each<T: Item>(
    mut records: VecDeque<Record<T>>,
    items: BTreeSet<T>,
    came: bool,
) -> Result<VecDeque<Record<T>>, OutOfMemory>
    ensures all { IfOk result (λ all. all.items ≡ records.items ++ map (λ item. record { item = item; came = came }) items.keys) }
    ensures ordered { IsOrdered T.cmp items }
{
    for item in items {
        records.push_back(Record { item, came })?;
    }
    Ok(records)
}

// Drops so many records, the oldest.
fn drop_front<T: Item>(records: &mut VecDeque<Record<T>>, count: usize)
    ensures { records.new.items ≡ drop count records.old.items }
{
    let mut left = count;
    while left > 0 {
        drop(records.pop_front());
        left -= 1;
    }
}

// The sum of the counts from that place on.
fn sum_from(counts: &VecDeque<u32>, first: usize) -> usize
    requires { sum counts.now.items < 2 ^ 63 }
    ensures { result ≡ sum (drop first counts.now.items) }
{
    let mut total = 0;
    for place in first..counts.len() {
        total += counts[place] as usize;
    }
    total
}

// The moves that the records from that place on make.
fn moves_from<T: Item>(alloc: Global, records: &VecDeque<Record<T>>, start: usize) -> Moves<T>
    requires { start ≤ length records.now.items }
    ensures { (old new : List T) → Lead (drop start records.now.items) old new → Tell old new result }
{
    let mut moves = Moves::new(alloc);
    let count = records.len() - start;
    for place in 0..count {
        let one = &records[start + place];
        moves.count(one);
    }
    moves
}
