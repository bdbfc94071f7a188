//! How the lines of a drill's scripts were answered, counted while the scripts are served.
ghost use Rattle.std.specs.Prelude.{◌≡◌, IfOk, length};
ghost use Rattle.desk_io.specs.Answered.{answered_by};

use session_protocol::is_acceptance;
use solver_check::{Hearing, Shown};
use std::alloc::{AllocError, Global};
use std::sync::atomic::{AtomicBool, AtomicU64, Ordering};

// How a line is answered.
#[derive(Clone, Copy)]
enum Answered {
    Accepted,
    Refused,
    Bad,
}

// How the line is answered whose answer begins with the word; the further lines of a report aren't.
fn answered_by(word: &[u8]) -> Option<Answered>
    ensures { result ≡ answered_by word.now }
{
    if word == b"refused".as_slice() {
        Some(Answered::Refused)
    } else if word == b"bad".as_slice() {
        Some(Answered::Bad)
    } else if is_acceptance(word) {
        Some(Answered::Accepted)
    } else {
        None
    }
}

// How many lines of a script were answered in each way.
#[derive(Drop)]
struct Tally {
    begun: AtomicBool,
    accepted: AtomicU64,
    refused: AtomicU64,
    bad: AtomicU64,
}

impl Tally {
    fn new() -> Tally {
        Tally {
            begun: AtomicBool::new(false),
            accepted: AtomicU64::new(0),
            refused: AtomicU64::new(0),
            bad: AtomicU64::new(0),
        }
    }

    // Adds the line of a script that is in the file.
    fn tell(&self, file: &str, lines: &mut String) -> Result<(), AllocError> {
        let accepted = self.accepted.load(Ordering::SeqCst);
        let refused = self.refused.load(Ordering::SeqCst);
        let bad = self.bad.load(Ordering::SeqCst);
        write!(
            lines,
            "  {}: {accepted} accepted, {refused} refused, {bad} bad\n",
            Shown(file)
        )
    }
}

/// How the lines of each script were answered, by the script's number from 0.
#[derive(Drop)]
pub struct Tallies {
    each: Vec<Tally>,
}

impl Tallies {
    /// Nothing is counted yet, of so many scripts.
    pub fn new(alloc: Global, scripts: usize) -> Result<Tallies, AllocError>
        ensures { IfOk result (λ tallies. length tallies.each.items ≡ scripts) }
    {
        let mut each = Vec::new(alloc);
        for _ in 0..scripts {
            each.push(Tally::new())?;
        }
        Ok(Tallies { each })
    }

    /// A line for each script that has begun, which is told by its file.
    pub fn lines(&self, alloc: Global, files: &[&str]) -> Result<String, AllocError> {
        let mut lines = String::new(alloc);
        for (tally, file) in self.each.iter().zip(files) {
            if tally.begun.load(Ordering::SeqCst) {
                tally.tell(file, &mut lines)?;
            }
        }
        Ok(lines)
    }
}

impl Hearing for Tallies {
    fn begins(&self, script: u32) {
        if let Some(tally) = self.each.get(script as usize) {
            tally.begun.store(true, Ordering::SeqCst);
        }
    }

    fn hears(&self, script: u32, word: &[u8]) {
        if let Some(tally) = self.each.get(script as usize) {
            let count = match answered_by(word) {
                Some(Answered::Accepted) => &tally.accepted,
                Some(Answered::Refused) => &tally.refused,
                Some(Answered::Bad) => &tally.bad,
                None => return,
            };
            count.fetch_add(1, Ordering::SeqCst);
        }
    }
}
