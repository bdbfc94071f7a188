//! How a planner is met at its pair of files: by a thread for each end, until it has come or is waited
//! for no longer.
ghost use Rattle.std.specs.Prelude.{◌≡◌, ◌≢◌, ◌↔◌, ◌⊎◌, IfErr, IfOk, IsTrue, Some, option_to_list};
ghost use Rattle.std.specs.Io.KnownBytes.{Consumes};
ghost use Rattle.std.specs.IoError.{error_kind, raw_os_error};

use crate::doors::{Doors, Ends, Opened, Reader, Stage, Unmet};
use crate::pipes::{Ahead, End, one_end};
use std::fs::File;
use std::io::{Error, ErrorKind, Read, Result as Done};
use std::sync::Wait;
use std::sync::atomic::Ordering;
use std::time::Duration;
use std::{mem, thread};

// The milliseconds until a thread looks again.
const PAUSE: u64 = 5;

// The system's numbers for as many open files as the process may have (EMFILE), or the system (ENFILE).
const FULL_PROCESS: i32 = 24;

const FULL_SYSTEM: i32 = 23;

/// Waits for the moment until a thread looks again.
pub(crate) fn pause(host: &HostRuntime) {
    let _slept = thread::sleep(host, Duration::from_millis(PAUSE));
}

// Whether a file isn't opened since too many others are, as may change.
fn is_full(why: Error) -> bool
    ensures { IsTrue result ↔ ((raw_os_error why ≡ Some FULL_PROCESS) ⊎ (raw_os_error why ≡ Some FULL_SYSTEM)) }
{
    matches!(why.raw_os_error(), Some(FULL_PROCESS | FULL_SYSTEM))
}

impl Doors {
    /// Waits until the planner has come, which has opened both of its files, or until it is waited for
    /// no longer; then nobody waits at them any more. Gives the desk's ends.
    ///
    /// # Errors
    ///
    /// The files can't be opened, or one of them can't be waited at; or the planner never came.
    pub fn meet<R: Wait>(&self, rt: &R, host: &HostRuntime) -> Result<(Ahead, File), Unmet> {
        let met = match self.take_ends(rt) {
            Ok(ends) => match self.meet_both(rt, host, &ends) {
                Ok(first) => Ok((first, ends)),
                Err(fault) => {
                    self.settle(rt, host);
                    drop(ends);
                    Err(fault)
                }
            },
            Err(fault) => Err(fault),
        };
        self.settle(rt, host);
        let piped = self.output.lock(rt).take();
        let (first, Ends { input, output, .. }) = met?;
        match output.or(piped) {
            Some(output) => Ok((Ahead::new(first, input), output)),
            None => Err(Unmet::NoThread),
        }
    }

    pub fn reader<R: Wait>(&self, rt: &R) -> Reader {
        *self.reader.lock(rt)
    }

    // The desk's ends, which are there once.
    fn take_ends<R: Wait>(&self, rt: &R) -> Result<Ends, Unmet> {
        let opened = mem::replace(&mut *self.opened.lock(rt), Opened::Taken);
        match opened {
            Opened::Ends(ends) => Ok(ends),
            Opened::Fault(fault) => Err(fault),
            Opened::NotYet | Opened::Taken => Err(Unmet::NoThread),
        }
    }

    // Meets who writes, then who reads; gives the byte that was read ahead, if one was.
    fn meet_both<R: Wait>(
        &self,
        rt: &R,
        host: &HostRuntime,
        ends: &Ends,
    ) -> Result<Option<u8>, Unmet> {
        if let Reader::Refused(fault) = self.reader(rt) {
            return Err(fault);
        }
        let first = match self.meet_writer(rt, host, ends) {
            Ok(first) => first,
            Err(why) => return Err(Unmet::NoInput(why)),
        };
        for _ in rt.forever() {
            match self.reader(rt) {
                Reader::Here if self.has_come(rt) => return Ok(first),
                Reader::Refused(fault) => return Err(fault),
                Reader::Here | Reader::Awaited => {}
            }
            if self.stage(rt) == Stage::Missed {
                return Err(Unmet::NeverCame);
            }
            pause(host);
        }
        unreachable!()
    }

    // The planner has come, unless it is waited for no longer.
    fn has_come<R: Wait>(&self, rt: &R) -> bool {
        self.go(rt, Stage::Awaited, Stage::Past) || self.stage(rt) == Stage::Past
    }

    // Waits until somebody writes to the input, or has opened it since. Where it is told to look, it
    // reads: what somebody left there who has gone is there at once.
    fn meet_writer<R: Wait>(&self, rt: &R, host: &HostRuntime, ends: &Ends) -> Done<Option<u8>> {
        let Some(anchor) = &ends.awaited else {
            return Ok(None);
        };
        for _ in rt.forever() {
            self.awaits.store(true, Ordering::SeqCst);
            let came = self.wait_at(rt, host, anchor.as_str(), End::Input);
            self.awaits.store(false, Ordering::SeqCst);
            came?;
            let is_nudged = self.is_nudged.swap(false, Ordering::SeqCst);
            if !is_nudged || self.stage(rt) == Stage::Missed {
                return Ok(None);
            }
            self.reads.store(true, Ordering::SeqCst);
            let first = read_one(&mut &ends.input);
            self.reads.store(false, Ordering::SeqCst);
            if let Some(byte) = first? {
                return Ok(Some(byte));
            }
        }
        unreachable!()
    }

    // Waits until somebody opens the other end of a pipe, or has opened it since, or until the planner
    // isn't awaited.
    fn wait_at<R: Wait>(&self, rt: &R, host: &HostRuntime, anchor: &str, end: End) -> Done<()>
        ensures { IfErr result (λ why. (raw_os_error why ≢ Some FULL_PROCESS) × (raw_os_error why ≢ Some FULL_SYSTEM)) }
    {
        for _ in rt.forever() {
            if self.stage(rt) != Stage::Awaited {
                return Ok(());
            }
            match one_end(end).open(host, anchor) {
                Ok(_) => return Ok(()),
                Err(why) if is_full(why) => pause(host),
                Err(why) => return Err(why),
            }
        }
        unreachable!()
    }

    /// Waits until somebody reads the answers, beside `meet`.
    pub fn watch<R: Wait>(&self, rt: &R, host: &HostRuntime) {
        if let Some(anchor) = &self.watched {
            self.watches.store(true, Ordering::SeqCst);
            let came = self.wait_at(rt, host, anchor.as_str(), End::Output);
            *self.reader.lock(rt) = match came {
                Ok(()) => Reader::Here,
                Err(why) => Reader::Refused(Unmet::NoOutput(why)),
            };
        }
    }

    /// Whether the thread that waits for who reads does so by now, where there is one.
    pub fn is_watched<R: Wait>(&self, rt: &R) -> bool {
        self.watches.load(Ordering::SeqCst) || !matches!(self.reader(rt), Reader::Awaited)
    }

    /// No thread waits for who reads the answers.
    pub fn miss_watch<R: Wait>(&self, rt: &R) {
        *self.reader.lock(rt) = Reader::Refused(Unmet::NoThread);
    }
}

// The next byte, or none at the end, or where the call was interrupted. It waits for who is there and silent.
fn read_one<I: Read>(input: &mut I) -> Done<Option<u8>>
    ensures next { IfOk result (λ first. Consumes (I.remaining input.old) (I.remaining input.new) (option_to_list first)) }
    ensures failed { IfErr result (λ why. error_kind why ≢ ErrorKind.Interrupted) }
{
    let mut first = [0u8];
    match input.read(first.as_mut_slice()) {
        Ok(0) => Ok(None),
        Ok(_) => Ok(Some(first[0])),
        Err(why) if why.kind() == ErrorKind::Interrupted => Ok(None),
        Err(why) => Err(why),
    }
}
