//! The seats of planners at pipes, or other files, and of the operator at standard input and output.
ghost use Rattle.std.specs.Prelude.{◌≡◌, IfOk, false, length, true};
ghost use Rattle.solver_check.specs.Inputs.{untold_input};
ghost use Rattle.solver_check.specs.Seats.{Sits, StopsKeeping};

use crate::doors::{Doors, Unmet};
use crate::opening::{DoorsFault, PipesFault};
use crate::patience::Patient;
use crate::pipes::both_ends;
use crate::prompting::Prompting;
use crate::sittings::sit_between;
use crate::steady::Steady;
use desk_core::Awaits;
use session_protocol::{Keeper, LinesVersion, ServeFault};
use solver_check::{Outcome, SeatFault, Seats};
use std::alloc::Global;
use std::fs::File;
use std::io;
use std::io::IsTerminal;
use std::rt::Stderr;
use std::sync::{Mutex, Wait};

/// The seats of the operator, 0, and of the planners from 1 on.
#[derive(Drop)]
pub struct Pipes<'a> {
    pub(crate) host: &'a HostRuntime,
    pub(crate) names: &'a [&'static str],
    pub(crate) doors: Vec<Doors>,
    pub(crate) version: LinesVersion,
    // Whether it is told who comes and goes.
    pub(crate) stages: bool,
    // What an operator who types reads first.
    pub(crate) prompt: &'static str,
    // A file that is given up once the last planners are waited for no longer: so one can be opened,
    // however many are open.
    pub(crate) spare: Mutex<Option<File>>,
}

impl<'a> Pipes<'a> {
    /// Seats for the planners of those names, who haven't come yet, and write in that version of lines; an
    /// operator who types reads the prompt first. Of their files those outputs are open that are pipes.
    ///
    /// # Errors
    ///
    /// Want of memory; or an output of a planner, the first such one, is in use.
    pub fn new(
        alloc: Global,
        host: &'a HostRuntime,
        names: &'a [&'static str],
        version: LinesVersion,
        stages: bool,
        prompt: &'static str,
    ) -> Result<Pipes<'a>, PipesFault>
        ensures as_many { IfOk result (λ pipes. length pipes.doors.items ≡ length names.now) }
        ensures named { IfOk result (λ pipes. pipes.names.now ≡ names.now) }
        ensures version { IfOk result (λ pipes. pipes.version ≡ version) }
        ensures stages { IfOk result (λ pipes. pipes.stages ≡ stages) }
        ensures prompt { IfOk result (λ pipes. pipes.prompt.now ≡ prompt.now) }
    {
        let spare = both_ends().open(host, "/dev/null").ok();
        let mut doors = Vec::new(alloc);
        for name in names {
            match Doors::new(host, alloc, name) {
                Ok(pair) => match doors.push(pair) {
                    Ok(()) => {}
                    Err(_) => return Err(PipesFault::OutOfMemory),
                },
                Err(DoorsFault::InUse) => return Err(PipesFault::InUse { name }),
                Err(_) => return Err(PipesFault::OutOfMemory),
            }
        }
        Ok(Pipes {
            host,
            names,
            doors,
            version,
            stages,
            prompt,
            spare: Mutex::new(spare),
        })
    }

    // What is told goes to standard error.
    pub(crate) fn errors(&self) -> Steady<'_, HostRuntime, Stderr>
        ensures { result.rt.now ≡ self.now.host.now }
    {
        Steady::new(self.host, self.host.stderr())
    }

    // Serves the operator.
    fn operate<C: Awaits, K: Keeper<C>>(
        &self,
        alloc: Global,
        keeper: &mut K,
        counter: &mut C,
    ) -> Outcome
        requires { K.has_failed keeper.old ≡ false }
        ensures sat { Sits C.counting (untold_input self.now.version) counter.old counter.new result }
        ensures kept { K.has_failed keeper.new ≡ false → K.keeps keeper.old counter.old → K.keeps keeper.new counter.new }
        ensures unkept { K.has_failed keeper.new ≡ true → StopsKeeping C.counting (untold_input self.now.version) counter.old counter.new
            (λ told. K.keeps keeper.old counter.old → K.keeps_some keeper.new told counter.new) }
    {
        let errors = self.errors();
        // (lent, since standard input has its buffer in itself)
        let mut reader = self.host.reader();
        let typed = self.host.stdin().is_terminal();
        let input = Prompting::new(&errors, &mut reader, typed, self.prompt);
        let output = Patient::new(self.host, io::writer(self.host));
        let ended = sit_between(alloc, self.version, keeper, counter, input, output);
        self.tell("operator", &ended);
        ended
    }

    // Waits for a planner, and serves it to the end of its input.
    fn let_in<R: Wait, C: Awaits, K: Keeper<C>>(
        &self,
        rt: &R,
        alloc: Global,
        doors: &Doors,
        keeper: &mut K,
        counter: &mut C,
    ) -> Outcome
        requires { K.has_failed keeper.old ≡ false }
        ensures sat { Sits C.counting (untold_input self.now.version) counter.old counter.new result }
        ensures kept { K.has_failed keeper.new ≡ false → K.keeps keeper.old counter.old → K.keeps keeper.new counter.new }
        ensures unkept { K.has_failed keeper.new ≡ true → StopsKeeping C.counting (untold_input self.now.version) counter.old counter.new
            (λ told. K.keeps keeper.old counter.old → K.keeps_some keeper.new told counter.new) }
    {
        let (input, output) = match doors.meet(rt, self.host) {
            Ok(ends) => ends,
            Err(Unmet::NoThread) => return Err(SeatFault::NoThread),
            Err(Unmet::NeverCame) => return Err(SeatFault::NeverCame),
            Err(Unmet::NoInput(why)) => return Err(SeatFault::NoInput(why)),
            Err(Unmet::NoOutput(why)) => return Err(SeatFault::NoOutput(why)),
        };
        if self.stages {
            let _told = eprintln!(self.errors(); "mapf_desk: {}: has come", doors.name);
        }
        sit_between(alloc, self.version, keeper, counter, input, output)
    }

    // Tells how a session ended: its fault, and how many lines it had where that is wanted.
    fn tell(&self, name: &str, ended: &Outcome) {
        let errors = self.errors();
        match ended {
            Err(SeatFault::Session(ServeFault::ReadFailed, None)) => {
                let _told = eprintln!(errors; "mapf_desk: {name}: ended within a line");
            }
            Err(SeatFault::Session(fault, Some(why))) => {
                let _told = eprintln!(errors; "mapf_desk: {name}: {fault}: {why}");
            }
            Err(fault) => {
                let _told = eprintln!(errors; "mapf_desk: {name}: {fault}");
            }
            Ok(lines) if self.stages => {
                let what = if *lines == 1 { "line" } else { "lines" };
                let _told = eprintln!(errors; "mapf_desk: {name}: {lines} {what}");
            }
            Ok(_) => {}
        }
    }
}

impl<'a> Seats for Pipes<'a> {
    ghost inputs = { λ pipes _. untold_input pipes.version };

    fn seat<R: Wait, C: Awaits, K: Keeper<C>>(
        &self,
        rt: &R,
        alloc: Global,
        number: u32,
        counter: &mut C,
        keeper: &mut K,
    ) -> Outcome {
        let Some(place) = number.checked_sub(1) else {
            let ended = self.operate(alloc, keeper, counter);
            self.tell_awaited(rt);
            return ended;
        };
        let Some(doors) = self.doors.get(place as usize) else {
            return Err(SeatFault::NoThread);
        };
        let ended = self.let_in(rt, alloc, doors, keeper, counter);
        self.tell(doors.name.as_str(), &ended);
        ended
    }

    fn miss<R: Wait>(&self, rt: &R, number: u32) {
        let missed = Err(SeatFault::NoThread);
        let Some(place) = number.checked_sub(1) else {
            self.tell("operator", &missed);
            return;
        };
        if let Some(doors) = self.doors.get(place as usize) {
            doors.shut(rt, self.host);
            self.tell(doors.name.as_str(), &missed);
        }
    }
}
