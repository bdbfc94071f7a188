//! What is told of a fault on standard error: its line, and what more is known.
ghost use Rattle.std.specs.Prelude.{◌≡◌, None};
ghost use Rattle.std.specs.Process.{exit_status};

use std::alloc::Global;
use std::fmt::Display;
use std::process::ExitCode;

/// The status of a fault.
pub const FAULT: u8 = 2;

/// What more is known of a run: of its fault, where anything is, of the scripts that it served, and of a
/// file that it read.
#[derive(Drop)]
pub struct More {
    text: Option<String>,
    served: Option<String>,
    note: Option<String>,
}

impl More {
    /// No more is known.
    pub fn none() -> More
        ensures { result ≡ record { text = None; served = None; note = None } }
    {
        More {
            text: None,
            served: None,
            note: None,
        }
    }

    /// That is known, if anything.
    pub fn put(&mut self, text: Option<String>)
        ensures { self.new ≡ record self.old { text = text } }
    {
        self.text = text;
    }

    /// That is the reason; where there is no memory for its text, no more is known.
    pub fn reason<D: Display>(&mut self, alloc: Global, why: &D)
        ensures served { self.new.served ≡ self.old.served }
        ensures note { self.new.note ≡ self.old.note }
    {
        self.text = match format!(in alloc; "{why}") {
            Ok(text) => Some(text),
            Err(_) => None,
        };
    }

    /// That is noted of a file that was read, if anything.
    pub fn note(&mut self, line: Option<String>)
        ensures { self.new ≡ record self.old { note = line } }
    {
        self.note = line;
    }

    /// These lines are known of the scripts that were served, if any.
    pub fn served(&mut self, lines: Option<String>)
        ensures { self.new ≡ record self.old { served = lines } }
    {
        self.served = lines;
    }
}

/// Tells a fault on standard error, where that takes it, and gives its status.
pub fn tell<R: Eprint, D: Display + Drop>(rt: &R, fault: D) -> ExitCode
    ensures { exit_status result ≡ FAULT }
{
    let _told = eprintln!(rt; "mapf_desk: {fault}");
    ExitCode::from(FAULT)
}

/// Tells a fault, and in a second line what more is known, where that is wanted.
pub fn tell_more<R: Eprint, D: Display>(rt: &R, fault: &D, more: &More, verbose: bool) -> ExitCode
    ensures { exit_status result ≡ FAULT }
{
    let _told = eprintln!(rt; "mapf_desk: {fault}");
    if let Some(text) = &more.text {
        if verbose {
            let _told = eprintln!(rt; "  {text}");
        }
    }
    ExitCode::from(FAULT)
}

/// Tells what is known of the scripts that were served, and what is noted of a file.
pub fn tell_served<R: Eprint>(rt: &R, more: &More) {
    if let Some(line) = &more.note {
        let _told = eprintln!(rt; "{line}");
    }
    if let Some(lines) = &more.served {
        let _told = eprint!(rt; "{lines}");
    }
}
