//! Sessions that are called line by line.
ghost use Rattle.std.specs.Prelude.{◌≡◌, IfErr, ◌||◌};
ghost use Rattle.session_protocol.specs.Answer.{answering_in};
ghost use Rattle.session_protocol.specs.Session.{IsAnswered, is_write_failed};

use crate::bounds::ServeFault;
use crate::drafts::Session;
use crate::keeping::Unkept;
use crate::serving::answer_line;
use crate::waiting::AsLong;
use desk_core::Awaits;
use desk_report::Sink;
use session_lines::LinesVersion;
use std::alloc::Global;
use std::marker::Model;

/// A session between its lines.
#[derive(Drop)]
pub struct Dialogue {
    session: Session,
}

impl Model for Dialogue {
    ghost use Rattle.session_protocol.specs.declared.drafts.Session.{Session};

    ghost Value = { Session };

    ghost view = { λ d. d.session };
}

impl Dialogue {
    /// A session of which nothing was heard.
    pub fn new() -> Dialogue
        ensures { result ≡ Session.Idle }
    {
        Dialogue {
            session: Session::Idle,
        }
    }

    /// Answers the line of that number, without its line feed, in that version of lines.
    ///
    /// # Errors
    ///
    /// The sink failed. The line had its effect.
    pub fn answer<C: Awaits, W: Sink>(
        &mut self,
        alloc: Global,
        version: LinesVersion,
        counter: &mut C,
        number: u32,
        line: &[u8],
        writer: &mut W,
    ) -> Result<(), ServeFault>
        ensures answered { IsAnswered (answering_in version C.counting) (self.old, counter.old) number line.now
            (W.held writer.old) (W.held writer.new) result (self.new, counter.new) }
        ensures unwritten { IfErr result (λ fault. fault ≡ ServeFault.WriteFailed) }
        ensures broken { W.broken writer.new ≡ (W.broken writer.old || is_write_failed result) }
    {
        answer_line(
            alloc,
            version,
            &AsLong,
            &mut Unkept,
            &mut self.session,
            counter,
            number,
            line,
            writer,
        )
    }
}
