ghost use Rattle.std.specs.Prelude.{◌≡◌, ◌++◌, length, take, drop};
ghost use Rattle.desk_c.specs.Calls.{AtState, IsHeard, WritesJournal, is_open};

use crate::opening::OpenFault;
use desk_core::Desk;
use desk_report::Spout;
use journal_text::write_journal;
use session_protocol::{Dialogue, LinesVersion};
use std::alloc::Global;
use std::mem::replace;

/// An open desk, the session over it, and the number of the last line.
pub struct OpenDesk {
    pub(crate) desk: Desk,
    pub(crate) dialogue: Dialogue,
    pub(crate) lines: u32,
}

impl Drop for OpenDesk {
    fn drop(self) {
        let OpenDesk {
            desk: _desk,
            dialogue: _dialogue,
            lines: _,
        } = self;
    }
}

/// What came of opening a desk.
#[derive(Drop)]
pub enum Opening {
    Open(OpenDesk),
    Refused(OpenFault),
}

/// What is behind a handle: what came of opening a desk, and the last answer.
pub struct State {
    pub(crate) opening: Opening,
    pub(crate) answer: Vec<u8>,
}

impl Drop for State {
    fn drop(self) {
        let State {
            opening: _opening,
            answer: _answer,
        } = self;
    }
}

impl OpenDesk {
    // The answer to the next line, in the room of the last one, and whether it is whole. Lines past the greatest number have that one.
    fn answer(&mut self, alloc: Global, line: &[u8], room: Vec<u8>) -> (Vec<u8>, bool)
        ensures { IsHeard result.1 self.old line.now result.0.items self.new }
    {
        self.lines = self.lines.saturating_add(1);
        let mut room = room;
        room.clear();
        let mut writer = Spout::new(room);
        let version = LinesVersion::Two;
        let number = self.lines;
        let said = self
            .dialogue
            .answer(alloc, version, &mut self.desk, number, line, &mut writer);
        (writer.into_inner(), said.is_ok())
    }

    // The text of the journal, in the room of the last answer, and whether it is whole.
    fn journal(&self, room: Vec<u8>) -> (Vec<u8>, bool)
        ensures { WritesJournal result.1 self.now result.0.items self.now }
    {
        let mut room = room;
        room.clear();
        let mut writer = Spout::new(room);
        let _most = self.desk.limit().entries();
        let said = write_journal(self.desk.journal(), self.desk.scene().mode(), &mut writer);
        (writer.into_inner(), said.is_ok())
    }
}

impl State {
    /// Whether a desk is open.
    pub(crate) fn is_open(&self) -> bool
        ensures { result ≡ is_open self.now.opening }
    {
        matches!(&self.opening, Opening::Open(_))
    }

    /// Answers the session's next line, if a desk is open. Reports whether the answer is whole.
    pub(crate) fn hear(&mut self, alloc: Global, line: &[u8]) -> bool
        ensures { AtState (λ told desk. IsHeard told desk line.now) result self.old self.new }
    {
        match &mut self.opening {
            Opening::Refused(_) => false,
            Opening::Open(desk) => {
                let room = replace(&mut self.answer, Vec::new(alloc));
                let (answer, is_whole) = desk.answer(alloc, line, room);
                drop(replace(&mut self.answer, answer));
                is_whole
            }
        }
    }

    /// Makes the journal's text the answer, if a desk is open. Reports whether it is whole.
    pub(crate) fn tell_journal(&mut self, alloc: Global) -> bool
        ensures { AtState WritesJournal result self.old self.new }
    {
        match &self.opening {
            Opening::Refused(_) => false,
            Opening::Open(desk) => {
                let room = replace(&mut self.answer, Vec::new(alloc));
                let (answer, is_whole) = desk.journal(room);
                drop(replace(&mut self.answer, answer));
                is_whole
            }
        }
    }

    /// Copies the front of the answer that there is room for, and gives the length of the whole.
    pub(crate) fn copy_answer(&self, room: &mut [u8]) -> usize
        ensures whole { result ≡ length self.now.answer.items }
        ensures front { room.new ≡ take (length room.old) self.now.answer.items ++ drop (length self.now.answer.items) room.old }
    {
        copy_front(self.answer.as_slice(), room)
    }
}

/// Copies the front of the bytes that there is room for, and gives the length of the whole.
pub(crate) fn copy_front(bytes: &[u8], room: &mut [u8]) -> usize
    ensures whole { result ≡ length bytes.now }
    ensures front { room.new ≡ take (length room.old) bytes.now ++ drop (length bytes.now) room.old }
{
    let count = bytes.len();
    let most = if count < room.len() {
        count
    } else {
        room.len()
    };
    room[..most].copy_from_slice(&bytes[..most]);
    count
}
