//! Readers and writers that are interrupted, and that fail in the middle; lines of words.
use desk_report::{ReadFailed, Sink, Source, Spout, Tap, Word, WriteFailed, put_all, put_line};
use grid_cells::{Agent, Cell, List, OutOfMemory, Step};
use std::alloc::Global;
use std::io;

// Reads and writes a byte at a time; each second call is interrupted, and after the room is used
// up a read fails and a write takes nothing.
#[derive(Drop)]
struct Halting {
    held: Vec<u8>,
    room: u32,
    interrupts: bool,
}

impl Halting {
    // Holds nothing yet, and has that room.
    fn new(alloc: Global, room: u32) -> Halting {
        Halting {
            held: Vec::new(alloc),
            room,
            interrupts: false,
        }
    }

    // How many bytes, at most one, there is room for.
    fn turn(&mut self) -> io::Result<usize> {
        self.interrupts = !self.interrupts;
        if self.interrupts {
            return Err(io::Error::from(io::ErrorKind::Interrupted));
        }
        if self.room == 0 {
            return Ok(0);
        }
        self.room -= 1;
        Ok(1)
    }
}

impl io::Read for Halting {
    fn read(&mut self, buf: &mut [u8]) -> io::Result<usize> {
        let count = self.turn()?;
        if count == 0 || buf.is_empty() {
            return Err(io::Error::from(io::ErrorKind::WouldBlock));
        }
        buf[0] = b'x';
        Ok(1)
    }
}

impl io::Write for Halting {
    fn write(&mut self, buf: &[u8]) -> io::Result<usize> {
        let count = self.turn()?.min(buf.len());
        self.held.extend_from_slice(&buf[..count])?;
        Ok(count)
    }

    fn flush(&mut self) -> io::Result<()> {
        Ok(())
    }
}

#[test]
fn reader_fails_in_the_middle(rt: HostRuntime) {
    let mut source = Tap::new(Halting::new(rt.alloc(), 2));
    assert!(rt; source.next_byte() == Ok(Some(b'x')));
    assert!(rt; source.next_byte() == Ok(Some(b'x')));
    assert!(rt; source.next_byte() == Err(ReadFailed));
    assert!(rt; source.next_byte() == Err(ReadFailed));
}

#[test]
fn writer_fails_in_the_middle(rt: HostRuntime) {
    let mut sink = Spout::new(Halting::new(rt.alloc(), 12));
    assert!(rt; put_all(&mut sink, b"agents 0\nconflicts 0\n") == Err(WriteFailed));
    assert!(rt; sink.into_inner().held.as_slice() == b"agents 0\ncon".as_slice());
}

#[test]
fn line_of_all_words(rt: HostRuntime) {
    let mut sink = Spout::new(Vec::new(rt.alloc()));
    let words = [
        Word::Text(b"stale"),
        Word::Number(u64::MAX),
        Word::agent(Agent::LEAST),
        Word::time(Step::new(10)),
        Word::given(Some(7)),
        Word::given(None),
        Word::Answer(true),
        Word::Answer(false),
        Word::At(Cell::new(2047, 30).expect(&rt, "a cell")),
    ];
    assert!(rt; put_line(&mut sink, b"refused", &words).is_ok());
    assert!(rt; put_all(&mut sink, b"end").is_ok());
    assert!(rt; sink.put(b"") == Ok(0));
    let wanted = "refused stale 18446744073709551615 0 10 7 none yes no 2047,30\nend";
    assert!(rt; sink.into_inner().as_slice() == wanted.as_bytes());
}

#[test]
fn lists_and_texts_of_failures(rt: HostRuntime) {
    let alloc = rt.alloc();
    let list = List::new(vec![in alloc; 4_u32, 2].expect(&rt, "memory"));
    assert!(rt; list.items() == [4, 2].as_slice());
    let same = List::new(vec![in alloc; 4_u32, 2].expect(&rt, "memory"));
    let other = List::new(vec![in alloc; 4_u32].expect(&rt, "memory"));
    assert!(rt; list == same && list != other && same.into_items().len() == 2);
    let texts = format!(in alloc; "{ReadFailed}, {WriteFailed}, {OutOfMemory}");
    let wanted = "read failed, write failed, out of memory";
    assert!(rt; texts.expect(&rt, "memory").as_str() == wanted);
}
