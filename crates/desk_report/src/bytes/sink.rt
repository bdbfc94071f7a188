ghost use Rattle.std.specs.Prelude.{◌≡◌, ◌≤◌, ◌<◌, ℕ, List, Option, Bool, length, IfOk, OnOk, OnErr, is_err, ◌||◌};
ghost use Rattle.std.specs.Io.KnownBytes.{Appends};
ghost use Rattle.desk_report.specs.Bytes.{bytes_put, AppendsFront};

use thiserror::Error;

/// A sink failed, or took no byte of some.
#[derive(Clone, Copy, Debug, PartialEq, Eq, Error)]
#[error("write failed")]
pub struct WriteFailed;

/// What takes bytes.
pub trait Sink {
    /// The bytes that it has taken, where they are told.
    ghost held: { Self → Option (List ℕ) };

    /// Whether a call has failed.
    ghost broken: { Self → Bool };

    /// Takes a front of the bytes, and tells how many it took. To take none of some is a failure,
    /// and a call that fails takes none.
    fn put(&mut self, bytes: &[u8]) -> Result<usize, WriteFailed>
        ensures bound { IfOk result (λ n. n ≤ length bytes.now) }
        ensures some { IfOk result (λ n. 0 < length bytes.now → 0 < n) }
        ensures bytes { Appends (held self.old) (held self.new) (bytes_put result bytes.now) }
        ensures broken { broken self.new ≡ (broken self.old || is_err result) };
}

/// Puts every byte. After a failure a prefix of the bytes went out.
pub fn put_all<W: Sink>(sink: &mut W, bytes: &[u8]) -> Result<(), WriteFailed>
    ensures ok { OnOk result (Appends (W.held sink.old) (W.held sink.new) bytes.now) }
    ensures err { OnErr result (AppendsFront (W.held sink.old) (W.held sink.new) bytes.now) }
    ensures broken { W.broken sink.new ≡ (W.broken sink.old || is_err result) }
{
    let mut sent = 0;
    while sent < bytes.len() {
        match sink.put(&bytes[sent..]) {
            Ok(n) => sent += n,
            Err(failed) => return Err(failed),
        }
    }
    Ok(())
}
