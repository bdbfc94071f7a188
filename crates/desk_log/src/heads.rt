//! The head of a log.
ghost use Rattle.std.specs.Prelude.{◌≡◌, ◌≢◌, ◌++◌, ◌↔◌, ℕ, List, IsTrue, MatchOption, codes, nat_eq};
ghost use Rattle.std.specs.List.{starts_with};
ghost use Rattle.desk_log.specs.Reading.{IsTornHead};

/// Whether a text is to be read as a log.
pub fn is_log(text: &[u8]) -> bool
    ensures { result ≡ starts_with nat_eq text.now (codes "log ") }
{
    text.starts_with(b"log ")
}

/// What stands behind that front of a text, if it has that.
pub(crate) fn behind<'t>(text: &'t [u8], front: &[u8]) -> Option<&'t [u8]>
    ensures { MatchOption result ((rest : List ℕ) → text.now ≢ front.now ++ rest) (λ rest. text.now ≡ front.now ++ rest.now) }
{
    text.strip_prefix(front)
}

/// Whether the text is a front of that head, and not the whole of it.
pub fn is_torn_head(text: &[u8], head: &[u8]) -> bool
    ensures { IsTrue result ↔ IsTornHead text.now head.now }
{
    if text.len() >= head.len() {
        return false;
    }
    match behind(head, text) {
        Some(_lost) => true,
        None => false,
    }
}

/// The first line that doesn't fit in a head, of a text that doesn't begin with one.
pub(crate) fn bad_head_line(text: &[u8]) -> usize {
    let Some(rest) = text.strip_prefix(b"log 1\n") else {
        return 1;
    };
    if rest.starts_with(b"mode stay\n") || rest.starts_with(b"mode disappear\n") {
        3
    } else {
        2
    }
}
