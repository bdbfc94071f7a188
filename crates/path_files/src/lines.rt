ghost use Rattle.std.specs.Prelude.{◌≡◌, ◌+◌, ◌^◌, ◌<◌, ◌≤◌, ◌==◌, None, Some, [], ◌∷◌, length, MatchOption, IfSome};
ghost use Rattle.std.specs.Option.{option_copied};
ghost use Rattle.std.specs.List.{position};
ghost use Rattle.bench_reader.specs.Lines.{lines_of};
ghost use Rattle.path_files.specs.Lines.{behind_blanks, trimmed, behind, cut, numbered, is_silent, written, written_from, without_mark};

use bench_reader::{is_blank, is_blank_line, next_line, number_of, row_of};

/// The line without the blanks at its front.
pub(crate) fn behind_blanks(line: &[u8]) -> &[u8]
    ensures { result.now ≡ behind_blanks line.now }
{
    let mut rest = line;
    while let [first, tail @ ..] = rest {
        if !is_blank(*first) {
            break;
        }
        rest = tail;
    }
    rest
}

/// The line without the blanks at its ends.
pub(crate) fn trimmed(line: &[u8]) -> &[u8]
    ensures { result.now ≡ trimmed line.now }
{
    behind_blanks(row_of(line))
}

// Whether the line says nothing: whether it has blanks alone, or is a remark.
fn is_silent(line: &[u8]) -> bool
    ensures { result ≡ is_silent line.now }
{
    is_blank_line(line) || behind(b"#", behind_blanks(line)).is_some()
}

/// The text without the mark of its byte order, if it has one.
pub(crate) fn without_mark(text: &[u8]) -> &[u8]
    ensures is { result.now ≡ without_mark text.now }
    ensures shorter { length result.now ≤ length text.now }
{
    match behind(b"\xef\xbb\xbf", text) {
        Some(rest) => rest,
        None => text,
    }
}

/// The first line of a text that says something, where its lines count from `first`: its number, the
/// line without the blanks at its ends, and the text behind it.
pub(crate) fn next_written(text: &[u8], first: usize) -> Option<(usize, &[u8], &[u8])>
    requires { first + length text.now < 2 ^ 64 }
    ensures lines { MatchOption result (written_from first (lines_of text.now) ≡ [])
        (λ r. written_from first (lines_of text.now) ≡ written r.0 r.1.now ∷ written_from (r.0 + 1) (lines_of r.2.now)) }
    ensures room { IfSome result (λ r. r.0 + 1 + length r.2.now ≤ first + length text.now) }
    ensures shorter { IfSome result (λ r. length r.2.now < length text.now) }
{
    let mut rest = text;
    let mut number = first;
    while let Some((line, below)) = next_line(rest) {
        if !is_silent(line) {
            return Some((number, trimmed(line), below));
        }
        rest = below;
        number += 1;
    }
    None
}

/// What stands behind the prefix, where the text begins with it.
pub(crate) fn behind<'a>(prefix: &[u8], text: &'a [u8]) -> Option<&'a [u8]>
    ensures is { option_copied result ≡ behind prefix.now text.now }
    ensures shorter { IfSome result (λ rest. length rest.now ≤ length text.now) }
{
    text.strip_prefix(prefix)
}

// The index of the first such byte.
fn place_of(text: &[u8], mark: u8) -> Option<usize>
    ensures { result ≡ position (λ byte. byte == mark) text.now }
{
    text.iter().position(|byte| *byte == mark)
}

/// What stands before the first such byte, and what stands behind it.
pub(crate) fn cut(text: &[u8], mark: u8) -> Option<(&[u8], &[u8])>
    ensures { MatchOption result (cut mark text.now ≡ None) (λ r. cut mark text.now ≡ Some (r.0.now, r.1.now)) }
{
    let place = place_of(text, mark)?;
    Some((&text[..place], &text[place + 1..]))
}

/// The number, and what stands behind it and a colon, where the line begins with them.
pub(crate) fn numbered(line: &[u8]) -> Option<(u32, &[u8])>
    ensures { MatchOption result (numbered line.now ≡ None) (λ r. numbered line.now ≡ Some (r.0, r.1.now)) }
{
    let (label, rest) = cut(line, b':')?;
    Some((number_of(trimmed(label))?, rest))
}
