ghost use Rattle.std.specs.Prelude.{◌≡◌, ℕ, ◌+◌, ◌^◌, ◌<◌, ◌≤◌, true, [], ◌∷◌, drop, length, MatchOption};
ghost use Rattle.std.specs.List.{list_all};
ghost use Rattle.bench_reader.specs.Lines.{lines_of, line_at, is_blank, is_blank_line, row_of, IsFirstWritten};

use bstr::ByteSlice;

/// The first line of a text, without its line feed, and the text behind it. A last line without a
/// line feed counts if it isn't empty.
pub fn next_line(text: &[u8]) -> Option<(&[u8], &[u8])>
    ensures lines { MatchOption result (lines_of text.now ≡ []) (λ r. lines_of text.now ≡ r.0.now ∷ lines_of r.1.now) }
    ensures shorter { MatchOption result (text.now ≡ []) (λ r. length r.1.now < length text.now) }
{
    match text.find_byte(b'\n') {
        Some(end) => Some((&text[..end], &text[end + 1..])),
        None if text.is_empty() => None,
        None => Some((text, &text[text.len()..])),
    }
}

/// The same, where a line that is missing is an empty one.
pub(crate) fn first_line(text: &[u8]) -> (&[u8], &[u8])
    ensures line { result.0.now ≡ line_at (lines_of text.now) 0 }
    ensures rest { lines_of result.1.now ≡ drop 1 (lines_of text.now) }
    ensures behind { (k : ℕ) → line_at (lines_of result.1.now) k ≡ line_at (lines_of text.now) (k + 1) }
    ensures shorter { length result.1.now ≤ length text.now }
{
    match next_line(text) {
        Some(parts) => parts,
        None => (text, text),
    }
}

/// Whether the byte is a space, a tab or a carriage return.
pub fn is_blank(byte: u8) -> bool
    ensures { result ≡ is_blank byte }
{
    byte == b' ' || byte == b'\t' || byte == b'\r'
}

/// Whether the line has blanks alone, or nothing.
pub fn is_blank_line(line: &[u8]) -> bool
    ensures { result ≡ is_blank_line line.now }
{
    line.iter().all(|byte| is_blank(*byte))
}

/// The line without the blanks at its end.
pub fn row_of(line: &[u8]) -> &[u8]
    ensures { result.now ≡ row_of line.now }
{
    let mut row = line;
    while let [front @ .., last] = row {
        if !is_blank(*last) {
            break;
        }
        row = front;
    }
    row
}

/// The number of the first line that isn't blank, where the text's lines count from `first`.
pub(crate) fn first_written(text: &[u8], first: usize) -> Option<usize>
    requires { first + length text.now < 2 ^ 64 }
    ensures { MatchOption result (list_all is_blank_line (lines_of text.now) ≡ true)
        (IsFirstWritten (lines_of text.now) first) }
{
    let mut rest = text;
    let mut line = first;
    while let Some((content, behind)) = next_line(rest) {
        if !is_blank_line(content) {
            return Some(line);
        }
        rest = behind;
        line += 1;
    }
    None
}
