ghost use Rattle.std.specs.Prelude.{◌≡◌, ◌≢◌, ◌<◌, ◌≤◌, [], ◌∷◌, true, false, length, take, drop, MatchOption};
ghost use Rattle.std.specs.List.{list_all};
ghost use Rattle.bench_reader.specs.Lines.{is_blank};
ghost use Rattle.bench_reader.specs.Words.{ends_word, is_in_word, words_of, number_of};

use crate::lines::is_blank;

/// The first word of a line, and the line behind it. Words are the longest runs of bytes that are
/// not blank: not space, tab or carriage return.
pub fn next_word(line: &[u8]) -> Option<(&[u8], &[u8])>
    ensures { MatchOption result (words_of line.now ≡ []) (λ r. words_of line.now ≡ r.0.now ∷ words_of r.1.now) }
{
    let rest = skip_blanks(line);
    if rest.is_empty() {
        return None;
    }
    let end = word_len(rest);
    Some((&rest[..end], &rest[end..]))
}

/// The words of a line that has two.
pub(crate) fn two_words(line: &[u8]) -> Option<(&[u8], &[u8])>
    ensures { MatchOption result (length (words_of line.now) ≢ 2) (λ r. words_of line.now ≡ r.0.now ∷ r.1.now ∷ []) }
{
    let (first, rest) = next_word(line)?;
    let (second, rest) = next_word(rest)?;
    match next_word(rest) {
        Some(_) => None,
        None => Some((first, second)),
    }
}

// The line without the blanks at its front.
fn skip_blanks(line: &[u8]) -> &[u8]
    ensures words { words_of result.now ≡ words_of line.now }
    ensures first { 0 < length result.now → ends_word result.now ≡ false }
{
    let mut rest = line;
    while let [first, tail @ ..] = rest {
        if !is_blank(*first) {
            break;
        }
        rest = tail;
    }
    rest
}

// How many bytes before the first blank.
fn word_len(line: &[u8]) -> usize
    ensures within { result ≤ length line.now }
    ensures word { list_all is_in_word (take result line.now) ≡ true }
    ensures behind { ends_word (drop result line.now) ≡ true }
{
    let mut len = 0;
    while len < line.len() && !is_blank(line[len]) {
        len += 1;
    }
    len
}

/// The number that the word writes: decimal digits, leading zeros allowed, below 2^32.
pub fn number_of(word: &[u8]) -> Option<u32>
    ensures { result ≡ number_of word.now }
{
    if word.is_empty() {
        return None;
    }
    let mut number: u64 = 0;
    for byte in word {
        if !byte.is_ascii_digit() {
            return None;
        }
        number = number * 10 + u64::from(*byte - b'0');
        if number > u64::from(u32::MAX) {
            return None;
        }
    }
    Some(number as u32)
}
