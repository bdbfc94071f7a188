//! The lines of a text, and what they name.
ghost use Rattle.std.specs.Prelude.{◌≡◌, ◌≢◌, ◌<◌, ◌≤◌, ◌^◌, [], ◌∷◌, ◌++◌, ℕ, List, Some, true, not, nat_eq, decimal, codes, IfOk, MatchOption, MatchResult};
ghost use Rattle.std.specs.List.{list_all};
ghost use Rattle.bench_reader.specs.Words.{words_of};
ghost use Rattle.session_lines.specs.Requests.{request_of};
ghost use Rattle.journal_text.specs.Ranges.{IsThing, IsEdit};
ghost use Rattle.journal_text.specs.Lines.{watch_words, edit_words};
ghost use Rattle.journal_text.specs.Begun.{IsHead, head_words};
ghost use Rattle.journal_text.specs.Places.{IsLineOf};
ghost use Rattle.grid_cells.specs.declared.numbers.TheConstants.{MOST_PLANNER};
ghost use Rattle.journal_text.specs.declared.places.Head.{Head};

use crate::places::Head;
use crate::spelling::{is_head, is_written};
use crate::written::Written;
use bench_reader::{next_word, number_of};
use bstr::ByteSlice;
use desk_commits::{MOST_EDITS, MOST_WATCHES};
use grid_cells::{OutOfMemory, Planner};
use scene_edits::{Edit, Thing};
use session_lines::{LineFault, Request, read_line};
use std::alloc::Global;
use std::str;

/// The first line of a text, without its line feed, and the text behind it.
pub(crate) fn whole_line(text: &[u8]) -> Option<(&[u8], &[u8])>
    ensures { MatchOption result ((line rest : List ℕ) → text.now ≡ line ++ 10 ∷ rest → ⊥)
        (λ r. (text.now ≡ r.0.now ++ 10 ∷ r.1.now) × (list_all (λ byte. not (nat_eq byte 10)) r.0.now ≡ true)) }
{
    let end = text.find_byte(b'\n')?;
    Some((&text[..end], &text[end + 1..]))
}

// What the line asks for in a session, or nothing where it is no line of one.
fn request_of(alloc: Global, line: &[u8]) -> Result<Request, OutOfMemory>
    ensures { IfOk result (λ asked. MatchResult (request_of line.now) (λ request. asked ≡ request) (λ why. asked ≡ Request.Silent)) }
{
    match read_line(alloc, line) {
        Ok(request) => Ok(request),
        Err(LineFault::OutOfMemory) => Err(OutOfMemory),
        Err(LineFault::Word | LineFault::Shape) => Ok(Request::Silent),
    }
}

// The value, where the line is the one that is written of it.
fn spelled<T: Written + Drop>(
    alloc: Global,
    value: T,
    line: &[u8],
) -> Result<Option<T>, OutOfMemory>
    ensures { IfOk result (λ found. MatchOption found (T.text value ≢ line.now ++ codes "\n")
        (λ same. (same ≡ value) × T.lawful value × (T.text value ≡ line.now ++ codes "\n"))) }
{
    if is_written(alloc, &value, line)? {
        Ok(Some(value))
    } else {
        Ok(None)
    }
}

/// The thing that a watch names.
pub(crate) fn thing_of(alloc: Global, line: &[u8]) -> Result<Option<Thing>, OutOfMemory>
    ensures { IfOk result (IsLineOf IsThing watch_words line.now) }
{
    let Request::Watch(thing) = request_of(alloc, line)? else {
        return Ok(None);
    };
    spelled(alloc, thing, line)
}

/// The edit of an edit line.
pub(crate) fn edit_of(alloc: Global, line: &[u8]) -> Result<Option<Edit>, OutOfMemory>
    ensures { IfOk result (IsLineOf IsEdit edit_words line.now) }
{
    let Request::Edit(edit) = request_of(alloc, line)? else {
        return Ok(None);
    };
    spelled(alloc, edit, line)
}

// The number below 2^32 that a word names, however it is spelled.
fn small_of(word: &[u8]) -> Option<u32>
    ensures { (number : ℕ) → number < 2 ^ 32 → word.now ≡ decimal number → result ≡ Some number }
{
    number_of(word)
}

// The planner that a word names, however it is spelled.
fn planner_of(word: &[u8]) -> Option<Planner>
    ensures { (planner : ℕ) → planner ≤ MOST_PLANNER → word.now ≡ decimal planner → result ≡ Some planner }
{
    Planner::new(small_of(word)?)
}

// The version that a word names, however it is spelled.
fn base_of(word: &[u8]) -> Option<u64>
    ensures { (base : ℕ) → base < 2 ^ 64 → word.now ≡ decimal base → result ≡ Some base }
{
    match str::from_utf8(word) {
        Ok(digits) => digits.parse::<u64>().ok(),
        Err(_) => None,
    }
}

// The four words behind the first of a line.
fn fields(line: &[u8]) -> Option<(&[u8], &[u8], &[u8], &[u8])>
    ensures { MatchOption result ((a b c d e : List ℕ) → words_of line.now ≡ a ∷ b ∷ c ∷ d ∷ e ∷ [] → ⊥)
        (λ r. (first : List ℕ) × (rest : List (List ℕ)) × (words_of line.now ≡ first ∷ r.0.now ∷ r.1.now ∷ r.2.now ∷ r.3.now ∷ rest)) }
{
    let (_, rest) = next_word(line)?;
    let (planner, rest) = next_word(rest)?;
    let (base, rest) = next_word(rest)?;
    let (watches, rest) = next_word(rest)?;
    let (edits, _) = next_word(rest)?;
    Some((planner, base, watches, edits))
}

// The numbers of the first line of an entry, however they are spelled.
fn numbers_of(line: &[u8]) -> Option<Head>
    ensures { (head : Head) → IsHead head → words_of line.now ≡ head_words head → result ≡ Some head }
{
    let (planner, base, watches, edits) = fields(line)?;
    Some(Head {
        planner: planner_of(planner)?,
        base: base_of(base)?,
        watches: small_of(watches)? as usize,
        edits: small_of(edits)? as usize,
    })
}

/// The numbers of the first line of an entry.
pub(crate) fn head_of(alloc: Global, line: &[u8]) -> Result<Option<Head>, OutOfMemory>
    ensures { IfOk result (IsLineOf IsHead head_words line.now) }
{
    let Some(head) = numbers_of(line) else {
        return Ok(None);
    };
    if head.watches > MOST_WATCHES || head.edits > MOST_EDITS {
        return Ok(None);
    }
    if is_head(alloc, &head, line)? {
        Ok(Some(head))
    } else {
        Ok(None)
    }
}
