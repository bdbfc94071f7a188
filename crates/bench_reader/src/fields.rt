ghost use Rattle.std.specs.Prelude.{◌≡◌, ◌≢◌, ◌<◌, Some, None, [], ◌∷◌, length, MatchOption, MatchResult};
ghost use Rattle.bench_reader.specs.Words.{words_of, number_of};
ghost use Rattle.bench_reader.specs.ScenText.{AreFields};
ghost use Rattle.bench_reader.specs.ScenFaults.{IsBadField};

use crate::words::{next_word, number_of};

/// The numbers of a task's line.
#[derive(Clone, Copy)]
pub(crate) struct Fields {
    pub(crate) bucket: u32,
    pub(crate) width: u32,
    pub(crate) height: u32,
    pub(crate) start_x: u32,
    pub(crate) start_y: u32,
    pub(crate) goal_x: u32,
    pub(crate) goal_y: u32,
}

/// The words of a task's line.
#[derive(Clone, Copy)]
pub(crate) struct TaskWords<'a> {
    bucket: &'a [u8],
    map: &'a [u8],
    width: &'a [u8],
    height: &'a [u8],
    start_x: &'a [u8],
    start_y: &'a [u8],
    goal_x: &'a [u8],
    goal_y: &'a [u8],
    optimal: &'a [u8],
}

// The first three words of a line, and the line behind them.
fn three_words(line: &[u8]) -> Option<(&[u8], &[u8], &[u8], &[u8])>
    ensures { MatchOption result (length (words_of line.now) < 3) (λ r. words_of line.now ≡ r.0.now ∷ r.1.now ∷ r.2.now ∷ words_of r.3.now) }
{
    let (first, rest) = next_word(line)?;
    let (second, rest) = next_word(rest)?;
    let (third, rest) = next_word(rest)?;
    Some((first, second, third, rest))
}

/// The words of a line that has nine.
pub(crate) fn task_words(line: &[u8]) -> Option<TaskWords<'_>>
    ensures { MatchOption result (length (words_of line.now) ≢ 9)
        (λ w. words_of line.now ≡ w.bucket.now ∷ w.map.now ∷ w.width.now ∷ w.height.now
        ∷ w.start_x.now ∷ w.start_y.now ∷ w.goal_x.now ∷ w.goal_y.now ∷ w.optimal.now ∷ []) }
{
    let (bucket, map, width, rest) = three_words(line)?;
    let (height, start_x, start_y, rest) = three_words(rest)?;
    let (goal_x, goal_y, optimal, rest) = three_words(rest)?;
    if next_word(rest).is_some() {
        return None;
    }
    Some(TaskWords {
        bucket,
        map,
        width,
        height,
        start_x,
        start_y,
        goal_x,
        goal_y,
        optimal,
    })
}

// The number in the word of a field, or which field it is.
fn number_in(word: &[u8], field: usize) -> Result<u32, usize>
    ensures { MatchResult result (λ number. number_of word.now ≡ Some number) (λ at. (at ≡ field) × (number_of word.now ≡ None)) }
{
    number_of(word).ok_or(field)
}

/// The numbers in the words, or the first field, counted from 1, that should be one and isn't.
pub(crate) fn fields_of(w: &TaskWords<'_>) -> Result<Fields, usize>
    ensures { let words = w.now.bucket.now ∷ w.now.map.now ∷ w.now.width.now ∷ w.now.height.now
        ∷ w.now.start_x.now ∷ w.now.start_y.now ∷ w.now.goal_x.now ∷ w.now.goal_y.now ∷ w.now.optimal.now ∷ []
        in MatchResult result (AreFields words) (IsBadField words) }
{
    Ok(Fields {
        bucket: number_in(w.bucket, 1)?,
        width: number_in(w.width, 3)?,
        height: number_in(w.height, 4)?,
        start_x: number_in(w.start_x, 5)?,
        start_y: number_in(w.start_y, 6)?,
        goal_x: number_in(w.goal_x, 7)?,
        goal_y: number_in(w.goal_y, 8)?,
    })
}
