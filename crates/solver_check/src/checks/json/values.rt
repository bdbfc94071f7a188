//! Values of a JSON text, as words.
ghost use Rattle.std.specs.Prelude.{◌≡◌};
ghost use Rattle.desk_report.specs.Words.{word_text};
ghost use Rattle.solver_check.specs.JsonTexts.{answer_json, given_json};

use desk_report::Word;

/// `true` or `false`.
pub(crate) fn answer<'a>(is_so: bool) -> Word<'a>
    ensures { word_text result ≡ answer_json is_so }
{
    if is_so {
        Word::Text(b"true")
    } else {
        Word::Text(b"false")
    }
}

/// The number, or `null` where it is not given.
pub(crate) fn given<'a>(number: Option<u64>) -> Word<'a>
    ensures { word_text result ≡ given_json number }
{
    match number {
        Some(number) => Word::Number(number),
        None => Word::Text(b"null"),
    }
}

/// The number, or `null` where it is not given.
pub(crate) fn given_short<'a>(number: Option<u32>) -> Word<'a>
    ensures { word_text result ≡ given_json number }
{
    given(number.map(u64::from))
}
