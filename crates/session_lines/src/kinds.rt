ghost use Rattle.std.specs.Prelude.{◌≡◌, ◌∷◌, [], false, true, MatchOption};
ghost use Rattle.bench_reader.specs.Words.{words_of};
ghost use Rattle.session_lines.specs.Kinds.{kinds_of, is_kind, named_kinds, both_kinds, kinds_after};

use crate::values::is_word;
use bench_reader::next_word;
use mapf_rules::Kinds;

// The kind that a word names, alone.
fn kind_of(word: &[u8]) -> Option<Kinds>
    ensures { MatchOption result (is_kind word.now ≡ false) (λ kind. (is_kind word.now ≡ true) × (kind ≡ named_kinds (word.now ∷ []))) }
{
    let kind = Kinds {
        vertex: is_word(word, b"vertex"),
        edge: is_word(word, b"edge"),
        follow: is_word(word, b"follow"),
        swap: is_word(word, b"swap"),
        cycle: is_word(word, b"cycle"),
    };
    if kind.vertex || kind.edge || kind.follow || kind.swap || kind.cycle {
        Some(kind)
    } else {
        None
    }
}

// Both those kinds and these.
fn joined(those: Kinds, these: Kinds) -> Kinds
    ensures { result ≡ both_kinds those these }
{
    Kinds {
        vertex: those.vertex || these.vertex,
        edge: those.edge || these.edge,
        follow: those.follow || these.follow,
        swap: those.swap || these.swap,
        cycle: those.cycle || these.cycle,
    }
}

// Those kinds and the ones that the words of a line name.
fn kinds_after(those: Kinds, line: &[u8]) -> Option<Kinds>
    ensures { result ≡ kinds_after those (words_of line.now) }
{
    let mut kinds = those;
    let mut rest = line;
    while let Some((word, behind)) = next_word(rest) {
        kinds = joined(kinds, kind_of(word)?);
        rest = behind;
    }
    Some(kinds)
}

/// The kinds that the words of a line name.
pub(crate) fn kinds_of(line: &[u8]) -> Option<Kinds>
    ensures { result ≡ kinds_of (words_of line.now) }
{
    let (word, rest) = next_word(line)?;
    kinds_after(kind_of(word)?, rest)
}
