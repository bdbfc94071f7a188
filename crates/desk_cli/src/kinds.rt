//! The kinds of conflicts that options name.
ghost use Rattle.std.specs.Prelude.{◌≡◌, bytes_eq, codes, option_map};
ghost use Rattle.std.specs.List.{list_any};
ghost use Rattle.clap.specs.Matches.{found_of, matched_of, raw_values};
ghost use Rattle.session_lines.specs.Kinds.{named_kinds};
ghost use Rattle.desk_cli.specs.Values.{kinds_named, texts_in};

use clap::ArgMatches;
use mapf_rules::Kinds;

/// The conflicts of the classical problem, which count if the words don't say.
const CLASSICAL: Kinds = Kinds {
    vertex: true,
    edge: false,
    follow: false,
    swap: true,
    cycle: false,
};

fn is_among(text: &str, words: &[&str]) -> bool
    ensures { result ≡ list_any (λ word. bytes_eq word.now text.now) words.now }
{
    words.iter().any(|word| *word == text)
}

fn named_kinds(words: &[&str]) -> Kinds
    ensures { result ≡ named_kinds (texts_in words.now) }
{
    Kinds {
        vertex: is_among("vertex", words),
        edge: is_among("edge", words),
        follow: is_among("follow", words),
        swap: is_among("swap", words),
        cycle: is_among("cycle", words),
    }
}

/// The kinds of conflicts that an option names, if it stands.
pub(crate) fn kinds_asked(matches: &ArgMatches<'static>) -> Option<Kinds>
    ensures { result ≡ option_map named_kinds (option_map raw_values (matched_of (found_of matches.now) (codes "solves"))) }
{
    match matches.get_strs("solves") {
        Some(named) => Some(named_kinds(named)),
        None => None,
    }
}

/// The kinds of conflicts that count.
pub(crate) fn kinds_given(matches: &ArgMatches<'static>) -> Kinds
    ensures { result ≡ kinds_named (option_map raw_values (matched_of (found_of matches.now) (codes "solves"))) }
{
    match matches.get_strs("solves") {
        Some(named) => named_kinds(named),
        None => CLASSICAL,
    }
}
