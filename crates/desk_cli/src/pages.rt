//! What the words of `page` ask for.
ghost use Rattle.std.specs.Prelude.{◌≡◌, codes};
ghost use Rattle.std.specs.Option.{option_copied, option_or};
ghost use Rattle.clap.specs.Matches.{first_value, found_of};
ghost use Rattle.desk_cli.specs.Asked.{AsksToPage};

use crate::kinds::kinds_given;
use crate::values::{mode_given, number_given, paths_given, text_given};
use crate::words::PageWords;
use clap::ArgMatches;

// The file whose entries are committed first, by the name of a journal or of a log.
fn entries_given(matches: &ArgMatches<'static>) -> Option<&'static str>
    ensures { option_copied result ≡ option_or (first_value (found_of matches.now) (codes "journal")) (first_value (found_of matches.now) (codes "log")) }
{
    match matches.get_str("journal") {
        Some(file) => Some(file),
        None => matches.get_str("log"),
    }
}

/// What a page is asked for.
pub(crate) fn page_words(matches: &ArgMatches<'static>) -> PageWords
    ensures { AsksToPage (found_of matches.now) result }
{
    PageWords {
        map: text_given(matches, "map"),
        scen: matches.get_str("scen"),
        agents: number_given(matches, "agents"),
        mode: mode_given(matches),
        journal: entries_given(matches),
        paths: paths_given(matches),
        kinds: kinds_given(matches),
        title: matches.get_str("title"),
    }
}
