ghost use Rattle.std.specs.Prelude.{◌≡◌};
ghost use Rattle.session_lines.specs.Commands.{is_remark, edit_command_of, command_of};

use crate::values::is_word;

/// The edits, by the first words of their lines.
#[derive(Clone, Copy)]
pub enum EditCommand {
    Add,
    Drop,
    Goal,
    Path,
    Tail,
    Open,
    Close,
}

/// What the first word of a session line asks for.
#[derive(Clone, Copy)]
pub enum Command {
    Edit(EditCommand),
    Begin,
    Watch,
    Commit,
    Cancel,
    Version,
    Report,
    Distance,
    Solves,
}

/// Whether a line with that first word is a remark.
pub fn is_remark(word: &[u8]) -> bool
    ensures { result ≡ is_remark word.now }
{
    match word {
        [] => false,
        [byte, ..] => *byte == b'#',
    }
}

// The edit that a line with that first word asks for.
fn edit_command_of(word: &[u8]) -> Option<EditCommand>
    ensures { result ≡ edit_command_of word.now }
{
    if is_word(word, b"agent") {
        Some(EditCommand::Add)
    } else if is_word(word, b"drop") {
        Some(EditCommand::Drop)
    } else if is_word(word, b"goal") {
        Some(EditCommand::Goal)
    } else if is_word(word, b"path") {
        Some(EditCommand::Path)
    } else if is_word(word, b"tail") {
        Some(EditCommand::Tail)
    } else if is_word(word, b"open") {
        Some(EditCommand::Open)
    } else if is_word(word, b"close") {
        Some(EditCommand::Close)
    } else {
        None
    }
}

/// What a line with that first word asks for.
pub(crate) fn command_of(word: &[u8]) -> Option<Command>
    ensures { result ≡ command_of word.now }
{
    if is_word(word, b"begin") {
        Some(Command::Begin)
    } else if is_word(word, b"watch") {
        Some(Command::Watch)
    } else if is_word(word, b"commit") {
        Some(Command::Commit)
    } else if is_word(word, b"cancel") {
        Some(Command::Cancel)
    } else if is_word(word, b"version") {
        Some(Command::Version)
    } else if is_word(word, b"report") {
        Some(Command::Report)
    } else if is_word(word, b"distance") {
        Some(Command::Distance)
    } else if is_word(word, b"solves") {
        Some(Command::Solves)
    } else {
        Some(Command::Edit(edit_command_of(word)?))
    }
}
