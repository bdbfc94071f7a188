//! The parser of the program's words.
ghost use Rattle.std.specs.Prelude.{◌≡◌, IfOk, false};
ghost use Rattle.clap.specs.Simple.{app_of};
ghost use Rattle.clap.specs.declared.builder.command.Command.TheViews.{out-Command as fields_of};
ghost use Rattle.desk_cli.specs.Grammar.{app_for};
ghost use Rattle.desk_cli.specs.Program.{IsParserOf, IsProgram};

use crate::arguments::parsed;
use crate::commands::{PROGRAM, WORDS, Word};
use clap::Command;
use std::alloc::{AllocError, Global};

// The command of a word.
fn command_of<'a>(alloc: Global, word: &Word) -> Result<Command<'a>, AllocError>
    ensures app { IfOk result (λ command. app_of command ≡ app_for word.now) }
    ensures local { IfOk result (λ command. (fields_of command).has_globals ≡ false) }
{
    let mut arguments = Vec::new(alloc);
    for argument in word.arguments {
        arguments.push(parsed(alloc, *argument)?)?;
    }
    Command::new(alloc, word.name)
        .about(word.about)
        .after_help(word.help)
        .args(arguments)
}

// The command of a program with those words.
fn program_of<'a>(alloc: Global, top: &Word, words: &[Word]) -> Result<Command<'a>, AllocError>
    ensures { IfOk result (IsParserOf top.now words.now) }
{
    let mut commands = Vec::new(alloc);
    for word in words {
        commands.push(command_of(alloc, word)?)?;
    }
    command_of(alloc, top)?.subcommands(commands)
}

/// The program's words, as their parser takes them.
pub(crate) fn command<'a>(alloc: Global) -> Result<Command<'a>, AllocError>
    ensures { IfOk result (λ command. IsProgram (app_of command)) }
{
    program_of(alloc, &PROGRAM, &WORDS)
}
