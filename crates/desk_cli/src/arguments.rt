//! The options and files of a word, as data, and as its parser takes them.
ghost use Rattle.std.specs.Prelude.{◌≡◌, ◌≤◌, IfOk, false, pos};
ghost use Rattle.clap.specs.Walk.{rule_of};
ghost use Rattle.desk_cli.specs.Grammar.{flag_rule, listed_rule, option_rule, rule_for};

use clap::builder::ValueParser;
use clap::{Arg, ArgAction};
use std::alloc::{AllocError, Global};

/// What stands behind an option.
#[derive(Clone, Copy)]
pub(crate) enum Value {
    /// Nothing: it is a flag.
    Nothing,
    /// A text, which help calls by that name.
    Text(&'static str),
    /// A number from one to the other.
    Number(&'static str, u32, u32),
    /// One of those texts.
    OneOf(&'static str, &'static [&'static str]),
    /// One or more of those texts.
    SomeOf(&'static str, &'static [&'static str]),
    /// One text or more, which help calls by that name.
    Texts(&'static str),
    /// One text or more, which no option names.
    Listed(&'static str),
}

/// An option, or texts that no option names.
#[derive(Clone, Copy)]
pub(crate) struct Argument {
    pub name: &'static str,
    /// The letter that names it too, if it is a flag.
    pub short: Option<char>,
    pub value: Value,
    /// The value if none is given, if there is one: of an option with a value.
    pub usual: &'static [&'static str],
    /// Whether it has to be given: of what isn't a flag.
    pub is_needed: bool,
    /// The options that can't stand beside it: of an option with a value.
    pub excluded: &'static [&'static str],
    pub help: &'static str,
}

// The numbers from one to the other.
fn numbers<'a>(least: u32, greatest: u32) -> ValueParser<'a>
    ensures { result ≡ ValueParser.Signed (pos least) (pos greatest) }
{
    ValueParser::signed(i64::from(least), i64::from(greatest))
}

fn flag<'a>(alloc: Global, argument: Argument) -> Arg<'a>
    ensures rule { rule_of result ≡ flag_rule argument }
    ensures local { result.global ≡ false }
{
    let flag = Arg::new(alloc, argument.name)
        .long(argument.name)
        .help(argument.help)
        .action(ArgAction::SetTrue);
    match argument.short {
        Some(letter) => flag.short(letter),
        None => flag,
    }
}

// An option with so many values at most, which help calls by that name.
fn valued<'a>(
    alloc: Global,
    argument: Argument,
    name: &'static str,
    parser: ValueParser<'a>,
    most: usize,
) -> Result<Arg<'a>, AllocError>
    requires { 1 ≤ most }
    ensures rule { IfOk result (λ arg. rule_of arg ≡ option_rule argument parser.entry most) }
    ensures local { IfOk result (λ arg. arg.global ≡ false) }
{
    Arg::new(alloc, argument.name)
        .long(argument.name)
        .help(argument.help)
        .required(argument.is_needed)
        .value_name(name)
        .value_parser(parser)
        .num_args(1..=most)
        .default_values(argument.usual)
        .conflicts_with_all(argument.excluded)
}

// One text or more, which no option names.
fn listed<'a>(alloc: Global, argument: Argument, name: &'static str) -> Arg<'a>
    ensures rule { rule_of result ≡ listed_rule argument }
    ensures local { result.global ≡ false }
{
    Arg::new(alloc, argument.name)
        .help(argument.help)
        .required(argument.is_needed)
        .value_name(name)
        .num_args(1..)
}

/// An argument as the parser takes it.
pub(crate) fn parsed<'a>(alloc: Global, argument: Argument) -> Result<Arg<'a>, AllocError>
    ensures rule { IfOk result (λ arg. rule_of arg ≡ rule_for argument) }
    ensures local { IfOk result (λ arg. arg.global ≡ false) }
{
    match argument.value {
        Value::Nothing => Ok(flag(alloc, argument)),
        Value::Text(name) => valued(alloc, argument, name, ValueParser::string(), 1),
        Value::Number(name, least, greatest) => {
            valued(alloc, argument, name, numbers(least, greatest), 1)
        }
        Value::OneOf(name, texts) => valued(alloc, argument, name, texts.into(), 1),
        Value::SomeOf(name, texts) => valued(alloc, argument, name, texts.into(), usize::MAX),
        Value::Texts(name) => valued(alloc, argument, name, ValueParser::string(), usize::MAX),
        Value::Listed(name) => Ok(listed(alloc, argument, name)),
    }
}
