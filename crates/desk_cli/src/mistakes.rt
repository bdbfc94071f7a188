//! Mistakes that the parser lets through: numbers with a sign, and agents to be drawn that are no range.
ghost use Rattle.std.specs.Prelude.{◌≡◌, ◌↔◌, IfOk, IsSome, IsTrue, codes, is_some, true};
ghost use Rattle.clap.specs.Matches.{first_value, found_of};
ghost use Rattle.desk_cli.specs.Asked.{IsNothing};
ghost use Rattle.desk_cli.specs.Values.{number_given};

use crate::arguments::{Argument, Value};
use crate::commands::arguments_of;
use crate::helping::RANGE_MISTAKE;
use crate::program::command;
use crate::ranges::range_of;
use crate::values::number_given;
use crate::words::Asked;
use clap::ArgMatches;
use clap::error::ErrorKind;
use std::alloc::{AllocError, Global};

// Whether the value of a number is given, and isn't decimal digits alone.
fn has_sign(inner: &ArgMatches<'static>, name: &str) -> bool
    ensures { IsTrue result ↔ ((is_some (first_value (found_of inner.now) name.now) ≡ true) × (number_given (found_of inner.now) name.now ≡ None)) }
{
    inner.get_str(name).is_some() && number_given(inner, name).is_none()
}

// What is said of a number that isn't decimal digits alone.
fn sign_mistake(
    alloc: Global,
    argument: &Argument,
    inner: &ArgMatches<'static>,
) -> Result<Option<String>, AllocError>
    ensures { IfOk result (λ mistake. IsSome mistake → number_given (found_of inner.now) argument.now.name.now ≡ None) }
{
    let Value::Number(what, _, _) = argument.value else {
        return Ok(None);
    };
    if !has_sign(inner, argument.name) {
        return Ok(None);
    }
    let name = argument.name;
    Ok(Some(format!(in alloc;
        "invalid value for '--{name} <{what}>': a number is decimal digits alone"
    )?))
}

// Whether agents to be drawn are named, and aren't a range.
fn names_no_range(name: &str, inner: &ArgMatches<'static>) -> bool
    ensures { IsTrue result → name.now ≡ codes "draw" }
{
    name == "draw"
        && match inner.get_str("agents-shown") {
            Some(text) => range_of(text).is_none(),
            None => false,
        }
}

/// The mistake in the values of the word of that name, if there is one.
///
/// # Errors
///
/// Want of memory.
pub(crate) fn mistake_in(
    alloc: Global,
    name: &str,
    inner: &ArgMatches<'static>,
) -> Result<Option<String>, AllocError> {
    for argument in arguments_of(name) {
        if let Some(mistake) = sign_mistake(alloc, argument, inner)? {
            return Ok(Some(mistake));
        }
    }
    if names_no_range(name, inner) {
        return Ok(Some(String::from_str(alloc, RANGE_MISTAKE)?));
    }
    Ok(None)
}

/// A mistake, reported as the parser reports its own.
pub(crate) fn refused(alloc: Global, mistake: &str) -> Asked
    ensures { IsNothing result }
{
    let Ok(mut command) = command(alloc) else {
        return Asked::NoMemory;
    };
    let error = command.error(ErrorKind::ValueValidation, mistake);
    drop(command);
    match error {
        Ok(error) => Asked::Refused(error),
        Err(_) => Asked::NoMemory,
    }
}
