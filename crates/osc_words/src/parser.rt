// Has clap read the words.
ghost use Rattle.std.specs.Prelude.{◌≡◌, IfOk, fold, map, option_map, string_bytes, true};
ghost use Rattle.clap.specs.Words.{app_of, found_of, is_simple_and_free, new_app, rows_of};
ghost use Rattle.clap.specs.Words.{with_rule};
ghost use Rattle.osc_words.specs.Options.{rule_for};
ghost use Rattle.osc_words.specs.Reading.{app_with, are_options, found_by};

use crate::options::Parameter;
use crate::verb::{BEFORE_FILES, Verb};
use clap::error::ErrorKind;
use clap::{ArgMatches, Command};
use std::alloc::{AllocError, Global};

/// What clap finds in the words, of which the first says the verb; nothing where it refuses them.
pub(crate) fn read<'a>(
    alloc: Global,
    verb: Verb,
    words: &'a [String],
) -> Result<Option<ArgMatches<'a>>, AllocError>
    ensures { IfOk result (λ found. option_map (λ matches. rows_of (found_of matches)) found
        ≡ found_by verb (map string_bytes words.now)) }
{
    let command = command_with(alloc, verb.options())?;
    match command.try_get_matches_from(words) {
        Ok(matches) => Ok(Some(matches)),
        Err(error) => match error.kind() {
            ErrorKind::OutOfMemory => Err(AllocError),
            _ => Ok(None),
        },
    }
}

/// Whether the words, of which the first says the verb, are options of a `resume` alone.
pub(crate) fn are_options(alloc: Global, words: &[String]) -> Result<bool, AllocError>
    ensures { IfOk result (λ are. are ≡ are_options (map string_bytes words.now)) }
{
    let command = command_with(alloc, &BEFORE_FILES)?;
    match command.try_get_matches_from(words) {
        Ok(_) => Ok(true),
        Err(error) => match error.kind() {
            ErrorKind::OutOfMemory => Err(AllocError),
            _ => Ok(false),
        },
    }
}

fn command_with<'a>(alloc: Global, options: &[Parameter]) -> Result<Command<'a>, AllocError>
    ensures { IfOk result (λ command. app_of command ≡ app_with options.now) }
{
    with_options(alloc, Command::new(alloc, "osc"), options)
}

fn with_options<'a>(
    alloc: Global,
    command: Command<'a>,
    options: &[Parameter],
) -> Result<Command<'a>, AllocError>
    ensures { IfOk result (λ made. app_of made
        ≡ fold with_rule (app_of command.entry) (map rule_for options.now)) }
{
    let mut command = command;
    for option in options {
        command = command.arg(option.arg(alloc))?;
    }
    Ok(command)
}
