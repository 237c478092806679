//! The values of flags, options and texts, of what clap found for a command.

ghost use Rattle.std.specs.Prelude.{◌≡◌, map};
ghost use Rattle.std.specs.Option.{option_map};
ghost use Rattle.clap.specs.Walk.{rows_of};
ghost use Rattle.clap.specs.Words.{all_of, first_of, found_of};
ghost use Rattle.rvmc_cli.specs.Options.{apart, flag_in, is_given, list_option, number_option, optional_number, source_of};
ghost use Rattle.rvmc_cli.specs.Parsing.{Finds, Reads};

use crate::wrong::Wrong;
use clap::ArgMatches;
use clap::parser::ValueSource;
use rvmc_words::{Numbers, number_in, numbers_in};
use std::alloc::Global;

/// The text that was given for an option.
pub fn text<'a>(matches: &ArgMatches<'a>, name: &str) -> Option<&'a str>
    ensures { option_map (λ s. s.now) result ≡ first_of name.now (rows_of (found_of matches.now)) }
{
    matches.get_str(name)
}

/// Whether a flag was given.
pub fn flag(matches: &ArgMatches<'_>, name: &str) -> bool
    ensures { result ≡ flag_in name.now (rows_of (found_of matches.now)) }
{
    match text(matches, name) {
        Some(text) => text == "true",
        None => false,
    }
}

/// Where what was found for a flag or an option comes from.
fn source(matches: &ArgMatches<'_>, name: &str) -> Option<ValueSource>
    ensures { result ≡ source_of name.now (rows_of (found_of matches.now)) }
{
    matches.value_source(name)
}

/// Whether a flag or an option was given.
fn is_given(matches: &ArgMatches<'_>, name: &str) -> bool
    ensures { result ≡ is_given name.now (rows_of (found_of matches.now)) }
{
    match source(matches, name) {
        Some(ValueSource::CommandLine) => true,
        Some(ValueSource::DefaultValue) | None => false,
    }
}

/// Refuses a flag or an option beside one of these others, with which it doesn't go together.
pub fn apart<'a>(
    matches: &ArgMatches<'a>,
    flag: &'static str,
    others: &[&'static str],
) -> Result<(), Wrong<'a>>
    ensures { Reads (apart flag.entry.now (map (λ other. other.now) others.now) (rows_of (found_of matches.now))) result }
{
    if !is_given(matches, flag) {
        return Ok(());
    }
    for other in others {
        if is_given(matches, other) {
            return Err(Wrong::Both { flag, other });
        }
    }
    Ok(())
}

/// The number of an option, or its default.
pub fn number<'a>(
    matches: &ArgMatches<'a>,
    option: &'static str,
    least: u64,
    most: u64,
    default: u64,
) -> Result<u64, Wrong<'a>>
    ensures { Reads (number_option option.entry.now least most default (rows_of (found_of matches.now))) result }
{
    let Some(text) = text(matches, option) else {
        return Ok(default);
    };
    match number_in(least, most, text) {
        Some(number) => Ok(number),
        None => Err(Wrong::Number {
            option,
            least,
            most,
            text,
        }),
    }
}

/// The number of an option, if it was given.
pub fn optional_number<'a>(
    matches: &ArgMatches<'a>,
    option: &'static str,
    least: u64,
    most: u64,
) -> Result<Option<u64>, Wrong<'a>>
    ensures { Reads (optional_number option.entry.now least most (rows_of (found_of matches.now))) result }
{
    let Some(text) = text(matches, option) else {
        return Ok(None);
    };
    match number_in(least, most, text) {
        Some(number) => Ok(Some(number)),
        None => Err(Wrong::Number {
            option,
            least,
            most,
            text,
        }),
    }
}

/// The numbers of an option, if it was given.
pub fn list<'a>(
    alloc: Global,
    matches: &ArgMatches<'a>,
    option: &'static str,
) -> Result<Option<Numbers>, Wrong<'a>>
    ensures { Finds (list_option option.entry.now (rows_of (found_of matches.now))) result }
{
    let Some(text) = text(matches, option) else {
        return Ok(None);
    };
    match numbers_in(alloc, text)? {
        Some(numbers) => Ok(Some(numbers)),
        None => Err(Wrong::List { option, text }),
    }
}

/// The texts that were given behind a command.
pub fn texts<'m, 'a>(matches: &'m ArgMatches<'a>, name: &str) -> Option<&'m [&'a str]>
    ensures { option_map (λ texts. map (λ text. text.now) texts.now) result
        ≡ all_of name.now (rows_of (found_of matches.now)) }
{
    matches.get_strs(name)
}
