//! The parts of a command as clap builds it: its flags, options and texts.

ghost use Rattle.std.specs.Prelude.{◌≡◌, ◌∷◌, IfOk, [], false, map};
ghost use Rattle.clap.specs.Words.{new_app, rule_of};
ghost use Rattle.rvmc_cli.specs.App.{flag, option, options, texts, with_rules};
ghost use Rattle.rvmc_cli.specs.Built.{AddsRules, StandsFor, rule_of_part};

use clap::{Arg, ArgAction, Command};
use std::alloc::{AllocError, Global};

/// A part of a command: its name, that of its value, and what help says of it.
pub enum Part {
    /// `--name`.
    Flag(&'static str, &'static str),
    /// `--name VALUE`.
    Option(&'static str, &'static str, &'static str),
    /// `--name VALUE`, any number of times.
    Options(&'static str, &'static str, &'static str),
    /// `VALUE..`, one or more.
    Texts(&'static str, &'static str, &'static str),
}

/// `--name`.
fn flag<'a>(alloc: Global, name: &'a str, help: &'a str) -> Arg<'a>
    ensures rule { rule_of result ≡ flag name.entry.now }
    ensures local { result.global ≡ false }
{
    Arg::new(alloc, name)
        .long(name)
        .action(ArgAction::SetTrue)
        .help(help)
}

/// `--name VALUE`. Its text is read by this crate's own parsers: clap's would take `+5` for 5.
fn option<'a>(alloc: Global, name: &'a str, value: &'a str, help: &'a str) -> Arg<'a>
    ensures rule { rule_of result ≡ option name.entry.now }
    ensures local { result.global ≡ false }
{
    Arg::new(alloc, name)
        .long(name)
        .value_name(value)
        .help(help)
}

/// `--name VALUE`, any number of times.
fn options<'a>(alloc: Global, name: &'a str, value: &'a str, help: &'a str) -> Arg<'a>
    ensures rule { rule_of result ≡ options name.entry.now }
    ensures local { result.global ≡ false }
{
    option(alloc, name, value, help).action(ArgAction::Append)
}

/// `VALUE..`, one or more.
fn texts<'a>(alloc: Global, name: &'a str, value: &'a str, help: &'a str) -> Arg<'a>
    ensures rule { rule_of result ≡ texts name.entry.now }
    ensures local { result.global ≡ false }
{
    Arg::new(alloc, name)
        .required(true)
        .value_name(value)
        .num_args(1..)
        .help(help)
}

/// A part as clap takes it.
fn argument<'a>(alloc: Global, part: &Part) -> Arg<'a>
    ensures rule { rule_of result ≡ rule_of_part part.now }
    ensures local { result.global ≡ false }
{
    match part {
        Part::Flag(name, help) => flag(alloc, name, help),
        Part::Option(name, value, help) => option(alloc, name, value, help),
        Part::Options(name, value, help) => options(alloc, name, value, help),
        Part::Texts(name, value, help) => texts(alloc, name, value, help),
    }
}

/// The command with one more part.
fn with_part<'a>(
    alloc: Global,
    command: Command<'a>,
    part: &Part,
) -> Result<Command<'a>, AllocError>
    ensures { IfOk result (AddsRules (rule_of_part part.now ∷ []) command.entry) }
{
    command.arg(argument(alloc, part))
}

/// The command with these parts.
pub fn with_parts<'a>(
    alloc: Global,
    command: Command<'a>,
    parts: &[Part],
) -> Result<Command<'a>, AllocError>
    ensures { IfOk result (AddsRules (map rule_of_part parts.now) command.entry) }
{
    let mut command = command;
    for part in parts {
        command = with_part(alloc, command, part)?;
    }
    Ok(command)
}

/// What help says of a command: how it is used, what it does in one line, and what comes after its options.
#[derive(Clone, Copy, Drop)]
pub struct Help<'a> {
    pub usage: &'a str,
    pub about: &'a str,
    pub examples: &'a str,
}

/// A command without parts, and what help says of it.
pub fn bare<'a>(alloc: Global, name: &'a str, help: Help<'a>) -> Command<'a>
    ensures { StandsFor (new_app name.entry.now) result }
{
    Command::new(alloc, name)
        .override_usage(help.usage)
        .about(help.about)
        .after_help(help.examples)
}

/// A command of these parts, and what help says of it.
pub fn command<'a>(
    alloc: Global,
    name: &'a str,
    help: Help<'a>,
    parts: &[Part],
) -> Result<Command<'a>, AllocError>
    ensures { IfOk result (StandsFor (with_rules (new_app name.entry.now) (map rule_of_part parts.now))) }
{
    with_parts(alloc, bare(alloc, name, help), parts)
}
