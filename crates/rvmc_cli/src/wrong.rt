//! Why words that clap took are no command line.

ghost use Rattle.std.specs.Prelude.{◌≡◌};
ghost use Rattle.rvmc_cli.specs.declared.wrong.Wrong.TheVariants as wrong;

use std::alloc::AllocError;
use std::fmt;

/// Why what clap found is no command line.
#[derive(Clone, Copy)]
pub enum Wrong<'a> {
    /// Memory was refused for a list or a start. It is told as that, and not by a sentence.
    Memory,
    /// There is no command, or none of this name.
    Command,
    /// An option's text is no number in its range.
    Number {
        option: &'static str,
        least: u64,
        most: u64,
        text: &'a str,
    },
    /// An option's text is no list of numbers.
    List {
        option: &'static str,
        text: &'a str,
    },
    /// A text is no word of `debug`.
    Word(&'a str),
    /// An option's text is no start.
    Start {
        option: &'static str,
        text: &'a str,
    },
    /// A text of `--text` is no source.
    Source(&'a str),
    /// Two flags or options were given that don't go together.
    Both {
        flag: &'static str,
        other: &'static str,
    },
}

impl From<AllocError> for Wrong<'_> {
    ghost from_gives = { λ _ e. e ≡ wrong.Memory };

    fn from(_e: AllocError) -> Self {
        Wrong::Memory
    }
}

impl fmt::Display for Wrong<'_> {
    fn fmt<W: fmt::Write>(&self, f: &mut fmt::Formatter<W>) -> fmt::Result {
        match self {
            Wrong::Memory => write!(f, "memory was refused"),
            Wrong::Command => write!(f, "a command is wanted"),
            Wrong::Number {
                option,
                least,
                most,
                text,
            } => write!(
                f,
                "'--{option}' takes a number from {least} to {most}, not '{text}'"
            ),
            Wrong::List { option, text } => write!(
                f,
                "'--{option}' takes numbers from 0 to 255 with one comma between them, as 0,1, not '{text}'"
            ),
            Wrong::Word(text) => write!(
                f,
                "a CMD is go=N, step, back, run, place, break=R,H,AT, regs=R,H, frames=R,H, output=R or \
                 bytes=R,AT,N, with R and H from 0 to 255, and AT an address, a symbol or FILE:LINE, not '{text}'"
            ),
            Wrong::Start { option, text } => write!(
                f,
                "'--{option}' takes a start, as 'rvmc explore --split' writes them, not '{text}'"
            ),
            Wrong::Source(text) => write!(
                f,
                "'--text' takes NAME=LEN, as farm.c=120: a name without =, and how many bytes it has, up to 67108864, \
                 not '{text}'"
            ),
            Wrong::Both { flag, other } => write!(
                f,
                "the argument '--{flag}' cannot be used with '--{other}'"
            ),
        }
    }
}
