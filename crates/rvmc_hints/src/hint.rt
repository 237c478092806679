//! What a person can be told behind a fault's line.

ghost use Rattle.std.specs.Prelude.{◌≡◌, Some, option_map};
ghost use Rattle.std.specs.Fmt.{WritesOnOk};
ghost use Rattle.rvmc_hints.specs.Texts.{advice_text, at_text, awaited_text, call_text, character_text, foreign_text};
ghost use Rattle.rvmc_hints.specs.Texts.{harts_text, hint_text, kind_text, misplaced_text, missing_text, near_text};
ghost use Rattle.rvmc_hints.specs.Texts.{next_text, no_line_text, ranks_text, remedy_text, shown_text, takes_text};
ghost use Rattle.rvmc_hints.specs.Texts.{twice_text, unknown_text, wanted_text, wrong_text};

use std::fmt;

/// What a command takes.
#[derive(Clone, Copy, Drop)]
pub enum Wanted {
    /// A source.
    Source,
    /// An image, or a source behind `--source`.
    Image,
    /// An image alone, to be listed.
    Listed,
    /// An image alone, to be written anew.
    Rewritten,
    /// A record.
    Record,
    /// What was told of the starts of a split.
    Told,
}

/// What is waited for on standard input.
#[derive(Clone, Copy, Drop)]
pub enum Awaited {
    /// What a command takes.
    Whole(Wanted),
    /// Packets of gdb, behind a record in a file.
    Packets,
    /// Lines with the words of `debug`, behind a record in a file.
    Words,
}

/// What a person can be told behind a fault's line. It prints as the text behind `hint: `.
#[derive(Clone, Copy, Drop)]
pub enum Hint<'a> {
    /// Nothing stands in the input.
    Nothing(Wanted),
    /// An image stands there.
    Image,
    /// A record stands there.
    Record,
    /// An ELF file stands there.
    Elf,
    /// A source in C stands there.
    C,
    /// A source stands there, of which the assembler makes an image.
    Source(Wanted),
    /// All bytes are printable.
    Text(Wanted),
    /// The input can't be read, or is too long.
    Input,
    /// The image has so many ranks, and the order misses one or names another.
    Ranks(u8),
    /// The image has so many harts a rank, and the plan names another.
    Harts(u8),
    /// No command has this name, and one has a name that differs by one slip.
    Command {
        word: &'a str,
        near: &'static str,
    },
    /// What stands on standard input is read, and so it is waited for.
    Awaited(Awaited),
    /// The right form of what a word or an option is to be.
    Form(&'static str),
    /// A name that begins no statement. `kind` is what there is a list of, `near` a name that differs by one slip.
    Unknown {
        word: &'a [u8],
        kind: Kind,
        near: Option<&'static str>,
    },
    /// A mnemonic of other assemblers, and what does the same here.
    Foreign {
        word: &'a [u8],
        here: &'static str,
    },
    /// What a mnemonic or a directive takes.
    Takes {
        name: &'static str,
        operands: &'static str,
    },
    /// A word is none of the kind that its place asks for.
    Misplaced {
        word: &'a [u8],
        kind: Place,
        name: &'static str,
        operands: &'static str,
    },
    /// The name of a call where a number is wanted.
    Call {
        word: &'a [u8],
        number: u64,
    },
    /// A number that doesn't fit.
    Unfit {
        word: &'a [u8],
        name: &'static str,
        operands: &'static str,
    },
    /// What a directive takes, behind the words that stand at it.
    At {
        words: &'a [u8],
        name: &'static str,
        operands: &'static str,
    },
    /// Digits that are no number.
    NoNumber(&'a [u8]),
    /// A character that nothing begins with.
    Character(u8),
    /// A string isn't one.
    NoString,
    /// A label that no line defines, and one that differs by one slip.
    NoLabel {
        word: &'a [u8],
        near: Option<&'a [u8]>,
    },
    /// A label that an earlier line defines.
    Twice {
        word: &'a [u8],
        line: u64,
    },
    /// No line has an instruction.
    NoText,
    /// What there may be so many of.
    Most(&'static str),
    /// A symbol that the image hasn't, and one that differs by one slip.
    NoSymbol {
        word: &'a str,
        near: Option<&'a [u8]>,
    },
    /// A line of a source at which no code of the image begins, and the next line with code.
    NoLine {
        file: &'a str,
        number: &'a str,
        next: Option<&'a [u8]>,
    },
    /// A record that begins so has so many bytes at least.
    Least(usize),
    /// Another version of the record.
    Version,
}

/// What begins a statement.
#[derive(Clone, Copy, Drop)]
pub enum Kind {
    Instruction,
    Directive,
}

/// What the place of an operand asks for.
#[derive(Clone, Copy, Drop)]
pub enum Place {
    Register,
    Number,
    Target,
    Label,
    Orders,
}

/// Bytes as a text: those of an input that may be other than UTF-8 print as `?`.
#[derive(Clone, Copy)]
struct Shown<'a>(&'a [u8]);

impl fmt::Display for Shown<'_> {
    ghost output = { λ shown. Some (shown_text shown.0.now) };

    fn fmt<W: fmt::Write>(&self, f: &mut fmt::Formatter<W>) -> fmt::Result {
        match str::from_utf8(self.0) {
            Ok(text) => write!(f, "{text}"),
            Err(_) => write!(f, "?"),
        }
    }
}

impl fmt::Display for Wanted {
    ghost output = { λ wanted. Some (wanted_text wanted) };

    fn fmt<W: fmt::Write>(&self, f: &mut fmt::Formatter<W>) -> fmt::Result {
        match self {
            Wanted::Source => write!(f, "a source"),
            Wanted::Image => write!(f, "an image, or with --source a source,"),
            Wanted::Listed => write!(f, "an image"),
            Wanted::Rewritten => write!(f, "an image"),
            Wanted::Record => write!(f, "a record"),
            Wanted::Told => write!(f, "what rvmc explore --from writes"),
        }
    }
}

impl fmt::Display for Kind {
    ghost output = { λ kind. Some (kind_text kind) };

    fn fmt<W: fmt::Write>(&self, f: &mut fmt::Formatter<W>) -> fmt::Result {
        match self {
            Kind::Instruction => write!(f, "instructions"),
            Kind::Directive => write!(f, "directives"),
        }
    }
}

/// What is wrong with a word that isn't of the kind that its place asks for.
fn misplaced(kind: Place) -> &'static str
    ensures { result.now ≡ misplaced_text kind }
{
    match kind {
        Place::Register => "is no register",
        Place::Number => "is no number",
        Place::Target => "is no target",
        Place::Label => "is no label",
        Place::Orders => "is no iorw",
    }
}

/// What is to be done with a source where something else is wanted.
fn remedy(wanted: Wanted) -> &'static str
    ensures { result.now ≡ remedy_text wanted }
{
    match wanted {
        Wanted::Source => "rvmc reads it",
        Wanted::Image => "use --source",
        Wanted::Listed => "rvmc asm | rvmc dis",
        Wanted::Rewritten => "rvmc asm reads it, without --from",
        Wanted::Record => "rvmc one --source --record makes a record of its run",
        Wanted::Told => "rvmc explore --source --split begins with it",
    }
}

/// How a text that may be a source is to be given.
fn advice(wanted: Wanted) -> &'static str
    ensures { result.now ≡ advice_text wanted }
{
    match wanted {
        Wanted::Source => "rvmc reads sources",
        Wanted::Image => "a source wants --source",
        Wanted::Listed => "of a source, rvmc asm | rvmc dis",
        Wanted::Rewritten => "a source wants no --from",
        Wanted::Record => "rvmc one --record writes a record",
        Wanted::Told => "rvmc explore --from writes them",
    }
}

/// How ranks have to be listed.
fn put_ranks<W: fmt::Write>(f: &mut fmt::Formatter<W>, ranks: u8) -> fmt::Result
    ensures { WritesOnOk W.write_str_gives f.old result (ranks_text ranks) f.new }
{
    match ranks {
        0 | 1 => write!(f, "1 rank: --order must name 0 and no other"),
        _ => write!(
            f,
            "{ranks} ranks: --order must name each of 0 to {}",
            ranks - 1
        ),
    }
}

/// How harts have to be listed.
fn put_harts<W: fmt::Write>(f: &mut fmt::Formatter<W>, harts: u8) -> fmt::Result
    ensures { WritesOnOk W.write_str_gives f.old result (harts_text harts) f.new }
{
    match harts {
        0 | 1 => write!(f, "1 hart: --plan must name 0 and no other"),
        _ => write!(
            f,
            "{harts} harts: --plan must name harts from 0 to {}",
            harts - 1
        ),
    }
}

/// What is waited for on standard input.
fn put_awaited<W: fmt::Write>(f: &mut fmt::Formatter<W>, awaited: Awaited) -> fmt::Result
    ensures { WritesOnOk W.write_str_gives f.old result (awaited_text awaited) f.new }
{
    match awaited {
        Awaited::Whole(wanted) => write!(
            f,
            "waiting for {wanted} on standard input (Ctrl-D ends it); a file can be named instead, \
             and rvmc --help says more"
        ),
        Awaited::Packets => f.write_str(
            "waiting for gdb's packets on standard input (Ctrl-D ends it)",
        ),
        Awaited::Words => f.write_str(
            "waiting for words on standard input, a line each, as go=2 regs=0,0 (Ctrl-D ends it)",
        ),
    }
}

/// A name that begins no statement.
fn put_unknown<W: fmt::Write>(
    f: &mut fmt::Formatter<W>,
    word: &[u8],
    kind: Kind,
    near: Option<&str>,
) -> fmt::Result
    ensures { WritesOnOk W.write_str_gives f.old result
        (unknown_text word.now kind (option_map (λ name. name.now) near.entry)) f.new }
{
    let word = Shown(word);
    match near {
        Some(near) => write!(
            f,
            "{word} isn't known here; is {near} meant? docs/ASSEMBLER.md lists the {kind}"
        ),
        None => write!(
            f,
            "{word} isn't known here; docs/ASSEMBLER.md lists the {kind}"
        ),
    }
}

/// A mnemonic of other assemblers.
fn put_foreign<W: fmt::Write>(f: &mut fmt::Formatter<W>, word: &[u8], here: &str) -> fmt::Result
    ensures { WritesOnOk W.write_str_gives f.old result (foreign_text word.now here.now) f.new }
{
    write!(f, "{} isn't known here: {here} does the same", Shown(word))
}

/// The name of a call where a number is wanted.
fn put_call<W: fmt::Write>(f: &mut fmt::Formatter<W>, word: &[u8], number: u64) -> fmt::Result
    ensures { WritesOnOk W.write_str_gives f.old result (call_text word.now number) f.new }
{
    write!(f, "{} is no number: it is call {number}", Shown(word))
}

/// A word, what is wrong with it, and what its statement takes.
fn put_wrong<W: fmt::Write>(
    f: &mut fmt::Formatter<W>,
    word: &[u8],
    wrong: &str,
    name: &str,
    operands: &str,
) -> fmt::Result
    ensures { WritesOnOk W.write_str_gives f.old result (wrong_text word.now wrong.now name.now operands.now) f.new }
{
    write!(f, "{} {wrong}: {name} takes {operands}", Shown(word))
}

/// What a directive takes, behind the words that stand at it.
fn put_at<W: fmt::Write>(
    f: &mut fmt::Formatter<W>,
    words: &[u8],
    name: &str,
    operands: &str,
) -> fmt::Result
    ensures { WritesOnOk W.write_str_gives f.old result (at_text words.now name.now operands.now) f.new }
{
    write!(f, "at `{}`: {name} takes {operands}", Shown(words))
}

/// What a mnemonic or a directive takes.
fn put_takes<W: fmt::Write>(f: &mut fmt::Formatter<W>, name: &str, operands: &str) -> fmt::Result
    ensures { WritesOnOk W.write_str_gives f.old result (takes_text name.now operands.now) f.new }
{
    write!(f, "{name} takes {operands}")
}

/// A name that isn't there, and the one that was meant, perhaps.
fn put_missing<W: fmt::Write>(
    f: &mut fmt::Formatter<W>,
    lacks: &str,
    word: &[u8],
    near: Option<&[u8]>,
) -> fmt::Result
    ensures { WritesOnOk W.write_str_gives f.old result
        (missing_text lacks.now word.now (option_map (λ name. name.now) near.entry)) f.new }
{
    write!(f, "{lacks} {}", Shown(word))?;
    put_near(f, near)
}

/// A label that an earlier line defines.
fn put_twice<W: fmt::Write>(f: &mut fmt::Formatter<W>, word: &[u8], line: u64) -> fmt::Result
    ensures { WritesOnOk W.write_str_gives f.old result (twice_text word.now line) f.new }
{
    write!(f, "line {line} defines {} already", Shown(word))
}

impl fmt::Display for Hint<'_> {
    ghost output = { λ hint. Some (hint_text hint) };

    fn fmt<W: fmt::Write>(&self, f: &mut fmt::Formatter<W>) -> fmt::Result {
        match *self {
            Hint::Nothing(wanted) => write!(f, "the input is empty: {wanted} is wanted"),
            Hint::Image => f.write_str("this is an image: rvmc one reads it"),
            Hint::Record => f.write_str("this is a record: rvmc report, list and check read it"),
            Hint::Elf => f.write_str(
                "this is an ELF file: rvmc runs images, which rvmc-cc makes from C",
            ),
            Hint::C => f.write_str("this is C: rvmc-mpi run -n 4 FILE compiles it and runs it"),
            Hint::Source(wanted) => write!(f, "this is an assembler source: {}", remedy(wanted)),
            Hint::Text(wanted) => write!(f, "this looks like text: {}", advice(wanted)),
            Hint::Input => f.write_str("a file or a pipe is read, of at most 67108864 bytes"),
            Hint::Ranks(ranks) => put_ranks(f, ranks),
            Hint::Harts(harts) => put_harts(f, harts),
            Hint::Command { word, near } => put_missing(
                f,
                "rvmc has no command",
                word.as_bytes(),
                Some(near.as_bytes()),
            ),
            Hint::Awaited(awaited) => put_awaited(f, awaited),
            Hint::Form(form) => f.write_str(form),
            Hint::Unknown { word, kind, near } => put_unknown(f, word, kind, near),
            Hint::Foreign { word, here } => put_foreign(f, word, here),
            Hint::Takes { name, operands } => put_takes(f, name, operands),
            Hint::Misplaced {
                word,
                kind,
                name,
                operands,
            } => put_wrong(f, word, misplaced(kind), name, operands),
            Hint::Call { word, number } => put_call(f, word, number),
            Hint::Unfit {
                word,
                name,
                operands,
            } => put_wrong(f, word, "doesn't fit", name, operands),
            Hint::At {
                words,
                name,
                operands,
            } => put_at(f, words, name, operands),
            Hint::NoNumber(word) => write!(f, "{} is no number", Shown(word)),
            Hint::Character(byte) => put_character(f, byte),
            Hint::NoString => f.write_str(
                "a string ends on its line, and has the escapes \\n, \\t, \\0, \\\\ and \\\"",
            ),
            Hint::NoLabel { word, near } => put_missing(f, "no line defines", word, near),
            Hint::Twice { word, line } => put_twice(f, word, line),
            Hint::NoText => f.write_str("no line has an instruction"),
            Hint::Most(most) => f.write_str(most),
            Hint::NoSymbol { word, near } => {
                put_missing(f, "the image has no symbol", word.as_bytes(), near)
            }
            Hint::NoLine { file, number, next } => put_no_line(f, file, number, next),
            Hint::Least(bytes) => { write!(f, "a record that begins so has {bytes} bytes or more") }
            Hint::Version => f.write_str("a record begins with RVMR and version 2"),
        }
    }
}

/// A character of the input, which may be other than ASCII.
fn put_character<W: fmt::Write>(f: &mut fmt::Formatter<W>, byte: u8) -> fmt::Result
    ensures { WritesOnOk W.write_str_gives f.old result (character_text byte) f.new }
{
    match byte {
        33..=126 => write!(f, "nothing begins with {}", char::from(byte)),
        _ => write!(f, "nothing begins with the byte {byte}"),
    }
}

/// A line without code, and perhaps the next one with code.
fn put_no_line<W: fmt::Write>(
    f: &mut fmt::Formatter<W>,
    file: &str,
    number: &str,
    next: Option<&[u8]>,
) -> fmt::Result
    ensures { WritesOnOk W.write_str_gives f.old result
        (no_line_text file.now number.now (option_map (λ line. line.now) next.entry)) f.new }
{
    write!(f, "the image has no code of {file}:{number}")?;
    put_next(f, file, next)
}

/// The next line with code, if there is one.
fn put_next<W: fmt::Write>(
    f: &mut fmt::Formatter<W>,
    file: &str,
    next: Option<&[u8]>,
) -> fmt::Result
    ensures { WritesOnOk W.write_str_gives f.old result
        (next_text file.now (option_map (λ line. line.now) next.entry)) f.new }
{
    match next {
        Some(next) => write!(f, "; the next line with code is {file}:{}", Shown(next)),
        None => Ok(()),
    }
}

/// The name that was meant, perhaps.
fn put_near<W: fmt::Write>(f: &mut fmt::Formatter<W>, near: Option<&[u8]>) -> fmt::Result
    ensures { WritesOnOk W.write_str_gives f.old result (near_text (option_map (λ name. name.now) near.entry)) f.new }
{
    match near {
        Some(near) => write!(f, "; is {} meant?", Shown(near)),
        None => Ok(()),
    }
}
