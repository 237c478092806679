//! Which words of a command line name files: one to read, and behind `-o` one to write.

ghost use Rattle.std.specs.Prelude.{◌≡◌, IfOk, find, map, option_map};
ghost use Rattle.std.specs.List.{list_any};
ghost use Rattle.std.specs.Str.{bytes_eq};
ghost use Rattle.rvmc_cli.specs.Files.{alone, asked_behind, asked_by, behind, finished, is_among, is_equals_sign, is_file};
ghost use Rattle.rvmc_cli.specs.Files.{is_mark, is_output_option, is_source_file, lacks_source, named_in, names_in, names_of};
ghost use Rattle.rvmc_cli.specs.Files.{taker_view, takes_by_name, unnamed, walked, with_file, with_next, with_output};
ghost use Rattle.rvmc_cli.specs.Files.{with_word, without_command};
ghost use Rattle.rvmc_cli.specs.declared.files.Asks.TheVariants as asks;

use std::alloc::{AllocError, Global};

/// What a command line names, and the words that are left of it.
#[derive(Drop)]
pub struct Named<'a> {
    /// The command line without these names.
    pub words: Vec<&'a str>,
    /// The file to read in place of standard input.
    pub file: Option<&'a str>,
    /// The file to write in place of standard output.
    pub output: Option<&'a str>,
}

/// What a word asks of the next one.
#[derive(Clone, Copy, Drop)]
pub enum Asks {
    Nothing,
    /// To be its value.
    Value,
    /// To name the file to write.
    Output,
}

/// A command, its options that take the word behind them, and whether it has `--source`.
pub struct Taker {
    pub command: &'static str,
    pub options: &'static [&'static str],
    pub source: bool,
}

/// The table of commands, one line a command.
macro_rules! takers {
    ($($command:literal $source:literal $($option:literal)*;)*) => {
        [$(Taker { command: $command, options: &[$($option),*], source: $source }),*]
    };
}

static TAKERS: [Taker; 13] = takers! {
    "asm" false;
    "dis" false;
    "run" true "--budget" "--plan" "--lead";
    "one" true "--budget" "--plan" "--order";
    "check" false;
    "report" false;
    "list" false "--from" "--to" "--rank";
    "draw" false "--from" "--to";
    "page" false "--from" "--to" "--text";
    "debug" false;
    "gdb" false "--rank";
    "why" false "--at";
    "explore" true "--plan" "--states" "--turns" "--record" "--split" "--from";
};

/// Whether a byte makes a word look like a file's name.
fn is_mark(byte: u8) -> bool
    ensures { result ≡ is_mark byte }
{
    byte == b'.' || byte == b'/'
}

fn has_mark(bytes: &[u8]) -> bool
    ensures { result ≡ list_any is_mark bytes.now }
{
    bytes.iter().any(|byte| is_mark(*byte))
}

fn is_equals_sign(byte: u8) -> bool
    ensures { result ≡ is_equals_sign byte }
{
    byte == b'='
}

fn has_equals_sign(bytes: &[u8]) -> bool
    ensures { result ≡ list_any is_equals_sign bytes.now }
{
    bytes.iter().any(|byte| is_equals_sign(*byte))
}

/// Whether a word names a file: it contains a `.` or a `/` and no `=`, and is no option.
fn is_file(word: &str) -> bool
    ensures { result ≡ is_file word.now }
{
    let bytes = word.as_bytes();
    has_mark(bytes) && !has_equals_sign(bytes) && !matches!(bytes, [b'-', ..])
}

/// Whether a file is an assembler source, by its name.
fn is_source_file(file: &str) -> bool
    ensures { result ≡ is_source_file file.now }
{
    file.as_bytes().ends_with(b".s")
}

fn is_among(options: &[&str], word: &str) -> bool
    ensures { result ≡ is_among (map (λ option. option.now) options.now) word.now }
{
    for option in options {
        if *option == word {
            return true;
        }
    }
    false
}

fn is_output_option(word: &str) -> bool
    ensures { result ≡ is_output_option word.now }
{
    word == "-o"
}

/// The row of this table for a command.
fn taker_in(table: &'static [Taker], name: &str) -> Option<&'static Taker>
    ensures { option_map (λ row. taker_view row.now) result
        ≡ find (λ takes. bytes_eq name.now takes.command) (map taker_view table.now) }
{
    for row in table {
        if name == row.command {
            return Some(row);
        }
    }
    None
}

/// What the command of this name takes, if there is one.
fn taker_of(name: &str) -> Option<&'static Taker>
    ensures { option_map (λ row. taker_view row.now) result ≡ takes_by_name name.now }
{
    taker_in(&TAKERS, name)
}

/// What a word asks of the next one.
fn asked_by(options: &[&str], word: &str) -> Asks
    ensures { result ≡ asked_by (map (λ option. option.now) options.now) word.now }
{
    if is_output_option(word) {
        Asks::Output
    } else if is_among(options, word) {
        Asks::Value
    } else {
        Asks::Nothing
    }
}

/// The same of a word of which the one before it asks this.
fn asked_behind(options: &[&str], ask: Asks, word: &str) -> Asks
    ensures { result ≡ asked_behind (map (λ option. option.now) options.now) ask word.now }
{
    match ask {
        Asks::Nothing => asked_by(options, word),
        Asks::Value | Asks::Output => Asks::Nothing,
    }
}

impl<'a> Named<'a> {
    /// These words, and no name.
    fn of(words: Vec<&'a str>) -> Named<'a>
        ensures { names_of result ≡ unnamed (map (λ word. word.now) words.entry.items) }
    {
        Named {
            words,
            file: None,
            output: None,
        }
    }

    /// One word more that is left.
    fn with_word(mut self, word: &'a str) -> Result<Named<'a>, AllocError>
        ensures { IfOk result (λ new. names_of new ≡ with_word (names_of self.entry) word.entry.now) }
    {
        self.words.push(word)?;
        Ok(self)
    }

    /// The file to read, where none was named before.
    fn with_file(mut self, file: &'a str) -> Option<Named<'a>>
        ensures { option_map names_of result ≡ with_file (names_of self.entry) file.entry.now }
    {
        if self.file.is_some() {
            return None;
        }
        self.file = Some(file);
        Some(self)
    }

    /// The file to write, where none was named before.
    fn with_output(mut self, file: &'a str) -> Option<Named<'a>>
        ensures { option_map names_of result ≡ with_output (names_of self.entry) file.entry.now }
    {
        if self.output.is_some() {
            return None;
        }
        self.output = Some(file);
        Some(self)
    }

    /// One word more, of which nothing is asked.
    fn with_free(self, word: &'a str) -> Result<Option<Named<'a>>, AllocError>
        ensures { IfOk result (λ new.
            option_map names_of new ≡ with_next asks.Nothing (names_of self.entry) word.entry.now) }
    {
        if is_output_option(word) {
            Ok(Some(self))
        } else if is_file(word) {
            Ok(self.with_file(word))
        } else {
            Ok(Some(self.with_word(word)?))
        }
    }

    /// One word more, of which the one before it asks this.
    fn with_next(self, ask: Asks, word: &'a str) -> Result<Option<Named<'a>>, AllocError>
        ensures { IfOk result (λ new. option_map names_of new ≡ with_next ask (names_of self.entry) word.entry.now) }
    {
        match ask {
            Asks::Value => Ok(Some(self.with_word(word)?)),
            Asks::Output => Ok(self.with_output(word)),
            Asks::Nothing => self.with_free(word),
        }
    }
}

/// These words behind others that named this, of which the last asks for nothing.
fn walked<'a>(
    named: Named<'a>,
    options: &[&str],
    words: &[&'a str],
) -> Result<Option<Named<'a>>, AllocError>
    ensures { IfOk result (λ new. option_map names_of new
        ≡ walked (map (λ option. option.now) options.now) asks.Nothing (names_of named.entry) (map (λ word. word.now) words.now)) }
{
    let mut named = named;
    let mut ask = Asks::Nothing;
    for word in words {
        let Some(next) = named.with_next(ask, word)? else {
            return Ok(None);
        };
        named = next;
        ask = asked_behind(options, ask, word);
    }
    match ask {
        Asks::Output => Ok(None),
        Asks::Nothing | Asks::Value => Ok(Some(named)),
    }
}

/// Whether `--source` must be added: the file is a source, and the words don't say so yet.
fn lacks_source(file: Option<&str>, words: &[&str]) -> bool
    ensures { result ≡ lacks_source (option_map (λ file. file.now) file.entry) (map (λ word. word.now) words.now) }
{
    match file {
        Some(file) => is_source_file(file) && !is_among(words, "--source"),
        None => false,
    }
}

impl<'a> Named<'a> {
    /// The words that are left of a line of a command that has `--source`, or not, as it is read.
    fn finished(mut self, source: bool) -> Result<Named<'a>, AllocError>
        ensures { IfOk result (λ new. names_of new ≡ finished source (names_of self.entry)) }
    {
        if source && lacks_source(self.file, self.words.as_slice()) {
            self.words.push("--source")?;
        }
        Ok(self)
    }

    /// What a line without a command is read as, if it is one.
    fn alone(mut self) -> Result<Option<Named<'a>>, AllocError>
        ensures { IfOk result (λ new. option_map names_of new ≡ alone (names_of self.entry)) }
    {
        if !self.words.is_empty() {
            return Ok(None);
        }
        if self.file.is_none() {
            return Ok(Some(self));
        }
        self.words.push("one")?;
        Ok(Some(self.finished(true)?))
    }
}

/// What the words after the command name, by what the command takes.
fn behind<'a>(
    alloc: Global,
    taker: &Taker,
    command: &'a str,
    words: &[&'a str],
) -> Result<Option<Named<'a>>, AllocError>
    ensures { IfOk result (λ new. option_map names_of new
        ≡ behind (taker_view taker.now) command.entry.now (map (λ word. word.now) words.now)) }
{
    let first = Named::of(vec![in alloc; command]?);
    match walked(first, taker.options, words)? {
        Some(named) => Ok(Some(named.finished(taker.source)?)),
        None => Ok(None),
    }
}

/// What words name without a command.
fn without_command<'a>(alloc: Global, words: &[&'a str]) -> Result<Option<Named<'a>>, AllocError>
    ensures { IfOk result (λ new. option_map names_of new ≡ without_command (map (λ word. word.now) words.now)) }
{
    match walked(Named::of(Vec::new(alloc)), &[], words)? {
        Some(named) => named.alone(),
        None => Ok(None),
    }
}

/// What a line names, if it is one that may.
fn names_in<'a>(alloc: Global, words: &[&'a str]) -> Result<Option<Named<'a>>, AllocError>
    ensures { IfOk result (λ new. option_map names_of new ≡ names_in (map (λ word. word.now) words.now)) }
{
    let Some((command, behind_it)) = words.split_first() else {
        return Ok(Some(Named::of(Vec::new(alloc))));
    };
    match taker_of(command) {
        Some(taker) => behind(alloc, taker, command, behind_it),
        None => without_command(alloc, words),
    }
}

/// What a line names: a file to read, and one to write; and the line that is left, for `parse`.
///
/// A file to read is a word that no option takes, after a command or alone, which contains a `.` or a `/` and no `=`. A file
/// to write comes after `-o`. Each is named once at most: words that name another, or nothing after `-o`, stay as they are,
/// and so does each line without such words. If the file is a source by its name, as `hi.s`, `--source` is added.
pub fn named_in<'a>(alloc: Global, words: &[&'a str]) -> Result<Named<'a>, AllocError>
    ensures { IfOk result (λ named. names_of named ≡ named_in (map (λ word. word.now) words.now)) }
{
    match names_in(alloc, words)? {
        Some(named) => Ok(named),
        None => Ok(Named::of(words.to_vec(alloc)?)),
    }
}
