//! What is written: standard output, or a file that the command line names.

ghost use Rattle.std.specs.Prelude.{◌≡◌, ◌&&◌, ◌==◌, ◌||◌};
ghost use Rattle.rvmc_tool.specs.Tool.{is_quiet};

use std::fs::{self, File, Metadata};
use std::io::{self, ErrorKind, Stdout, Write};

/// What is written to.
#[derive(Drop)]
pub enum Sink {
    /// Standard output.
    Output(Stdout),
    /// A file.
    File(File),
}

impl Write for Sink {
    fn write(&mut self, buf: &[u8]) -> io::Result<usize> {
        match self {
            Sink::Output(out) => out.write(buf),
            Sink::File(file) => file.write(buf),
        }
    }

    fn flush(&mut self) -> io::Result<()> {
        match self {
            Sink::Output(out) => out.flush(),
            Sink::File(file) => file.flush(),
        }
    }
}

/// Where an output is while it is made.
#[derive(Drop)]
pub enum Output {
    /// In its place.
    InPlace,
    /// In a file beside its place, which gets its name once it is whole.
    Beside { file: String, place: String },
}

/// Whether an output is one to keep, by the program's status: not where the program ended with a fault's line. Status 1 is
/// an answer where it `says_bad`.
fn is_kept(status: u8, says_bad: bool) -> bool
    ensures { result ≡ (is_quiet status || ((status == 1) && says_bad)) }
{
    match status {
        0 | 3 | 4 | 7 => true,
        1 => says_bad,
        _ => false,
    }
}

/// Whether anything was written to a file.
fn has_bytes(rt: &HostRuntime, file: &str) -> bool {
    match fs::metadata(rt, file) {
        Ok(found) => found.len() > 0,
        Err(_) => false,
    }
}

impl Output {
    /// Gives the file its name, or removes it where the program ended with a fault's line, as its status tells. A command
    /// that `may_answer_bad` ends with status 1 either by that answer, which stands in the file, or by a fault.
    pub fn done(&self, rt: &HostRuntime, status: u8, may_answer_bad: bool) -> io::Result<()> {
        let Output::Beside { file, place } = self else {
            return Ok(());
        };
        if !is_kept(status, may_answer_bad && has_bytes(rt, file)) {
            return fs::remove_file(rt, file);
        }
        let renamed = fs::rename(rt, file, place);
        if renamed.is_err() {
            let _removed = fs::remove_file(rt, file);
        }
        renamed
    }
}

/// A new file beside a place. Others of such a name are left alone.
fn new_file(rt: &HostRuntime, place: &str) -> io::Result<(String, File)> {
    for number in 0..1_000u32 {
        let name = format!(in rt.alloc(); "{place}.rvmc-{number}")?;
        match File::create_new(rt, name.as_str()) {
            Ok(file) => return Ok((name, file)),
            Err(error) => {
                if error.kind() != ErrorKind::AlreadyExists {
                    return Err(error);
                }
            }
        }
    }
    Err(io::Error::from(ErrorKind::AlreadyExists))
}

/// A new file beside a place, with the permissions of the file that stands there, if one does.
fn beside(rt: &HostRuntime, place: String, found: Option<Metadata>) -> io::Result<(Output, Sink)> {
    let (name, file) = new_file(rt, place.as_str())?;
    if let Some(found) = found {
        let _set = file.set_permissions(found.permissions());
    }
    let output = Output::Beside { file: name, place };
    Ok((output, Sink::File(file)))
}

/// The file of this name for writing: one that is missing or regular is written beside itself, and anything else, as
/// /dev/null, in its place. Behind a symbolic link it is the file to which that leads.
pub fn created(rt: &HostRuntime, name: &str) -> io::Result<(Output, Sink)> {
    match fs::metadata(rt, name) {
        Ok(found) if found.is_file() => {
            let place = fs::canonicalize(rt, name)?.into_string();
            beside(rt, place, Some(found))
        }
        Ok(_) => {
            let file = File::options().write(true).open(rt, name)?;
            Ok((Output::InPlace, Sink::File(file)))
        }
        Err(error) => {
            if error.kind() == ErrorKind::NotFound {
                beside(rt, format!(in rt.alloc(); "{name}")?, None)
            } else {
                Err(error)
            }
        }
    }
}
