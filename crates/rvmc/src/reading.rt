//! What is read: standard input, or a file that the command line names.

use std::fs::File;
use std::io::{self, Chain, Read, Stdin};

/// What is read.
#[derive(Drop)]
pub enum Source {
    /// Standard input.
    Input(Stdin),
    /// A file.
    File(File),
    /// A file, and standard input behind it.
    Both(Chain<File, Stdin>),
}

impl Source {
    /// Whether standard input is read.
    pub fn reads_on(&self) -> bool {
        match self {
            Source::Input(_) | Source::Both(_) => true,
            Source::File(_) => false,
        }
    }

    /// Whether a file is read.
    pub fn is_file(&self) -> bool {
        match self {
            Source::Input(_) => false,
            Source::File(_) | Source::Both(_) => true,
        }
    }
}

impl Read for Source {
    fn read(&mut self, buf: &mut [u8]) -> io::Result<usize> {
        match self {
            Source::Input(input) => input.read(buf),
            Source::File(file) => file.read(buf),
            Source::Both(both) => both.read(buf),
        }
    }
}

/// A file for reading. A folder can be opened, but has nothing to read.
fn opened_file(rt: &HostRuntime, name: &str) -> io::Result<File> {
    let file = File::open(rt, name)?;
    if file.metadata()?.is_dir() {
        return Err(io::Error::from(io::ErrorKind::IsADirectory));
    }
    Ok(file)
}

/// The file of this name, and with `reads_on` standard input behind it; without a name standard input alone.
pub fn opened(rt: &HostRuntime, name: Option<&str>, reads_on: bool) -> io::Result<Source> {
    let Some(name) = name else {
        return Ok(Source::Input(rt.stdin()));
    };
    let file = opened_file(rt, name)?;
    if reads_on {
        Ok(Source::Both(file.chain(rt.stdin())))
    } else {
        Ok(Source::File(file))
    }
}
