//! Where the script is read from.

use std::fs::File;
use std::io::{Error, IsTerminal, Read, Result, Stdin};

/// The script: what it is read from, and the name of its file, if it has one.
#[derive(Drop)]
pub(crate) struct Input {
    pub(crate) name: Option<String>,
    pub(crate) stream: Stream,
}

/// Standard input, or the file that the command line names.
#[derive(Drop)]
pub(crate) enum Stream {
    Stdin(Stdin),
    File(File),
}

impl Stream {
    /// Opens the file of a name, or standard input if there is no name. At a terminal it says on
    /// standard error that a script is expected.
    ///
    /// Errors: what the system says of the file.
    pub(crate) fn open(rt: HostRuntime, name: &Option<String>) -> Result<Stream> {
        if let Some(name) = name {
            let file = File::open(&rt, name)?;
            if file.metadata()?.is_dir() {
                return Err(Error::other("is a directory"));
            }
            return Ok(Stream::File(file));
        }
        let stdin = rt.stdin();
        if stdin.is_terminal() {
            let _ = eprintln!(rt; "cicsrun: reads a script from the terminal, up to Ctrl-D");
        }
        Ok(Stream::Stdin(stdin))
    }
}

impl Input {
    /// Returns the file's name, if it has one.
    pub(crate) fn name(&self) -> Option<&[u8]> {
        self.name.as_ref().map(|name| name.as_bytes())
    }
}

impl Read for Input {
    fn read(&mut self, buffer: &mut [u8]) -> Result<usize> {
        match &mut self.stream {
            Stream::Stdin(stdin) => stdin.read(buffer),
            Stream::File(file) => file.read(buffer),
        }
    }
}
