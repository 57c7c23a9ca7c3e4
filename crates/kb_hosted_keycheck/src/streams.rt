//! What a program writes, kept in memory.
use std::alloc::Global;
use std::cell::RefCell;
use std::fmt::Display;
use std::io;
use std::io::ErrorKind;

/// Standard output and standard error, kept in memory. Where memory is refused, a write fails.
#[derive(Drop)]
pub(crate) struct KeptStreams {
    alloc: Global,
    output: RefCell<Vec<u8>>,
    errors: RefCell<Vec<u8>>,
}

/// Adds bytes to a stream.
fn add(stream: &RefCell<Vec<u8>>, bytes: &[u8]) -> io::Result<()> {
    match stream.try_borrow_mut() {
        Ok(mut held) => match held.extend_from_slice(bytes) {
            Ok(()) => Ok(()),
            Err(_) => Err(io::Error::from(ErrorKind::OutOfMemory)),
        },
        Err(_) => Err(io::Error::from(ErrorKind::ResourceBusy)),
    }
}

/// Adds the text of a value to a stream, with an end behind it.
fn add_shown<D: Display + Drop>(
    alloc: Global,
    stream: &RefCell<Vec<u8>>,
    value: D,
    end: &str,
) -> io::Result<()> {
    match format!(in alloc; "{value}{end}") {
        Ok(text) => add(stream, text.as_bytes()),
        Err(_) => Err(io::Error::from(ErrorKind::OutOfMemory)),
    }
}

impl KeptStreams {
    /// Streams without bytes.
    pub(crate) fn new(alloc: Global) -> KeptStreams {
        KeptStreams {
            alloc,
            output: RefCell::new(Vec::new(alloc)),
            errors: RefCell::new(Vec::new(alloc)),
        }
    }

    /// The bytes of standard output, and those of standard error.
    pub(crate) fn into_bytes(self) -> (Vec<u8>, Vec<u8>) {
        let KeptStreams {
            alloc: _,
            output,
            errors,
        } = self;
        (output.into_inner(), errors.into_inner())
    }
}

impl Print for KeptStreams {
    fn print<D: Display + Drop>(&self, value: D) -> io::Result<()> {
        add_shown(self.alloc, &self.output, value, "")
    }

    fn println<D: Display + Drop>(&self, value: D) -> io::Result<()> {
        add_shown(self.alloc, &self.output, value, "\n")
    }

    fn write_all(&self, bytes: &[u8]) -> io::Result<()> {
        add(&self.output, bytes)
    }
}

impl Eprint for KeptStreams {
    fn eprint<D: Display + Drop>(&self, value: D) -> io::Result<()> {
        add_shown(self.alloc, &self.errors, value, "")
    }

    fn eprintln<D: Display + Drop>(&self, value: D) -> io::Result<()> {
        add_shown(self.alloc, &self.errors, value, "\n")
    }
}
