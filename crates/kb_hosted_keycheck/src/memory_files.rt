//! Files in memory, as `keycheck` reads them.
ghost use Rattle.kb_hosted_keycheck.specs.Desk.{held_in};

use kb_base::{Seq, TextMap};
use kb_disk::FileSource;
use kb_keycheck::Reasons;
use std::io;
use std::io::ErrorKind;

/// Files in memory, by their paths. A path is looked for as it is spelled.
#[derive(Clone, Copy)]
pub(crate) struct MemoryFiles<'d> {
    pub(crate) files: &'d TextMap<Seq<u8>>,
}

impl<'d> FileSource for MemoryFiles<'d> {
    type File = &'d [u8];

    ghost held = { λ f. held_in f.files.now };

    fn open(&self, path: &str) -> io::Result<&'d [u8]> {
        match self.files.get(path) {
            Some(bytes) => Ok(bytes.as_slice()),
            None => Err(io::Error::from(ErrorKind::NotFound)),
        }
    }
}

impl Reasons for MemoryFiles<'_> {
    fn reason(&self, path: &str) -> &'static str {
        if self.files.contains_key(path) {
            ": it has more than 16,777,216 bytes"
        } else {
            ": there is no such file"
        }
    }
}
