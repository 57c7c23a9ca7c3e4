//! Files by their paths, the words of a command line, and what the last run of `keycheck` wrote.
ghost use Rattle.std.specs.Prelude.{◌≡◌, ◌≤◌, ◌++◌, ◌∷◌, [], OnErr, OnOk};
ghost use Rattle.std.specs.FinMap as map;
ghost use Rattle.kb_hosted_keycheck.specs.Desk.{Runs, new_desk, written};

use crate::memory_files::MemoryFiles;
use crate::streams::KeptStreams;
use kb_base::{NoMemory, Seq, Text, TextMap};
use kb_keycheck::keycheck_over;
use std::alloc::Global;
use std::marker::Model;
use std::mem;

/// Files by their paths, the words of a command line, and what the last run over them wrote. Contracts see
/// all of it.
#[derive(Drop)]
pub struct Desk {
    files: TextMap<Seq<u8>>,
    words: Vec<String>,
    output: Seq<u8>,
    errors: Seq<u8>,
    status: u8,
    alloc: Global,
}

impl Model for Desk {
    ghost use Rattle.std.specs.Prelude.{map as mapped, string_bytes};
    ghost use Rattle.std.specs.Coded.{codes, coded_list, coded_ℕ};
    ghost use Rattle.std.specs.FinMap as map;
    ghost use Rattle.std.specs.Ordering.{nat_cmp};
    ghost use Rattle.std.specs.Cmp.Lexicographic.{slice_cmp};
    ghost use Rattle.kb_hosted_keycheck.specs.Values.{DeskData};

    ghost Value = { DeskData };

    ghost coded = { Prim.hlevel (
      codes,
      map.code {R = slice_cmp nat_cmp} (coded_list coded_ℕ) (coded_list coded_ℕ),
    ) };

    ghost view = { λ d. record {
      files = d.files;
      words = mapped string_bytes d.words.items;
      output = d.output;
      errors = d.errors;
      status = d.status;
    } };
}

impl Desk {
    /// No files and no words.
    pub fn new(alloc: Global) -> Desk
        ensures { result ≡ new_desk }
    {
        Desk {
            files: TextMap::new(alloc),
            words: Vec::new(alloc),
            output: Seq::new(alloc),
            errors: Seq::new(alloc),
            status: 0,
            alloc,
        }
    }

    /// Copies a file's bytes to a path, in the place of those before. Error: `NoMemory`; then nothing
    /// changes.
    pub fn put(&mut self, path: &str, bytes: &[u8]) -> Result<(), NoMemory>
        ensures ok { OnOk result (self.new
            ≡ record self.old { files = map.insert self.old.files path.now bytes.now }) }
        ensures err { OnErr result (self.new ≡ self.old) }
    {
        let bytes = Seq::from_vec(bytes.to_vec(self.alloc)?);
        self.files.set(self.alloc, path, bytes)
    }

    /// Removes the file at a path, if there is one.
    pub fn remove(&mut self, path: &str)
        ensures { self.new ≡ record self.old { files = map.remove self.old.files path.now } }
    {
        self.files.remove(path);
    }

    /// Adds a word to the command line. Error: `NoMemory`; then nothing changes.
    pub fn add_word(&mut self, word: &str) -> Result<(), NoMemory>
        ensures ok { OnOk result (self.new ≡ record self.old { words = self.old.words ++ word.now ∷ [] }) }
        ensures err { OnErr result (self.new ≡ self.old) }
    {
        let word = String::from_str(self.alloc, word)?;
        self.words.push(word)?;
        Ok(())
    }

    /// Runs `keycheck` over the files, by the words of the command line, the program's name first, which are
    /// gone then. The exit status and what was written can be read until the next run. Where memory is
    /// refused, the status is 4, as that of the program.
    pub fn run(&mut self)
        ensures { Runs self.old self.new }
    {
        let words = mem::replace(&mut self.words, Vec::new(self.alloc));
        let streams = KeptStreams::new(self.alloc);
        let files = MemoryFiles { files: &self.files };
        let status = keycheck_over(&streams, self.alloc, words.as_slice(), &files);
        let (output, errors) = streams.into_bytes();
        self.status = status;
        self.output = Seq::from_vec(output);
        self.errors = Seq::from_vec(errors);
    }

    /// The exit status of the last run, 0 before any.
    pub fn status(&self) -> u8
        ensures { result ≡ self.now.status }
    {
        self.status
    }

    /// What the last run wrote: 0 is standard output, 1 standard error; nothing for any other number.
    pub fn written(&self, stream: u32) -> &[u8]
        ensures { result.now ≡ written stream self.now }
    {
        match stream {
            0 => self.output.as_slice(),
            1 => self.errors.as_slice(),
            _ => &[],
        }
    }
}
