//! The words of a line.
ghost use Rattle.std.specs.Prelude.{◌≡◌, ◌&&◌, [], List, Ok, IfOk, OnOk, IfErr};
ghost use Rattle.kb_assembly.specs.declared.words.Word.{Word as TheWord};
ghost use Rattle.kb_assembly.specs.Grammar.{IsText};
ghost use Rattle.kb_base.specs.Failure.{Gives, Fails};
ghost use Rattle.kb_assembly.specs.Words.{is_plain, escaped, action_of, closed, applied, ended};
ghost use Rattle.kb_assembly.specs.Words.{words_of, start, step, scan_from, placed_failure};

use crate::fault::{LineFault, Mistake};
use kb_base::{Failure, Seq, Text, is_blank};
use std::alloc::Global;
use std::mem;

/// A word of a line.
#[derive(Debug, Drop)]
pub struct Word {
    /// Whether the word stands between quotes.
    pub is_quoted: bool,
    /// Its text, without quotes and with its escapes read.
    pub text: Text,
}

/// What the bytes of a line so far leave open.
#[derive(Clone, Copy, Debug, PartialEq, Eq)]
pub enum Mode {
    /// Nothing; white space, or the start of the line.
    Between,
    /// A word without quotes.
    InWord,
    /// A word between quotes.
    InQuotes,
    /// The escape after a backslash between quotes.
    InEscape,
    /// Nothing, but the next word needs white space before it.
    AfterQuotes,
    /// A comment.
    InComment,
}

/// What the next byte does.
#[derive(Clone, Copy, Debug, PartialEq, Eq)]
pub enum Action {
    /// Nothing is added to a word.
    Pass(Mode),
    /// This byte is added to the open word.
    Keep(u8, Mode),
    /// The open word ends, between quotes or not.
    Close(bool, Mode),
}

/// The words of a line that are whole, the bytes of the open one, and what is open.
#[derive(Drop)]
pub struct Scan {
    pub words: Seq<Word>,
    pub held: Seq<u8>,
    pub mode: Mode,
}

/// Whether a byte may stand in a word without quotes: one of visible ASCII other than `"` and `;`.
pub(crate) fn is_plain(byte: u8) -> bool
    ensures { result ≡ is_plain byte }
{
    byte > b' ' && byte < 127 && byte != b'"' && byte != b';'
}

/// The byte that a byte after a backslash stands for.
fn escaped(byte: u8) -> Option<u8>
    ensures { result ≡ escaped byte }
{
    match byte {
        b'"' => Some(b'"'),
        b'\\' => Some(b'\\'),
        b'n' => Some(b'\n'),
        b'r' => Some(b'\r'),
        b't' => Some(b'\t'),
        _ => None,
    }
}

/// What a byte does where nothing is open.
fn between(byte: u8) -> Result<Action, Mistake>
    ensures { result ≡ action_of Mode.Between byte }
{
    if is_blank(byte) {
        Ok(Action::Pass(Mode::Between))
    } else if byte == b';' {
        Ok(Action::Pass(Mode::InComment))
    } else if byte == b'"' {
        Ok(Action::Pass(Mode::InQuotes))
    } else if is_plain(byte) {
        Ok(Action::Keep(byte, Mode::InWord))
    } else {
        Err(Mistake::BadByte)
    }
}

/// What a byte does in a word without quotes.
fn in_word(byte: u8) -> Result<Action, Mistake>
    ensures { result ≡ action_of Mode.InWord byte }
{
    if is_blank(byte) {
        Ok(Action::Close(false, Mode::Between))
    } else if byte == b';' {
        Ok(Action::Close(false, Mode::InComment))
    } else if byte == b'"' {
        Err(Mistake::MissingBlank)
    } else if is_plain(byte) {
        Ok(Action::Keep(byte, Mode::InWord))
    } else {
        Err(Mistake::BadByte)
    }
}

/// What a byte does between quotes.
fn in_quotes(byte: u8) -> Action
    ensures { action_of Mode.InQuotes byte ≡ Ok result }
{
    if byte == b'"' {
        Action::Close(true, Mode::AfterQuotes)
    } else if byte == b'\\' {
        Action::Pass(Mode::InEscape)
    } else {
        Action::Keep(byte, Mode::InQuotes)
    }
}

/// What a byte does after a backslash.
fn in_escape(byte: u8) -> Result<Action, Mistake>
    ensures { result ≡ action_of Mode.InEscape byte }
{
    match escaped(byte) {
        Some(meant) => Ok(Action::Keep(meant, Mode::InQuotes)),
        None => Err(Mistake::BadEscape),
    }
}

/// What a byte does after a word between quotes.
fn after_quotes(byte: u8) -> Result<Action, Mistake>
    ensures { result ≡ action_of Mode.AfterQuotes byte }
{
    if is_blank(byte) {
        Ok(Action::Pass(Mode::Between))
    } else if byte == b';' {
        Ok(Action::Pass(Mode::InComment))
    } else {
        Err(Mistake::MissingBlank)
    }
}

/// What the next byte does.
fn action_of(mode: Mode, byte: u8) -> Result<Action, Mistake>
    ensures { result ≡ action_of mode byte }
{
    match mode {
        Mode::Between => between(byte),
        Mode::InWord => in_word(byte),
        Mode::InQuotes => Ok(in_quotes(byte)),
        Mode::InEscape => in_escape(byte),
        Mode::AfterQuotes => after_quotes(byte),
        Mode::InComment => Ok(Action::Pass(Mode::InComment)),
    }
}

/// The word of these bytes. Errors: `NotUtf8` and `NoMemory`.
#[tactic(auto, unfolding(crate::specs::Words::closed))]
fn closed(is_quoted: bool, bytes: Seq<u8>) -> Result<Word, Mistake>
    ensures { result ≡ closed is_quoted bytes }
{
    match String::from_utf8(bytes.into_vec()) {
        Ok(string) => Ok(Word {
            is_quoted,
            text: Text::from_string(string),
        }),
        Err(_) => Err(Mistake::NotUtf8),
    }
}

impl Scan {
    /// Nothing of a line.
    fn start(alloc: Global) -> Scan
        ensures { result ≡ start }
    {
        Scan {
            words: Seq::new(alloc),
            held: Seq::new(alloc),
            mode: Mode::Between,
        }
    }

    /// Does what a byte does. Errors: `NotUtf8` and `NoMemory`.
    fn apply(&mut self, alloc: Global, action: Action) -> Result<(), Failure<Mistake>>
        ensures ok { OnOk result (applied action self.old ≡ Ok self.new) }
        ensures err { IfErr result (λ failure. Fails failure (applied action self.old)) }
    {
        match action {
            Action::Pass(mode) => {
                self.mode = mode;
            }
            Action::Keep(byte, mode) => {
                self.held.push(byte)?;
                self.mode = mode;
            }
            Action::Close(is_quoted, mode) => {
                let held = mem::replace(&mut self.held, Seq::new(alloc));
                match closed(is_quoted, held) {
                    Ok(word) => self.words.push(word)?,
                    Err(mistake) => return Err(Failure::Fault(mistake)),
                }
                self.mode = mode;
            }
        }
        Ok(())
    }

    /// Does what the next byte does. Errors: a mistake at this byte, and `NoMemory`.
    fn step(&mut self, alloc: Global, byte: u8) -> Result<(), Failure<Mistake>>
        ensures ok { OnOk result (step self.old byte ≡ Ok self.new) }
        ensures err { IfErr result (λ failure. Fails failure (step self.old byte)) }
    {
        match action_of(self.mode, byte) {
            Ok(action) => self.apply(alloc, action),
            Err(mistake) => Err(Failure::Fault(mistake)),
        }
    }

    /// Ends the line. Errors: a mistake at its end, and `NoMemory`.
    fn end(&mut self, alloc: Global) -> Result<(), Failure<Mistake>>
        ensures ok { OnOk result (ended self.old ≡ Ok self.new) }
        ensures err { IfErr result (λ failure. Fails failure (ended self.old)) }
    {
        match self.mode {
            Mode::InWord => self.apply(alloc, Action::Close(false, Mode::Between)),
            Mode::InQuotes | Mode::InEscape => Err(Failure::Fault(Mistake::OpenQuotes)),
            _ => Ok(()),
        }
    }
}

/// The failure at the index of a byte.
fn placed(at: usize, failure: Failure<Mistake>) -> Failure<LineFault>
    ensures { result ≡ placed_failure at failure }
{
    match failure {
        Failure::NoMemory => Failure::NoMemory,
        Failure::Fault(mistake) => Failure::Fault(LineFault { at, mistake }),
    }
}

/// The line after all its bytes.
fn scanned(alloc: Global, line: &[u8]) -> Result<Scan, Failure<LineFault>>
    ensures { Gives (λ scan. scan) result (scan_from 0 start line.now) }
{
    let mut scan = Scan::start(alloc);
    for (at, byte) in line.iter().enumerate() {
        if let Err(failure) = scan.step(alloc, *byte) {
            return Err(placed(at, failure));
        }
    }
    match scan.end(alloc) {
        Ok(()) => Ok(scan),
        Err(failure) => Err(placed(line.len(), failure)),
    }
}

/// The words of a line.
#[tactic(auto, unfolding(crate::specs::Words::words_of))]
fn read_line(alloc: Global, line: &[u8]) -> Result<Seq<Word>, Failure<LineFault>>
    ensures { Gives (λ words. words) result (words_of line.now) }
{
    let Scan { words, .. } = scanned(alloc, line)?;
    Ok(words)
}

/// The words of a line: those without quotes, of visible ASCII, and those between quotes, with escapes after
/// a backslash. White space stands between them, and a comment from `;` to the end may follow. The rules are
/// our decision.
///
/// What is read is in the grammar, and what is in the grammar is read. Errors: the first mistake from the
/// left, at the index of its byte, and `NoMemory`.
pub fn words_of(alloc: Global, line: &[u8]) -> Result<Seq<Word>, Failure<LineFault>>
    ensures exact { Gives (λ words. words) result (words_of line.now) }
    ensures grammar { IfOk result (IsText line.now) }
    ensures only { (words : List TheWord) → IsText line.now words → Gives (λ words. words) result (Ok words) }
{
    read_line(alloc, line)
}
