//! A list of lines, stored as one text.
ghost use Rattle.std.specs.Prelude.{◌≡◌, ◌≤◌, [], ◌∷◌, ◌++◌, length, take, drop, OnOk, OnErr, option_map};
ghost use Rattle.std.specs.Prelude.{◌<◌, ◌-◌, string_bytes, slice_get};
ghost use Rattle.std.specs.List.{All};
ghost use Rattle.std.specs.Str.{IsUtf8};
ghost use Rattle.kb_stream.specs.Writing.{text_of_lines};

use kb_base::NoMemory;
use std::alloc::Global;
use std::marker::Model;
use std::{mem, str};

/// A list of lines that grows at its end. The lines are stored as one text, each followed by a line feed,
/// so that many lines can be written at once. Contracts see the list of the lines.
///
/// The caller first writes a line into a text of its own (`begin_line`) and then adds it (`push`). That
/// text reuses the memory of the line before it. If memory runs out, the list stays as it was.
#[derive(Drop)]
pub struct Lines {
    text: Vec<u8>,
    ends: Vec<usize>,
    spare: String,
    alloc: Global,
}

impl Model for Lines {
    ghost use Rattle.std.specs.Prelude.{ℕ, List};
    ghost use Rattle.kb_stream.specs.Lines.{cut_at, AreLines};

    ghost Value = { List (List ℕ) };

    ghost view = { λ l. cut_at 0 l.ends.items l.text.items };

    ghost invariant = { λ l. AreLines l.text.items l.ends.items };
}

impl Lines {
    /// An empty list.
    pub fn new(alloc: Global) -> Lines
        ensures { result ≡ [] }
    {
        Lines {
            text: Vec::new(alloc),
            ends: Vec::new(alloc),
            spare: String::new(alloc),
            alloc,
        }
    }

    /// The number of lines.
    pub fn len(&self) -> usize
        ensures { result ≡ length self.now }
    {
        self.ends.len()
    }

    /// The line at an index, counted from 0, or `None` after the last line.
    pub fn get(&self, place: usize) -> Option<&str>
        ensures { option_map (λ line. line.now) result ≡ slice_get self.now place }
    {
        if place >= self.len() {
            return None;
        }
        let line = line_between(self.text(), self.start_of(place), self.start_of(place + 1));
        match str::from_utf8(line) {
            Ok(line) => Some(line),
            Err(_) => unreachable!(),
        }
    }

    /// The text of the lines from index `place` on, each followed by a line feed.
    pub fn text_from(&self, place: usize) -> &[u8]
        requires { place ≤ length self.now }
        ensures { result.now ≡ text_of_lines (drop place self.now) }
    {
        let start = self.start_of(place);
        &self.text()[start..]
    }

    /// The text of all lines.
    fn text(&self) -> &[u8]
        ensures text { result.now ≡ text_of_lines self.now }
        ensures utf8 { All IsUtf8 self.now }
    {
        self.text.as_slice()
    }

    /// The byte offset in the text where the line at index `place` begins. For `place` equal to `len`, the
    /// length of the text.
    fn start_of(&self, place: usize) -> usize
        requires { place ≤ length self.now }
        ensures start { result ≡ length (text_of_lines (take place self.now)) }
        ensures within { result ≤ length (text_of_lines self.now) }
    {
        if place == 0 {
            return 0;
        }
        self.ends[place - 1]
    }

    /// An empty text for the next line. Write the line into it and pass it to `push`.
    pub fn begin_line(&mut self) -> String
        ensures empty { string_bytes result ≡ [] }
        ensures same { self.new ≡ self.old }
    {
        let mut line = mem::replace(&mut self.spare, String::new(self.alloc));
        line.clear();
        line
    }

    /// Adds a line at the end. Error: `NoMemory`; the lines are then unchanged.
    pub fn push(&mut self, line: String) -> Result<(), NoMemory>
        ensures ok { OnOk result (self.new ≡ self.old ++ string_bytes line ∷ []) }
        ensures err { OnErr result (self.new ≡ self.old) }
    {
        append(&mut self.text, &mut self.ends, line.as_str())?;
        self.spare = line;
        Ok(())
    }

    /// Adds copies of all lines of `more` at the end. Error: `NoMemory`; the lines are then unchanged.
    pub fn append(&mut self, more: &Lines) -> Result<(), NoMemory>
        ensures ok { OnOk result (self.new ≡ self.old ++ more.now) }
        ensures err { OnErr result (self.new ≡ self.old) }
    {
        let mark = self.len();
        for place in 0..more.len() {
            let line = more.get(place).unwrap();
            match self.push_copy(line) {
                Ok(()) => {}
                Err(refused) => {
                    self.truncate(mark);
                    return Err(refused);
                }
            }
        }
        Ok(())
    }

    /// Adds a copy of a line at the end. Error: `NoMemory`; the lines are then unchanged.
    fn push_copy(&mut self, line: &str) -> Result<(), NoMemory>
        ensures ok { OnOk result (self.new ≡ self.old ++ line.now ∷ []) }
        ensures err { OnErr result (self.new ≡ self.old) }
    {
        append(&mut self.text, &mut self.ends, line)?;
        Ok(())
    }

    /// Keeps the first `len` lines and removes the others.
    pub fn truncate(&mut self, len: usize)
        ensures { self.new ≡ take len self.old }
    {
        if len < self.ends.len() {
            let end = self.start_of(len);
            self.text.truncate(end);
            self.ends.truncate(len);
        }
    }
}

/// The line that begins at byte `start` of a text, without its line feed. The line after it begins at
/// `next`.
fn line_between(text: &[u8], start: usize, next: usize) -> &[u8]
    requires some { start < next }
    requires within { next ≤ length text.now }
    ensures { result.now ≡ take (next - 1 - start) (drop start text.now) }
{
    &text[start..next - 1]
}

/// Appends a line and a line feed to a text, and the new length of the text to `ends`.
fn append(text: &mut Vec<u8>, ends: &mut Vec<usize>, line: &str) -> Result<(), NoMemory>
    ensures text { OnOk result (text.new.items ≡ (text.old.items ++ line.now) ++ 10 ∷ []) }
    ensures ends { OnOk result (ends.new.items ≡ ends.old.items ++ length text.new.items ∷ []) }
    ensures same_text { OnErr result (text.new.items ≡ text.old.items) }
    ensures same_ends { OnErr result (ends.new.items ≡ ends.old.items) }
{
    text.reserve(line.len() + 1)?;
    ends.reserve(1)?;
    text.extend_from_slice(line.as_bytes()).unwrap();
    text.push(b'\n').unwrap();
    ends.push(text.len()).unwrap();
    Ok(())
}
