//! The text of an open document.
ghost use Rattle.std.specs.Prelude.{◌≡◌, ◌≤◌, ℕ, List, OnOk, OnErr, IfOk, Some, length, slice_get};
ghost use Rattle.kb_documents.specs.Document as words;
ghost use Rattle.kb_documents.specs.Document.{changed, index_of, position_of, spliced};
ghost use Rattle.kb_documents.specs.Lines as lines;
ghost use Rattle.kb_documents.specs.Lines.{IsLineOf};

use crate::encoding::{Encoding, column, fit};
use crate::lines::{first_line, line_starts};
use crate::position::{Position, Range};
use kb_base::NoMemory;
use std::alloc::Global;
use std::marker::Model;

/// The text of an open document. Contracts see its bytes.
#[derive(Drop)]
pub struct Document {
    text: Vec<u8>,
    lines: Vec<usize>,
    alloc: Global,
}

impl Model for Document {
    ghost use Rattle.std.specs.Prelude.{◌≡◌, ℕ, List};
    ghost use Rattle.kb_documents.specs.Lines.{starts};

    ghost Value = { List ℕ };

    ghost view = { λ d. d.text.items };

    ghost invariant = { λ d. d.lines.items ≡ starts d.text.items };
}

/// The number of the line of an index, by the indices at which the lines of a text begin.
fn line_of(starts: &[usize], index: usize) -> usize
    ensures { (text : List ℕ) → starts.now ≡ lines.starts text → index ≤ length text
        → IsLineOf text index result }
{
    starts
        .partition_point(|start| *start <= index)
        .saturating_sub(1)
}

/// The column of an index in the line that begins at another one.
fn column_at(encoding: Encoding, text: &[u8], begin: usize, index: usize) -> usize
    requires begin { begin ≤ index }
    requires index { index ≤ length text.now }
    ensures { result ≡ words.column_at encoding text.now begin index }
{
    column(encoding, first_line(&text[begin..index]))
}

/// The position of an index in a text whose lines begin at these indices.
fn place_of(encoding: Encoding, text: &[u8], starts: &[usize], index: usize) -> Position
    requires index { index ≤ length text.now }
    requires starts { starts.now ≡ lines.starts text.now }
    ensures { result ≡ words.place_of encoding text.now index }
{
    let line = line_of(starts, index);
    Position {
        line,
        character: column_at(encoding, text, starts[line], index),
    }
}

/// The index of a column in the line that begins at an index.
fn index_behind(encoding: Encoding, text: &[u8], begin: usize, character: usize) -> usize
    requires { begin ≤ length text.now }
    ensures index { result ≡ words.index_in encoding text.now character (Some begin) }
    ensures within { result ≤ length text.now }
{
    begin + fit(encoding, first_line(&text[begin..]), character)
}

/// The index at which a line begins, if there is such a line.
fn start_of(starts: &[usize], line: usize) -> Option<usize>
    ensures { result ≡ slice_get starts.now line }
{
    starts.get(line).copied()
}

/// The index of a position in a text whose lines begin at these indices.
#[tactic(auto, using(crate::proofs::LineLemmas::start_within))]
fn index_of(encoding: Encoding, text: &[u8], starts: &[usize], position: Position) -> usize
    requires { starts.now ≡ lines.starts text.now }
    ensures index { result ≡ words.index_of encoding text.now position }
    ensures within { result ≤ length text.now }
{
    match start_of(starts, position.line) {
        Some(begin) => index_behind(encoding, text, begin, position.character),
        None => text.len(),
    }
}

/// A text with another one in place of a part between two indices. Error: `NoMemory`.
fn spliced(
    alloc: Global,
    text: &[u8],
    one: usize,
    other: usize,
    new: &str,
) -> Result<Vec<u8>, NoMemory>
    requires one { one ≤ length text.now }
    requires other { other ≤ length text.now }
    ensures { IfOk result (λ made. made.items ≡ spliced text.now one other new.now) }
{
    let mut made = Vec::from_slice(alloc, &text[..one.min(other)])?;
    made.extend_from_slice(new.as_bytes())?;
    made.extend_from_slice(&text[one.max(other)..])?;
    Ok(made)
}

impl Document {
    /// A document with this text. Error: `NoMemory`.
    pub fn new(alloc: Global, text: &str) -> Result<Document, NoMemory>
        ensures { IfOk result (λ made. made ≡ text.now) }
    {
        let text = Vec::from_slice(alloc, text.as_bytes())?;
        Document::of(alloc, text)
    }

    /// A document with this text. Error: `NoMemory`.
    fn of(alloc: Global, text: Vec<u8>) -> Result<Document, NoMemory>
        ensures { IfOk result (λ made. made ≡ text.items) }
    {
        let lines = line_starts(alloc, text.as_slice())?;
        Ok(Document { text, lines, alloc })
    }

    /// Copies a document. Error: `NoMemory`.
    pub fn copied(&self) -> Result<Document, NoMemory>
        ensures { IfOk result (λ made. made ≡ self.now) }
    {
        let text = Vec::from_slice(self.alloc, self.text())?;
        Document::of(self.alloc, text)
    }

    /// The bytes of the text.
    pub fn text(&self) -> &[u8]
        ensures { result.now ≡ self.now }
    {
        self.text.as_slice()
    }

    /// The position of an index, or of the end of the text where it has none. The column of an index inside a
    /// character counts all of the character in UTF-16.
    pub fn position(&self, encoding: Encoding, index: usize) -> Position
        ensures { result ≡ position_of encoding self.now index }
    {
        let index = index.min(self.text.len());
        place_of(encoding, &self.text, &self.lines, index)
    }

    /// The index of a position. A column behind the end of its line is the line's end, one inside a character
    /// is the character's beginning, and a line behind the last one is the end of the text.
    pub fn index(&self, encoding: Encoding, position: Position) -> usize
        ensures index { result ≡ index_of encoding self.now position }
        ensures within { result ≤ length self.now }
    {
        index_of(encoding, &self.text, &self.lines, position)
    }

    /// Puts a text in place of a range. A range whose end stands before its start is the same part. Error:
    /// `NoMemory`; nothing changed then.
    pub fn change(&mut self, encoding: Encoding, range: Range, text: &str) -> Result<(), NoMemory>
        ensures ok { OnOk result (self.new ≡ changed encoding self.old range text.now) }
        ensures err { OnErr result (self.new ≡ self.old) }
    {
        let one = self.index(encoding, range.start);
        let other = self.index(encoding, range.end);
        let made = spliced(self.alloc, self.text(), one, other, text)?;
        *self = Document::of(self.alloc, made)?;
        Ok(())
    }
}
