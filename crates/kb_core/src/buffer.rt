//! The text buffer and its caret.
ghost use Rattle.std.specs.Prelude.{◌≡◌, [], ◌++◌, OnOk, OnErr, IfOk};
ghost use Rattle.kb_core.specs.Buffer as buffer;

use kb_base::{NoMemory, Text};
use std::alloc::Global;
use std::mem::swap;

/// The text before the caret and the text after it.
#[derive(Debug, Drop)]
pub struct Buffer {
    pub before: Text,
    pub after: Text,
}

impl Buffer {
    /// An empty buffer.
    pub fn new(alloc: Global) -> Buffer
        ensures { result ≡ buffer.empty }
    {
        Buffer {
            before: Text::new(alloc),
            after: Text::new(alloc),
        }
    }

    /// Inserts a text before the caret. Error: `NoMemory`; the buffer is then unchanged.
    pub fn insert(&mut self, text: &str) -> Result<(), NoMemory>
        ensures ok { OnOk result (self.new ≡ buffer.with_inserted text.now self.old) }
        ensures err { OnErr result (self.new ≡ self.old) }
    {
        self.before.push_str(text)
    }

    /// Deletes the character before the caret, if there is one.
    pub fn delete_left(&mut self)
        ensures { self.new ≡ buffer.without_left self.old }
    {
        self.before.pop();
    }

    /// Deletes the character after the caret, if there is one.
    pub fn delete_right(&mut self)
        ensures { self.new ≡ buffer.without_right self.old }
    {
        self.after.pop_front();
    }

    /// Moves the caret one character to the left, if there is one. Error: `NoMemory`; the buffer is then
    /// unchanged.
    pub fn move_left(&mut self) -> Result<(), NoMemory>
        ensures ok { OnOk result (self.new ≡ buffer.moved_left self.old) }
        ensures err { OnErr result (self.new ≡ self.old) }
    {
        let Some(character) = self.before.last() else {
            return Ok(());
        };
        self.after.push_front(character)?;
        self.before.pop();
        Ok(())
    }

    /// Moves the caret one character to the right, if there is one. Error: `NoMemory`; the buffer is then
    /// unchanged.
    pub fn move_right(&mut self) -> Result<(), NoMemory>
        ensures ok { OnOk result (self.new ≡ buffer.moved_right self.old) }
        ensures err { OnErr result (self.new ≡ self.old) }
    {
        let Some(character) = self.after.first() else {
            return Ok(());
        };
        self.before.push(character)?;
        self.after.pop_front();
        Ok(())
    }

    /// Deletes all text.
    pub fn clear(&mut self)
        ensures { self.new ≡ buffer.empty }
    {
        self.before.clear();
        self.after.clear();
    }

    /// Moves the caret to the start of the text. Error: `NoMemory`; the buffer is then unchanged.
    pub fn move_to_top(&mut self) -> Result<(), NoMemory>
        ensures ok { OnOk result (self.new ≡ buffer.at_top self.old) }
        ensures err { OnErr result (self.new ≡ self.old) }
    {
        self.before.push_str(self.after.as_str())?;
        self.after.clear();
        swap(&mut self.before, &mut self.after);
        Ok(())
    }

    /// Moves the caret to the end of the text. Error: `NoMemory`; the buffer is then unchanged.
    pub fn move_to_bottom(&mut self) -> Result<(), NoMemory>
        ensures ok { OnOk result (self.new ≡ buffer.at_bottom self.old) }
        ensures err { OnErr result (self.new ≡ self.old) }
    {
        self.before.push_str(self.after.as_str())?;
        self.after.clear();
        Ok(())
    }
}
