//! Texts.
ghost use Rattle.std.specs.Prelude.{◌≡◌, [], ◌++◌, IfOk, OnOk, OnErr, encode_utf8, string_bytes, MatchOption};
ghost use Rattle.kb_base.specs.Text.{without_last, only_last, without_first, only_first};

use crate::memory::NoMemory;
use std::alloc::Global;
use std::marker::Model;

/// A UTF-8 text. Contracts see only its bytes. A `String` also shows its capacity to contracts, so records
/// that contracts compare as a whole use this type.
#[derive(Debug, Drop)]
pub struct Text {
    string: String,
}

impl Model for Text {
    ghost use Rattle.std.specs.Prelude.{ℕ, List, string_bytes};

    ghost Value = { List ℕ };

    ghost view = { λ t. string_bytes t.string };
}

impl Text {
    /// An empty text.
    pub fn new(alloc: Global) -> Text
        ensures { result ≡ [] }
    {
        Text {
            string: String::new(alloc),
        }
    }

    /// Copies a text. Error: `NoMemory`.
    pub fn from_str(alloc: Global, text: &str) -> Result<Text, NoMemory>
        ensures { IfOk result (λ made. made ≡ text.now) }
    {
        Ok(Text {
            string: String::from_str(alloc, text)?,
        })
    }

    /// Converts a string to a text.
    pub fn from_string(string: String) -> Text
        ensures { result ≡ string_bytes string }
    {
        Text { string }
    }

    /// Converts the text to a string.
    pub fn into_string(self) -> String
        ensures { string_bytes result ≡ self }
    {
        let Text { string } = self;
        string
    }

    /// Borrows the text.
    pub fn as_str(&self) -> &str
        ensures { result.now ≡ self.now }
    {
        self.string.as_str()
    }

    /// Copies the text. Error: `NoMemory`.
    pub fn copied(&self) -> Result<Text, NoMemory>
        ensures { IfOk result (λ made. made ≡ self.now) }
    {
        Ok(Text {
            string: self.string.clone()?,
        })
    }

    /// Appends a text. Error: `NoMemory`; the text is then unchanged.
    pub fn push_str(&mut self, text: &str) -> Result<(), NoMemory>
        ensures ok { OnOk result (self.new ≡ self.old ++ text.now) }
        ensures err { OnErr result (self.new ≡ self.old) }
    {
        self.string.push_str(text)?;
        Ok(())
    }

    /// Appends a character. Error: `NoMemory`; the text is then unchanged.
    pub fn push(&mut self, character: char) -> Result<(), NoMemory>
        ensures ok { OnOk result (self.new ≡ self.old ++ encode_utf8 character) }
        ensures err { OnErr result (self.new ≡ self.old) }
    {
        self.string.push(character)?;
        Ok(())
    }

    /// Inserts a character at the start. Error: `NoMemory`; the text is then unchanged.
    pub fn push_front(&mut self, character: char) -> Result<(), NoMemory>
        ensures ok { OnOk result (self.new ≡ encode_utf8 character ++ self.old) }
        ensures err { OnErr result (self.new ≡ self.old) }
    {
        self.string.insert(0, character)?;
        Ok(())
    }

    /// Removes all characters. The text keeps its capacity.
    pub fn clear(&mut self)
        ensures { self.new ≡ [] }
    {
        self.string.clear();
    }

    /// Removes the last character and returns it, or `None` if the text is empty.
    pub fn pop(&mut self) -> Option<char>
        ensures rest { self.new ≡ without_last self.old }
        ensures cases { MatchOption result (only_last self.old ≡ [])
            (λ c. only_last self.old ≡ encode_utf8 c) }
    {
        self.string.pop()
    }

    /// Removes the first character and returns it, or `None` if the text is empty. The others are moved.
    pub fn pop_front(&mut self) -> Option<char>
        ensures rest { self.new ≡ without_first self.old }
        ensures cases { MatchOption result (only_first self.old ≡ [])
            (λ c. only_first self.old ≡ encode_utf8 c) }
    {
        if self.string.is_empty() {
            return None;
        }
        Some(self.string.remove(0))
    }

    /// The last character, or `None` if the text is empty.
    pub fn last(&self) -> Option<char>
        ensures { MatchOption result ((only_last self.now ≡ []) × (without_last self.now ≡ self.now))
            (λ c. only_last self.now ≡ encode_utf8 c) }
    {
        let mut rest = self.string.as_str().chars();
        match rest.next_back() {
            Some(character) => {
                // For the proof alone: it shows that the rest is valid UTF-8.
                let _front = rest.as_str();
                Some(character)
            }
            None => None,
        }
    }

    /// The first character, or `None` if the text is empty.
    pub fn first(&self) -> Option<char>
        ensures { MatchOption result ((only_first self.now ≡ []) × (without_first self.now ≡ self.now))
            (λ c. only_first self.now ≡ encode_utf8 c) }
    {
        let mut rest = self.string.as_str().chars();
        match rest.next() {
            Some(character) => Some(character),
            None => None,
        }
    }
}
