//! What a load reports of single entries of files.
ghost use Rattle.std.specs.Prelude.{◌≡◌};
ghost use Rattle.kb_base.specs.Note.{part_name};

use crate::fault::FaultKind;
use crate::memory::NoMemory;
use crate::text::Text;
use std::fmt;

/// The file that an entry is read from.
#[derive(Clone, Copy, Debug, PartialEq, Eq)]
pub enum Origin {
    /// The default rules.
    Defaults,
    /// The manifest of an extension, by the extension's number in load order, from 0.
    Extension(u32),
    /// The user's rules.
    User,
}

/// The part of a file that holds an entry: a contribution point of VS Code's documentation. Each entry of a
/// file of rules is in `Keybindings`.
#[derive(Clone, Copy, Debug, PartialEq, Eq)]
pub enum Part {
    /// `contributes.commands`.
    Commands,
    /// `contributes.keybindings`.
    Keybindings,
    /// `contributes.menus.commandPalette`.
    Palette,
}

impl Part {
    /// The part's name in messages (our decision).
    pub fn name(self) -> &'static str
        ensures { result.now ≡ part_name self }
    {
        match self {
            Part::Commands => "commands",
            Part::Keybindings => "keybindings",
            Part::Palette => "palette",
        }
    }
}

/// A warning about one entry: the entry is dropped, its clause counts as `false`, or a pattern of its clause
/// isn't supported.
#[derive(Clone, Copy, Debug, PartialEq, Eq)]
pub struct Warning {
    /// The file of the entry.
    pub origin: Origin,
    /// The part of the file that holds the entry.
    pub part: Part,
    /// What is wrong. Of a dropped entry it is the first fault: 10 to 12 for a key text, 30 to 33 for the
    /// clause of a rule, else 40 or 41. It is 30 to 33 for an unreadable clause of a command or of an item
    /// of the palette, and 34 for a clause with an unsupported pattern.
    pub kind: FaultKind,
    /// The place of the entry in its part: the number of entries above it, including dropped ones.
    pub place: usize,
}

/// Shows the line of a load's warning, without a line feed: its number, the name of its source (`defaults`,
/// `user` or an extension's identifier), the part of the file that its entry is in, and the entry's place.
#[derive(Clone, Copy, Debug)]
pub struct WarningLine<'a> {
    /// The name of the source.
    pub source: &'a str,
    /// The warning.
    pub warning: &'a Warning,
}

impl fmt::Display for WarningLine<'_> {
    ghost use Rattle.std.specs.Prelude.{Some};
    ghost use Rattle.kb_base.specs.Note.{warning_line};

    ghost output = { λ line. Some (warning_line line.source.now line.warning.now) };

    fn fmt<W: fmt::Write>(&self, f: &mut fmt::Formatter<W>) -> fmt::Result {
        let number = self.warning.kind.number();
        let source = self.source;
        let part = self.warning.part.name();
        let place = self.warning.place;
        write!(f, "warning {number} {source} {part} {place}")
    }
}

/// A pattern of a clause that `regex` rejects. Such a comparison is always false (our decision).
#[derive(Debug, Drop)]
pub struct UnreadPattern {
    /// Its number among the patterns of the clause, in the order of the text, from 0.
    pub number: usize,
    /// The pattern, without its flags.
    pub pattern: Text,
}

impl UnreadPattern {
    ghost use Rattle.std.specs.Prelude.{◌≡◌, IfOk};

    /// A copy. Error: `NoMemory`.
    pub fn copied(&self) -> Result<UnreadPattern, NoMemory>
        ensures { IfOk result (λ made. made ≡ self.now) }
    {
        Ok(UnreadPattern {
            number: self.number,
            pattern: self.pattern.copied()?,
        })
    }
}

/// An unread pattern, with the entry whose clause has it.
#[derive(Debug, Drop)]
pub struct EntryPattern {
    /// The file of the entry.
    pub origin: Origin,
    /// The part of the file that holds the entry.
    pub part: Part,
    /// The place of the entry in its part: the number of entries above it, including dropped ones.
    pub place: usize,
    /// The pattern.
    pub unread: UnreadPattern,
}
