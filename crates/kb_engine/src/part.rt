//! The texts that a host reads of an engine.
ghost use Rattle.std.specs.Prelude.{◌≡◌};
ghost use Rattle.kb_engine.specs.Part.{part_numbered};

/// A text that a host reads of an engine.
#[derive(Clone, Copy, Debug, PartialEq, Eq)]
pub enum Part {
    /// The trace lines of the last event, each with a line feed behind it.
    Trace,
    /// The warnings of the load, or why it was refused: lines, each with a line feed behind it.
    Notice,
    /// The keystrokes of the last key press behind those of the open chord, in canonical form.
    Chord,
    /// The command of the rule or of the entry that was taken.
    Command,
    /// The arguments of the rule that was taken, as JSON, or nothing.
    Arguments,
    /// The file of the rule that was taken: `defaults`, `user`, or the identifier of an extension.
    Source,
    /// The text before the caret.
    Before,
    /// The text behind the caret.
    After,
    /// The command of the last step of `runCommands` that began in the last event.
    Step,
    /// The keystrokes that were looked up last, in canonical form, each with a line feed behind it.
    Keys,
}

impl Part {
    /// The part that a number stands for, from 0 in the order above, or `None`.
    pub fn numbered(number: u32) -> Option<Part>
        ensures { result ≡ part_numbered number }
    {
        match number {
            0 => Some(Part::Trace),
            1 => Some(Part::Notice),
            2 => Some(Part::Chord),
            3 => Some(Part::Command),
            4 => Some(Part::Arguments),
            5 => Some(Part::Source),
            6 => Some(Part::Before),
            7 => Some(Part::After),
            8 => Some(Part::Step),
            9 => Some(Part::Keys),
            _ => None,
        }
    }
}
