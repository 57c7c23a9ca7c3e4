//! What a host reads of an engine.
ghost use Rattle.std.specs.Prelude.{◌≡◌, length, take, drop};
ghost use Rattle.kb_engine.specs.Engine.{after_caret, before_caret, entries_of, entry_text, kind_number};
ghost use Rattle.kb_engine.specs.Engine.{numbered_text, over, part_of, step_command, steps_of, trace_text};
ghost use Rattle.kb_session.specs.Palette.{entry_at};
ghost use Rattle.std.specs.Prelude.{Some};

use crate::engine::Engine;
use crate::part::Part;
use crate::reading::read_over;
use crate::running::Running;
use crate::steps::{last_step, steps_begun};
use crate::taken::{TakenKind, entry_at};
use kb_palette::Entry;

impl Engine {
    /// A text for the host.
    pub fn part(&self, part: Part) -> &[u8]
        ensures { result.now ≡ part_of part self.now }
    {
        match part {
            Part::Trace => trace_text(&self.running),
            Part::Notice => self.notice.as_str().as_bytes(),
            Part::Chord => self.taken.chord.as_str().as_bytes(),
            Part::Command => self.taken.command.as_str().as_bytes(),
            Part::Arguments => self.taken.arguments.as_str().as_bytes(),
            Part::Source => self.taken.source.as_str().as_bytes(),
            Part::Before => before_caret(&self.running),
            Part::After => after_caret(&self.running),
            Part::Step => step_command(&self.running),
            Part::Keys => self.shown.as_str().as_bytes(),
        }
    }

    /// Copies the text with a number (`Part::numbered`) from a place on over a room, as much as fits, and
    /// returns the length of the whole text. A number that stands for no text reads the empty one.
    pub fn read(&self, number: u32, from: usize, into: &mut [u8]) -> usize
        ensures length { result ≡ length (numbered_text number self.now) }
        ensures copied { into.new
            ≡ over (take (length into.old) (drop from (numbered_text number self.now))) into.old }
    {
        match Part::numbered(number) {
            Some(part) => read_over(self.part(part), from, into),
            None => read_over(&[], from, into),
        }
    }

    /// The number of what the last event did, or a press that was looked up would do: 0 if no command starts,
    /// 1 if a chord is open, and 2 if a command starts.
    pub fn kind(&self) -> u32
        ensures { result ≡ kind_number self.now.taken.kind }
    {
        match self.taken.kind {
            TakenKind::Nothing => 0,
            TakenKind::Chord => 1,
            TakenKind::Started => 2,
        }
    }

    /// How many steps of `runCommands` began in the last event. `Part::Step` is the command of the last one.
    pub fn steps(&self) -> usize
        ensures { result ≡ steps_of self.now.running }
    {
        match &self.running {
            Some(running) => steps_begun(running.session().trace()),
            None => 0,
        }
    }

    /// The entries of the last palette, until one of them is chosen; none without one.
    pub fn entries(&self) -> &[Entry]
        ensures { result.now ≡ entries_of self.now.running }
    {
        match &self.running {
            Some(running) => listed(running),
            None => &[],
        }
    }

    /// Copies a text of the entry with this number, counted from 1, of the last palette, as `read` does: its
    /// label for 0, its command for 1. Without such an entry, and for any other number, the text is empty.
    pub fn read_entry(&self, number: u32, part: u32, from: usize, into: &mut [u8]) -> usize
        ensures length { result
            ≡ length (entry_text (entry_at number (Some (entries_of self.now.running))) part) }
        ensures copied { into.new ≡ over (take (length into.old)
            (drop from (entry_text (entry_at number (Some (entries_of self.now.running))) part))) into.old }
    {
        match entry_at(Some(self.entries()), number) {
            Some(entry) => read_over(entry_text(entry, part), from, into),
            None => read_over(&[], from, into),
        }
    }
}

/// A text of an entry: its label for 0, its command for 1, else the empty one.
fn entry_text(entry: &Entry, part: u32) -> &[u8]
    ensures { result.now ≡ entry_text (Some entry.now) part }
{
    match part {
        0 => entry.label.as_str().as_bytes(),
        1 => entry.command.as_str().as_bytes(),
        _ => &[],
    }
}

/// The entries of the last palette of a session, none without one.
fn listed(running: &Running) -> &[Entry]
    ensures { result.now ≡ entries_of (Some running.now) }
{
    match running.listed() {
        Some(entries) => entries,
        None => &[],
    }
}

/// The text of the trace lines of the last event; empty without a session.
fn trace_text(running: &Option<Running>) -> &[u8]
    ensures { result.now ≡ trace_text running.now }
{
    match running {
        Some(running) => running.trace_text(),
        None => &[],
    }
}

/// The command of the last step of `runCommands` that began in the last event; empty without a session.
fn step_command(running: &Option<Running>) -> &[u8]
    ensures { result.now ≡ step_command running.now }
{
    match running {
        Some(running) => last_step(running.session().trace()),
        None => &[],
    }
}

/// The text before the caret; empty without a session.
fn before_caret(running: &Option<Running>) -> &[u8]
    ensures { result.now ≡ before_caret running.now }
{
    match running {
        Some(running) => running.core().buffer().before.as_str().as_bytes(),
        None => &[],
    }
}

/// The text behind the caret; empty without a session.
fn after_caret(running: &Option<Running>) -> &[u8]
    ensures { result.now ≡ after_caret running.now }
{
    match running {
        Some(running) => running.core().buffer().after.as_str().as_bytes(),
        None => &[],
    }
}
