//! Events that a session handles, and its answers.
use kb_base::{Refusal, Seq, Text};
use kb_context::ContextValue;
use kb_keys::Keystroke;

/// An event for a session.
#[derive(Debug, Drop)]
pub enum Event {
    /// A key is pressed, with the modifiers that are held.
    Key(Keystroke),
    /// The scope with this name gets the focus.
    Focus(Text),
    /// In the scope with the first name, the context key with the second name gets a value.
    SetKey(Text, Text, ContextValue),
    /// In the scope with the first name, the context key with the second name is removed.
    UnsetKey(Text, Text),
    /// The palette lists the commands that this query finds.
    Palette(Text),
    /// The entry with this number, counted from 1, is chosen in the list of the last palette.
    Choose(u32),
    /// The extension with this identifier is enabled. ASCII letter case doesn't matter (our decision).
    Enable(Text),
    /// The extension with this identifier is disabled.
    Disable(Text),
    /// The extension with this identifier gets the handlers of these bytes, those of a `handlers.json`.
    Update(Text, Seq<u8>),
    /// A line of a script that cannot be parsed, by its number, counted from 1.
    Unread(u64),
    /// A script registers a closure for a native command of which the host has none left. The trace gets
    /// the refusal 98, and nothing else changes (our decision).
    NoClosure,
}

/// The answer to an event.
#[derive(Debug, Drop)]
pub enum Answer {
    /// The event was handled. The trace has its lines.
    Did,
    /// The event was refused. Only the trace changed: it has the line of the refusal.
    Refused(Refusal),
}
