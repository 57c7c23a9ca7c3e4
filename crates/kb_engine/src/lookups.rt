//! The keys that a host shows before one is pressed, as texts.
ghost use Rattle.std.specs.Prelude.{◌≡◌, IfOk};
ghost use Rattle.kb_engine.specs.Lookups.{continuations_text, keys_text};

use crate::plain::PlainCommand;
use kb_base::{NoMemory, Text};
use kb_keys::write_strokes;
use kb_lookup::{continuations, keys_of};
use kb_session::Session;
use std::alloc::Global;

/// The keystrokes that start a command now, those of the lowest rule first, in canonical form, with a line
/// feed behind each. Error: `NoMemory`.
pub(crate) fn keys_text(
    alloc: Global,
    session: &Session<PlainCommand>,
    command: &str,
) -> Result<Text, NoMemory>
    ensures { IfOk result (λ text. text ≡ keys_text command.now session.now.state) }
{
    let rules = keys_of(alloc, session.bindings(), session.core().scopes(), command)?;
    let mut text = String::new(alloc);
    for rule in &rules {
        write_strokes(rule.chord.as_slice(), &mut text)?;
        text.push('\n')?;
    }
    Ok(Text::from_string(text))
}

/// The keystrokes that go on from those of the open chord, those of the lowest rule first, in canonical form,
/// with a line feed behind each. Error: `NoMemory`.
pub(crate) fn continuations_text(
    alloc: Global,
    session: &Session<PlainCommand>,
) -> Result<Text, NoMemory>
    ensures { IfOk result (λ text. text ≡ continuations_text session.now.state) }
{
    let scopes = session.core().scopes();
    let keys = continuations(alloc, session.bindings(), scopes, session.pressed())?;
    let mut text = String::new(alloc);
    for key in &keys {
        key.write_to(&mut text)?;
        text.push('\n')?;
    }
    Ok(Text::from_string(text))
}
