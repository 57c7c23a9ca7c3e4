//! What C reads of an engine. No read changes it. Without an engine a text is empty, and a number is 0.
ghost use Rattle.std.specs.Prelude.{◌≡◌, length, take, drop};
ghost use Rattle.kb_c.specs.Held.{entries_held, entry_held, kind_held, place_held, steps_held, text_held};
ghost use Rattle.kb_engine.specs.Engine.{over};

use crate::handle::Handle;
use kb_engine::read_over;
use std::alloc::Global;

/// Copies a text from a place on, as much as there is room for, and returns the length of the whole text: 0
/// is the trace of the last event, 1 the notice of the load, 2 to 5 what the last event took (the keystrokes
/// so far, the command, its arguments as JSON, the rule's file), 6 and 7 the text before and behind the
/// caret, 8 the command of the last step of `runCommands` that began.
#[unsafe(no_mangle)]
pub extern "C" fn pafjirn_read(
    alloc: Global,
    h: &mut Handle,
    part: u32,
    from: usize,
    into: &mut [u8],
) -> usize
    ensures same { h.new.value ≡ h.old.value }
    ensures length { result ≡ length (text_held part h.old.value) }
    ensures copied { into.new
        ≡ over (take (length into.old) (drop from (text_held part h.old.value))) into.old }
{
    let Some(hosted) = h.take(alloc) else {
        return read_over(&[], from, into);
    };
    let length = hosted.engine.read(part, from, into);
    h.put(alloc, hosted);
    length
}

/// What the last event did: 0 if no command starts, 1 if a chord is open, 2 if the command of a rule or of an
/// entry starts.
#[unsafe(no_mangle)]
pub extern "C" fn pafjirn_taken(alloc: Global, h: &mut Handle) -> u32
    ensures same { h.new.value ≡ h.old.value }
    ensures kind { result ≡ kind_held h.old.value }
{
    let Some(hosted) = h.take(alloc) else {
        return 0;
    };
    let kind = hosted.engine.kind();
    h.put(alloc, hosted);
    kind
}

/// The place of the rule that the last event took: the number of elements above it in its file.
#[unsafe(no_mangle)]
pub extern "C" fn pafjirn_place(alloc: Global, h: &mut Handle) -> usize
    ensures same { h.new.value ≡ h.old.value }
    ensures place { result ≡ place_held h.old.value }
{
    let Some(hosted) = h.take(alloc) else {
        return 0;
    };
    let place = hosted.engine.taken().place;
    h.put(alloc, hosted);
    place
}

/// How many steps of `runCommands` began in the last event. Text 8 is the command of the last one.
#[unsafe(no_mangle)]
pub extern "C" fn pafjirn_steps(alloc: Global, h: &mut Handle) -> usize
    ensures same { h.new.value ≡ h.old.value }
    ensures steps { result ≡ steps_held h.old.value }
{
    let Some(hosted) = h.take(alloc) else {
        return 0;
    };
    let steps = hosted.engine.steps();
    h.put(alloc, hosted);
    steps
}

/// The number of entries of the last palette.
#[unsafe(no_mangle)]
pub extern "C" fn pafjirn_entries(alloc: Global, h: &mut Handle) -> usize
    ensures same { h.new.value ≡ h.old.value }
    ensures count { result ≡ entries_held h.old.value }
{
    let Some(hosted) = h.take(alloc) else {
        return 0;
    };
    let count = hosted.engine.entries().len();
    h.put(alloc, hosted);
    count
}

/// Copies a text of an entry of the last palette as `pafjirn_read` does: its label for 0, its command for 1.
/// Entries are counted from 1.
#[unsafe(no_mangle)]
pub extern "C" fn pafjirn_entry(
    alloc: Global,
    h: &mut Handle,
    number: u32,
    part: u32,
    from: usize,
    into: &mut [u8],
) -> usize
    ensures same { h.new.value ≡ h.old.value }
    ensures length { result ≡ length (entry_held number part h.old.value) }
    ensures copied { into.new
        ≡ over (take (length into.old) (drop from (entry_held number part h.old.value))) into.old }
{
    let Some(hosted) = h.take(alloc) else {
        return read_over(&[], from, into);
    };
    let length = hosted.engine.read_entry(number, part, from, into);
    h.put(alloc, hosted);
    length
}
