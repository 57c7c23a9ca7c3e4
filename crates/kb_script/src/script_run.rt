//! Runs a script from a reader, and writes the trace lines to a writer.
ghost use Rattle.std.specs.Prelude.{◌≡◌, ◌^◌, ◌<◌, ◌≤◌, ◌+◌, false, OnOk, OnErr, IfOk, IfErr};
ghost use Rattle.std.specs.Prelude.{option_to_list, length, drop, map};
ghost use Rattle.std.specs.Io.KnownBytes.{Appends};
ghost use Rattle.kb_script.specs.Script as script;
ghost use Rattle.kb_script.specs.ScriptRun.{Answers, RunsSaid, BreaksSaid, script_limit};
ghost use Rattle.kb_script.specs.Stream.{Streams, StreamsSaid, StreamBreaks, left_of};
ghost use Rattle.kb_script.specs.declared.script_run.Kept.TheVariants.{Unwritten};
ghost use Rattle.kb_script.specs.Shelf.{beside};
ghost use Rattle.kb_stream.specs.Reading.{ConsumesAtMost};
ghost use Rattle.kb_stream.specs.Writing.{AppendsPart, text_of_lines};

use crate::fault::ScriptFault;
use crate::script::{read_line, split_line};
use crate::shelf::obey;
use kb_base::Failure;
use kb_registry::HostCommand;
use kb_session::Session;
use kb_stream::{ReadFault, WriteRefused, read_within, write_whole};
use std::alloc::Global;
use std::io::{Read, Write};

/// The maximum size of a script, in bytes (our decision).
pub const SCRIPT_LIMIT: usize = 16_777_216;

/// Runs a script line by line, and writes the trace lines that each line adds, each followed by a line
/// feed. The whole script is read before its first line runs. A line that registers a closure takes it
/// from the shelf. A disposed closure, and one whose registration is refused, goes to the end of the
/// shelf (our decision). The caller flushes a buffered writer. The session keeps all trace lines.
///
/// Errors:
/// - `ReadFailed`, `TooLong` (more than `SCRIPT_LIMIT` bytes) and `Stopped` (the session was already
///   stopped): nothing ran and nothing was written.
/// - `WriteFailed`: the writer has a part of the lines. No line of the script ran after the one whose
///   trace lines could not be written.
/// - `Trapped`: a handler trapped, and the session is stopped. The writer has all trace lines of the
///   script, and the trap's line is the last.
/// - `NoMemory`: the session is stopped. If memory was refused while the script was read, nothing ran and
///   nothing was written. Otherwise the whole script was read, the writer has the trace lines of all lines
///   that ran, and the shelf still has all its closures.
#[tactic(auto, using(crate::proofs::StreamLemmas::whole))]
pub fn run_script<R: Read, W: Write, C: HostCommand>(
    alloc: Global,
    reader: &mut R,
    writer: &mut W,
    session: &mut Session<C>,
    shelf: &mut Vec<C>,
) -> Result<(), Failure<ScriptFault>>
    ensures left { Answers result (R.remaining reader.old) (R.remaining reader.new)
        (beside session.old (map C.stands_for shelf.old.items))
        (beside session.new (map C.stands_for shelf.new.items))
        (W.contents writer.old) (W.contents writer.new) }
    ensures asked { ConsumesAtMost (R.remaining reader.old) (R.remaining reader.new) (script_limit + 1) }
{
    run_either(alloc, reader, writer, session, shelf, Kept::All)
}

/// Runs a script as [`run_script`] does, but the session keeps no trace line that was written, so that its
/// memory doesn't grow with the length of the run. After a script that ran to its end, or in which a handler
/// trapped, the trace is as it was before the script. Otherwise it may also have lines that were not all
/// written.
///
/// Errors: those of [`run_script`].
pub fn stream_script<R: Read, W: Write, C: HostCommand>(
    alloc: Global,
    reader: &mut R,
    writer: &mut W,
    session: &mut Session<C>,
    shelf: &mut Vec<C>,
) -> Result<(), Failure<ScriptFault>>
    ensures left { Streams Unwritten result (R.remaining reader.old) (R.remaining reader.new)
        (beside session.old (map C.stands_for shelf.old.items))
        (beside session.new (map C.stands_for shelf.new.items))
        (W.contents writer.old) (W.contents writer.new) }
    ensures asked { ConsumesAtMost (R.remaining reader.old) (R.remaining reader.new) (script_limit + 1) }
{
    run_either(alloc, reader, writer, session, shelf, Kept::Unwritten)
}

/// The trace lines that a session keeps in a script.
#[derive(Clone, Copy, Debug)]
pub enum Kept {
    /// All lines.
    All,
    /// Only lines that were not all written.
    Unwritten,
}

/// Runs a script, after which the session has all its trace lines, or only those that were not written.
#[tactic(auto, using(crate::proofs::StreamLemmas::refusing))]
fn run_either<R: Read, W: Write, C: HostCommand>(
    alloc: Global,
    reader: &mut R,
    writer: &mut W,
    session: &mut Session<C>,
    shelf: &mut Vec<C>,
    kept: Kept,
) -> Result<(), Failure<ScriptFault>>
    ensures left { Streams kept result (R.remaining reader.old) (R.remaining reader.new)
        (beside session.old (map C.stands_for shelf.old.items))
        (beside session.new (map C.stands_for shelf.new.items))
        (W.contents writer.old) (W.contents writer.new) }
    ensures asked { ConsumesAtMost (R.remaining reader.old) (R.remaining reader.new) (script_limit + 1) }
{
    let script = match read_within(alloc, reader, SCRIPT_LIMIT) {
        Ok(script) => script,
        Err(Failure::Fault(ReadFault::TooLong)) => return Err(Failure::Fault(ScriptFault::TooLong)),
        Err(Failure::Fault(ReadFault::Failed)) => return Err(Failure::Fault(
            ScriptFault::ReadFailed,
        )),
        Err(Failure::NoMemory) => {
            session.stop();
            return Err(Failure::NoMemory);
        }
    };
    if session.is_stopped() {
        return Err(Failure::Fault(ScriptFault::Stopped));
    }
    let trapped = run_lines(alloc, script.as_slice(), writer, session, shelf, kept).map_err(
        |failure| failure.map_fault(|_| ScriptFault::WriteFailed),
    )?;
    if trapped {
        return Err(Failure::Fault(ScriptFault::Trapped));
    }
    Ok(())
}

/// Runs the lines of a script, numbered from 1, up to one in which a handler traps, and returns whether one
/// did.
#[tactic(auto, using(crate::proofs::StreamLemmas::progress))]
fn run_lines<W: Write, C: HostCommand>(
    alloc: Global,
    bytes: &[u8],
    writer: &mut W,
    session: &mut Session<C>,
    shelf: &mut Vec<C>,
    kept: Kept,
) -> Result<bool, Failure<WriteRefused>>
    requires running { session.old.state.stopped ≡ false }
    requires short { length bytes.now < 2 ^ 32 }
    ensures stops { IfOk result (λ trapped. session.new.state.stopped ≡ trapped) }
    ensures ok { OnOk result (StreamsSaid kept (script.said_of bytes.now)
        (beside session.old (map C.stands_for shelf.old.items))
        (beside session.new (map C.stands_for shelf.new.items))
        (W.contents writer.old) (W.contents writer.new)) }
    ensures err { IfErr result (λ failure. StreamBreaks kept failure (script.said_of bytes.now)
        (beside session.old (map C.stands_for shelf.old.items))
        (beside session.new (map C.stands_for shelf.new.items))
        (W.contents writer.old) (W.contents writer.new)) }
{
    let mark = session.trace().len();
    let mut rest = bytes;
    let mut number = 1u64;
    loop {
        let (line, after) = split_line(rest);
        let trapped = run_line(alloc, number, line, writer, session, shelf)?;
        drop_written(kept, mark, session);
        if trapped {
            return Ok(true);
        }
        match after {
            Some(after) => rest = after,
            None => return Ok(false),
        }
        number += 1;
    }
}

/// Runs one line of a script: changes session and shelf, and then writes the trace lines that it added.
/// Returns whether a handler trapped.
#[tactic(auto, using(crate::proofs::ScriptRuns::one_line, crate::proofs::ShelfLemmas::halting))]
fn run_line<W: Write, C: HostCommand>(
    alloc: Global,
    number: u64,
    line: &[u8],
    writer: &mut W,
    session: &mut Session<C>,
    shelf: &mut Vec<C>,
) -> Result<bool, Failure<WriteRefused>>
    requires { session.old.state.stopped ≡ false }
    ensures stops { IfOk result (λ trapped. session.new.state.stopped ≡ trapped) }
    ensures ok { OnOk result (RunsSaid (option_to_list (script.line_said number line.now))
        (beside session.old (map C.stands_for shelf.old.items))
        (beside session.new (map C.stands_for shelf.new.items))
        (W.contents writer.old) (W.contents writer.new)) }
    ensures err { IfErr result (λ failure. BreaksSaid failure
        (option_to_list (script.line_said number line.now))
        (beside session.old (map C.stands_for shelf.old.items))
        (beside session.new (map C.stands_for shelf.new.items))
        (W.contents writer.old) (W.contents writer.new)) }
{
    let before = session.trace().len();
    let Ok(said) = read_line(alloc, number, line) else {
        session.stop();
        return Err(Failure::NoMemory);
    };
    let Ok(ended) = obey(said, session, shelf) else {
        return Err(Failure::NoMemory);
    };
    match write_from(before, writer, session) {
        Ok(()) => Ok(ended.finish.stops()),
        Err(refused) => Err(Failure::Fault(refused)),
    }
}

/// Removes the trace lines from index `mark` on, which were written, unless all are kept.
fn drop_written<C: HostCommand>(kept: Kept, mark: usize, session: &mut Session<C>)
    ensures state { session.new.state ≡ session.old.state }
    ensures trace { session.new.trace ≡ left_of kept mark session.old.trace }
{
    match kept {
        Kept::All => {}
        Kept::Unwritten => session.truncate_trace(mark),
    }
}

/// Writes the trace lines from an index on.
fn write_from<W: Write, C: HostCommand>(
    from: usize,
    writer: &mut W,
    session: &Session<C>,
) -> Result<(), WriteRefused>
    requires { from ≤ length session.now.trace }
    ensures ok { OnOk result (Appends (W.contents writer.old) (W.contents writer.new)
        (text_of_lines (drop from session.now.trace))) }
    ensures err { OnErr result (AppendsPart (W.contents writer.old) (W.contents writer.new)
        (text_of_lines (drop from session.now.trace))) }
{
    write_whole(writer, session.trace().text_from(from))
}
