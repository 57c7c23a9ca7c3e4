//! `keycheck` over files in memory. Each call answers the number of its outcome: 0 if it did what was asked,
//! 2 without an engine, 5 for refused memory, and 6 if bytes aren't UTF-8; after 5 and 6 nothing changed.
ghost use Rattle.std.specs.Prelude.{◌≡◌, length, take, drop};
ghost use Rattle.kb_c.specs.Desk.{AddsWord, Puts, Removes, RunsKeycheck, status_held, written_held};
ghost use Rattle.kb_c.specs.Held.{Answers, OnDesk};
ghost use Rattle.kb_engine.specs.Engine.{over};
ghost use Rattle.kb_engine.specs.Outcome.{outcome_numbered};

use crate::handle::Handle;
use kb_engine::events::text_in;
use kb_engine::{Outcome, read_over};
use kb_hosted_keycheck::Desk;
use std::alloc::Global;

/// Copies a file's bytes to a path, in the place of those before.
fn put_file(desk: &mut Desk, path: &[u8], bytes: &[u8]) -> Outcome
    ensures { Puts path.now bytes.now desk.old result desk.new }
{
    let Some(path) = text_in(path) else {
        return Outcome::NoText;
    };
    match desk.put(path, bytes) {
        Ok(()) => Outcome::Done,
        Err(_) => Outcome::NoMemory,
    }
}

/// Removes the file at a path.
fn remove_file(desk: &mut Desk, path: &[u8]) -> Outcome
    ensures { Removes path.now desk.old result desk.new }
{
    match text_in(path) {
        Some(path) => {
            desk.remove(path);
            Outcome::Done
        }
        None => Outcome::NoText,
    }
}

/// Adds a word to the command line.
fn add_word(desk: &mut Desk, word: &[u8]) -> Outcome
    ensures { AddsWord word.now desk.old result desk.new }
{
    let Some(word) = text_in(word) else {
        return Outcome::NoText;
    };
    match desk.add_word(word) {
        Ok(()) => Outcome::Done,
        Err(_) => Outcome::NoMemory,
    }
}

/// Copies a file's bytes to a path, in the place of those before, for `keycheck`. 6 if the path isn't UTF-8,
/// and 5 for refused memory; nothing changes then.
#[unsafe(no_mangle)]
#[tactic(auto, using(crate::proofs::AnswerLemmas::answering))]
pub extern "C" fn pafjirn_put(alloc: Global, h: &mut Handle, path: &[u8], bytes: &[u8]) -> u32
    ensures { Answers (OnDesk (Puts path.now bytes.now)) h.old.value (outcome_numbered result) h.new.value }
{
    let Some(mut hosted) = h.take(alloc) else {
        return Outcome::Unknown.number();
    };
    let outcome = put_file(&mut hosted.desk, path, bytes);
    h.put(alloc, hosted);
    outcome.number()
}

/// Removes the file at a path, if there is one. 6 if the path isn't UTF-8; nothing changes then.
#[unsafe(no_mangle)]
#[tactic(auto, using(crate::proofs::AnswerLemmas::answering))]
pub extern "C" fn pafjirn_remove(alloc: Global, h: &mut Handle, path: &[u8]) -> u32
    ensures { Answers (OnDesk (Removes path.now)) h.old.value (outcome_numbered result) h.new.value }
{
    let Some(mut hosted) = h.take(alloc) else {
        return Outcome::Unknown.number();
    };
    let outcome = remove_file(&mut hosted.desk, path);
    h.put(alloc, hosted);
    outcome.number()
}

/// Adds a word to the command line of `keycheck`, whose first word is the program's name. 6 if it isn't
/// UTF-8, and 5 for refused memory; nothing changes then.
#[unsafe(no_mangle)]
#[tactic(auto, using(crate::proofs::AnswerLemmas::answering))]
pub extern "C" fn pafjirn_word(alloc: Global, h: &mut Handle, word: &[u8]) -> u32
    ensures { Answers (OnDesk (AddsWord word.now)) h.old.value (outcome_numbered result) h.new.value }
{
    let Some(mut hosted) = h.take(alloc) else {
        return Outcome::Unknown.number();
    };
    let outcome = add_word(&mut hosted.desk, word);
    h.put(alloc, hosted);
    outcome.number()
}

/// Runs `keycheck` by the words of its command line, which are gone then, over the files that were put. The
/// answer is 0 also where memory is refused: then the exit status is 4.
#[unsafe(no_mangle)]
#[tactic(auto, using(crate::proofs::AnswerLemmas::answering))]
pub extern "C" fn pafjirn_keycheck(alloc: Global, h: &mut Handle) -> u32
    ensures { Answers (OnDesk RunsKeycheck) h.old.value (outcome_numbered result) h.new.value }
{
    let Some(mut hosted) = h.take(alloc) else {
        return Outcome::Unknown.number();
    };
    hosted.desk.run();
    h.put(alloc, hosted);
    Outcome::Done.number()
}

/// The exit status of the last run of `keycheck`; 0 before any, and without an engine.
#[unsafe(no_mangle)]
pub extern "C" fn pafjirn_status(alloc: Global, h: &mut Handle) -> u32
    ensures same { h.new.value ≡ h.old.value }
    ensures status { result ≡ status_held h.old.value }
{
    let Some(hosted) = h.take(alloc) else {
        return 0;
    };
    let status = hosted.desk.status();
    h.put(alloc, hosted);
    u32::from(status)
}

/// Copies what the last run of `keycheck` wrote, as `pafjirn_read` does: 0 is standard output, 1 standard
/// error.
#[unsafe(no_mangle)]
pub extern "C" fn pafjirn_written(
    alloc: Global,
    h: &mut Handle,
    stream: u32,
    from: usize,
    into: &mut [u8],
) -> usize
    ensures same { h.new.value ≡ h.old.value }
    ensures length { result ≡ length (written_held stream h.old.value) }
    ensures copied { into.new
        ≡ over (take (length into.old) (drop from (written_held stream h.old.value))) into.old }
{
    let Some(hosted) = h.take(alloc) else {
        return read_over(&[], from, into);
    };
    let length = read_over(hosted.desk.written(stream), from, into);
    h.put(alloc, hosted);
    length
}
