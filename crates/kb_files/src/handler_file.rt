//! The handlers of an extension, read from the bytes of its `handlers.json`.
ghost use Rattle.kb_base.specs.Failure.{Gives};
ghost use Rattle.kb_files.specs.HandlerFile.{handlers_in};

use crate::failures::handlers_failure;
use crate::value::read_value;
use kb_base::{Failure, Refusal, Seq};
use kb_code::Handler;
use kb_handler_file::HandlerFile;
use std::alloc::Global;

/// The handlers of a `handlers.json`, in file order: JSON with comments whose value is a file of handlers
/// (`HandlerFile::read` says its format, which is our decision).
///
/// Errors: the first fault of the file, those of its text (1 to 4), then those of its handlers (40 to 44, 50
/// to 53, in the order that `HandlerFile::read` says), as 41 of a blank text, which reads as the empty list;
/// or `NoMemory`.
pub fn read_handlers(alloc: Global, bytes: &[u8]) -> Result<Seq<Handler>, Failure<Refusal>>
    ensures { Gives (λ handlers. handlers) result (handlers_in bytes.now) }
{
    let value = read_value(alloc, bytes)?;
    HandlerFile::read(alloc, value).map_err(handlers_failure)
}
