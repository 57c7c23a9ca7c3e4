//! Writes the report on the handlers of extensions.
ghost use Rattle.std.specs.Prelude.{◌≡◌, ◌↔◌, All, IfErr, IfOk, IsTrue};
ghost use Rattle.kb_handler_report.specs.Judgement.{AllAccepted, AllOfExtensions, IsJudged, is_accepted};
ghost use Rattle.kb_handler_report.specs.Stop.{IsOfWriting};
ghost use Rattle.kb_verify.specs.Accepted.{IsAccepted};

use crate::callable::callable_of;
use crate::extension::{ExtensionCode, handlers_of};
use crate::judgement::{Judgement, judge};
use crate::objects::{Entry, line_of_handler, line_of_none};
use crate::sentences::sentences;
use crate::stop::Stop;
use kb_base::NoMemory;
use kb_code::Handler;
use kb_report::Form;
use kb_stream::write_whole;
use kb_verify::Callable;
use std::alloc::Global;
use std::io::Write;

/// Verifies each handler of these extensions against the commands that it may call, in load order and in the
/// order of the files, writes the results in a form, and returns whether all handlers are accepted.
///
/// Errors: refused memory, or a write that failed.
pub fn report_extensions<W: Write>(
    alloc: Global,
    extensions: &[ExtensionCode],
    form: Form,
    out: &mut W,
) -> Result<bool, Stop>
    ensures all { IfOk result (λ all. IsTrue all ↔ AllOfExtensions extensions.now) }
    ensures err { IfErr result IsOfWriting }
{
    let mut all = true;
    for extension in extensions {
        let accepted = report_extension(alloc, extensions, extension, form, out)?;
        all = all && accepted;
    }
    Ok(all)
}

/// Writes the results for the handlers of one of these extensions, and returns whether all are accepted.
fn report_extension<W: Write>(
    alloc: Global,
    extensions: &[ExtensionCode],
    own: &ExtensionCode,
    form: Form,
    out: &mut W,
) -> Result<bool, Stop>
    ensures all { IfOk result (λ all. IsTrue all ↔ AllAccepted extensions.now own.now) }
    ensures err { IfErr result IsOfWriting }
{
    say_of_none(alloc, own, form, out)?;
    let callable = callable_of(alloc, extensions, own)?;
    report_handlers(alloc, &callable, own, handlers_of(own), form, out)
}

/// Writes that an extension has no handlers, if it has none.
fn say_of_none<W: Write>(
    alloc: Global,
    own: &ExtensionCode,
    form: Form,
    out: &mut W,
) -> Result<(), Stop>
    ensures { IfErr result IsOfWriting }
{
    let why = match &own.handlers {
        None => "there is no handlers.json",
        Some(handlers) if handlers.len() == 0 => "its handlers.json lists none",
        Some(_) => return Ok(()),
    };
    let said = said_of_none(alloc, own, why, form)?;
    say(said.as_str(), out)
}

/// The line of an extension without handlers, with a line feed.
fn said_of_none(
    alloc: Global,
    own: &ExtensionCode,
    why: &str,
    form: Form,
) -> Result<String, NoMemory> {
    match form {
        Form::Text => {
            let dir = own.dir.as_str();
            format!(in alloc; "{dir}: it has no handlers, since {why}.\n")
        }
        Form::Json => line_of_none(alloc, own, why),
    }
}

/// Writes a text.
fn say<W: Write>(text: &str, out: &mut W) -> Result<(), Stop>
    ensures { IfErr result IsOfWriting }
{
    match write_whole(out, text.as_bytes()) {
        Ok(()) => Ok(()),
        Err(_) => Err(Stop::NotWritten),
    }
}

/// Writes the results for the handlers of an extension, and returns whether all are accepted.
fn report_handlers<W: Write>(
    alloc: Global,
    callable: &Callable,
    own: &ExtensionCode,
    handlers: &[Handler],
    form: Form,
    out: &mut W,
) -> Result<bool, Stop>
    ensures all { IfOk result (λ all. IsTrue all ↔ All (IsAccepted callable.now) handlers.now) }
    ensures err { IfErr result IsOfWriting }
{
    let mut all = true;
    let mut index = 0u64;
    for handler in handlers {
        let entry = Entry { own, index };
        let accepted = report_handler(alloc, callable, entry, handler, form, out)?;
        all = all && accepted;
        index = index.saturating_add(1);
    }
    Ok(all)
}

/// Writes the result for a handler, and returns whether it is accepted.
fn report_handler<W: Write>(
    alloc: Global,
    callable: &Callable,
    entry: Entry<'_>,
    handler: &Handler,
    form: Form,
    out: &mut W,
) -> Result<bool, Stop>
    ensures accepted { IfOk result (λ accepted. IsTrue accepted ↔ IsAccepted callable.now handler.now) }
    ensures err { IfErr result IsOfWriting }
{
    let judgement = judge(alloc, callable, handler)?;
    let said = said_of_handler(alloc, callable, entry, handler, &judgement, form)?;
    say(said.as_str(), out)?;
    Ok(is_accepted(&judgement))
}

/// What is written on the result of the verifier for a handler.
fn said_of_handler(
    alloc: Global,
    callable: &Callable,
    entry: Entry<'_>,
    handler: &Handler,
    judgement: &Judgement,
    form: Form,
) -> Result<String, NoMemory>
    requires { IsJudged callable.now handler.now judgement.now }
{
    match form {
        Form::Text => sentences(alloc, callable, handler, judgement),
        Form::Json => line_of_handler(alloc, callable, entry, handler, judgement),
    }
}

/// Whether the handler is accepted.
fn is_accepted(judgement: &Judgement) -> bool
    ensures { result ≡ is_accepted judgement.now }
{
    matches!(judgement, Judgement::Accepted(_))
}
