//! Handler files.
ghost use Rattle.std.specs.Prelude.{◌≡◌, ◌≤◌, Result, Some, option_map, IfErr, IfOk, IsOk};
ghost use Rattle.std.specs.Result.{result_err};
ghost use Rattle.serde_json.specs.View.{view, items_view, members_view};
ghost use Rattle.kb_base.specs.declared.failure.Failure.TheVariants.{NoMemory};
ghost use Rattle.kb_base.specs.Failure.{Gives, IsFaultAnd};
ghost use Rattle.kb_base.specs.Reading.{seen};
ghost use Rattle.kb_code.specs.declared.code.Code.{Code};
ghost use Rattle.kb_jsonc.specs.Mismatch.{FailsFor, GivesOr, faulted};
ghost use Rattle.kb_jsonc.specs.Mismatch.{fault_at as shape_at};
ghost use Rattle.kb_jsonc.specs.Parts.{listed};
ghost use Rattle.kb_handler_file.specs.Fault.{fault_at, fault_of};
ghost use Rattle.kb_handler_file.specs.declared.fault.HandlersFault.{HandlersFault};
ghost use Rattle.kb_handler_file.specs.HandlerFile.{head_of, list_in, list_of, handlers_of, version_of};
ghost use Rattle.kb_handler_file.specs.Head.{parts_of};
ghost use Rattle.kb_handler_file.specs.HandlerFile.{each_read, code_within, handler_by, handler_in};
ghost use Rattle.kb_handler_file.specs.HandlerFile.{handler_of};

use crate::code::read_code;
use crate::entry::{Declared, Entry, Written, in_handler, read_entry, required_whole};
use crate::fault::{HandlersExpected, HandlersFault, fault_at, shaped};
use crate::limits::{few_texts, signature_of};
use crate::names::first_repeated;
use kb_base::{Failure, NoMemory, Seq, Text};
use kb_code::{Code, Handler, Version};
use kb_core::Signature;
use kb_jsonc::{Expected, Mismatch, Place, elements_in, members_in, take_member};
use serde_json::{Map, Value};
use std::alloc::{AllocError, Global};

/// The maximum number of handlers in a file.
const HANDLER_LIMIT: usize = 1_000;

/// A handler file (`handlers.json`) contains the code of an extension's commands. The format and its
/// limits are our decision.
#[derive(Clone, Copy, Debug)]
pub struct HandlerFile;

impl HandlerFile {
    /// Reads the handlers of a file, in order. For example:
    ///
    /// ```json
    /// {"version": 1, "handlers": [{"command": "x.hi", "params": [{"name": "t", "kind": "text"}],
    ///   "budget": 1004, "depth": 1, "texts": ["hi"], "calls": ["type"], "code": "010000300000000000"}]}
    /// ```
    ///
    /// Version 2 has repeated blocks. `params`, `texts` and `calls` are optional and default to empty lists.
    /// `code` is hexadecimal text. Other members are ignored. Texts are moved out of the value.
    ///
    /// Errors, in this order:
    ///
    /// 1. For the file, decided without allocating: `Shape` if the value is not an object, `version` is not
    ///    1 or 2, or `handlers` is not a list (40 for a missing member, otherwise 41). Then `TooLarge` (44)
    ///    for more than 1,000 handlers.
    /// 2. For the first invalid handler: `Shape` (41) if it is not an object; `Shape` (40, 41) for a member,
    ///    in the order above; `TooLarge` for more than 8 parameters, a budget outside 1 to 1,000,000,000, a
    ///    depth outside 1 to 64, more than 1,000 texts or more than 1,000 calls; `BadHex` (42); `Code` (50)
    ///    for a bad length; `TooLarge` for more than 10,000 instructions; `Code` (51, 52, and then 53).
    /// 3. `DuplicateHandler` (43) if two handlers have the same command.
    ///
    /// `NoMemory` at any point after the first step.
    pub fn read(alloc: Global, value: Value) -> Result<Seq<Handler>, Failure<HandlersFault>>
        ensures handlers { Gives (λ handlers. handlers) result (handlers_of (view value)) }
        ensures memory { IfErr result (λ failure. failure ≡ NoMemory → IsOk (head_of (view value))) }
    {
        match read_file(alloc, value) {
            Ok(handlers) => Ok(handlers),
            Err(failure) => Err(failure.map_fault(fault_at)),
        }
    }

    /// The first place where a value isn't what a handler file has there, or `None` where `read` gives its
    /// handlers. Its fault is that of `read`. Error: `NoMemory`.
    pub fn mismatch(
        alloc: Global,
        value: Value,
    ) -> Result<Option<Mismatch<'static, HandlersExpected>>, NoMemory>
        ensures { IfOk result (λ found. option_map fault_at found ≡ result_err (handlers_of (view value))) }
    {
        match read_file(alloc, value) {
            Ok(_handlers) => Ok(None),
            Err(failure) => found_in(failure),
        }
    }
}

/// The mismatch for which a file wasn't read. Error: `NoMemory`, if that is why.
fn found_in(
    failure: Failure<Mismatch<'static, HandlersExpected>>,
) -> Result<Option<Mismatch<'static, HandlersExpected>>, NoMemory>
    ensures { IfOk result (λ found. IsFaultAnd failure.entry (λ m. found ≡ Some m)) }
{
    match failure {
        Failure::Fault(found) => Ok(Some(found)),
        Failure::NoMemory => Err(AllocError),
    }
}

/// The handlers of a file, in order. Errors: the first mismatch, as for `HandlerFile::read`, or `NoMemory`.
fn read_file(
    alloc: Global,
    value: Value,
) -> Result<Seq<Handler>, Failure<Mismatch<'static, HandlersExpected>>>
    ensures handlers { GivesOr fault_at (λ handlers. handlers) result (handlers_of (view value)) }
    ensures memory { IfErr result (λ failure. failure ≡ NoMemory → IsOk (head_of (view value))) }
{
    let Head { version, elements } = read_head(value)?;
    let handlers = read_handlers(alloc, elements, version)?;
    if let Some(handler) = first_repeated(alloc, handlers.as_slice())? {
        return Err(Failure::Fault(Mismatch {
            place: in_handler(handler, "command"),
            expected: HandlersExpected::NewCommand,
        }));
    }
    Ok(handlers)
}

/// The version of a file, and the elements of its list of handlers.
#[derive(Drop)]
struct Head {
    version: Version,
    elements: Vec<Value>,
}

/// The version and the list of handlers. Errors: the mismatch, `Shape` or `AtMost`.
#[tactic(auto, using(kb_jsonc::proofs::PartsLemmas::as_many))]
fn read_head(value: Value) -> Result<Head, Mismatch<'static, HandlersExpected>>
    ensures { seen parts_of (faulted fault_at result) ≡ head_of (view value) }
{
    let head = read_list(value).map_err(shaped)?;
    if head.elements.len() > HANDLER_LIMIT {
        return Err(Mismatch {
            place: Place::in_file("handlers"),
            expected: HandlersExpected::AtMost(HANDLER_LIMIT),
        });
    }
    Ok(head)
}

/// The version and the list of handlers, without the limit. Errors: the first mismatch.
#[tactic(auto, unfolding(crate::specs::HandlerFile::list_of))]
fn read_list(value: Value) -> Result<Head, Mismatch<'static, Expected>>
    ensures { seen parts_of (faulted shape_at result) ≡ list_of (view value) }
{
    let mut members = members_in(value).ok_or(Mismatch {
        place: Place::in_file(""),
        expected: Expected::Object,
    })?;
    list_in(&mut members)
}

/// Takes the version and the list of handlers out of the members of a file. Errors: the first mismatch.
fn list_in(members: &mut Map<String, Value>) -> Result<Head, Mismatch<'static, Expected>>
    ensures { seen parts_of (faulted shape_at result) ≡ list_in (members_view members.old.entries) }
{
    let number = required_whole(take_member(members, "version"), Place::in_file("version"))?;
    let version = version_of(number).ok_or(Mismatch {
        place: Place::in_file("version"),
        expected: Expected::Known,
    })?;
    let handlers = take_member(members, "handlers").ok_or(Mismatch {
        place: Place::in_file("handlers"),
        expected: Expected::Present,
    })?;
    let elements = elements_in(handlers).ok_or(Mismatch {
        place: Place::in_file("handlers"),
        expected: Expected::List,
    })?;
    Ok(Head { version, elements })
}

/// The version that a number is.
fn version_of(number: i64) -> Option<Version>
    ensures { result ≡ version_of number }
{
    match number {
        1 => Some(Version::One),
        2 => Some(Version::Two),
        _ => None,
    }
}

/// Reads all handlers. Errors: the fault of the first invalid one, or `NoMemory`.
fn read_handlers(
    alloc: Global,
    elements: Vec<Value>,
    version: Version,
) -> Result<Seq<Handler>, Failure<Mismatch<'static, HandlersExpected>>>
    ensures { GivesOr fault_at (λ handlers. handlers) result
        (each_read (handler_of version) (listed (items_view elements.items))) }
{
    let mut handlers = Seq::new(alloc);
    for element in elements {
        let handler = read_handler(alloc, element, version, handlers.len())?;
        handlers.push(handler)?;
    }
    Ok(handlers)
}

/// Reads a handler. Errors: as for `HandlerFile::read`, or `NoMemory`.
fn read_handler(
    alloc: Global,
    element: Value,
    version: Version,
    handler: usize,
) -> Result<Handler, Failure<Mismatch<'static, HandlersExpected>>>
    ensures { GivesOr fault_at (λ handler. handler) result (handler_of version (view element)) }
{
    let entry = read_entry(alloc, element, handler).map_err(|failure| failure.map_fault(shaped))?;
    handler_in(alloc, entry, version, handler)
}

/// Makes a handler from its members. Errors: `TooLarge`, `BadHex`, `Code` and `NoMemory`.
#[tactic(auto, unfolding(crate::specs::HandlerFile::handler_in))]
fn handler_in(
    alloc: Global,
    entry: Entry,
    version: Version,
    handler: usize,
) -> Result<Handler, Failure<Mismatch<'static, HandlersExpected>>>
    ensures { GivesOr fault_at (λ handler. handler) result (handler_in version entry) }
{
    let Entry { declared, written } = entry;
    let Declared {
        command,
        params,
        budget,
        depth,
    } = declared;
    let signature = signature_of(params, budget, depth, handler)?;
    handler_by(alloc, command, signature, written, version, handler)
}

/// Makes a handler with this command and signature. Errors: as for `code_within`.
fn handler_by(
    alloc: Global,
    command: Text,
    signature: Signature,
    written: Written,
    version: Version,
    handler: usize,
) -> Result<Handler, Failure<Mismatch<'static, HandlersExpected>>>
    requires depth { 1 ≤ signature.depth }
    ensures { GivesOr fault_at (λ handler. handler) result (handler_by version command signature written) }
{
    let code = code_within(alloc, &written, version, handler)?;
    Ok(Handler::new(command, signature, written.texts, written.calls, code))
}

/// Decodes the code, after checking the number of texts and calls. Errors: `TooLarge`, `BadHex`, `Code`
/// and `NoMemory`.
fn code_within(
    alloc: Global,
    written: &Written,
    version: Version,
    handler: usize,
) -> Result<Code, Failure<Mismatch<'static, HandlersExpected>>>
    ensures { GivesOr fault_at (λ code. code) result (code_within version written.now) }
{
    few_texts(&written.texts, in_handler(handler, "texts"))?;
    few_texts(&written.calls, in_handler(handler, "calls"))?;
    match read_code(alloc, written.code.as_str(), version) {
        Ok(code) => Ok(code),
        Err(failure) => Err(failed_at(failure, in_handler(handler, "code"))),
    }
}

/// A failure to read the code at this place.
fn failed_at(
    failure: Failure<HandlersExpected>,
    place: Place<'static>,
) -> Failure<Mismatch<'static, HandlersExpected>>
    ensures { (meant : Result Code HandlersFault) → FailsFor fault_of failure meant
        → FailsFor fault_at result meant }
{
    match failure {
        Failure::NoMemory => Failure::NoMemory,
        Failure::Fault(expected) => Failure::Fault(Mismatch { place, expected }),
    }
}
