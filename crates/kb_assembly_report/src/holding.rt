//! A handler of a text with a budget and a depth.
ghost use Rattle.std.specs.Prelude.{◌≡◌, ◌≤◌, IfErr, IfOk, MatchOption, Some};
ghost use Rattle.kb_base.specs.Failure.{ForFault};
ghost use Rattle.kb_code.specs.Code.{code_fault};
ghost use Rattle.kb_code.specs.declared.version.Version.TheVariants.{Two};
ghost use Rattle.kb_assembly_report.specs.Choice.{IsHoldable, IsWithin, declared_by, handler_with};

use kb_assembly::Draft;
use kb_base::{Failure, NoMemory, Seq, Text};
use kb_code::{Code, CodeFault, Handler, Instr, Version};
use kb_core::{Param, Signature};
use std::alloc::{AllocError, Global};

/// The largest budget.
pub(crate) const BUDGET: u32 = 1_000_000_000;

/// The largest depth.
pub(crate) const DEPTH: u32 = 64;

/// The most parameters.
const PARAMS: usize = 8;

/// The budget and the depth of a handler.
#[derive(Clone, Copy, Debug)]
pub(crate) struct Limits {
    pub(crate) budget: u32,
    pub(crate) depth: u32,
}

/// Copies parameters.
fn params_of(alloc: Global, params: &[Param]) -> Result<Seq<Param>, NoMemory>
    ensures { IfOk result (λ made. made ≡ params.now) }
{
    let mut made = Seq::new(alloc);
    for param in params {
        let name = param.name.copied()?;
        let kind = param.kind;
        made.push(Param { name, kind })?;
    }
    Ok(made)
}

/// Copies texts.
fn texts_of(alloc: Global, texts: &[Text]) -> Result<Seq<Text>, NoMemory>
    ensures { IfOk result (λ made. made ≡ texts.now) }
{
    let mut made = Seq::new(alloc);
    for text in texts {
        made.push(text.copied()?)?;
    }
    Ok(made)
}

/// Copies instructions.
fn instrs_of(alloc: Global, instrs: &[Instr]) -> Result<Seq<Instr>, NoMemory>
    ensures { IfOk result (λ made. made ≡ instrs.now) }
{
    let mut made = Seq::new(alloc);
    for instr in instrs {
        made.push(*instr)?;
    }
    Ok(made)
}

/// The code of a handler. Errors: the fault of its instructions or blocks, and `NoMemory`.
fn code_of(alloc: Global, draft: &Draft) -> Result<Code, Failure<CodeFault>>
    ensures made { IfOk result (λ code. code ≡ draft.now.code) }
    ensures right { IfOk result (λ code. code_fault Two draft.now.code ≡ None) }
    ensures fault { IfErr result
        (λ failure. ForFault failure (λ fault. code_fault Two draft.now.code ≡ Some fault)) }
{
    let instrs = instrs_of(alloc, draft.code.as_slice())?;
    match Code::new(alloc, instrs, Version::Two) {
        Ok(code) => Ok(code),
        Err(failure) => Err(failure),
    }
}

/// What a handler declares with limits, or `None` if it is past those of a file. Error: `NoMemory`.
pub(crate) fn signature_of(
    alloc: Global,
    draft: &Draft,
    limits: Limits,
) -> Result<Option<Signature>, NoMemory>
    ensures { IfOk result (λ made. MatchOption made (IsWithin draft.now limits → ⊥)
        (λ signature. (signature ≡ declared_by draft.now limits) × IsWithin draft.now limits)) }
{
    if draft.params.len() > PARAMS {
        return Ok(None);
    }
    if limits.budget < 1 || BUDGET < limits.budget {
        return Ok(None);
    }
    if limits.depth < 1 || DEPTH < limits.depth {
        return Ok(None);
    }
    let params = params_of(alloc, draft.params.as_slice())?;
    Ok(Some(Signature::new(params, limits.budget, limits.depth as u8)))
}

/// A handler that declares this. Errors: the fault of its instructions or blocks, and `NoMemory`.
fn handler_of(
    alloc: Global,
    draft: &Draft,
    signature: Signature,
) -> Result<Handler, Failure<CodeFault>>
    requires { 1 ≤ signature.depth }
    ensures made { IfOk result (λ handler. handler ≡ handler_with draft.now signature) }
    ensures right { IfOk result (λ handler. code_fault Two draft.now.code ≡ None) }
    ensures fault { IfErr result
        (λ failure. ForFault failure (λ fault. code_fault Two draft.now.code ≡ Some fault)) }
{
    let code = code_of(alloc, draft)?;
    let command = draft.command.copied()?;
    let texts = texts_of(alloc, draft.texts.as_slice())?;
    let calls = texts_of(alloc, draft.calls.as_slice())?;
    Ok(Handler::new(command, signature, texts, calls, code))
}

/// A handler with limits, or `None` if it is past those of a file. Errors: the fault of its instructions or
/// blocks, and `NoMemory`.
pub(crate) fn handler_with(
    alloc: Global,
    draft: &Draft,
    limits: Limits,
) -> Result<Option<Handler>, Failure<CodeFault>>
    ensures made { IfOk result (λ made. MatchOption made (IsWithin draft.now limits → ⊥)
        (λ handler. (handler ≡ handler_with draft.now (declared_by draft.now limits))
        × IsHoldable draft.now limits)) }
    ensures fault { IfErr result
        (λ failure. ForFault failure (λ fault. code_fault Two draft.now.code ≡ Some fault)) }
{
    match signature_of(alloc, draft, limits)? {
        Some(signature) => {
            let handler = handler_of(alloc, draft, signature)?;
            Ok(Some(handler))
        }
        None => Ok(None),
    }
}

/// The same, or `None` too if it has a fault. Error: `NoMemory`.
pub(crate) fn handler_held(
    alloc: Global,
    draft: &Draft,
    limits: Limits,
) -> Result<Option<Handler>, NoMemory>
    ensures { IfOk result (λ made. MatchOption made (IsHoldable draft.now limits → ⊥)
        (λ handler. (handler ≡ handler_with draft.now (declared_by draft.now limits))
        × IsHoldable draft.now limits)) }
{
    match handler_with(alloc, draft, limits) {
        Ok(handler) => Ok(handler),
        Err(Failure::NoMemory) => Err(AllocError),
        Err(Failure::Fault(_)) => Ok(None),
    }
}
