//! Limits of a handler.
ghost use Rattle.std.specs.Prelude.{◌≡◌, ◌≤◌, IfOk, IfSome};
ghost use Rattle.kb_base.specs.Reading.{guard, or_fault};
ghost use Rattle.kb_jsonc.specs.Mismatch.{faulted};
ghost use Rattle.kb_handler_file.specs.Fault.{fault_at};
ghost use Rattle.kb_handler_file.specs.declared.fault.HandlersFault.TheVariants.{TooLarge};
ghost use Rattle.kb_handler_file.specs.Limits.{are_few, within, signature_of};

use crate::entry::in_handler;
use crate::fault::HandlersExpected;
use kb_base::{Seq, Text};
use kb_core::{Param, Signature};
use kb_jsonc::{Mismatch, Place};

/// The maximum number of parameters.
const PARAM_LIMIT: usize = 8;

/// The maximum number of texts, and of names of commands that the handler calls.
const TEXT_LIMIT: usize = 1_000;

/// The maximum budget: the cost of a run.
const BUDGET_LIMIT: u32 = 1_000_000_000;

/// The maximum depth to which calls may nest.
const DEPTH_LIMIT: u32 = 64;

/// Checks the number of the texts at a place. Error: the mismatch, `AtMost`.
pub(crate) fn few_texts(
    texts: &Seq<Text>,
    place: Place<'static>,
) -> Result<(), Mismatch<'static, HandlersExpected>>
    ensures { faulted fault_at result ≡ guard TooLarge (are_few 1000 texts.now) }
{
    if texts.len() > TEXT_LIMIT {
        return Err(Mismatch {
            place,
            expected: HandlersExpected::AtMost(TEXT_LIMIT),
        });
    }
    Ok(())
}

/// The number, if it is from 1 to `limit`.
fn within(limit: u32, number: i64) -> Option<u32>
    ensures number { result ≡ within limit number }
    ensures some { IfSome result (λ number. 1 ≤ number) }
    ensures limit { IfSome result (λ number. number ≤ limit) }
{
    let number = u32::try_from(number).ok()?;
    if number < 1 || limit < number {
        return None;
    }
    Some(number)
}

/// The signature of the handler at this place of the list. Errors: the mismatch, `AtMost` or `UpTo`, of the
/// first limit that it exceeds.
#[tactic(auto, unfolding(crate::specs::Limits::signature_of))]
pub(crate) fn signature_of(
    params: Seq<Param>,
    budget: i64,
    depth: i64,
    handler: usize,
) -> Result<Signature, Mismatch<'static, HandlersExpected>>
    ensures signature { faulted fault_at result ≡ or_fault TooLarge (signature_of params budget depth) }
    ensures depth { IfOk result (λ signature. 1 ≤ signature.depth) }
{
    if params.len() > PARAM_LIMIT {
        return Err(Mismatch {
            place: in_handler(handler, "params"),
            expected: HandlersExpected::AtMost(PARAM_LIMIT),
        });
    }
    let budget = within(BUDGET_LIMIT, budget).ok_or(Mismatch {
        place: in_handler(handler, "budget"),
        expected: HandlersExpected::UpTo(BUDGET_LIMIT),
    })?;
    let depth = within(DEPTH_LIMIT, depth).ok_or(Mismatch {
        place: in_handler(handler, "depth"),
        expected: HandlersExpected::UpTo(DEPTH_LIMIT),
    })?;
    Ok(Signature::new(params, budget, depth as u8))
}
