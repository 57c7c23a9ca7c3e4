//! Failures of the layers below, as refusals for their faults.
ghost use Rattle.std.specs.Prelude.{◌≡◌};
ghost use Rattle.kb_context.specs.ScopeFault as scope;
ghost use Rattle.kb_jsonc.specs.Fault as text;
ghost use Rattle.kb_handler_file.specs.Fault as handlers;
ghost use Rattle.kb_jsonc.specs.FileFault as shape;
ghost use Rattle.kb_base.specs.Refusal.{refusing_failure};

use kb_base::{Failure, Refusal};
use kb_context::ScopeFault;
use kb_handler_file::HandlersFault;
use kb_jsonc::{FileFault, JsoncFault};

/// Why a text gave no JSON value.
pub(crate) fn text_failure(failure: Failure<JsoncFault>) -> Failure<Refusal>
    ensures { result ≡ refusing_failure text.kind_of failure }
{
    failure.map_fault(|fault| Refusal::of(fault.kind()))
}

/// Why a JSON value isn't what the file should hold.
pub(crate) fn shape_failure(failure: Failure<FileFault>) -> Failure<Refusal>
    ensures { result ≡ refusing_failure shape.kind_of failure }
{
    failure.map_fault(|fault| Refusal::of(fault.kind()))
}

/// Why a JSON value gave no handlers.
pub(crate) fn handlers_failure(failure: Failure<HandlersFault>) -> Failure<Refusal>
    ensures { result ≡ refusing_failure handlers.kind_of failure }
{
    failure.map_fault(|fault| Refusal::of(fault.kind()))
}

/// Why a layout gave no scopes.
pub(crate) fn scope_failure(failure: Failure<ScopeFault>) -> Failure<Refusal>
    ensures { result ≡ refusing_failure scope.kind_of failure }
{
    failure.map_fault(|fault| Refusal::of(fault.kind()))
}
