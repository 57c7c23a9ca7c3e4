//! The JSON value that the bytes of a file hold.
ghost use Rattle.serde_json.specs.View.{view};
ghost use Rattle.kb_base.specs.Failure.{Gives};
ghost use Rattle.kb_files.specs.Value.{data_of};

use crate::failures::text_failure;
use kb_base::{Failure, Refusal};
use serde_json::Value;
use std::alloc::Global;

/// The JSON value of a file.
pub(crate) fn read_value(alloc: Global, bytes: &[u8]) -> Result<Value, Failure<Refusal>>
    ensures { Gives view result (data_of bytes.now) }
{
    kb_jsonc::read(alloc, bytes).map_err(text_failure)
}
