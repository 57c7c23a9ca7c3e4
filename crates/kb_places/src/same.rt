//! Whether two values are the same.
ghost use Rattle.std.specs.Prelude.{◌≡◌, ◌≤◌, IfOk, IsTrue};
ghost use Rattle.serde_json.specs.Data.{depth as nesting};
ghost use Rattle.serde_json.specs.Read.{max_depth};
ghost use Rattle.serde_json.specs.View.{view};

use kb_base::NoMemory;
use serde_json::Value;
use std::alloc::Global;

/// Whether two values are written in the same way. Both are then the value that this text is.
#[tactic(auto, using(crate::proofs::PlaceLemmas::read_alike))]
pub fn same_value(alloc: Global, one: &Value, other: &Value) -> Result<bool, NoMemory>
    requires one { nesting (view one.now) ≤ max_depth }
    requires other { nesting (view other.now) ≤ max_depth }
    ensures { IfOk result (λ same. IsTrue same → view one.now ≡ view other.now) }
{
    let one = one.to_string(alloc)?;
    let other = other.to_string(alloc)?;
    Ok(one.as_str() == other.as_str())
}
