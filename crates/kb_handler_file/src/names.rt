//! Finding duplicate names.
ghost use Rattle.std.specs.Prelude.{◌≡◌, map, is_some, IfOk};
ghost use Rattle.kb_handler_file.specs.Names.{repeats, repeats_behind};

use indexmap::IndexSet;
use kb_base::NoMemory;
use kb_code::Handler;
use kb_core::Param;
use std::alloc::Global;

/// An item with a name.
pub(crate) trait Named {
    ghost use Rattle.std.specs.Prelude.{◌≡◌, ℕ, List};

    ghost named: { Self → List ℕ };

    /// The name.
    fn name(&self) -> &str
        ensures { result.now ≡ named self.now };
}

impl Named for Param {
    ghost named = { λ param. param.name };

    fn name(&self) -> &str {
        self.name.as_str()
    }
}

impl Named for Handler {
    ghost named = { λ handler. handler.command };

    fn name(&self) -> &str {
        self.command().as_str()
    }
}

/// The place of the first item with the name of an item before it. Error: `NoMemory`.
#[tactic(auto, using(crate::proofs::NamesLemmas::none_seen))]
pub(crate) fn first_repeated<T: Named>(
    alloc: Global,
    items: &[T],
) -> Result<Option<usize>, NoMemory>
    ensures { IfOk result (λ found. is_some found ≡ repeats (map T.named items.now)) }
{
    let mut seen: IndexSet<&str> = IndexSet::new(alloc);
    repeats_behind(&mut seen, items)
}

/// The place of the first item with a name in `seen`, or with the name of an item before it, if the names in
/// `seen` are all that stand before the items. Error: `NoMemory`.
fn repeats_behind<'a, T: Named>(
    seen: &mut IndexSet<&'a str>,
    items: &'a [T],
) -> Result<Option<usize>, NoMemory>
    ensures { IfOk result (λ found. is_some found ≡ repeats_behind seen.old.keys (map T.named items.now)) }
{
    for item in items {
        if !seen.insert(item.name())? {
            return Ok(Some(seen.len()));
        }
    }
    Ok(None)
}
