//! The entries of a contribution point, read one by one.
ghost use Rattle.std.specs.Prelude.{◌≡◌, ◌++◌, [], IfOk, OnOk};
ghost use Rattle.serde_json.specs.View.{items_view};
ghost use Rattle.kb_jsonc.specs.Parts.{listed};
ghost use Rattle.kb_manifest.specs.Judged.{each_by, kept_in, AllRight};
ghost use Rattle.kb_when.specs.Placed.{marks_at};

use crate::judged::Judged;
use crate::notes::Notes;
use kb_base::{NoMemory, Origin, Part, Seq};
use serde_json::Value;
use std::alloc::Global;

/// An entry of a contribution point, as it is kept.
pub(crate) trait Entry: Sized + Drop {
    ghost use Rattle.std.specs.Prelude.{◌≡◌, ℕ, List, IfOk};
    ghost use Rattle.serde_json.specs.Data.{Data};
    ghost use Rattle.serde_json.specs.View.{view};
    ghost use Rattle.kb_base.specs.declared.note.UnreadPattern.{UnreadPattern};
    ghost use Rattle.kb_manifest.specs.declared.judged.Judged.{Judged};

    /// The entry at a place, read. The list is of its unread patterns.
    ghost judged: { List UnreadPattern → ℕ → Data → Judged Self };

    /// The unread patterns of an entry are right.
    ghost is_right: { List UnreadPattern → Data → Type 0 };

    /// Reads the entry at a place.
    fn read(alloc: Global, entry: Value, place: usize) -> Result<Judged<Self>, NoMemory>
        ensures read { IfOk result (λ it. it ≡ judged it.unread place (view entry)) }
        ensures right { IfOk result (λ it. is_right it.unread (view entry)) };
}

/// Adds an entry, if one was kept.
fn keep<E: Drop>(entries: &mut Seq<E>, kept: Option<E>) -> Result<(), NoMemory>
    ensures { OnOk result (entries.new ≡ entries.old ++ kept_in kept) }
{
    match kept {
        Some(entry) => entries.push(entry),
        None => Ok(()),
    }
}

/// What is kept of the entries of a part of a manifest, in their order, and the notes of the entries.
pub(crate) fn read_each<E: Entry>(
    alloc: Global,
    entries: Vec<Value>,
    origin: Origin,
    part: Part,
) -> Result<(Seq<E>, Notes), NoMemory>
    ensures read { IfOk result (λ r. r ≡ each_by E.judged (marks_at origin part r.1.unread)
        origin part (listed (items_view entries.items))) }
    ensures right { IfOk result (λ r.
        AllRight E.is_right (marks_at origin part r.1.unread) 0 (listed (items_view entries.items))) }
{
    let mut kept = Seq::new(alloc);
    let mut notes = Notes::new(alloc);
    let mut place = 0;
    for entry in entries {
        let judged = E::read(alloc, entry, place)?;
        keep(&mut kept, judged.kept)?;
        notes.add(origin, part, place, judged.fault, judged.unread)?;
        place += 1;
    }
    Ok((kept, notes))
}
