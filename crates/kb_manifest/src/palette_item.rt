//! The entries of a manifest that control where the palette shows a command.
ghost use Rattle.std.specs.Prelude.{◌≡◌, IfOk};
ghost use Rattle.serde_json.specs.View.{view, items_view, members_view};
ghost use Rattle.kb_manifest.specs.Judged.{AllRight};
ghost use Rattle.kb_jsonc.specs.Parts.{listed};
ghost use Rattle.kb_manifest.specs.PaletteItem.{texts_of, texts_in, said, item_of, items_by};
ghost use Rattle.kb_manifest.specs.PaletteItem.{IsRightAt};
ghost use Rattle.kb_manifest.specs.Condition.{IsOptionalRight};
ghost use Rattle.kb_base.specs.declared.note.Part.TheVariants.{Palette};
ghost use Rattle.kb_when.specs.Placed.{marks_at};

use crate::condition::optional_condition;
use crate::entries::{Entry, read_each};
use crate::judged::Judged;
use crate::notes::Notes;
use kb_base::{NoMemory, Origin, Part, Seq, Text, is_blank_text};
use kb_jsonc::{FileFault, members_in, optional_text, required_text, take_member};
use kb_when::SharedClause;
use serde_json::{Map, Value};
use std::alloc::Global;

/// An entry of `contributes.menus.commandPalette`. The members are those of VS Code's documentation
/// of contribution points.
#[derive(Debug, Drop)]
pub struct PaletteItem {
    /// The identifier of its command, which need not exist.
    pub command: Text,
    /// The clause where the palette shows the command, if there is one: an item without one holds.
    /// One that can't be read is the clause `false`, and a blank one is absent (our decisions).
    pub when: Option<SharedClause>,
    /// The place of the entry among the items: the number of entries above it, including dropped ones.
    pub place: usize,
}

/// The texts of an item.
#[derive(Drop)]
struct ItemTexts {
    command: Text,
    when: Option<Text>,
}

/// A text that isn't blank, if there is one.
fn said(text: Option<Text>) -> Option<Text>
    ensures { result ≡ said text }
{
    match text {
        Some(text) => {
            if is_blank_text(text.as_str()) {
                return None;
            }
            Some(text)
        }
        None => None,
    }
}

/// The texts of an entry, moved out of it.
#[tactic(auto, unfolding(crate::specs::PaletteItem::texts_of))]
fn texts_of(entry: Value) -> Result<ItemTexts, FileFault>
    ensures { result ≡ texts_of (view entry) }
{
    let mut members = members_in(entry).ok_or(FileFault::WrongShape)?;
    texts_in(&mut members)
}

/// The texts of the members of an entry, moved out of them.
fn texts_in(members: &mut Map<String, Value>) -> Result<ItemTexts, FileFault>
    ensures { result ≡ texts_in (members_view members.old.entries) }
{
    let command = required_text(take_member(members, "command"))?;
    let when = optional_text(take_member(members, "when"))?;
    Ok(ItemTexts {
        command,
        when: said(when),
    })
}

/// The item of these texts, with the warning of its clause.
fn item_of(alloc: Global, texts: ItemTexts, place: usize) -> Result<Judged<PaletteItem>, NoMemory>
    ensures read { IfOk result (λ judged. judged ≡ item_of judged.unread place texts) }
    ensures right { IfOk result (λ judged. IsOptionalRight judged.unread texts.when) }
{
    let ItemTexts { command, when } = texts;
    let condition = optional_condition(alloc, when)?;
    let item = PaletteItem {
        command,
        when: condition.clause,
        place,
    };
    Ok(Judged {
        kept: Some(item),
        fault: condition.fault,
        unread: condition.unread,
    })
}

impl Entry for PaletteItem {
    ghost use Rattle.kb_manifest.specs.PaletteItem.{judged_at, IsRightAt};

    ghost judged = { judged_at };

    ghost is_right = { IsRightAt };

    fn read(alloc: Global, entry: Value, place: usize) -> Result<Judged<PaletteItem>, NoMemory> {
        match texts_of(entry) {
            Ok(texts) => item_of(alloc, texts, place),
            Err(fault) => Ok(Judged {
                kept: None,
                fault: Some(fault.kind()),
                unread: Seq::new(alloc),
            }),
        }
    }
}

/// The items of the entries of a manifest, and the notes of the entries.
pub(crate) fn read_items(
    alloc: Global,
    entries: Vec<Value>,
    origin: Origin,
) -> Result<(Seq<PaletteItem>, Notes), NoMemory>
    ensures read { IfOk result (λ r.
        r ≡ items_by origin (marks_at origin Palette r.1.unread) (listed (items_view entries.items))) }
    ensures right { IfOk result (λ r.
        AllRight IsRightAt (marks_at origin Palette r.1.unread) 0 (listed (items_view entries.items))) }
{
    read_each(alloc, entries, origin, Part::Palette)
}
