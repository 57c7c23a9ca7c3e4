//! The commands that a manifest contributes.
ghost use Rattle.std.specs.Prelude.{◌≡◌, IfOk, codes};
ghost use Rattle.serde_json.specs.Find.{get_member};
ghost use Rattle.serde_json.specs.View.{view, items_view, members_view};
ghost use Rattle.kb_jsonc.specs.Parts.{listed};
ghost use Rattle.kb_manifest.specs.Command.{texts_of, texts_in, extras_of, command_of};
ghost use Rattle.kb_manifest.specs.Command.{commands_by, IsRightAt};
ghost use Rattle.kb_manifest.specs.Condition.{IsOptionalRight};
ghost use Rattle.kb_manifest.specs.Judged.{AllRight};
ghost use Rattle.kb_base.specs.declared.note.Part.TheVariants.{Commands};
ghost use Rattle.kb_when.specs.Placed.{marks_at};

use crate::command_table::{CommandTable, Named};
use crate::condition::optional_condition;
use crate::entries::{Entry, read_each};
use crate::judged::Judged;
use crate::notes::Notes;
use kb_base::{NoMemory, Origin, Part, Seq, Text};
use kb_jsonc::{FileFault, members_in, optional_text, required_text, take_member};
use kb_when::SharedClause;
use serde_json::{Map, Value};
use std::alloc::Global;

/// A command that an extension contributes. The members are those of VS Code's documentation of
/// contribution points.
#[derive(Debug, Drop)]
pub struct Command {
    /// Its text in the palette.
    pub title: Text,
    /// The text before the title, if there is one; it may be empty.
    pub category: Option<Text>,
    /// The clause without which no key starts the command, if there is one. One that can't be read
    /// is the clause `false` (our decision).
    pub enablement: Option<SharedClause>,
    /// The place of the entry among the contributed commands: the number of entries above it, including
    /// dropped ones.
    pub place: usize,
}

/// The texts of an entry of `commands`.
#[derive(Drop)]
struct Texts {
    name: Text,
    title: Text,
    category: Option<Text>,
    enablement: Option<Text>,
}

/// The texts of an entry, moved out of it.
#[tactic(auto, unfolding(crate::specs::Command::texts_of))]
fn texts_of(entry: Value) -> Result<Texts, FileFault>
    ensures { result ≡ texts_of (view entry) }
{
    let mut members = members_in(entry).ok_or(FileFault::WrongShape)?;
    texts_in(&mut members)
}

/// The texts of the members of an entry, moved out of them.
fn texts_in(members: &mut Map<String, Value>) -> Result<Texts, FileFault>
    ensures { result ≡ texts_in (members_view members.old.entries) }
{
    let name = required_text(take_member(members, "command"))?;
    let title = required_text(take_member(members, "title"))?;
    let (category, enablement) = extras_in(members)?;
    Ok(Texts {
        name,
        title,
        category,
        enablement,
    })
}

/// The category and the enablement of an entry, moved out of its members.
fn extras_in(members: &mut Map<String, Value>) -> Result<(Option<Text>, Option<Text>), FileFault>
    ensures { result ≡ extras_of (get_member (codes "category") (members_view members.old.entries))
        (get_member (codes "enablement") (members_view members.old.entries)) }
{
    let category = optional_text(take_member(members, "category"))?;
    let enablement = optional_text(take_member(members, "enablement"))?;
    Ok((category, enablement))
}

/// The command of these texts, with the warning of its clause.
fn command_of(alloc: Global, texts: Texts, place: usize) -> Result<Judged<Named>, NoMemory>
    ensures read { IfOk result (λ judged. judged ≡ command_of judged.unread place texts) }
    ensures right { IfOk result (λ judged. IsOptionalRight judged.unread texts.enablement) }
{
    let Texts {
        name,
        title,
        category,
        enablement,
    } = texts;
    let condition = optional_condition(alloc, enablement)?;
    let command = Command {
        title,
        category,
        enablement: condition.clause,
        place,
    };
    Ok(Judged {
        kept: Some(Named { name, command }),
        fault: condition.fault,
        unread: condition.unread,
    })
}

impl Entry for Named {
    ghost use Rattle.kb_manifest.specs.Command.{judged_at, IsRightAt};

    ghost judged = { judged_at };

    ghost is_right = { IsRightAt };

    fn read(alloc: Global, entry: Value, place: usize) -> Result<Judged<Named>, NoMemory> {
        match texts_of(entry) {
            Ok(texts) => command_of(alloc, texts, place),
            Err(fault) => Ok(Judged {
                kept: None,
                fault: Some(fault.kind()),
                unread: Seq::new(alloc),
            }),
        }
    }
}

/// The commands of the entries of a manifest, and the notes of the entries.
pub(crate) fn read_commands(
    alloc: Global,
    entries: Vec<Value>,
    origin: Origin,
) -> Result<(CommandTable, Notes), NoMemory>
    ensures read { IfOk result (λ r.
        r ≡ commands_by origin (marks_at origin Commands r.1.unread) (listed (items_view entries.items))) }
    ensures right { IfOk result (λ r.
        AllRight IsRightAt (marks_at origin Commands r.1.unread) 0 (listed (items_view entries.items))) }
{
    let (kept, notes) = read_each(alloc, entries, origin, Part::Commands)?;
    Ok((CommandTable::from_entries(alloc, kept)?, notes))
}
