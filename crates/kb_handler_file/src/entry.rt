//! The members of a handler in a file.
ghost use Rattle.std.specs.Prelude.{◌≡◌, [], None, Some, codes, option_map};
ghost use Rattle.serde_json.specs.Find.{as_str, get_member};
ghost use Rattle.serde_json.specs.View.{view, members_view};
ghost use Rattle.kb_base.specs.Reading.{or_fault};
ghost use Rattle.kb_jsonc.specs.declared.file_fault.FileFault.TheVariants.{WrongShape};
ghost use Rattle.kb_jsonc.specs.Mismatch.{GivesOr, fault_at, faulted, path_of};
ghost use Rattle.kb_jsonc.specs.Parts.{optional, texts_of, word_of};
ghost use Rattle.kb_handler_file.specs.Entry.{required, whole_of, declared_of, written_of, members_of};
ghost use Rattle.kb_handler_file.specs.Entry.{entry_of};

use crate::parameters::read_params;
use kb_base::{Failure, Seq, Text};
use kb_core::Param;
use kb_jsonc::{
    Expected, Mismatch, Place, elements_in, members_in, take_member, text_in, texts_at, word_in,
};
use serde_json::{Map, Value};
use std::alloc::Global;

/// The members `command`, `params`, `budget` and `depth`.
#[derive(Drop)]
pub(crate) struct Declared {
    pub command: Text,
    pub params: Seq<Param>,
    pub budget: i64,
    pub depth: i64,
}

/// The members `texts`, `calls` and `code`.
#[derive(Drop)]
pub(crate) struct Written {
    pub texts: Seq<Text>,
    pub calls: Seq<Text>,
    pub code: Text,
}

/// The members of a handler, before limits are checked and the code is decoded.
#[derive(Drop)]
pub(crate) struct Entry {
    pub declared: Declared,
    pub written: Written,
}

/// A required text that is not empty. Errors: the mismatch at its place, `Present` or `Word`.
fn required_word(
    member: Option<Value>,
    place: Place<'static>,
) -> Result<Text, Mismatch<'static, Expected>>
    ensures { faulted fault_at result ≡ required word_of (option_map view member) }
{
    match member {
        Some(value) => word_in(value).ok_or(Mismatch {
            place,
            expected: Expected::Word,
        }),
        None => Err(Mismatch {
            place,
            expected: Expected::Present,
        }),
    }
}

/// A required text. Errors: the mismatch at its place, `Present` or `Text`.
fn required_text(
    member: Option<Value>,
    place: Place<'static>,
) -> Result<Text, Mismatch<'static, Expected>>
    ensures { faulted fault_at result ≡ required as_str (option_map view member) }
{
    match member {
        Some(value) => text_in(value).ok_or(Mismatch {
            place,
            expected: Expected::Text,
        }),
        None => Err(Mismatch {
            place,
            expected: Expected::Present,
        }),
    }
}

/// A required integer. Errors: the mismatch at its place, `Present` or `Whole`.
pub(crate) fn required_whole(
    member: Option<Value>,
    place: Place<'static>,
) -> Result<i64, Mismatch<'static, Expected>>
    ensures { faulted fault_at result ≡ required whole_of (option_map view member) }
{
    match member {
        Some(value) => value.as_i64().ok_or(Mismatch {
            place,
            expected: Expected::Whole,
        }),
        None => Err(Mismatch {
            place,
            expected: Expected::Present,
        }),
    }
}

/// An optional list of texts; empty if the member is absent. Errors: the mismatch, `List` or `Text`, and
/// `NoMemory`.
fn optional_texts(
    alloc: Global,
    member: Option<Value>,
    place: Place<'static>,
) -> Result<Seq<Text>, Failure<Mismatch<'static, Expected>>>
    ensures { GivesOr fault_at (λ texts. texts) result
        (or_fault WrongShape (optional [] texts_of (option_map view member))) }
{
    match member {
        Some(list) => {
            let elements = elements_in(list).ok_or(Mismatch {
                place,
                expected: Expected::List,
            })?;
            texts_at(alloc, elements, place)
        }
        None => Ok(Seq::new(alloc)),
    }
}

/// A member of the handler at this place of the list, or all of the handler for the empty name.
pub(crate) fn in_handler(handler: usize, member: &'static str) -> Place<'static>
    ensures { path_of result ≡ record {
      list = codes "handlers";
      entry = Some handler;
      member = member.now;
      item = None;
      inner = None;
    } }
{
    Place::in_entry("handlers", handler, member)
}

/// Reads `command`, `params`, `budget` and `depth`, and removes them from the members. The other members
/// are unchanged. Errors: the first mismatch in this order, or `NoMemory`.
fn read_declared(
    alloc: Global,
    members: &mut Map<String, Value>,
    handler: usize,
) -> Result<Declared, Failure<Mismatch<'static, Expected>>>
    ensures declared { GivesOr fault_at (λ declared. declared) result
        (declared_of (members_view members.old.entries)) }
    ensures texts { get_member (codes "texts") (members_view members.new.entries)
        ≡ get_member (codes "texts") (members_view members.old.entries) }
    ensures calls { get_member (codes "calls") (members_view members.new.entries)
        ≡ get_member (codes "calls") (members_view members.old.entries) }
    ensures code { get_member (codes "code") (members_view members.new.entries)
        ≡ get_member (codes "code") (members_view members.old.entries) }
{
    let command = required_word(
        take_member(members, "command"),
        in_handler(handler, "command"),
    )?;
    let params = read_params(
        alloc,
        take_member(members, "params"),
        in_handler(handler, "params"),
    )?;
    let budget = required_whole(
        take_member(members, "budget"),
        in_handler(handler, "budget"),
    )?;
    let depth = required_whole(take_member(members, "depth"), in_handler(handler, "depth"))?;
    Ok(Declared {
        command,
        params,
        budget,
        depth,
    })
}

/// Reads `texts`, `calls` and `code`, and removes them from the members. Errors: the first mismatch in
/// this order, or `NoMemory`.
fn read_written(
    alloc: Global,
    members: &mut Map<String, Value>,
    handler: usize,
) -> Result<Written, Failure<Mismatch<'static, Expected>>>
    ensures { GivesOr fault_at (λ written. written) result (written_of
        (get_member (codes "texts") (members_view members.old.entries))
        (get_member (codes "calls") (members_view members.old.entries))
        (get_member (codes "code") (members_view members.old.entries))) }
{
    let texts = optional_texts(
        alloc,
        take_member(members, "texts"),
        in_handler(handler, "texts"),
    )?;
    let calls = optional_texts(
        alloc,
        take_member(members, "calls"),
        in_handler(handler, "calls"),
    )?;
    let code = required_text(take_member(members, "code"), in_handler(handler, "code"))?;
    Ok(Written { texts, calls, code })
}

/// Reads all members of the handler at this place of the list, and removes them from `members`. Errors: the
/// first mismatch, or `NoMemory`.
fn read_members(
    alloc: Global,
    members: &mut Map<String, Value>,
    handler: usize,
) -> Result<Entry, Failure<Mismatch<'static, Expected>>>
    ensures { GivesOr fault_at (λ entry. entry) result (members_of (members_view members.old.entries)) }
{
    let declared = read_declared(alloc, members, handler)?;
    let written = read_written(alloc, members, handler)?;
    Ok(Entry { declared, written })
}

/// Reads the element at this place of the list of handlers. Errors: `Object` if it is not one, otherwise the
/// first mismatch in the order of the members, or `NoMemory`.
#[tactic(auto, unfolding(crate::specs::Entry::entry_of))]
pub(crate) fn read_entry(
    alloc: Global,
    element: Value,
    handler: usize,
) -> Result<Entry, Failure<Mismatch<'static, Expected>>>
    ensures { GivesOr fault_at (λ entry. entry) result (entry_of (view element)) }
{
    let mut members = members_in(element).ok_or(Mismatch {
        place: in_handler(handler, ""),
        expected: Expected::Object,
    })?;
    read_members(alloc, &mut members, handler)
}
