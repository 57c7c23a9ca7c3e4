//! Reading the parameters of a handler from JSON.
ghost use Rattle.std.specs.Prelude.{◌≡◌, [], option_map};
ghost use Rattle.serde_json.specs.View.{view, items_view, members_view};
ghost use Rattle.kb_base.specs.Reading.{or_fault};
ghost use Rattle.kb_jsonc.specs.declared.file_fault.FileFault.TheVariants.{WrongShape};
ghost use Rattle.kb_jsonc.specs.Mismatch.{GivesOr, fault_at, faulted};
ghost use Rattle.kb_jsonc.specs.Parts.{each, listed, optional};
ghost use Rattle.kb_handler_file.specs.Parameters.{kind_named, kind_of, param_in, param_of, params_of};

use crate::names::first_repeated;
use kb_base::{Failure, Seq};
use kb_core::{Kind, Param};
use kb_jsonc::{Expected, Mismatch, Place, elements_in, members_in, take_member, text_in, word_in};
use serde_json::{Map, Value};
use std::alloc::Global;

/// The kind with this name, or `None`.
fn kind_named(name: &str) -> Option<Kind>
    ensures { result ≡ kind_named name.now }
{
    match name {
        "text" => Some(Kind::Text),
        "number" => Some(Kind::Number),
        "truth" => Some(Kind::Truth),
        "any" => Some(Kind::Any),
        _ => None,
    }
}

/// The kind that a member names, or `None` if it is absent, not a text, or not the name of a kind.
fn read_kind(member: Option<Value>) -> Option<Kind>
    ensures { result ≡ kind_of (option_map view member) }
{
    let name = member.and_then(text_in)?;
    kind_named(name.as_str())
}

/// The parameter with these members: `name`, which is not empty, and `kind`. Errors: the mismatch, `Word` or
/// `Known`, also if a member is absent.
fn param_in(
    members: &mut Map<String, Value>,
    place: Place<'static>,
) -> Result<Param, Mismatch<'static, Expected>>
    ensures { faulted fault_at result ≡ or_fault WrongShape (param_in (members_view members.old.entries)) }
{
    let name = take_member(members, "name")
        .and_then(word_in)
        .ok_or(Mismatch {
            place: place.inner("name"),
            expected: Expected::Word,
        })?;
    let kind = read_kind(take_member(members, "kind")).ok_or(Mismatch {
        place: place.inner("kind"),
        expected: Expected::Known,
    })?;
    Ok(Param { name, kind })
}

/// The parameter for an element. Errors: the mismatch, `Object` if it is not one, or that of a member.
#[tactic(auto, unfolding(crate::specs::Parameters::param_of))]
fn read_param(element: Value, place: Place<'static>) -> Result<Param, Mismatch<'static, Expected>>
    ensures { faulted fault_at result ≡ or_fault WrongShape (param_of (view element)) }
{
    let mut members = members_in(element).ok_or(Mismatch {
        place,
        expected: Expected::Object,
    })?;
    param_in(&mut members, place)
}

/// The parameters for the elements of the list at a place. Errors: the first mismatch, and `NoMemory`.
fn read_each(
    alloc: Global,
    elements: Vec<Value>,
    place: Place<'static>,
) -> Result<Seq<Param>, Failure<Mismatch<'static, Expected>>>
    ensures { GivesOr fault_at (λ params. params) result
        (or_fault WrongShape (each param_of (listed (items_view elements.items)))) }
{
    let mut params = Seq::new(alloc);
    for element in elements {
        let param = read_param(element, place.item(params.len()))?;
        params.push(param)?;
    }
    Ok(params)
}

/// The parameters for the list at a place. Errors: the first mismatch, `New` if two parameters have the same
/// name, and `NoMemory`.
fn read_list(
    alloc: Global,
    list: Value,
    place: Place<'static>,
) -> Result<Seq<Param>, Failure<Mismatch<'static, Expected>>>
    ensures { GivesOr fault_at (λ params. params) result (or_fault WrongShape (params_of (view list))) }
{
    let elements = elements_in(list).ok_or(Mismatch {
        place,
        expected: Expected::List,
    })?;
    let params = read_each(alloc, elements, place)?;
    match first_repeated(alloc, params.as_slice())? {
        Some(param) => Err(Failure::Fault(Mismatch {
            place: place.item(param).inner("name"),
            expected: Expected::New,
        })),
        None => Ok(params),
    }
}

/// The parameters of a handler at a place; none if the member is absent. Errors: the first mismatch, and
/// `NoMemory`.
pub(crate) fn read_params(
    alloc: Global,
    member: Option<Value>,
    place: Place<'static>,
) -> Result<Seq<Param>, Failure<Mismatch<'static, Expected>>>
    ensures { GivesOr fault_at (λ params. params) result
        (or_fault WrongShape (optional [] params_of (option_map view member))) }
{
    match member {
        Some(list) => read_list(alloc, list, place),
        None => Ok(Seq::new(alloc)),
    }
}
