//! What the contribution points of a manifest hold.
ghost use Rattle.std.specs.Prelude.{[], None, codes, option_map, IfOk, ◌≡◌, ◌∷◌};
ghost use Rattle.serde_json.specs.View.{view, items_view, members_view};
ghost use Rattle.kb_base.specs.Reading.{or_fault};
ghost use Rattle.kb_jsonc.specs.declared.file_fault.FileFault.TheVariants.{WrongShape};
ghost use Rattle.kb_jsonc.specs.Mismatch.{GivesOr, fault_at, path_of};
ghost use Rattle.kb_jsonc.specs.Parts.{listed};
ghost use Rattle.kb_manifest.specs.Points.{contributions_of, entries_of, menu_of, palette_of, point_of};
ghost use Rattle.kb_manifest.specs.Points.{points_by, points_in, seen_points};

use kb_base::{Failure, NoMemory};
use kb_jsonc::{Expected, Mismatch, Place, members_in, take_member};
use serde_json::{Map, Value};
use std::alloc::Global;

/// What the three contribution points hold that this engine reads, entry by entry.
#[derive(Drop)]
pub(crate) struct Points {
    pub(crate) commands: Vec<Value>,
    pub(crate) keybindings: Vec<Value>,
    pub(crate) palette: Vec<Value>,
}

/// The list of one value.
fn list_of_one(alloc: Global, value: Value) -> Result<Vec<Value>, NoMemory>
    ensures { IfOk result (λ list. list.items ≡ value ∷ []) }
{
    let mut list = Vec::new(alloc);
    list.push(value)?;
    Ok(list)
}

/// The place of a member of `contributes`.
fn in_contributes(member: &'static str) -> Place<'static>
    ensures { path_of result ≡ record {
      list = codes "contributes";
      entry = None;
      member = member.now;
      item = None;
      inner = None;
    } }
{
    Place {
        list: "contributes",
        entry: None,
        member,
        item: None,
        inner: None,
    }
}

/// The entries of the point at a place: the elements of a list, or a lone object.
fn entries_in(
    alloc: Global,
    point: Value,
    place: Place<'static>,
) -> Result<Vec<Value>, Failure<Mismatch<'static, Expected>>>
    ensures { GivesOr fault_at (λ list. listed (items_view list.items)) result
        (or_fault WrongShape (entries_of (view point))) }
{
    match point {
        Value::Array(elements) => Ok(elements),
        Value::Object(members) => Ok(list_of_one(alloc, Value::Object(members))?),
        _ => Err(Failure::Fault(Mismatch {
            place,
            expected: Expected::Entries,
        })),
    }
}

/// The entries of the point at a place, none where its member is absent.
#[tactic(auto, unfolding(crate::specs::Points::point_of))]
fn entries_at(
    alloc: Global,
    point: Option<Value>,
    place: Place<'static>,
) -> Result<Vec<Value>, Failure<Mismatch<'static, Expected>>>
    ensures { GivesOr fault_at (λ list. listed (items_view list.items)) result
        (or_fault WrongShape (point_of (option_map view point))) }
{
    match point {
        Some(point) => entries_in(alloc, point, place),
        None => Ok(Vec::new(alloc)),
    }
}

/// The entries of the palette's menu, none where `menus` or its member is absent.
#[tactic(auto, unfolding(crate::specs::Points::menu_of))]
fn palette_at(
    alloc: Global,
    menus: Option<Value>,
) -> Result<Vec<Value>, Failure<Mismatch<'static, Expected>>>
    ensures { GivesOr fault_at (λ list. listed (items_view list.items)) result
        (or_fault WrongShape (menu_of (option_map view menus))) }
{
    match menus {
        Some(menus) => palette_in(alloc, menus),
        None => Ok(Vec::new(alloc)),
    }
}

/// The entries of the palette's menu in the menus of a manifest.
#[tactic(auto, unfolding(crate::specs::Points::palette_of))]
fn palette_in(
    alloc: Global,
    menus: Value,
) -> Result<Vec<Value>, Failure<Mismatch<'static, Expected>>>
    ensures { GivesOr fault_at (λ list. listed (items_view list.items)) result
        (or_fault WrongShape (palette_of (view menus))) }
{
    let place = in_contributes("menus");
    let mut members = members_in(menus).ok_or(Mismatch {
        place,
        expected: Expected::Object,
    })?;
    entries_at(
        alloc,
        take_member(&mut members, "commandPalette"),
        place.inner("commandPalette"),
    )
}

/// What the points hold, nothing where `contributes` is absent.
#[tactic(auto, unfolding(crate::specs::Points::contributions_of))]
pub(crate) fn read_points(
    alloc: Global,
    contributes: Option<Value>,
) -> Result<Points, Failure<Mismatch<'static, Expected>>>
    ensures { GivesOr fault_at seen_points result
        (or_fault WrongShape (contributions_of (option_map view contributes))) }
{
    match contributes {
        Some(contributes) => points_in(alloc, contributes),
        None => Ok(Points {
            commands: Vec::new(alloc),
            keybindings: Vec::new(alloc),
            palette: Vec::new(alloc),
        }),
    }
}

/// What the points hold in the contributions of a manifest.
#[tactic(auto, unfolding(crate::specs::Points::points_in))]
fn points_in(
    alloc: Global,
    contributes: Value,
) -> Result<Points, Failure<Mismatch<'static, Expected>>>
    ensures { GivesOr fault_at seen_points result (or_fault WrongShape (points_in (view contributes))) }
{
    let mut members = members_in(contributes).ok_or(Mismatch {
        place: in_contributes(""),
        expected: Expected::Object,
    })?;
    points_by(alloc, &mut members)
}

/// What the points hold that members are, taken out of them.
fn points_by(
    alloc: Global,
    members: &mut Map<String, Value>,
) -> Result<Points, Failure<Mismatch<'static, Expected>>>
    ensures { GivesOr fault_at seen_points result
        (or_fault WrongShape (points_by (members_view members.old.entries))) }
{
    let commands = entries_at(
        alloc,
        take_member(members, "commands"),
        in_contributes("commands"),
    )?;
    let keybindings = entries_at(
        alloc,
        take_member(members, "keybindings"),
        in_contributes("keybindings"),
    )?;
    let palette = palette_at(alloc, take_member(members, "menus"))?;
    Ok(Points {
        commands,
        keybindings,
        palette,
    })
}
