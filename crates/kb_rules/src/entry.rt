//! The reading of one element of a list of rules.
ghost use Rattle.std.specs.Prelude.{◌≡◌, [], Some, option_map, is_some, not, IfOk};
ghost use Rattle.std.specs.Option.{option_or};
ghost use Rattle.std.specs.List.{list_all};
ghost use Rattle.kb_base.specs.Blank.{is_blank};
ghost use Rattle.kb_base.specs.Failure.{Gives};
ghost use Rattle.kb_keys.specs.KeyFault as key;
ghost use Rattle.kb_keys.specs.Chord.{chord_of};
ghost use Rattle.kb_when.specs.WhenFault as when;
ghost use Rattle.kb_when.specs.ClauseText.{clause_in};
ghost use Rattle.serde_json.specs.View.{view, members_view};
ghost use Rattle.kb_rules.specs.Entry.{by_kind, failure_by_kind, text_of, required_text, removed_command};
ghost use Rattle.kb_rules.specs.Entry.{chord_in, keystrokes_of, removed_keystrokes_of, when_of, condition_of};
ghost use Rattle.kb_rules.specs.Entry.{args_of, member_named, own_key_named, with_member, found_in};
ghost use Rattle.kb_rules.specs.Entry.{found_of, binding_of, bound_to};
ghost use Rattle.kb_rules.specs.Entry.{terms_of, made, completed, element_of, entry_of};
ghost use Rattle.kb_rules.specs.Unread.{tree_in, marked_entry};

use crate::json::Json;
use crate::removal::Removal;
use crate::rule::Rule;
use crate::whole::has_whole_numbers;
use kb_base::{Failure, FaultKind, HashedText, NoMemory, Origin, Text, is_blank_text};
use kb_jsonc::{FileFault, members_in};
use kb_keys::{Chord, Platform};
use kb_when::{Clause, WhenFault};
use serde_json::{Map, Value};
use std::alloc::Global;

/// The members that a rule or a removal is read from, each if it is there.
#[derive(Drop)]
struct Parts {
    command: Option<Value>,
    key: Option<Value>,
    /// The keystrokes on the platform, which stand in place of `key`.
    own_key: Option<Value>,
    when: Option<Value>,
    args: Option<Value>,
}

/// A member of an element, by its name.
#[derive(Clone, Copy, Debug)]
enum Member {
    Command,
    Key,
    OwnKey,
    When,
    Args,
    /// A member that nothing is read from.
    Other,
}

/// A command and its keystrokes.
#[derive(Drop)]
enum Binding {
    /// Those of a rule.
    Starts(Text, Chord),
    /// Those of a removal, without the `-`; it may have no keystrokes.
    Removes(Text, Option<Chord>),
}

/// What an element is.
#[derive(Drop)]
pub(crate) enum Entry {
    Starts(Rule),
    Removes(Removal),
}

/// The rule or the removal that an element is, with its place, or the element's first fault. Its
/// texts and arguments are moved out of it. The clause says itself which of its
/// patterns aren't read.
pub(crate) fn read_entry(
    alloc: Global,
    entry: Value,
    origin: Origin,
    platform: Option<Platform>,
    place: usize,
) -> Result<Entry, Failure<FaultKind>>
    ensures { Gives (marked_entry []) result (entry_of origin platform place (view entry)) }
{
    match members_in(entry) {
        Some(members) => read_parts(alloc, parts_of(members, platform), origin, place),
        None => Err(Failure::Fault(FaultKind::WrongShape)),
    }
}

/// The members that a rule or a removal is read from, taken out of an object in one pass.
#[tactic(auto, using(crate::proofs::EntryLemmas::all_kept))]
fn parts_of(members: Map<String, Value>, platform: Option<Platform>) -> Parts
    ensures { found_of result ≡ found_in platform (members_view members.entries) }
{
    let mut parts = Parts {
        command: None,
        key: None,
        own_key: None,
        when: None,
        args: None,
    };
    for (name, value) in members {
        keep_member(&mut parts, member_named(platform, name.as_str()), value);
    }
    parts
}

/// The member with this name. The platform's name is that of its own keystrokes, if a platform is given (VS
/// Code's documentation of extensions).
fn member_named(platform: Option<Platform>, name: &str) -> Member
    ensures { result ≡ member_named platform name.now }
{
    match name {
        "command" => Member::Command,
        "key" => Member::Key,
        "when" => Member::When,
        "args" => Member::Args,
        _ => own_key_named(platform, name),
    }
}

/// The platform's own keystrokes if this is their name, or else a member that nothing is read from.
fn own_key_named(platform: Option<Platform>, name: &str) -> Member
    ensures { result ≡ own_key_named platform name.now }
{
    match platform {
        Some(platform) if name == platform.name() => Member::OwnKey,
        _ => Member::Other,
    }
}

/// Keeps the value of a member, unless it is kept already.
fn keep_member(parts: &mut Parts, member: Member, value: Value)
    ensures { parts.new ≡ with_member member value parts.old }
{
    match member {
        Member::Command => keep(&mut parts.command, value),
        Member::Key => keep(&mut parts.key, value),
        Member::OwnKey => keep(&mut parts.own_key, value),
        Member::When => keep(&mut parts.when, value),
        Member::Args => keep(&mut parts.args, value),
        Member::Other => {}
    }
}

/// Keeps a value where there is none.
fn keep(place: &mut Option<Value>, value: Value)
    ensures { place.new ≡ option_or place.old (Some value) }
{
    if place.is_none() {
        *place = Some(value);
    }
}

/// The rule or the removal that these members are.
#[tactic(auto, unfolding(crate::specs::Entry::element_of), using(crate::proofs::EntryLemmas::either_seen))]
fn read_parts(
    alloc: Global,
    parts: Parts,
    origin: Origin,
    place: usize,
) -> Result<Entry, Failure<FaultKind>>
    ensures { Gives (marked_entry []) result (element_of origin place (found_of parts)) }
{
    let key = parts.own_key.or(parts.key);
    let binding = read_binding(alloc, parts.command, key)?;
    complete(alloc, binding, parts.when, parts.args, origin, place)
}

/// The rule or the removal of a command and its keystrokes, with its condition and its arguments.
#[tactic(auto, using(crate::proofs::EntryLemmas::made_as_read))]
fn complete(
    alloc: Global,
    binding: Binding,
    when: Option<Value>,
    args: Option<Value>,
    origin: Origin,
    place: usize,
) -> Result<Entry, Failure<FaultKind>>
    ensures { Gives (marked_entry []) result
        (completed origin place binding (terms_of (option_map view when) (option_map view args))) }
{
    match read_terms(alloc, when, args) {
        Ok((when, args)) => Ok(made(binding, when, args, origin, place)),
        Err(failure) => {
            drop(binding);
            Err(failure)
        }
    }
}

/// The rule or the removal of what was read of it. A removal has no arguments.
fn made(
    binding: Binding,
    when: Option<Clause>,
    args: Option<Json>,
    origin: Origin,
    place: usize,
) -> Entry
    ensures { result ≡ made origin place binding when args }
{
    match binding {
        Binding::Starts(command, chord) => Entry::Starts(Rule {
            chord,
            command: HashedText::new(command),
            when,
            args,
            origin,
            place,
        }),
        Binding::Removes(command, chord) => Entry::Removes(Removal {
            command,
            chord,
            when,
            origin,
            place,
        }),
    }
}

/// The command and its keystrokes.
#[tactic(auto, unfolding(crate::specs::Entry::binding_of))]
fn read_binding(
    alloc: Global,
    command: Option<Value>,
    key: Option<Value>,
) -> Result<Binding, Failure<FaultKind>>
    ensures { Gives (λ bound. bound) result (binding_of (option_map view command) (option_map view key)) }
{
    let command = required_text(command).map_err(Failure::Fault)?;
    match removed_command(alloc, command.as_str())? {
        Some(removed) => bind_removal(alloc, removed, key).map_err(Failure::Fault),
        None => bind_rule(alloc, command, key).map_err(Failure::Fault),
    }
}

/// A rule's command, with its keystrokes.
fn bind_rule(alloc: Global, command: Text, key: Option<Value>) -> Result<Binding, FaultKind>
    ensures { result ≡ bound_to command None (option_map view key) }
{
    match read_keystrokes(alloc, key) {
        Ok(keys) => Ok(Binding::Starts(command, keys)),
        Err(kind) => Err(kind),
    }
}

/// The command that a removal names, with its keystrokes.
fn bind_removal(alloc: Global, removed: Text, key: Option<Value>) -> Result<Binding, FaultKind>
    ensures { result ≡ bound_to [] (Some removed) (option_map view key) }
{
    match read_removed_keystrokes(alloc, key) {
        Ok(keys) => Ok(Binding::Removes(removed, keys)),
        Err(kind) => Err(kind),
    }
}

/// The condition and the arguments.
#[tactic(auto, unfolding(crate::specs::Entry::terms_of))]
fn read_terms(
    alloc: Global,
    when: Option<Value>,
    args: Option<Value>,
) -> Result<(Option<Clause>, Option<Json>), Failure<FaultKind>>
    ensures { Gives (λ terms. (tree_in terms.0, terms.1)) result
        (terms_of (option_map view when) (option_map view args)) }
{
    let when = read_condition(alloc, when)?;
    match read_args(args) {
        Ok(args) => Ok((when, args)),
        Err(kind) => {
            drop(when);
            Err(Failure::Fault(kind))
        }
    }
}

/// The text that a value is.
fn text_of(value: Value) -> Result<Text, FaultKind>
    ensures { result ≡ text_of (view value) }
{
    kb_jsonc::text_of(value).map_err(FileFault::kind)
}

/// The text of a member that must be there.
fn required_text(member: Option<Value>) -> Result<Text, FaultKind>
    ensures { result ≡ required_text (option_map view member) }
{
    kb_jsonc::required_text(member).map_err(FileFault::kind)
}

/// The command that a removal names, or `None` for what is no removal (VS Code's documentation: a removal's
/// command begins with `-`).
fn removed_command(alloc: Global, command: &str) -> Result<Option<Text>, NoMemory>
    ensures { IfOk result (λ removed. removed ≡ removed_command command.now) }
{
    let Some(removed) = command.strip_prefix("-") else {
        return Ok(None);
    };
    Ok(Some(Text::from_str(alloc, removed)?))
}

/// The keystrokes of a rule.
#[tactic(auto, unfolding(crate::specs::Entry::keystrokes_of))]
fn read_keystrokes(alloc: Global, member: Option<Value>) -> Result<Chord, FaultKind>
    ensures { result ≡ keystrokes_of (option_map view member) }
{
    let text = required_text(member)?;
    read_chord(alloc, text.as_str())
}

/// The keystrokes of a removal, if it has some.
#[tactic(auto, unfolding(crate::specs::Entry::removed_keystrokes_of))]
fn read_removed_keystrokes(alloc: Global, member: Option<Value>) -> Result<Option<Chord>, FaultKind>
    ensures { result ≡ removed_keystrokes_of (option_map view member) }
{
    let Some(value) = member else {
        return Ok(None);
    };
    let text = text_of(value)?;
    Ok(Some(read_chord(alloc, text.as_str())?))
}

/// The keystrokes of a text.
fn read_chord(alloc: Global, text: &str) -> Result<Chord, FaultKind>
    ensures { result ≡ chord_in text.now }
{
    match Chord::parse(alloc, text) {
        Ok(chord) => Ok(chord),
        Err(fault) => Err(fault.kind()),
    }
}

/// The clause that is the condition, if there is one.
#[tactic(auto, unfolding(crate::specs::Entry::condition_of))]
fn read_condition(
    alloc: Global,
    member: Option<Value>,
) -> Result<Option<Clause>, Failure<FaultKind>>
    ensures { Gives tree_in result (condition_of (option_map view member)) }
{
    match member {
        Some(value) => {
            let text = text_of(value).map_err(Failure::Fault)?;
            read_when(alloc, text.as_str())
        }
        None => Ok(None),
    }
}

/// The clause of a `when` text, if it isn't blank.
#[tactic(auto, unfolding(crate::specs::Entry::when_of))]
fn read_when(alloc: Global, text: &str) -> Result<Option<Clause>, Failure<FaultKind>>
    ensures read { Gives tree_in result (when_of text.now) }

    // `read` cites this: a text that isn't blank never becomes a rule without a clause.
    ensures kept { IfOk result (λ when. is_some when ≡ not (list_all is_blank text.now)) }
{
    if is_blank_text(text) {
        return Ok(None);
    }
    Ok(Some(read_clause(alloc, text)?))
}

/// The clause of a text.
fn read_clause(alloc: Global, text: &str) -> Result<Clause, Failure<FaultKind>>
    ensures { Gives (λ clause. clause.tree) result (by_kind when.kind_of (clause_in text.now)) }
{
    Clause::parse(alloc, text).map_err(failure_by_kind)
}

/// The failure to read a clause, with the kind of its fault.
fn failure_by_kind(failure: Failure<WhenFault>) -> Failure<FaultKind>
    ensures { result ≡ failure_by_kind failure }
{
    failure.map_fault(WhenFault::kind)
}

/// The arguments, if there are any: whole within i64 in each number.
#[tactic(auto, unfolding(crate::specs::Entry::args_of))]
fn read_args(member: Option<Value>) -> Result<Option<Json>, FaultKind>
    ensures { result ≡ args_of (option_map view member) }
{
    let Some(args) = member else {
        return Ok(None);
    };
    if !has_whole_numbers(&args) {
        return Err(FaultKind::WrongShape);
    }
    Ok(Some(Json::from_value(args)))
}
