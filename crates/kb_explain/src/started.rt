//! Which rules start a command, and which commands have none.
ghost use Rattle.std.specs.Prelude.{◌≡◌, IfOk, filter, map, not, option_map};
ghost use Rattle.std.specs.List.{list_any};
ghost use Rattle.serde_json.specs.View.{items_view, view};
ghost use Rattle.kb_bindings.specs.Sources.{rules_of};
ghost use Rattle.kb_explain.specs.Started.{elements_in, is_named, is_started, names, starts, without_keys};
ghost use Rattle.kb_jsonc.specs.Parts.{listed};
ghost use Rattle.kb_palette_commands.specs.Palette.{palette_commands};

use kb_base::NoMemory;
use kb_bindings::Bindings;
use kb_palette::PaletteCommand;
use kb_rules::Rule;
use serde_json::Value;
use std::alloc::Global;
use std::rc::Rc;

/// Whether a text is the command, if there is one.
fn is_named(text: Option<&str>, command: &str) -> bool
    ensures { result ≡ is_named command.now (option_map (λ text. text.now) text.entry) }
{
    match text {
        Some(text) => text == command,
        None => false,
    }
}

/// Whether an element of the list of `runCommands` names a command.
fn names(element: &Value, command: &str) -> bool
    ensures { result ≡ names command.now (view element.now) }
{
    match element {
        Value::String(text) => text.as_str() == command,
        Value::Object(_) => is_named(element.get("command").and_then(Value::as_str), command),
        _ => false,
    }
}

/// The elements of the list in these arguments, if there is one.
fn elements_in(args: Option<&Value>) -> Option<&[Value]>
    ensures { option_map (λ elements. listed (items_view elements.now)) result
        ≡ elements_in (option_map (λ args. view args.now) args.entry) }
{
    let elements = args?.get("commands")?.as_array()?;
    Some(elements.as_slice())
}

/// Whether an element of a list names a command.
fn any_names(elements: &[Value], command: &str) -> bool
    ensures { result ≡ list_any (names command.now) (listed (items_view elements.now)) }
{
    for element in elements {
        if names(element, command) {
            return true;
        }
    }
    false
}

/// Whether a rule starts a command: by itself, or in the list of `runCommands`.
pub fn starts(rule: &Rule, command: &str) -> bool
    ensures { result ≡ starts command.now rule.now }
{
    if rule.command.as_str() == command {
        return true;
    }
    if rule.command.as_str() != "runCommands" {
        return false;
    }
    let args = match &rule.args {
        Some(args) => Some(args.as_value()),
        None => None,
    };
    match elements_in(args) {
        Some(elements) => any_names(elements, command),
        None => false,
    }
}

/// Whether one of these rules starts a command.
fn is_started(rules: &[Rc<Rule>], command: &str) -> bool
    ensures { result ≡ list_any (starts command.now) (map (λ r. r.value) rules.now) }
{
    for rule in rules {
        if starts(rule, command) {
            return true;
        }
    }
    false
}

/// The commands of the palette that no rule in force starts, in load order. Error: `NoMemory`.
pub fn commands_without_keys<'s>(
    alloc: Global,
    bindings: &'s Bindings,
) -> Result<Vec<&'s PaletteCommand>, NoMemory>
    ensures { IfOk result (λ made. map (λ c. c.now) made.items ≡ without_keys bindings.entry.now) }
{
    let rules = bindings.resolver().rules();
    let mut made = Vec::new(alloc);
    let mut left = bindings.palette();
    while let [command, rest @ ..] = left {
        if !is_started(rules, command.command()) {
            made.push(command)?;
        }
        left = rest;
    }
    Ok(made)
}
