//! The rules in force, of defaults, extensions and the user.
use kb_base::{NoMemory, Warning};
use kb_jsonc::{elements_in, members_in, read, take_member};
use kb_keys::{Keystroke, Platform};
use kb_resolve::Resolver;
use kb_rules::{Origin, Rule, RuleList, RuleSet, read_list};
use serde_json::{Map, Value};
use std::alloc::Global;

/// The lists of a case.
#[derive(Drop)]
struct Lists {
    defaults: RuleList,
    extensions: Vec<RuleList>,
    user: RuleList,
}

fn elements_of(alloc: Global, value: Value) -> Vec<Value> {
    match elements_in(value) {
        Some(elements) => elements,
        None => Vec::new(alloc),
    }
}

fn elements_at(alloc: Global, members: &mut Map<String, Value>, name: &str) -> Vec<Value> {
    match take_member(members, name) {
        Some(value) => elements_of(alloc, value),
        None => Vec::new(alloc),
    }
}

fn extensions_of(
    alloc: Global,
    lists: Vec<Value>,
    platform: Option<Platform>,
) -> Result<Vec<RuleList>, NoMemory> {
    let mut extensions = Vec::new(alloc);
    let mut number = 0;
    for list in lists {
        let elements = elements_of(alloc, list);
        extensions.push(read_list(alloc, elements, Origin::Extension(number), platform)?)?;
        number = number.saturating_add(1);
    }
    Ok(extensions)
}

fn truths_of(alloc: Global, values: &[Value]) -> Result<Vec<bool>, NoMemory> {
    let mut truths = Vec::new(alloc);
    for value in values {
        truths.push(matches!(value, Value::Bool(true)))?;
    }
    Ok(truths)
}

fn list_at(
    alloc: Global,
    members: &mut Map<String, Value>,
    name: &str,
    origin: Origin,
) -> Result<RuleList, NoMemory> {
    read_list(alloc, elements_at(alloc, members, name), origin, None)
}

fn lists_of(
    alloc: Global,
    members: &mut Map<String, Value>,
    platform: Option<Platform>,
) -> Result<Lists, NoMemory> {
    let extensions = elements_at(alloc, members, "extensions");
    let extensions = extensions_of(alloc, extensions, platform)?;
    let defaults = list_at(alloc, members, "defaults", Origin::Defaults)?;
    let user = list_at(alloc, members, "user", Origin::User)?;
    Ok(Lists {
        defaults,
        extensions,
        user,
    })
}

fn add_origin(origin: Origin, output: &mut String) -> Result<(), NoMemory> {
    match origin {
        Origin::Defaults => output.push_str("defaults"),
        Origin::Extension(number) => write!(output, "{number}"),
        Origin::User => output.push_str("user"),
    }
}

fn add_rule(alloc: Global, rule: &Rule, output: &mut String) -> Result<(), NoMemory> {
    let keys = rule.chord.text(alloc)?;
    let keys = keys.as_str();
    let command = rule.command.as_str();
    let place = rule.place;
    write!(output, "{keys} [{command}] ")?;
    add_origin(rule.origin, output)?;
    write!(output, " {place}; ")
}

fn add_warnings(warnings: &[Warning], output: &mut String) -> Result<(), NoMemory> {
    for warning in warnings {
        let number = warning.kind.number();
        let place = warning.place;
        write!(output, "warning {number} ")?;
        add_origin(warning.origin, output)?;
        write!(output, " {place}; ")?;
    }
    Ok(())
}

fn borrowed_lists(alloc: Global, lists: &[RuleList]) -> Result<Vec<&RuleList>, NoMemory> {
    let mut borrowed = Vec::new(alloc);
    for list in lists {
        borrowed.push(list).map_err(NoMemory::from)?;
    }
    Ok(borrowed)
}

fn add_rules(alloc: Global, rules: &RuleSet, output: &mut String) -> Result<(), NoMemory> {
    for rule in rules.rules() {
        add_rule(alloc, rule, output)?;
    }
    Ok(())
}

fn add_rules_of(
    alloc: Global,
    lists: &Lists,
    enabled: &[bool],
    output: &mut String,
) -> Result<(), NoMemory> {
    let extensions = borrowed_lists(alloc, lists.extensions.as_slice())?;
    let extensions = extensions.as_slice();
    if enabled.len() != extensions.len() {
        return output.push_str("one truth value for each extension");
    }
    let rules = RuleSet::assemble(alloc, &lists.defaults, extensions, enabled, &lists.user)?;
    add_rules(alloc, &rules, output)
}

fn add_all_warnings(lists: &Lists, output: &mut String) -> Result<(), NoMemory> {
    add_warnings(lists.defaults.warnings(), output)?;
    for list in &lists.extensions {
        add_warnings(list.warnings(), output)?;
    }
    add_warnings(lists.user.warnings(), output)
}

fn members_text(
    alloc: Global,
    members: &mut Map<String, Value>,
    platform: Option<Platform>,
) -> Result<String, NoMemory> {
    let enabled = truths_of(alloc, elements_at(alloc, members, "enabled").as_slice())?;
    let lists = lists_of(alloc, members, platform)?;
    lists_text(alloc, &lists, enabled.as_slice())
}

fn lists_text(alloc: Global, lists: &Lists, enabled: &[bool]) -> Result<String, NoMemory> {
    let mut output = String::new(alloc);
    add_rules_of(alloc, lists, enabled, &mut output)?;
    add_all_warnings(lists, &mut output)?;
    Ok(output)
}

/// The rules in force on a platform and the warnings, of lists that are given as one JSON object.
pub(crate) fn in_force(alloc: Global, platform: &str, text: &str) -> Result<String, NoMemory> {
    let Ok(value) = read(alloc, text.as_bytes()) else {
        return String::from_str(alloc, "no JSON");
    };
    let Some(mut members) = members_in(value) else {
        return String::from_str(alloc, "no object");
    };
    let output = members_text(alloc, &mut members, Platform::named(platform))?;
    String::from_str(alloc, output.as_str().trim_end())
}

fn add_candidates(resolver: &Resolver, keys: &str, output: &mut String) -> Result<(), NoMemory> {
    for key in keys.split(' ') {
        match Keystroke::parse(key) {
            Ok(stroke) => {
                let count = resolver.candidates(&stroke);
                write!(output, "{key} {count}; ")?;
            }
            Err(_) => output.push_str("no key; ")?,
        }
    }
    Ok(())
}

fn candidates_text(alloc: Global, keys: &str, lists: &Lists) -> Result<String, NoMemory> {
    let extensions = borrowed_lists(alloc, lists.extensions.as_slice())?;
    if !extensions.is_empty() {
        return String::from_str(alloc, "no extensions here");
    }
    let none: [bool; 0] = [];
    let rules = RuleSet::assemble(alloc, &lists.defaults, &[], &none, &lists.user)?;
    let resolver = Resolver::build(alloc, rules)?;
    let mut output = String::new(alloc);
    add_candidates(&resolver, keys, &mut output)?;
    Ok(output)
}

/// How many rules in force each of some keystrokes begins, of lists that are given as one JSON object.
pub(crate) fn candidates(alloc: Global, text: &str) -> Result<String, NoMemory> {
    let Some((keys, lists)) = text.split_once(" ;; ") else {
        return String::from_str(alloc, "no lists");
    };
    let Ok(value) = read(alloc, lists.as_bytes()) else {
        return String::from_str(alloc, "no JSON");
    };
    let Some(mut members) = members_in(value) else {
        return String::from_str(alloc, "no object");
    };
    let lists = lists_of(alloc, &mut members, None)?;
    candidates_text(alloc, keys, &lists)
}
