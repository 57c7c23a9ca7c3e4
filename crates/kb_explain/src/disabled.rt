//! Rules of extensions that aren't enabled.
ghost use Rattle.std.specs.Prelude.{◌≡◌, ◌++◌, IfOk, OnOk, map, option_to_list};
ghost use Rattle.std.specs.List.{filter_map, flat_map};
ghost use Rattle.kb_explain.specs.Disabled.{disabled_in, disabled_of, on_strokes};

use kb_base::NoMemory;
use kb_bindings::Bindings;
use kb_files::Extension;
use kb_keys::Keystroke;
use kb_rules::Rule;
use std::alloc::Global;
use std::rc::Rc;

/// Adds a rule, if it begins with the keystrokes.
fn add_one<'s>(
    rule: &'s Rule,
    strokes: &[Keystroke],
    made: &mut Vec<&'s Rule>,
) -> Result<(), NoMemory>
    ensures { OnOk result (map (λ r. r.now) made.new.items ≡ map (λ r. r.now) made.old.items
        ++ option_to_list (on_strokes strokes.now rule.entry.now)) }
{
    if rule.chord.begins_with(strokes) {
        made.push(rule)?;
    }
    Ok(())
}

/// Adds those of these rules that begin with the keystrokes.
fn add_rules<'s>(
    rules: &'s [Rc<Rule>],
    strokes: &[Keystroke],
    made: &mut Vec<&'s Rule>,
) -> Result<(), NoMemory>
    ensures { OnOk result (map (λ r. r.now) made.new.items ≡ map (λ r. r.now) made.old.items
        ++ filter_map (on_strokes strokes.now) (map (λ r. r.value) rules.entry.now)) }
{
    for rule in rules {
        add_one(rule, strokes, made)?;
    }
    Ok(())
}

/// Adds those of an extension, if it isn't enabled.
fn add_of_extension<'s>(
    extension: &'s Extension,
    strokes: &[Keystroke],
    made: &mut Vec<&'s Rule>,
) -> Result<(), NoMemory>
    ensures { OnOk result (map (λ r. r.now) made.new.items ≡ map (λ r. r.now) made.old.items
        ++ disabled_of strokes.now extension.entry.now) }
{
    if !extension.enabled {
        add_rules(extension.rules.rules(), strokes, made)?;
    }
    Ok(())
}

/// Adds those of extensions.
fn add_of_extensions<'s>(
    extensions: &'s [Extension],
    strokes: &[Keystroke],
    made: &mut Vec<&'s Rule>,
) -> Result<(), NoMemory>
    ensures { OnOk result (map (λ r. r.now) made.new.items ≡ map (λ r. r.now) made.old.items
        ++ flat_map (disabled_of strokes.now) extensions.entry.now) }
{
    for extension in extensions {
        add_of_extension(extension, strokes, made)?;
    }
    Ok(())
}

/// The rules whose keystrokes begin with these and whose extension isn't enabled, so that they aren't in
/// force: by extension in load order, and of one extension from the top down. Error: `NoMemory`.
#[tactic(auto, using(crate::proofs::DisabledLemmas::disabled_whole))]
pub fn rules_disabled<'s>(
    alloc: Global,
    bindings: &'s Bindings,
    strokes: &[Keystroke],
) -> Result<Vec<&'s Rule>, NoMemory>
    ensures { IfOk result (λ made. map (λ r. r.now) made.items ≡ disabled_in bindings.entry.now strokes.now) }
{
    let mut made = Vec::new(alloc);
    add_of_extensions(bindings.extensions(), strokes, &mut made)?;
    Ok(made)
}
