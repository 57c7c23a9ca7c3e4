//! Rules that a removal took.
ghost use Rattle.std.specs.Prelude.{◌≡◌, ◌++◌, IfOk, OnOk, find, map, option_map, option_to_list};
ghost use Rattle.std.specs.List.{filter_map, flat_map};
ghost use Rattle.kb_explain.specs.Removed.{removals_by, removals_in, removed_of};
ghost use Rattle.kb_explain.specs.Removed.{pairs_of, removed_in, taken_from};
ghost use Rattle.kb_rules.specs.Removal.{takes};

use kb_base::NoMemory;
use kb_bindings::Bindings;
use kb_files::Extension;
use kb_keys::Keystroke;
use kb_rules::{Removal, Rule};
use std::alloc::Global;
use std::rc::Rc;

/// A rule that a removal took.
#[derive(Clone, Copy)]
pub struct Removed<'s> {
    /// The rule, which isn't in force.
    pub rule: &'s Rule,
    /// The first removal that takes it.
    pub by: &'s Removal,
}

/// Adds removals of a list.
fn add_each<'s>(removals: &'s [Rc<Removal>], made: &mut Vec<&'s Removal>) -> Result<(), NoMemory>
    ensures { OnOk result (map (λ r. r.now) made.new.items
        ≡ map (λ r. r.now) made.old.items ++ map (λ r. r.value) removals.entry.now) }
{
    for removal in removals {
        made.push(removal)?;
    }
    Ok(())
}

/// Adds the removals of an extension, if it is enabled.
fn add_of_one<'s>(extension: &'s Extension, made: &mut Vec<&'s Removal>) -> Result<(), NoMemory>
    ensures { OnOk result (map (λ r. r.now) made.new.items
        ≡ map (λ r. r.now) made.old.items ++ removals_by extension.entry.now) }
{
    if extension.enabled {
        add_each(extension.rules.removals(), made)?;
    }
    Ok(())
}

/// Adds the removals of the enabled extensions, in load order.
fn add_of_all<'s>(extensions: &'s [Extension], made: &mut Vec<&'s Removal>) -> Result<(), NoMemory>
    ensures { OnOk result (map (λ r. r.now) made.new.items
        ≡ map (λ r. r.now) made.old.items ++ flat_map removals_by extensions.entry.now) }
{
    for extension in extensions {
        add_of_one(extension, made)?;
    }
    Ok(())
}

/// The removals in force: those of the default rules, of the enabled extensions in load order, and of the
/// user.
fn removals<'s>(alloc: Global, bindings: &'s Bindings) -> Result<Vec<&'s Removal>, NoMemory>
    ensures { IfOk result (λ made. map (λ r. r.now) made.items ≡ removals_in bindings.entry.now) }
{
    let mut made = Vec::new(alloc);
    add_each(bindings.defaults().removals(), &mut made)?;
    add_of_all(bindings.extensions(), &mut made)?;
    add_each(bindings.user().removals(), &mut made)?;
    Ok(made)
}

/// The first of these removals that takes a rule.
fn first_taking<'s>(removals: &[&'s Removal], rule: &Rule) -> Option<&'s Removal>
    ensures { option_map (λ r. r.now) result
        ≡ find (λ removal. takes removal rule.now) (map (λ r. r.now) removals.now) }
{
    for removal in removals {
        if removal.takes(rule) {
            return Some(*removal);
        }
    }
    None
}

/// Adds a rule, if it begins with the keystrokes and a removal takes it.
fn add_one<'s>(
    rule: &'s Rule,
    removals: &[&'s Removal],
    strokes: &[Keystroke],
    made: &mut Vec<Removed<'s>>,
) -> Result<(), NoMemory>
    ensures { OnOk result (pairs_of made.new.items ≡ pairs_of made.old.items
        ++ option_to_list (taken_from (map (λ r. r.now) removals.now) strokes.now rule.entry.now)) }
{
    if !rule.chord.begins_with(strokes) {
        return Ok(());
    }
    match first_taking(removals, rule) {
        Some(by) => {
            made.push(Removed { rule, by })?;
            Ok(())
        }
        None => Ok(()),
    }
}

/// Adds those of these rules that begin with the keystrokes and that a removal takes.
fn add_removed<'s>(
    rules: &'s [Rc<Rule>],
    removals: &[&'s Removal],
    strokes: &[Keystroke],
    made: &mut Vec<Removed<'s>>,
) -> Result<(), NoMemory>
    ensures { OnOk result (pairs_of made.new.items ≡ pairs_of made.old.items
        ++ filter_map (taken_from (map (λ r. r.now) removals.now) strokes.now)
        (map (λ r. r.value) rules.entry.now)) }
{
    for rule in rules {
        add_one(rule, removals, strokes, made)?;
    }
    Ok(())
}

/// The rules whose keystrokes begin with these and that aren't in force since a removal takes them, from the
/// top down. Rules of extensions that aren't enabled aren't among them, and no removal takes a rule of the
/// user. Error: `NoMemory`.
#[tactic(auto, using(crate::proofs::RemovedLemmas::removed_whole))]
pub fn rules_removed<'s>(
    alloc: Global,
    bindings: &'s Bindings,
    strokes: &[Keystroke],
) -> Result<Vec<Removed<'s>>, NoMemory>
    // These rules, each once and with the first removal in force that takes it.
    ensures { IfOk result (λ made. pairs_of made.items ≡ removed_in bindings.entry.now strokes.now) }
{
    let removals = removals(alloc, bindings)?;
    let mut made = Vec::new(alloc);
    add_removed(
        bindings.defaults().rules(),
        removals.as_slice(),
        strokes,
        &mut made,
    )?;
    add_of_extensions(
        bindings.extensions(),
        removals.as_slice(),
        strokes,
        &mut made,
    )?;
    Ok(made)
}

/// Adds those of an extension, if it is enabled.
fn add_of_extension<'s>(
    extension: &'s Extension,
    removals: &[&'s Removal],
    strokes: &[Keystroke],
    made: &mut Vec<Removed<'s>>,
) -> Result<(), NoMemory>
    ensures { OnOk result (pairs_of made.new.items ≡ pairs_of made.old.items
        ++ removed_of (map (λ r. r.now) removals.now) strokes.now extension.entry.now) }
{
    if extension.enabled {
        add_removed(extension.rules.rules(), removals, strokes, made)?;
    }
    Ok(())
}

/// Adds those of extensions.
fn add_of_extensions<'s>(
    extensions: &'s [Extension],
    removals: &[&'s Removal],
    strokes: &[Keystroke],
    made: &mut Vec<Removed<'s>>,
) -> Result<(), NoMemory>
    ensures { OnOk result (pairs_of made.new.items ≡ pairs_of made.old.items
        ++ flat_map (removed_of (map (λ r. r.now) removals.now) strokes.now) extensions.entry.now) }
{
    for extension in extensions {
        add_of_extension(extension, removals, strokes, made)?;
    }
    Ok(())
}
