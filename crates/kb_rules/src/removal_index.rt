//! Removals, found by what they name.
ghost use Rattle.std.specs.Prelude.{◌≡◌, [], IfOk, OnOk, map, string_bytes};
ghost use Rattle.std.specs.List.{list_any};
ghost use Rattle.kb_rules.specs.Removal.{takes};
ghost use Rattle.kb_rules.specs.RemovalIndex.{found, finds, target, target_of, Indexes};

use crate::removal::Removal;
use crate::rule::Rule;
use kb_base::NoMemory;
use kb_keys::{Keystroke, write_strokes};
use std::alloc::Global;
use std::collections::HashMap;
use std::rc::Rc;

/// Removals by the command and the keystrokes that they name, so that a rule is compared only with those that
/// name its own. Both are spelled in one text. What is found by it is compared whole, so that
/// nothing rests on how they are spelled.
#[derive(Drop)]
pub(crate) struct RemovalIndex {
    table: HashMap<String, Vec<Rc<Removal>>>,
}

impl RemovalIndex {
    /// The index of these removals, which it shares.
    pub(crate) fn new(alloc: Global, removals: &[Rc<Removal>]) -> Result<RemovalIndex, NoMemory>
        ensures { IfOk result (λ index. Indexes index (map (λ r. r.value) removals.now)) }
    {
        let mut table: HashMap<String, Vec<Rc<Removal>>> = HashMap::new(alloc);
        for removal in removals {
            let text = text_of(alloc, removal)?;
            table.entry(text)?.or_default().push(Rc::clone(removal)?)?;
        }
        Ok(RemovalIndex { table })
    }

    /// Whether one of the removals takes a rule. The text is written over.
    pub(crate) fn takes(&self, rule: &Rule, text: &mut String) -> Result<bool, NoMemory>
        ensures { IfOk result (λ taken. taken ≡ finds self.now rule.now) }
    {
        if self.takes_at(rule.chord.as_slice(), rule, text)? {
            return Ok(true);
        }
        self.takes_at(&[], rule, text)
    }

    /// Whether one of the removals that name the rule's command and these keystrokes takes the rule.
    fn takes_at(&self, keys: &[Keystroke], rule: &Rule, text: &mut String) -> Result<bool, NoMemory>
        ensures { IfOk result (λ taken. taken
            ≡ list_any (λ removal. takes removal rule.now)
            (found self.now (target rule.now.command keys.now))) }
    {
        text.clear();
        write_target(rule.command.as_str(), keys, text)?;
        match self.table.get(text.as_str()) {
            Some(removals) => Ok(some_takes(removals.as_slice(), rule)),
            None => Ok(false),
        }
    }
}

/// Whether one of these removals takes a rule.
fn some_takes(removals: &[Rc<Removal>], rule: &Rule) -> bool
    ensures { result ≡ list_any (λ removal. takes removal rule.now) (map (λ r. r.value) removals.now) }
{
    for removal in removals {
        if removal.takes(rule) {
            return true;
        }
    }
    false
}

/// The text of what a removal names.
fn text_of(alloc: Global, removal: &Removal) -> Result<String, NoMemory>
    ensures { IfOk result (λ text. string_bytes text ≡ target_of removal.now) }
{
    let mut text = String::new(alloc);
    match &removal.chord {
        Some(chord) => write_target(removal.command.as_str(), chord.as_slice(), &mut text)?,
        None => write_target(removal.command.as_str(), &[], &mut text)?,
    }
    Ok(text)
}

/// Writes a command and keystrokes into an empty text.
fn write_target(command: &str, keys: &[Keystroke], text: &mut String) -> Result<(), NoMemory>
    requires { string_bytes text.old ≡ [] }
    ensures { OnOk result (string_bytes text.new ≡ target command.now keys.now) }
{
    text.push_str(command)?;
    text.push(' ')?;
    write_strokes(keys, text)
}
