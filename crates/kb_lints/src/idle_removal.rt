//! Removals that take nothing.
ghost use Rattle.std.specs.Prelude.{◌≡◌, ℕ, IfOk, IfSome, IsTrue, map, option_map, slice_get};
ghost use Rattle.kb_rules.specs.Removal.{fits_keys};
ghost use Rattle.kb_lints.specs.Taken.{IsNamed, IsOf, IsSaid, TakesAt};

use crate::chords::rule_at;
use crate::spelling::{Operands, write_clause};
use kb_base::NoMemory;
use kb_keys::{Chord, Keystroke, write_strokes};
use kb_rules::{Removal, Rule};
use kb_when::Clause;
use std::alloc::Global;
use std::collections::HashMap;
use std::rc::Rc;

/// What a removal takes. Rules are named by their places among those that it may take.
#[derive(Clone, Copy, Debug, PartialEq, Eq)]
pub enum Taking {
    /// A rule at least.
    Rules,
    /// Nothing, but the rule at this place if the operands of its clause stood in another order.
    ButForOrder(usize),
    /// Nothing, though the rule at this place has the command, with other keystrokes or another clause.
    OtherRule(usize),
    /// Nothing: no rule has the command.
    NoRule,
}

/// The places of rules by command and keystrokes, and by command alone.
type Table = HashMap<String, Vec<usize>>;

/// The first place of a rule by command, keystrokes and sorted clause, and by command and sorted clause.
type Sorted = HashMap<String, usize>;

/// The rules that removals may take, found by what removals name.
#[derive(Drop)]
pub struct RuleTargets {
    alloc: Global,
    rules: Vec<Rc<Rule>>,
    table: Table,
    sorted: Sorted,
}

/// Writes a command and keystrokes as one text.
fn target_text(
    alloc: Global,
    command: &str,
    keys: Option<&[Keystroke]>,
) -> Result<String, NoMemory> {
    let mut text = String::from_str(alloc, command)?;
    if let Some(keys) = keys {
        text.push('\n')?;
        write_strokes(keys, &mut text)?;
    }
    Ok(text)
}

/// The table of rules.
fn table_of(alloc: Global, rules: &[Rc<Rule>]) -> Result<Table, NoMemory> {
    let mut table: Table = HashMap::new(alloc);
    for (place, rule) in rules.iter().enumerate() {
        let command = rule.command.as_str();
        let text = target_text(alloc, command, Some(rule.chord.as_slice()))?;
        table.entry(text)?.or_default().push(place)?;
        let text = target_text(alloc, command, None)?;
        table.entry(text)?.or_default().push(place)?;
    }
    Ok(table)
}

/// The table of rules with clauses.
fn sorted_of(alloc: Global, rules: &[Rc<Rule>]) -> Result<Sorted, NoMemory> {
    let mut sorted = HashMap::new(alloc);
    for (place, rule) in rules.iter().enumerate() {
        if let Some(clause) = &rule.when {
            note_sorted(alloc, rule, clause, place, &mut sorted)?;
        }
    }
    Ok(sorted)
}

/// Notes the place of a rule, unless an earlier one is noted.
fn note_sorted(
    alloc: Global,
    rule: &Rule,
    clause: &Clause,
    place: usize,
    sorted: &mut Sorted,
) -> Result<(), NoMemory> {
    let command = rule.command.as_str();
    let clause = sorted_text(alloc, clause)?;
    let target = target_text(alloc, command, Some(rule.chord.as_slice()))?;
    let text = joined_text(target, clause.as_str())?;
    sorted.entry(text)?.or_insert(place);
    let target = target_text(alloc, command, None)?;
    let text = joined_text(target, clause.as_str())?;
    sorted.entry(text)?.or_insert(place);
    Ok(())
}

/// What a removal names and a sorted clause as one text.
fn joined_text(target: String, clause: &str) -> Result<String, NoMemory> {
    let mut text = target;
    text.push('\n')?;
    text.push_str(clause)?;
    Ok(text)
}

/// The text of what a removal names.
fn text_of(alloc: Global, removal: &Removal) -> Result<String, NoMemory> {
    let command = removal.command.as_str();
    match &removal.chord {
        Some(chord) => target_text(alloc, command, Some(chord.as_slice())),
        None => target_text(alloc, command, None),
    }
}

impl RuleTargets {
    /// These rules. Error: `NoMemory`.
    pub fn new(alloc: Global, rules: Vec<Rc<Rule>>) -> Result<RuleTargets, NoMemory>
        ensures { IfOk result (λ targets. targets.rules ≡ rules) }
    {
        let table = table_of(alloc, rules.as_slice())?;
        let sorted = sorted_of(alloc, rules.as_slice())?;
        Ok(RuleTargets {
            alloc,
            rules,
            table,
            sorted,
        })
    }

    /// The rule at a place.
    pub fn at(&self, place: usize) -> Option<&Rc<Rule>>
        ensures { option_map (λ r. r.now.value) result
            ≡ slice_get (map (λ r. r.value) self.now.rules.items) place }
    {
        self.rules.as_slice().get(place)
    }

    /// What a removal takes of the rules. What it answers holds; no clause says that a removal takes nothing
    /// where it finds no rule. Error: `NoMemory`.
    pub fn taken_by(&self, removal: &Removal) -> Result<Taking, NoMemory>
        ensures { IfOk result (IsSaid removal.now (map (λ r. r.value) self.now.rules.items)) }
    {
        let text = text_of(self.alloc, removal)?;
        if self.takes_of(removal, text.as_str()) {
            return Ok(Taking::Rules);
        }
        if let Some(place) = self.but_for_order(removal, text)? {
            return Ok(Taking::ButForOrder(place));
        }
        match self.rule_of(removal.command.as_str()) {
            Some(place) => Ok(Taking::OtherRule(place)),
            None => Ok(Taking::NoRule),
        }
    }

    /// The place of a rule of a command, if there is one.
    fn rule_of(&self, command: &str) -> Option<usize>
        ensures { IfSome result (IsOf command.now (map (λ r. r.value) self.now.rules.items)) }
    {
        let places = self.table.get(command)?;
        let place = *places.as_slice().first()?;
        if is_of(self.rules.as_slice(), place, command) {
            return Some(place);
        }
        None
    }

    /// Whether a removal takes one of the rules under the text of what it names.
    fn takes_of(&self, removal: &Removal, text: &str) -> bool
        ensures { IsTrue result → (place : ℕ)
            × TakesAt removal.now (map (λ r. r.value) self.now.rules.items) place }
    {
        match self.table.get(text) {
            Some(places) => takes_one(removal, self.rules.as_slice(), places.as_slice()),
            None => false,
        }
    }

    /// The first place of a rule of what a removal names that has its clause but for the order of operands.
    fn but_for_order(&self, removal: &Removal, target: String) -> Result<Option<usize>, NoMemory>
        ensures { IfOk result (λ near. IfSome near (IsNamed removal.now
            (map (λ r. r.value) self.now.rules.items))) }
    {
        let Some(clause) = &removal.when else {
            return Ok(None);
        };
        let clause = sorted_text(self.alloc, clause)?;
        let text = joined_text(target, clause.as_str())?;
        let near = self.sorted.get(text.as_str()).copied();
        Ok(named_at(self.rules.as_slice(), removal, near))
    }
}

/// Whether the rule at a place has a command.
fn is_of(rules: &[Rc<Rule>], place: usize, command: &str) -> bool
    ensures { IsTrue result → IsOf command.now (map (λ r. r.value) rules.now) place }
{
    match rule_at(rules, place) {
        Some(rule) => command == rule.command.as_str(),
        None => false,
    }
}

/// Whether keystrokes, or none, are those of a chord.
fn fits_keys(keys: &Option<Chord>, chord: &Chord) -> bool
    ensures { result ≡ fits_keys keys.now chord.now }
{
    match keys {
        Some(keys) => keys.same_keys(chord),
        None => true,
    }
}

/// A place, if its rule has the command of a removal, and the keystrokes that it has.
fn named_at(rules: &[Rc<Rule>], removal: &Removal, place: Option<usize>) -> Option<usize>
    ensures { IfSome result (IsNamed removal.now (map (λ r. r.value) rules.now)) }
{
    let place = place?;
    let rule = rule_at(rules, place)?;
    if removal.command.as_str() == rule.command.as_str() && fits_keys(&removal.chord, &rule.chord) {
        return Some(place);
    }
    None
}

/// Whether a removal takes the rule at a place.
fn takes_at(removal: &Removal, rules: &[Rc<Rule>], place: usize) -> bool
    ensures { IsTrue result → TakesAt removal.now (map (λ r. r.value) rules.now) place }
{
    match rule_at(rules, place) {
        Some(rule) => removal.takes(rule),
        None => false,
    }
}

/// Whether a removal takes the rule at one of these places.
fn takes_one(removal: &Removal, rules: &[Rc<Rule>], places: &[usize]) -> bool
    ensures { IsTrue result → (place : ℕ) × TakesAt removal.now (map (λ r. r.value) rules.now) place }
{
    for place in places {
        if takes_at(removal, rules, *place) {
            return true;
        }
    }
    false
}

/// The sorted spelling of a clause.
fn sorted_text(alloc: Global, clause: &Clause) -> Result<String, NoMemory> {
    let mut text = String::new(alloc);
    write_clause(alloc, clause, Operands::Sorted, &mut text)?;
    Ok(text)
}
