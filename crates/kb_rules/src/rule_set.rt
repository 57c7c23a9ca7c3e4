//! The rules in force.
ghost use Rattle.std.specs.Prelude.{◌≡◌, ◌∷◌, [], ◌++◌, IfOk, OnOk, length, map, option_map, slice_get};
ghost use Rattle.std.specs.List.{flat_map};
ghost use Rattle.kb_rules.specs.RemovalIndex.{left_in, Indexes};
ghost use Rattle.kb_rules.specs.RuleSet.{enabled_of, all_removals, rules_of, rules_in_force};

use crate::removal::Removal;
use crate::removal_index::RemovalIndex;
use crate::rule::Rule;
use crate::rule_list::RuleList;
use kb_base::{NoMemory, Seq};
use std::alloc::Global;
use std::marker::Model;
use std::rc::Rc;

/// The rules in force, from the top down. Of those that fit a press the lowest counts (VS Code's
/// documentation: rules are evaluated from the bottom to the top).
#[derive(Drop)]
pub struct RuleSet {
    rules: Seq<Rc<Rule>>,
}

impl Model for RuleSet {
    ghost use Rattle.std.specs.Prelude.{List, map};
    ghost use Rattle.std.specs.Coded.{codes};
    ghost use Rattle.kb_rules.specs.declared.rule.Rule.{Rule};
    ghost use Rattle.kb_rules.specs.contracts.rule.Rule as rule;

    ghost Value = { List Rule };

    ghost coded = { Prim.hlevel (codes, rule.the_row.coded) };

    ghost view = { λ s. map (λ r. r.value) s.rules };
}

impl RuleSet {
    /// The rules in force: the default rules, those of the enabled extensions in load order, and then the
    /// user's (VS Code's documentation). What a removal of one of these lists takes (`Removal::takes`) is
    /// left out, but no rule of the user ever is, and a removal acts at any place in its list (our
    /// decisions). The lists of extensions that aren't enabled count for nothing. The rules are shared with
    /// the lists that they come from. `NoMemory` where memory was refused.
    pub fn assemble(
        alloc: Global,
        defaults: &RuleList,
        extensions: &[&RuleList],
        enabled: &[bool],
        user: &RuleList,
    ) -> Result<RuleSet, NoMemory>
        requires { length enabled.now ≡ length extensions.now }
        ensures { IfOk result (λ set. set
            ≡ rules_in_force defaults.now (map (λ l. l.now) extensions.now) enabled.now user.now) }
    {
        let lists = counted_lists(alloc, defaults, extensions, enabled)?;
        let rules = rules_of(alloc, lists.as_slice(), user)?;
        Ok(RuleSet { rules })
    }

    /// The rules, from the top down.
    pub fn rules(&self) -> &[Rc<Rule>]
        ensures { map (λ r. r.value) result.now ≡ self.now }
    {
        self.rules.as_slice()
    }

    /// The rule in force at this position, counted from 0 at the top, or `None` if there are not as many.
    pub fn at(&self, position: usize) -> Option<&Rc<Rule>>
        ensures { option_map (λ r. r.now.value) result ≡ slice_get self.now position }
    {
        self.rules.as_slice().get(position)
    }
}

/// The rules in force, of the lists that count and the user's.
fn rules_of(alloc: Global, lists: &[&RuleList], user: &RuleList) -> Result<Seq<Rc<Rule>>, NoMemory>
    ensures { IfOk result (λ rules. map (λ r. r.value) rules
        ≡ rules_of (map (λ l. l.now) lists.now) user.now) }
{
    let index = index_of(alloc, lists, user)?;
    let mut rules = left_rules(alloc, lists, &index)?;
    share_all(user.rules(), &mut rules)?;
    Ok(rules)
}

/// The index of the removals that count.
fn index_of(alloc: Global, lists: &[&RuleList], user: &RuleList) -> Result<RemovalIndex, NoMemory>
    ensures { IfOk result (λ index. Indexes index
        (all_removals (map (λ l. l.now) lists.now) ++ user.now.removals)) }
{
    let removals = counted_removals(alloc, lists, user)?;
    RemovalIndex::new(alloc, removals.as_slice())
}

/// The default list, and those of the enabled extensions.
fn counted_lists<'a>(
    alloc: Global,
    defaults: &'a RuleList,
    extensions: &[&'a RuleList],
    enabled: &[bool],
) -> Result<Vec<&'a RuleList>, NoMemory>
    requires { length enabled.now ≡ length extensions.now }
    ensures { IfOk result (λ lists. map (λ l. l.now) lists.items
        ≡ defaults.now ∷ enabled_of (map (λ l. l.now) extensions.now) enabled.now) }
{
    let mut lists = Vec::new(alloc);
    lists.push(defaults)?;
    for (i, list) in extensions.iter().enumerate() {
        push_enabled(*list, enabled[i], &mut lists)?;
    }
    Ok(lists)
}

/// Adds the list of an extension at the end, if the extension is enabled.
fn push_enabled<'a>(
    list: &'a RuleList,
    enabled: bool,
    lists: &mut Vec<&'a RuleList>,
) -> Result<(), NoMemory>
    ensures { OnOk result (map (λ l. l.now) lists.new.items
        ≡ map (λ l. l.now) lists.old.items ++ enabled_of (list.now ∷ []) (enabled ∷ [])) }
{
    if enabled {
        lists.push(list)?;
    }
    Ok(())
}

/// The removals that count: those of the lists, and the user's.
fn counted_removals(
    alloc: Global,
    lists: &[&RuleList],
    user: &RuleList,
) -> Result<Seq<Rc<Removal>>, NoMemory>
    ensures { IfOk result (λ removals. map (λ r. r.value) removals
        ≡ all_removals (map (λ l. l.now) lists.now) ++ user.now.removals) }
{
    let mut removals = Seq::new(alloc);
    for list in lists {
        share_all(list.removals(), &mut removals)?;
    }
    share_all(user.removals(), &mut removals)?;
    Ok(removals)
}

/// The rules of the lists that no removal of the index takes.
fn left_rules(
    alloc: Global,
    lists: &[&RuleList],
    index: &RemovalIndex,
) -> Result<Seq<Rc<Rule>>, NoMemory>
    ensures { IfOk result (λ rules. map (λ r. r.value) rules
        ≡ flat_map (λ list. left_in index.now list.rules) (map (λ l. l.now) lists.now)) }
{
    let mut rules = Seq::new(alloc);
    let mut text = String::new(alloc);
    for list in lists {
        share_left(list.rules(), index, &mut text, &mut rules)?;
    }
    Ok(rules)
}

/// Adds the rules that no removal of the index takes at the end of a list. The text is written over.
fn share_left(
    more: &[Rc<Rule>],
    index: &RemovalIndex,
    text: &mut String,
    rules: &mut Seq<Rc<Rule>>,
) -> Result<(), NoMemory>
    ensures { OnOk result (map (λ r. r.value) rules.new
        ≡ map (λ r. r.value) rules.old ++ left_in index.now (map (λ r. r.value) more.now)) }
{
    for rule in more {
        if !index.takes(rule, text)? {
            rules.push(Rc::clone(rule)?)?;
        }
    }
    Ok(())
}

/// Adds items at the end of a list, which shares them.
pub(crate) fn share_all<T: Drop>(more: &[Rc<T>], list: &mut Seq<Rc<T>>) -> Result<(), NoMemory>
    ensures { OnOk result (map (λ r. r.value) list.new
        ≡ map (λ r. r.value) list.old ++ map (λ r. r.value) more.now) }
{
    for item in more {
        list.push(Rc::clone(item)?)?;
    }
    Ok(())
}
