//! The search for the rule that matches pressed keystrokes.
ghost use Rattle.std.specs.Prelude.{◌≡◌, ◌<◌, length, map, option_map, count_by, slice_get, Some};
ghost use Rattle.std.specs.Prelude.{IfErr, IfOk, IfSome};
ghost use Rattle.std.specs.List.{Any};
ghost use Rattle.kb_context.specs.Scopes.{context};
ghost use Rattle.kb_keys.specs.Chord.{chord_limit};
ghost use Rattle.kb_resolve.specs.Enablements.{enablement_in};
ghost use Rattle.kb_resolve.specs.Index.{begins, positions_of, rules_at, seconds_of};
ghost use Rattle.kb_resolve.specs.Resolved.{IsAt, found_in, more, place_of, resolution_of};
ghost use Rattle.kb_resolve.specs.Resolver.{may_start, matches, last_where, chosen, resolved, IsGreatest};
ghost use Rattle.kb_resolve.specs.Resolver.{HasPatterns, AsksPattern, MayAskPatterns};

use crate::enablements::Enablements;
use crate::index::{Index, second_number};
use crate::resolved::{Placed, Resolved};
use kb_base::NoMemory;
use kb_context::Scopes;
use kb_keys::Keystroke;
use kb_rules::{Rule, RuleSet};
use kb_when::Clause;
use std::alloc::Global;
use std::marker::Model;
use std::rc::Rc;

/// The effective rules, to be searched, with their index by first keystroke. Contracts see the list of
/// rules, from top to bottom.
#[derive(Drop)]
pub struct Resolver {
    set: RuleSet,
    index: Index,
}

impl Model for Resolver {
    ghost use Rattle.std.specs.Prelude.{List};
    ghost use Rattle.std.specs.Coded.{codes};
    ghost use Rattle.kb_rules.specs.declared.rule.Rule.{Rule};
    ghost use Rattle.kb_rules.specs.contracts.rule.Rule as rule;

    ghost Value = { List Rule };

    ghost coded = { Prim.hlevel (codes, rule.the_row.coded) };

    ghost use Rattle.std.specs.Prelude.{◌≡◌};
    ghost use Rattle.kb_resolve.specs.Index.{IsIndexOf, seconds_of};

    ghost view = { λ s. s.set };

    // The index has the positions of the rules of each keystroke, and the second keystroke of each of these.
    ghost invariant = { λ s. IsIndexOf s.set s.index.starts.items s.index.positions.items
        × (s.index.seconds.items ≡ seconds_of s.set s.index.positions.items) };
}

impl Resolver {
    /// A resolver for the rules of a set. It indexes them, in time linear in their number. `NoMemory` if
    /// the index is refused memory, or if a `u32` can't count the rules (our decision).
    pub fn build(alloc: Global, set: RuleSet) -> Result<Resolver, NoMemory>
        ensures { IfOk result (λ resolver. resolver ≡ set) }
    {
        let index = Index::new(alloc, set.rules())?;
        Ok(Resolver { set, index })
    }

    /// The rules in force, from the top down.
    pub fn rules(&self) -> &[Rc<Rule>]
        ensures { map (λ r. r.value) result.now ≡ self.now }
    {
        self.set.rules()
    }

    /// The rule in force at this position, counted from 0 at the top, or `None` if there are not as many.
    pub fn at(&self, position: usize) -> Option<&Rule>
        ensures { option_map (λ r. r.now) result ≡ slice_get self.now position }
    {
        match self.set.at(position) {
            Some(rule) => Some(rule),
            None => None,
        }
    }

    /// The number of rules with this first keystroke: `resolve` looks at no other rules.
    pub fn candidates(&self, stroke: &Keystroke) -> usize
        ensures { result ≡ count_by (λ rule. begins stroke.now rule.chord) self.now }
    {
        self.positions(*stroke).len()
    }

    /// The positions of the rules with this first keystroke, in rising order.
    fn positions(&self, stroke: Keystroke) -> &[u32]
        ensures { result.now ≡ positions_of stroke self.now }
    {
        let (start, end) = self.index.range(stroke);
        &self.index.positions[start..end]
    }

    /// The second keystrokes of these rules as numbers, in the same order.
    fn seconds(&self, stroke: Keystroke) -> &[u32]
        ensures { result.now ≡ seconds_of self.now (positions_of stroke self.now) }
    {
        let (start, end) = self.index.range(stroke);
        &self.index.seconds[start..end]
    }

    /// Searches the rules from the bottom to the top, and chooses the first one that matches. A rule
    /// matches if its keystrokes begin with the pressed ones, its clause holds for the context keys
    /// that the focus sees, and the enablement of its command holds, no matter where the rule comes
    /// from. A missing clause or enablement holds. VS Code's documentation: rules are evaluated from
    /// the bottom to the top, and the first that matches in key and clause is accepted. A rule with the
    /// empty command is found like any other. The rule is borrowed, with its position among the rules in
    /// force. `NoMemory` only from a pattern in a clause or an enablement (`Clause::holds`).
    #[tactic(auto, using(crate::proofs::ResolverLemmas::resolved_is_greatest))]
    pub fn resolve<'r>(
        &'r self,
        pressed: &[Keystroke],
        scopes: &Scopes,
        enablements: &Enablements,
    ) -> Result<Resolved<'r>, NoMemory>
        ensures value { IfOk result (λ found. resolution_of found
            ≡ resolved pressed.now (context scopes.now.seen) (enablement_in enablements.now) self.now) }
        ensures place { IfOk result (λ found.
            found_in self.now (place_of found) ≡ Some (resolution_of found)) }

        // The same as `value`, in terms of rules above and below.
        ensures greatest { let keys = context scopes.now.seen in
            let enabled = enablement_in enablements.now in
            IsGreatest pressed.now keys enabled self.now (resolved pressed.now keys enabled self.now) }

        // A rule has at most four keystrokes, so one more keystroke can be pressed.
        ensures fits { IfOk result (λ found.
            resolution_of found ≡ more → length pressed.now < chord_limit) }

        // Without a pattern that is evaluated, no memory is needed.
        ensures memory { IfErr result (λ _.
            MayAskPatterns pressed.now (context scopes.now.seen) (enablement_in enablements.now) self.now) }
    {
        let Some(placed) = self.lowest(pressed, scopes, enablements)? else {
            return Ok(Resolved::Nothing);
        };
        if placed.rule.chord.len() > pressed.len() {
            return Ok(Resolved::More);
        }
        Ok(Resolved::Found(placed))
    }

    /// The lowest matching rule. The rules with the first pressed keystroke are compared, or all rules if
    /// no key is pressed.
    fn lowest<'r>(
        &'r self,
        pressed: &[Keystroke],
        scopes: &Scopes,
        enablements: &Enablements,
    ) -> Result<Option<Placed<'r>>, NoMemory>
        ensures value { IfOk result (λ found. option_map (λ placed. placed.rule.now) found
            ≡ chosen pressed.now (context scopes.now.seen) (enablement_in enablements.now) self.now) }
        ensures place { IfOk result (λ found. IfSome found (IsAt self.now)) }
        ensures memory { IfErr result (λ _.
            MayAskPatterns pressed.now (context scopes.now.seen) (enablement_in enablements.now) self.now) }
    {
        match pressed.first() {
            Some(first) => self.lowest_with(first, pressed, scopes, enablements),
            None => lowest_of(&self.set, pressed, scopes, enablements),
        }
    }

    /// The lowest matching rule of those with the first pressed keystroke, `first`, which isn't compared
    /// again.
    fn lowest_with<'r>(
        &'r self,
        first: &Keystroke,
        pressed: &[Keystroke],
        scopes: &Scopes,
        enablements: &Enablements,
    ) -> Result<Option<Placed<'r>>, NoMemory>
        requires { slice_get pressed.now 0 ≡ Some first.now }
        ensures value { IfOk result (λ found. option_map (λ placed. placed.rule.now) found
            ≡ chosen pressed.now (context scopes.now.seen) (enablement_in enablements.now) self.now) }
        ensures place { IfOk result (λ found. IfSome found (IsAt self.now)) }
        ensures memory { IfErr result (λ _.
            MayAskPatterns pressed.now (context scopes.now.seen) (enablement_in enablements.now) self.now) }
    {
        let positions = self.positions(*first);
        match pressed.get(1) {
            Some(second) => lowest_behind(
                &self.set,
                positions,
                self.seconds(*first),
                second,
                pressed,
                scopes,
                enablements,
            ),
            None => lowest_at(&self.set, positions, scopes, enablements),
        }
    }
}

/// The last rule of those at these positions whose clause and the enablement of whose command hold. No
/// keystroke is compared.
fn lowest_at<'r>(
    set: &'r RuleSet,
    positions: &[u32],
    scopes: &Scopes,
    enablements: &Enablements,
) -> Result<Option<Placed<'r>>, NoMemory>
    ensures value { IfOk result (λ found. option_map (λ placed. placed.rule.now) found
        ≡ last_where (may_start (context scopes.now.seen) (enablement_in enablements.now))
        (rules_at set.now positions.now)) }
    ensures place { IfOk result (λ found. IfSome found (IsAt set.now)) }
    ensures memory { IfErr result (λ _.
        Any (HasPatterns (context scopes.now.seen) (enablement_in enablements.now))
        (rules_at set.now positions.now)) }
{
    for position in positions.iter().rev() {
        let place = *position as usize;
        if let Some(rule) = set.at(place) {
            if may_start(rule, scopes, enablements)? {
                return Ok(Some(Placed {
                    position: place,
                    rule,
                }));
            }
        }
    }
    Ok(None)
}

/// The last matching rule of those at these positions, where two or more keystrokes are pressed, the second
/// of which is `second`. Rules with another second keystroke are passed over by its number.
fn lowest_behind<'r>(
    set: &'r RuleSet,
    positions: &[u32],
    seconds: &[u32],
    second: &Keystroke,
    pressed: &[Keystroke],
    scopes: &Scopes,
    enablements: &Enablements,
) -> Result<Option<Placed<'r>>, NoMemory>
    requires second { slice_get pressed.now 1 ≡ Some second.now }
    requires seconds { seconds.now ≡ seconds_of set.now positions.now }
    ensures value { IfOk result (λ found. option_map (λ placed. placed.rule.now) found
        ≡ chosen pressed.now (context scopes.now.seen) (enablement_in enablements.now)
        (rules_at set.now positions.now)) }
    ensures place { IfOk result (λ found. IfSome found (IsAt set.now)) }
    ensures memory { IfErr result (λ _.
        MayAskPatterns pressed.now (context scopes.now.seen) (enablement_in enablements.now) set.now) }
{
    let wanted = second_number(Some(second));
    for place in (0..positions.len()).rev() {
        if seconds[place] != wanted {
            continue;
        }
        let position = positions[place] as usize;
        if let Some(rule) = set.at(position) {
            if matches(rule, pressed, scopes, enablements)? {
                return Ok(Some(Placed { position, rule }));
            }
        }
    }
    Ok(None)
}

/// The last matching rule of all.
fn lowest_of<'r>(
    set: &'r RuleSet,
    pressed: &[Keystroke],
    scopes: &Scopes,
    enablements: &Enablements,
) -> Result<Option<Placed<'r>>, NoMemory>
    ensures value { IfOk result (λ found. option_map (λ placed. placed.rule.now) found
        ≡ chosen pressed.now (context scopes.now.seen) (enablement_in enablements.now) set.now) }
    ensures place { IfOk result (λ found. IfSome found (IsAt set.now)) }
    ensures memory { IfErr result (λ _.
        MayAskPatterns pressed.now (context scopes.now.seen) (enablement_in enablements.now) set.now) }
{
    for position in (0..set.rules().len()).rev() {
        if let Some(rule) = set.at(position) {
            if matches(rule, pressed, scopes, enablements)? {
                return Ok(Some(Placed { position, rule }));
            }
        }
    }
    Ok(None)
}

/// Whether a rule's keystrokes begin with the pressed ones, and its clause and the enablement of its
/// command hold. The keystrokes are compared first, since a clause may read many keys.
fn matches(
    rule: &Rule,
    pressed: &[Keystroke],
    scopes: &Scopes,
    enablements: &Enablements,
) -> Result<bool, NoMemory>
    ensures value { IfOk result (λ answer. answer
        ≡ matches (context scopes.now.seen) (enablement_in enablements.now) pressed.now rule.now) }
    ensures memory { IfErr result (λ _.
        AsksPattern (context scopes.now.seen) (enablement_in enablements.now) pressed.now rule.now) }
{
    if !rule.chord.begins_with(pressed) {
        return Ok(false);
    }
    may_start(rule, scopes, enablements)
}

/// Whether the rule's clause and the enablement of its command hold. The clause is evaluated first.
fn may_start(rule: &Rule, scopes: &Scopes, enablements: &Enablements) -> Result<bool, NoMemory>
    ensures value { IfOk result (λ answer. answer
        ≡ may_start (context scopes.now.seen) (enablement_in enablements.now) rule.now) }
    ensures memory { IfErr result (λ _.
        HasPatterns (context scopes.now.seen) (enablement_in enablements.now) rule.now) }
{
    if !Clause::optional_holds(rule.when.as_ref(), scopes)? {
        return Ok(false);
    }
    match enablements.of_hashed(&rule.command) {
        Some(enablement) => enablement.as_clause().holds(scopes),
        None => Ok(true),
    }
}
