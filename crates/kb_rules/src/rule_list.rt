//! The rules of one file.
ghost use Rattle.std.specs.Prelude.{◌≡◌, ◌+◌, [], ◌++◌, length, IfOk, OnOk, Ok, map};
ghost use Rattle.serde_json.specs.View.{view};
ghost use Rattle.kb_base.specs.Reading.{seen};
ghost use Rattle.kb_base.specs.declared.note.Part.TheVariants.{Keybindings};
ghost use Rattle.kb_when.specs.Placed.{placed};
ghost use Rattle.kb_rules.specs.Entry.{entry_of};
ghost use Rattle.kb_rules.specs.RuleList.{no_elements, listed, dropped_in, is_dropped, judged};
ghost use Rattle.kb_rules.specs.RuleList.{with_rule, with_warning, with_unread, warning_at};
ghost use Rattle.kb_rules.specs.RuleList.{with_read, AreRightlyMarked, IsWhole, IsRight};
ghost use Rattle.kb_rules.specs.Unread.{marked_when, marked_entry, unread_when, IsRightlyMarked};

use crate::entry::{Entry, read_entry};
use crate::removal::Removal;
use crate::rule::Rule;
use crate::rule_set::share_all;
use kb_base::{
    EntryPattern, Failure, FaultKind, NoMemory, Origin, Part, Seq, UnreadPattern, Warning,
};
use kb_keys::Platform;
use kb_when::Clause;
use serde_json::Value;
use std::alloc::{AllocError, Global};
use std::marker::Model;
use std::rc::Rc;

/// The rules of one file or manifest, from the top down, its removals, a warning for each element that was
/// dropped or has an unread pattern, and those patterns. Rules and removals are shared: a rule set and the
/// search take no copies of them.
#[derive(Drop)]
pub struct RuleList {
    rules: Seq<Rc<Rule>>,
    removals: Seq<Rc<Removal>>,
    warnings: Seq<Warning>,
    unread: Seq<EntryPattern>,
}

impl Model for RuleList {
    ghost use Rattle.std.specs.Prelude.{map};
    ghost use Rattle.std.specs.Coded.{codes};
    ghost use Rattle.kb_rules.specs.RuleList.{Listed};
    ghost use Rattle.kb_rules.specs.contracts.removal.Removal as removal;
    ghost use Rattle.kb_rules.specs.contracts.rule.Rule as rule;
    ghost use Rattle.kb_base.specs.contracts.note.EntryPattern as mark;
    ghost use Rattle.kb_base.specs.contracts.note.Warning as warning;

    ghost Value = { Listed };

    ghost coded = { Prim.hlevel
        (codes, rule.the_row.coded, removal.the_row.coded, warning.the_row.coded, mark.the_row.coded) };

    ghost view = { λ l. record {
      rules = map (λ r. r.value) l.rules;
      removals = map (λ r. r.value) l.removals;
      warnings = l.warnings;
      unread = l.unread;
    } };
}

impl RuleList {
    /// The list of no elements, as of an absent file.
    pub fn new(alloc: Global) -> RuleList
        ensures { result ≡ no_elements }
    {
        RuleList {
            rules: Seq::new(alloc),
            removals: Seq::new(alloc),
            warnings: Seq::new(alloc),
            unread: Seq::new(alloc),
        }
    }

    /// The rules, from the top down.
    pub fn rules(&self) -> &[Rc<Rule>]
        ensures { map (λ r. r.value) result.now ≡ self.now.rules }
    {
        self.rules.as_slice()
    }

    /// The removals, in the order of the elements.
    pub fn removals(&self) -> &[Rc<Removal>]
        ensures { map (λ r. r.value) result.now ≡ self.now.removals }
    {
        self.removals.as_slice()
    }

    /// The warnings, in the order of the elements.
    pub fn warnings(&self) -> &[Warning]
        ensures { result.now ≡ self.now.warnings }
    {
        self.warnings.as_slice()
    }

    /// The unread patterns of rules and removals, in the order of the elements and of their texts.
    pub fn unread(&self) -> &[EntryPattern]
        ensures { result.now ≡ self.now.unread }
    {
        self.unread.as_slice()
    }

    /// This list with one more rule at the bottom. The rules and removals that it has are shared with this
    /// one. Error: `NoMemory`.
    #[tactic(auto, using(crate::proofs::RuleListLemmas::right_with_rule))]
    pub fn with_rule(&self, alloc: Global, rule: Rule) -> Result<RuleList, NoMemory>
        ensures list { IfOk result (λ list. list ≡ with_rule rule self.now) }

        // The marks of the list stay right.
        ensures right { IfOk result (λ list. IsRightlyMarked rule.when → AreRightlyMarked self.now
            → AreRightlyMarked list) }
    {
        let rule = Rc::new(alloc, rule)?;
        let mut list = self.shared(alloc)?;
        list.rules.push(rule)?;
        Ok(list)
    }

    /// A list with the same rules and removals, which it shares, and with copies of the warnings and the
    /// unread patterns. Error: `NoMemory`.
    fn shared(&self, alloc: Global) -> Result<RuleList, NoMemory>
        ensures { IfOk result (λ list. list ≡ self.now) }
    {
        let mut list = RuleList::new(alloc);
        share_all(self.rules.as_slice(), &mut list.rules)?;
        share_all(self.removals.as_slice(), &mut list.removals)?;
        copy_warnings(self.warnings.as_slice(), &mut list.warnings)?;
        copy_unread(self.unread.as_slice(), &mut list.unread)?;
        Ok(list)
    }

    /// Adds a warning of the element at a place at the end.
    fn warn(&mut self, origin: Origin, kind: FaultKind, place: usize) -> Result<(), NoMemory>
        ensures { OnOk result (self.new
            ≡ with_warning (warning_at origin place kind) self.old) }
    {
        let warning = Warning {
            origin,
            part: Part::Keybindings,
            kind,
            place,
        };
        self.warnings.push(warning)?;
        Ok(())
    }

    /// Notes the unread patterns of a condition, if it has some, with a warning of the first.
    fn note(&mut self, when: &Option<Clause>, origin: Origin, place: usize) -> Result<(), NoMemory>
        ensures noted { OnOk result
            (self.new ≡ with_unread origin place (unread_when when.now) self.old) }
        ensures whole { OnOk result (marked_when (unread_when when.now) when.now ≡ when.now) }
        ensures right { OnOk result (IsRightlyMarked when.now) }
    {
        let Some(clause) = when else {
            return Ok(());
        };
        let unread = clause.unread();
        if unread.is_empty() {
            return Ok(());
        }
        self.warn(origin, FaultKind::UnreadPattern, place)?;
        push_unread(unread, origin, place, &mut self.unread)
    }

    /// Adds what the element at a place is: a rule at the bottom or a removal, with its unread patterns, or
    /// the warning of its first fault.
    fn take(
        &mut self,
        alloc: Global,
        read: Result<Entry, FaultKind>,
        origin: Origin,
        place: usize,
    ) -> Result<(), NoMemory>
        ensures taken { OnOk result (self.new ≡ with_read origin place read self.old) }
        ensures whole { OnOk result (IsWhole read) }
        ensures right { OnOk result (IsRight read) }
    {
        match read {
            Ok(Entry::Starts(rule)) => self.take_rule(alloc, rule, origin, place),
            Ok(Entry::Removes(removal)) => self.take_removal(alloc, removal, origin, place),
            Err(kind) => self.warn(origin, kind, place),
        }
    }

    /// Adds a rule at the bottom, with its unread patterns.
    fn take_rule(
        &mut self,
        alloc: Global,
        rule: Rule,
        origin: Origin,
        place: usize,
    ) -> Result<(), NoMemory>
        ensures taken { OnOk result (self.new ≡ with_read origin place (Ok (Entry.Starts rule)) self.old) }
        ensures whole { OnOk result (IsWhole (Ok (Entry.Starts rule))) }
        ensures right { OnOk result (IsRight (Ok (Entry.Starts rule))) }
    {
        let rule = Rc::new(alloc, rule)?;
        self.note(&rule.when, origin, place)?;
        self.rules.push(rule)?;
        Ok(())
    }

    /// Adds a removal, with its unread patterns.
    fn take_removal(
        &mut self,
        alloc: Global,
        removal: Removal,
        origin: Origin,
        place: usize,
    ) -> Result<(), NoMemory>
        ensures taken { OnOk result
            (self.new ≡ with_read origin place (Ok (Entry.Removes removal)) self.old) }
        ensures whole { OnOk result (IsWhole (Ok (Entry.Removes removal))) }
        ensures right { OnOk result (IsRight (Ok (Entry.Removes removal))) }
    {
        let removal = Rc::new(alloc, removal)?;
        self.note(&removal.when, origin, place)?;
        self.removals.push(removal)?;
        Ok(())
    }

    /// Adds what each of the values is, to a list of no elements.
    fn take_all(
        &mut self,
        alloc: Global,
        values: Vec<Value>,
        origin: Origin,
        platform: Option<Platform>,
    ) -> Result<(), NoMemory>
        requires { self.old ≡ no_elements }
        ensures read { OnOk result (self.new
            ≡ listed self.new.unread origin platform (map view values.items)) }
        ensures right { OnOk result (AreRightlyMarked self.new) }
        ensures each_once { OnOk result (length self.new.rules + length self.new.removals
            + length (dropped_in self.new) ≡ length values.items) }
    {
        let mut place = 0;
        for value in values {
            let read = read_element(alloc, value, origin, platform, place)?;
            self.take(alloc, read, origin, place)?;
            place += 1;
        }
        Ok(())
    }
}

/// Whether a warning is of an element that was dropped for its fault. Another one is of an element that is
/// kept, though a pattern of its clause isn't read.
pub fn is_dropped(warning: &Warning) -> bool
    ensures { result ≡ is_dropped warning.now }
{
    !warning.kind.is_unread_pattern()
}

/// Adds unread patterns of the element at a place.
fn push_unread(
    patterns: &[UnreadPattern],
    origin: Origin,
    place: usize,
    unread: &mut Seq<EntryPattern>,
) -> Result<(), NoMemory>
    ensures { OnOk result (unread.new ≡ unread.old ++ placed origin Keybindings place patterns.now) }
{
    for pattern in patterns {
        unread.push(EntryPattern {
            origin,
            part: Part::Keybindings,
            place,
            unread: pattern.copied()?,
        })?;
    }
    Ok(())
}

/// Adds warnings at the end of a list.
fn copy_warnings(more: &[Warning], list: &mut Seq<Warning>) -> Result<(), NoMemory>
    ensures { OnOk result (list.new ≡ list.old ++ more.now) }
{
    for warning in more {
        list.push(*warning)?;
    }
    Ok(())
}

/// Adds copies of unread patterns at the end of a list.
fn copy_unread(more: &[EntryPattern], list: &mut Seq<EntryPattern>) -> Result<(), NoMemory>
    ensures { OnOk result (list.new ≡ list.old ++ more.now) }
{
    for pattern in more {
        list.push(EntryPattern {
            origin: pattern.origin,
            part: pattern.part,
            place: pattern.place,
            unread: pattern.unread.copied()?,
        })?;
    }
    Ok(())
}

/// What was read of an element, or its first fault, by how its reading ended; refused memory is neither.
fn judged(read: Result<Entry, Failure<FaultKind>>) -> Result<Result<Entry, FaultKind>, NoMemory>
    ensures { result ≡ judged read }
{
    match read {
        Ok(entry) => Ok(Ok(entry)),
        Err(Failure::Fault(kind)) => Ok(Err(kind)),
        Err(Failure::NoMemory) => Err(AllocError),
    }
}

/// What the element at a place is, or its first fault.
fn read_element(
    alloc: Global,
    value: Value,
    origin: Origin,
    platform: Option<Platform>,
    place: usize,
) -> Result<Result<Entry, FaultKind>, NoMemory>
    ensures { IfOk result (λ read.
        entry_of origin platform place (view value) ≡ seen (marked_entry []) read) }
{
    judged(read_entry(alloc, value, origin, platform, place))
}

/// Reads the elements of a file of rules, or a manifest's key rules for a platform. Each becomes a rule, or a
/// removal where its command begins with `-` (VS Code's documentation), or is dropped with a warning of its
/// first fault. The faults are looked for in this order (our decision): it is no object (41); `command` is
/// absent (40) or no text (41); the keystrokes are absent (40) but in a removal, are no text (41) or can't be
/// read (10 to 12); `when` is no text (41), or is neither blank nor a clause (30 to 33, the clause's first
/// fault); a number in `args`, at any depth, isn't whole within i64 (41). Other members are ignored, and
/// `command` may be empty. A kept one with a pattern that isn't read has a warning too (34), one for all its
/// patterns.
///
/// The keystrokes are those of the platform's member (`mac`, `linux`, `win`), if a platform is given and the
/// member is there, and else those of `key`; the others aren't looked at. A `when` that is absent or blank is
/// no clause (our decision for a blank one). The values are taken, and each is dropped as soon as it is
/// read: of a kept one the command and the arguments are moved. `NoMemory` where memory was refused; it is
/// never a warning.
pub fn read_list(
    alloc: Global,
    values: Vec<Value>,
    origin: Origin,
    platform: Option<Platform>,
) -> Result<RuleList, NoMemory>
    // The list of the values by the marks that it has.
    ensures read { IfOk result (λ list.
        list ≡ listed list.unread origin platform (map view values.items)) }

    // Its marks are right.
    ensures right { IfOk result AreRightlyMarked }

    // What `read` cites: no element is passed over, and none counts twice.
    ensures each_once { IfOk result (λ list. length list.rules + length list.removals
        + length (dropped_in list) ≡ length values.items) }
{
    let mut list = RuleList::new(alloc);
    list.take_all(alloc, values, origin, platform)?;
    Ok(list)
}
