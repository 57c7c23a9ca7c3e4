//! The table of handlers, by extension and by name.
ghost use Rattle.std.specs.Prelude.{◌≡◌, ◌≤◌, ◌||◌, ◌++◌, ◌∷◌, [], Some, None, OnOk, OnErr, IfOk};
ghost use Rattle.std.specs.Prelude.{IfErr, IfSome, option_copied, is_some, length, take, drop, find};
ghost use Rattle.std.specs.Prelude.{true};
ghost use Rattle.kb_code.specs.Face.{same_face};
ghost use Rattle.std.specs.List.{AllZip};
ghost use Rattle.kb_base.specs.Failure.{IsRefusal, IsRefusalOrMemory};
ghost use Rattle.kb_handler_table.specs.Group.{IsGroup, FindsFirst, is_kept};
ghost use Rattle.kb_handler_table.specs.Live.{handlers_in, is_reserved, codes_fault};
ghost use Rattle.kb_code.specs.Handler.{handler_named};
ghost use Rattle.kb_handler_table.specs.Live.{group_of, with_group, without_group, caller_of, user_of};
ghost use Rattle.kb_handler_table.specs.Live.{calls_one, checked_handlers, exchanged, handlers_of};
ghost use Rattle.kb_handler_table.specs.Live.{live_group};
ghost use Rattle.kb_handler_table.specs.Live.{live_in, switched};
ghost use Rattle.kb_handler_table.specs.Live.{Group as GroupData};
ghost use Rattle.kb_handler_table.specs.Place.{IsPlaceOf};
ghost use Rattle.kb_base.specs.declared.failure.Failure.TheVariants as failure;

use crate::codes::Codes;
use crate::fault::CodesFault;
use crate::group::{Around, Group, links_of};
use crate::links::Links;
use crate::names::Names;
use kb_base::{Failure, NoMemory, Seq};
use kb_code::{Handler, Linked, Spot};
use kb_core::Native;
use std::alloc::Global;
use std::marker::Model;

/// The handlers, by extension and by name. Those of an extension are live unless they are switched off. Names
/// are unique, also of handlers that aren't live. Contracts see the groups of the extensions in load order,
/// each with its handlers.
#[derive(Drop)]
pub struct CodeTable {
    alloc: Global,
    groups: Vec<Group>,
}

impl Model for CodeTable {
    ghost use Rattle.std.specs.Prelude.{List};
    ghost use Rattle.kb_handler_table.specs.Apart.{AreApart};
    ghost use Rattle.kb_handler_table.specs.Live.{Group as GroupData, handlers_in};

    ghost Value = { List GroupData };

    ghost view = { λ t. t.groups.items };

    ghost invariant = { λ t. AreApart (handlers_in t.groups.items) };
}

impl CodeTable {
    /// A table without handlers.
    pub fn new(alloc: Global) -> CodeTable
        ensures { result ≡ [] }
    {
        CodeTable {
            alloc,
            groups: Vec::new(alloc),
        }
    }

    /// The live handler with a name, with its call targets, or `None`.
    #[tactic(auto, using(crate::proofs::Groups::live_passed, crate::proofs::Groups::live_met))]
    pub fn linked(&self, name: &str) -> Option<Linked<'_>>
        ensures { result ≡ handler_named name.now (live_in self.now) }
    {
        for group in self.groups.as_slice() {
            match group.live_linked(name) {
                Some(linked) => return Some(linked),
                None => continue,
            }
        }
        None
    }

    /// The live handler with a name, with its call targets, or `None`. If the handler at `spot` has the
    /// name, it is returned without a look-up; otherwise the handler is looked up by name.
    pub fn linked_near(&self, name: &str, spot: Option<Spot>) -> Option<Linked<'_>>
        ensures { result ≡ handler_named name.now (live_in self.now) }
    {
        match self.linked_at(name, spot) {
            Some(linked) => Some(linked),
            None => self.linked(name),
        }
    }

    /// The live handler at a spot, if it has the name.
    fn linked_at(&self, name: &str, spot: Option<Spot>) -> Option<Linked<'_>>
        ensures { IfSome result (λ h. handler_named name.now (live_in self.now) ≡ Some h) }
    {
        let spot = spot?;
        let place = near(self.groups.as_slice(), spot.extension);
        match self.groups.get(place) {
            Some(group) => group.named_at(spot.place, name),
            None => None,
        }
    }

    /// The live handler with a name, or `None`.
    pub fn handler(&self, name: &str) -> Option<&Handler>
        ensures { option_copied result ≡ handler_named name.now (live_in self.now) }
    {
        match self.linked(name) {
            Some(linked) => Some(linked.handler()),
            None => None,
        }
    }

    /// The first live handler, in load and file order, that calls the native command, or `None`.
    #[tactic(auto, using(crate::proofs::Groups::live_passed, crate::proofs::Groups::live_met))]
    pub fn caller_of(&self, native: Native) -> Option<&Handler>
        ensures { option_copied result ≡ caller_of native self.now }
    {
        for group in self.groups.as_slice() {
            match group.caller_of(native) {
                Some(caller) => return Some(caller),
                None => continue,
            }
        }
        None
    }

    /// The first verified handler, in load and file order, of another extension that calls a handler of this
    /// one, or `None`.
    pub fn user_of(&self, extension: u32) -> Option<&Handler>
        ensures { option_copied result ≡ user_of extension self.now }
    {
        let groups = self.groups.as_slice();
        let Some(place) = place_of(groups, extension) else {
            return None;
        };
        let own = &groups[place];
        match user_among(own, &groups[..place]) {
            Some(user) => Some(user),
            None => user_among(own, &groups[place + 1..]),
        }
    }

    /// Prepares the code of an extension for `put`. On an error the code is returned: `AlreadyExists`
    /// (70) if a handler has a name that is taken, also by one that isn't live; `NoMemory` only if none has.
    pub fn prepare(
        &self,
        extension: u32,
        codes: Codes,
    ) -> Result<Group, (Codes, Failure<CodesFault>)>
        ensures free { OnOk result (codes_fault codes.handlers self.now ≡ None) }
        ensures ok { IfOk result (λ group. group ≡ live_group extension codes) }
        ensures why { IfErr result (λ e. IsRefusalOrMemory (codes_fault codes.handlers self.now) e.1) }
        ensures back { IfErr result (λ e. e.0 ≡ codes) }
    {
        match self.resolved(extension, codes.handlers()) {
            Ok((links, names)) => Ok(Group::new(extension, codes, links, names)),
            Err(Failure::Fault(fault)) => Err((codes, Failure::Fault(fault))),
            Err(Failure::NoMemory) => {
                let failure = self.failure_of(codes.handlers());
                Err((codes, failure))
            }
        }
    }

    /// Adds a prepared group, whose handlers are live then. On refused memory the code is returned and the
    /// table is unchanged.
    #[tactic(auto, using(crate::proofs::Apart::put_stays))]
    pub fn put(&mut self, group: Group) -> Result<(), Codes>
        requires { codes_fault group.codes.handlers self.old ≡ None }
        ensures ok { OnOk result (self.new ≡ with_group group self.old) }
        ensures back { IfErr result (λ back. back ≡ group.codes) }
        ensures err { OnErr result (self.new ≡ self.old) }
    {
        let place = place_for(self.groups.as_slice(), group.extension());
        match self.groups.insert(place, group) {
            Ok(()) => Ok(()),
            Err(refused) => Err(refused.value.into_codes()),
        }
    }

    /// Prepares other code of an extension for `exchange`. On refused memory the code is returned.
    pub fn prepare_exchange(&self, extension: u32, codes: Codes) -> Result<Group, Codes>
        ensures ok { IfOk result (λ group. group ≡ live_group extension codes) }
        ensures back { IfErr result (λ back. back ≡ codes) }
    {
        match self.resolved_alone(extension, codes.handlers()) {
            Ok((links, names)) => Ok(Group::new(extension, codes, links, names)),
            Err(_) => Err(codes),
        }
    }

    /// Puts the code of a prepared group in the place of the extension's code, and returns that, or `None` if
    /// the extension has no group in the table; then nothing changes. Both declare the same commands. The
    /// handlers stay live, or not live.
    pub fn exchange(&mut self, group: Group) -> Option<Codes>
        requires { same_face (handlers_of group.extension self.old) group.codes.handlers ≡ true }
        ensures codes { result ≡ group_of group.extension self.old }
        ensures table { self.new ≡ exchanged group.extension group.codes self.old }
    {
        match place_of(self.groups.as_slice(), group.extension()) {
            Some(place) => Some(self.groups[place].take_code(group)),
            None => None,
        }
    }

    /// Makes the handlers of an extension live, or not live. Nothing changes if it has no group in the table.
    pub fn switch(&mut self, extension: u32, live: bool)
        ensures { self.new ≡ switched extension live self.old }
    {
        match place_of(self.groups.as_slice(), extension) {
            Some(place) => self.groups[place].switch(live),
            None => {}
        }
    }

    /// The code of an extension, live or not, or `None` if it has no group in the table.
    pub fn codes(&self, extension: u32) -> Option<&Codes>
        ensures { option_copied result ≡ group_of extension self.now }
    {
        match place_of(self.groups.as_slice(), extension) {
            Some(place) => Some(self.groups[place].codes()),
            None => None,
        }
    }

    /// The handlers of an extension, live or not, in file order. There are none if it has no group in the
    /// table.
    pub fn handlers(&self, extension: u32) -> &[Handler]
        ensures { result.now ≡ handlers_of extension self.now }
    {
        match self.codes(extension) {
            Some(codes) => codes.handlers(),
            None => &[],
        }
    }

    /// Removes the group of an extension and returns its code, or `None` if it has no group in the
    /// table.
    pub fn dispose(&mut self, extension: u32) -> Option<Codes>
        ensures codes { result ≡ group_of extension self.old }
        ensures table { self.new ≡ without_group extension self.old }
    {
        match place_of(self.groups.as_slice(), extension) {
            Some(place) => Some(self.groups.remove(place).into_codes()),
            None => None,
        }
    }

    /// Whether a name is reserved or already used by a handler, live or not.
    fn has(&self, name: &str) -> bool
        ensures { result ≡ (is_reserved name.now || is_some (handler_named name.now (handlers_in self.now))) }
    {
        Native::named(name).is_some() || name == "runCommands" || self.any_linked(name).is_some()
    }

    /// The handler with a name, live or not, with its call targets, or `None`.
    #[tactic(auto, using(crate::proofs::Groups::passed, crate::proofs::Groups::met))]
    fn any_linked(&self, name: &str) -> Option<Linked<'_>>
        ensures { result ≡ handler_named name.now (handlers_in self.now) }
    {
        for group in self.groups.as_slice() {
            match group.linked(name) {
                Some(linked) => return Some(linked),
                None => continue,
            }
        }
        None
    }

    /// The data that is resolved once for a group: the links of its handlers, and their places by name.
    fn resolved(
        &self,
        extension: u32,
        handlers: &[Handler],
    ) -> Result<(Seq<Links>, Names), Failure<CodesFault>>
        ensures ok { IfOk result (λ r. IsGroup r.1 r.0 handlers.now) }
        ensures free { OnOk result (codes_fault handlers.now self.now ≡ None) }
        ensures err { IfErr result (λ failure. IsRefusal (codes_fault handlers.now self.now) failure) }
    {
        let names = self.names_of(handlers)?;
        let around = Around {
            groups: self.groups.as_slice(),
            extension,
            names: &names,
        };
        let links = links_of(self.alloc, handlers, &around)?;
        Ok((links, names))
    }

    /// The same for a group that takes the place of the extension's group, so its names are free.
    fn resolved_alone(
        &self,
        extension: u32,
        handlers: &[Handler],
    ) -> Result<(Seq<Links>, Names), NoMemory>
        ensures { IfOk result (λ r. IsGroup r.1 r.0 handlers.now) }
    {
        let names = names_among(self.alloc, handlers)?;
        let around = Around {
            groups: self.groups.as_slice(),
            extension,
            names: &names,
        };
        let links = links_of(self.alloc, handlers, &around)?;
        Ok((links, names))
    }

    /// The places of handlers by name.
    fn names_of(&self, handlers: &[Handler]) -> Result<Names, Failure<CodesFault>>
        ensures found { IfOk result (λ names. FindsFirst names handlers.now handlers.now) }
        ensures free { OnOk result (codes_fault handlers.now self.now ≡ None) }
        ensures err { IfErr result (λ failure. IsRefusal (codes_fault handlers.now self.now) failure) }
    {
        let mut names = Names::new(self.alloc);
        for place in 0..handlers.len() {
            let name = handlers[place].command();
            if self.has(name.as_str()) || is_kept(&names, handlers, name.as_str()) {
                return Err(Failure::Fault(CodesFault::AlreadyExists));
            }
            names.keep(name.copied()?, place)?;
        }
        Ok(names)
    }

    /// The reason why handlers can't be added when memory was refused: a name that is taken, or else
    /// refused memory.
    #[tactic(auto, using(crate::proofs::Taken::taking))]
    fn failure_of(&self, handlers: &[Handler]) -> Failure<CodesFault>
        ensures { IsRefusalOrMemory (codes_fault handlers.now self.now) result }
    {
        for place in 0..handlers.len() {
            let name = handlers[place].command().as_str();
            if self.has(name) || is_named(&handlers[..place], name) {
                return Failure::Fault(CodesFault::AlreadyExists);
            }
        }
        Failure::NoMemory
    }
}

/// The places of handlers by name. Of equal names the first counts.
fn names_among(alloc: Global, handlers: &[Handler]) -> Result<Names, NoMemory>
    ensures { IfOk result (λ names. FindsFirst names handlers.now handlers.now) }
{
    let mut names = Names::new(alloc);
    for place in 0..handlers.len() {
        let name = handlers[place].command();
        if !is_kept(&names, handlers, name.as_str()) {
            names.keep(name.copied()?, place)?;
        }
    }
    Ok(names)
}

/// The first verified handler of the groups that calls a handler of `own`.
#[tactic(auto, using(crate::proofs::Groups::user_passed, crate::proofs::Groups::user_met))]
fn user_among<'a>(own: &Group, groups: &'a [Group]) -> Option<&'a Handler>
    ensures { option_copied result ≡ find (calls_one own.now.codes.handlers) (checked_handlers groups.now) }
{
    for group in groups {
        match group.user_of(own) {
            Some(user) => return Some(user),
            None => continue,
        }
    }
    None
}

/// The last place up to `extension` whose group has at most this number, or 0. It is that of the extension's
/// group, if it has one, since groups are in load order. It is only a hint: no contract depends on it.
fn near(groups: &[Group], extension: u32) -> usize {
    let end = groups.len().min(extension as usize + 1);
    for place in (0..end).rev() {
        if groups[place].extension() <= extension {
            return place;
        }
    }
    0
}

/// Whether one of the handlers has the name, by the places in `names`.
fn is_kept(names: &Names, handlers: &[Handler], name: &str) -> bool
    ensures { result ≡ is_kept names.now handlers.now name.now }
{
    match names.place(name) {
        Some(place) => place < handlers.len(),
        None => false,
    }
}

/// Whether one of the handlers has the name.
fn is_named(handlers: &[Handler], name: &str) -> bool
    ensures { result ≡ is_some (handler_named name.now handlers.now) }
{
    for handler in handlers {
        if name == handler.command().as_str() {
            return true;
        }
    }
    false
}

/// The place of a new group of the extension, which keeps the load order.
fn place_for(groups: &[Group], extension: u32) -> usize
    ensures within { result ≤ length groups.now }
    ensures place { (g : GroupData) → g.extension ≡ extension
        → with_group g groups.now ≡ take result groups.now ++ g ∷ drop result groups.now }
{
    for place in 0..groups.len() {
        if extension < groups[place].extension() {
            return place;
        }
    }
    groups.len()
}

/// The place of the extension's group, or `None`.
fn place_of(groups: &[Group], extension: u32) -> Option<usize>
    ensures { IsPlaceOf extension groups.now result }
{
    for place in 0..groups.len() {
        if groups[place].extension() == extension {
            return Some(place);
        }
    }
    None
}
