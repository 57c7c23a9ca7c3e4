//! The code of an extension, with the data that is resolved once for it.
ghost use Rattle.std.specs.Prelude.{◌≡◌, IfOk, IfSome, find, length, slice_get, option_copied};
ghost use Rattle.std.specs.Prelude.{map, option_map};
ghost use Rattle.std.specs.List.{AllZip, list_any};
ghost use Rattle.kb_handler_table.specs.Group.{IsGroup, IsNamedAt};
ghost use Rattle.kb_handler_table.specs.Links.{AreLinks};
ghost use Rattle.kb_handler_table.specs.Codes.{checked_in};
ghost use Rattle.kb_handler_table.specs.Live.{calls_native, calls_one, checked_live, live_group, live_of};
ghost use Rattle.kb_handler_table.specs.Live.{names_one};
ghost use Rattle.kb_verify.specs.Accepted.{EachChecked};
ghost use Rattle.kb_code.specs.Handler.{handler_named};

use crate::codes::Codes;
use crate::links::Links;
use crate::names::Names;
use kb_base::{NoMemory, Seq};
use kb_code::{Handler, Linked, Spot};
use kb_core::{Native, Signature};
use kb_verify::Callee;
use std::alloc::Global;
use std::marker::Model;
use std::mem;

/// The code of an extension, with the extension's number in load order, and whether its handlers are live.
/// Contracts see all three.
#[derive(Drop)]
pub struct Group {
    extension: u32,
    codes: Codes,
    live: bool,
    links: Seq<Links>,
    names: Names,
}

/// The handlers among which names are resolved: those of the groups, and those of the extension that is about
/// to be added.
#[derive(Drop)]
pub(crate) struct Around<'a> {
    pub groups: &'a [Group],
    pub extension: u32,
    pub names: &'a Names,
}

impl<'a> Around<'a> {
    /// The spot of the handler with a name, first among the extension's own handlers, then among those of
    /// the groups. It is only a hint: no contract depends on it.
    pub(crate) fn spot(&self, name: &str) -> Option<Spot> {
        if let Some(place) = self.names.place(name) {
            return Some(Spot {
                extension: self.extension,
                place,
            });
        }
        for group in self.groups {
            if let Some(spot) = group.spot(name) {
                return Some(spot);
            }
        }
        None
    }
}

impl Model for Group {
    ghost use Rattle.kb_handler_table.specs.Group.{IsGroup};
    ghost use Rattle.kb_handler_table.specs.Live.{Group as GroupData};

    ghost Value = { GroupData };

    ghost view = { λ g. record { extension = g.extension; codes = g.codes; live = g.live } };

    ghost invariant = { λ g. IsGroup g.names g.links g.codes.handlers };
}

impl Group {
    /// A group of live handlers, with their links and names.
    pub(crate) fn new(extension: u32, codes: Codes, links: Seq<Links>, names: Names) -> Group
        requires { IsGroup names links codes.handlers }
        ensures { result ≡ live_group extension codes }
    {
        Group {
            extension,
            codes,
            live: true,
            links,
            names,
        }
    }

    /// The number of the extension.
    pub(crate) fn extension(&self) -> u32
        ensures { result ≡ self.now.extension }
    {
        self.extension
    }

    /// The code.
    pub fn codes(&self) -> &Codes
        ensures { result.now ≡ self.now.codes }
    {
        &self.codes
    }

    /// The code, by value.
    pub fn into_codes(self) -> Codes
        ensures { result ≡ self.codes }
    {
        let Group { codes, .. } = self;
        codes
    }

    /// Makes the handlers live, or not live.
    pub(crate) fn switch(&mut self, live: bool)
        ensures { self.new ≡ record self.old { live = live } }
    {
        self.live = live;
    }

    /// Takes the code of another group, and returns its own. Its handlers stay live, or not live.
    pub(crate) fn take_code(&mut self, other: Group) -> Codes
        ensures codes { result ≡ self.old.codes }
        ensures group { self.new ≡ record self.old { codes = other.codes } }
    {
        let Group {
            codes,
            links,
            names,
            ..
        } = other;
        self.links = links;
        self.names = names;
        mem::replace(&mut self.codes, codes)
    }

    /// The live handler with a name, with its links.
    pub(crate) fn live_linked(&self, name: &str) -> Option<Linked<'_>>
        ensures { result ≡ handler_named name.now (live_of self.now) }
    {
        if self.live { self.linked(name) } else { None }
    }

    /// The handler with a name, live or not, with its links.
    pub(crate) fn linked(&self, name: &str) -> Option<Linked<'_>>
        ensures { result ≡ handler_named name.now self.now.codes.handlers }
    {
        match self.names.place(name) {
            Some(place) => linked_at(self.codes.handlers(), self.links.as_slice(), place),
            None => None,
        }
    }

    /// The handler at a place, with its links, if it is live and has the name.
    pub(crate) fn named_at(&self, place: usize, name: &str) -> Option<Linked<'_>>
        ensures { IfSome result (λ h. IsNamedAt name.now (live_of self.now) place h) }
    {
        if !self.live {
            return None;
        }
        match linked_at(self.codes.handlers(), self.links.as_slice(), place) {
            Some(linked) if linked.handler().command().as_str() == name => Some(linked),
            _ => None,
        }
    }

    /// The spot of the handler with a name.
    pub(crate) fn spot(&self, name: &str) -> Option<Spot> {
        match self.names.place(name) {
            Some(place) => Some(Spot {
                extension: self.extension,
                place,
            }),
            None => None,
        }
    }

    /// The signature of the handler with a name, or `None`.
    pub fn signature(&self, name: &str) -> Option<&Signature>
        ensures { option_copied result
            ≡ option_map (λ h. h.signature) (handler_named name.now self.now.codes.handlers) }
    {
        match self.linked(name) {
            Some(linked) => Some(linked.handler().signature()),
            None => None,
        }
    }

    /// Whether one of the handlers has the name at an index of a handler's list of calls.
    fn is_named_at(&self, handler: &Handler, index: u16) -> bool
        ensures { result ≡ names_one self.now.codes.handlers (slice_get handler.now.calls index) }
    {
        match handler.calls().get(usize::from(index)) {
            Some(name) => self.linked(name.as_str()).is_some(),
            None => false,
        }
    }

    /// The first live handler that calls a handler of `own`, if the code was verified.
    pub(crate) fn user_of(&self, own: &Group) -> Option<&Handler>
        ensures { option_copied result ≡ find (calls_one own.now.codes.handlers) (checked_live self.now) }
    {
        if self.live {
            user_among(own, &self.codes)
        } else {
            None
        }
    }

    /// The first live handler that calls the native command.
    pub(crate) fn caller_of(&self, native: Native) -> Option<&Handler>
        ensures { option_copied result ≡ find (calls_native native) (live_of self.now) }
    {
        if self.live {
            caller_in(self.codes.handlers(), self.links.as_slice(), native)
        } else {
            None
        }
    }
}

/// The first handler of the code that calls a handler of `own`, if the code was verified.
fn user_among<'a>(own: &Group, codes: &'a Codes) -> Option<&'a Handler>
    ensures { option_copied result ≡ find (calls_one own.now.codes.handlers) (checked_in codes.now) }
{
    match codes.callees() {
        Some(callees) => user_in(own, codes.handlers(), callees),
        None => None,
    }
}

/// Whether one of the handler's callees is a handler of `own`.
fn calls_one(own: &Group, handler: &Handler, callees: &[Callee]) -> bool
    ensures { result ≡ list_any (λ n. names_one own.now.codes.handlers (slice_get handler.now.calls n))
        (map (λ c. c.index) callees.now) }
{
    for callee in callees {
        if own.is_named_at(handler, callee.index) {
            return true;
        }
    }
    false
}

/// The first of the handlers that calls a handler of `own`, by the callees of each.
#[tactic(auto, using(crate::proofs::GroupLemmas::many_callees))]
fn user_in<'a>(own: &Group, handlers: &'a [Handler], callees: &[Seq<Callee>]) -> Option<&'a Handler>
    requires { EachChecked handlers.now callees.now }
    ensures { option_copied result ≡ find (calls_one own.now.codes.handlers) handlers.now }
{
    for place in 0..handlers.len() {
        let handler = &handlers[place];
        if calls_one(own, handler, callees[place].as_slice()) {
            return Some(handler);
        }
    }
    None
}

/// The first of the handlers that calls the native command.
#[tactic(auto, using(crate::proofs::GroupLemmas::searching))]
fn caller_in<'a>(handlers: &'a [Handler], links: &'a [Links], native: Native) -> Option<&'a Handler>
    requires { AllZip AreLinks links.now handlers.now }
    ensures { option_copied result ≡ find (calls_native native) handlers.now }
{
    for place in 0..handlers.len() {
        if links[place].calls(native) {
            return Some(&handlers[place]);
        }
    }
    None
}

/// The handler at a place, with its links.
#[tactic(auto, using(crate::proofs::GroupLemmas::as_long, crate::proofs::GroupLemmas::its_natives))]
fn linked_at<'a>(handlers: &'a [Handler], links: &'a [Links], place: usize) -> Option<Linked<'a>>
    requires { AllZip AreLinks links.now handlers.now }
    ensures { result ≡ slice_get handlers.now place }
{
    if place < handlers.len() {
        return Some(Linked::new(&handlers[place], links[place].targets.as_slice()));
    }
    None
}

/// The links of handlers, resolved among the handlers of `around`.
#[tactic(auto, using(crate::proofs::GroupLemmas::one_more))]
pub(crate) fn links_of(
    alloc: Global,
    handlers: &[Handler],
    around: &Around<'_>,
) -> Result<Seq<Links>, NoMemory>
    ensures { IfOk result (λ links. AllZip AreLinks links handlers.now) }
{
    let mut links = Vec::with_capacity(alloc, handlers.len())?;
    for handler in handlers {
        links.push(Links::new(alloc, handler, around)?)?;
    }
    Ok(Seq::from_vec(links))
}
