//! Resolved call targets of a handler.
ghost use Rattle.std.specs.Prelude.{◌≡◌, ◌||◌, None, map, IfOk, OnOk, get_or};
ghost use Rattle.std.specs.List.{list_any};
ghost use Rattle.kb_core.specs.Native.{named};
ghost use Rattle.kb_core.specs.declared.native.Native.{Native};
ghost use Rattle.kb_code.specs.Target.{natives_in};
ghost use Rattle.kb_handler_table.specs.Links.{AreLinks};
ghost use Rattle.kb_handler_table.specs.Live.{same_native, is_it};

use crate::group::Around;
use kb_base::{NoMemory, Seq, Text};
use kb_code::{Handler, Target};
use kb_core::Native;
use std::alloc::Global;

/// The target of each name in a handler's list of calls, and the native commands that reachable calls
/// name, without repetition.
#[derive(Drop)]
pub(crate) struct Links {
    pub targets: Seq<Target>,
    pub called: Seq<Native>,
}

impl Links {
    /// The links of a handler, resolved among the handlers of `around`.
    pub(crate) fn new(
        alloc: Global,
        handler: &Handler,
        around: &Around<'_>,
    ) -> Result<Links, NoMemory>
        ensures { IfOk result (λ links. AreLinks links handler.now) }
    {
        let targets = targets_named(alloc, handler.calls(), around)?;
        let callees = handler.callees(alloc)?;
        let called = called_among(alloc, targets.as_slice(), callees.as_slice())?;
        Ok(Links { targets, called })
    }

    /// Whether a reachable call names the native command.
    pub(crate) fn calls(&self, native: Native) -> bool
        ensures { result ≡ list_any (λ n. same_native n native) self.now.called }
    {
        self.called.as_slice().contains(&native)
    }
}

/// The target of each name.
fn targets_named(
    alloc: Global,
    names: &[Text],
    around: &Around<'_>,
) -> Result<Seq<Target>, NoMemory>
    ensures { IfOk result (λ targets. natives_in targets ≡ map named names.now) }
{
    let mut targets = Vec::with_capacity(alloc, names.len())?;
    for name in names {
        targets.push(target_of(name.as_str(), around))?;
    }
    Ok(Seq::from_vec(targets))
}

/// The target of a name: a native command, or the spot of a handler.
fn target_of(name: &str, around: &Around<'_>) -> Target
    ensures { result.native ≡ named name.now }
{
    match Native::named(name) {
        Some(native) => Target::of(Some(native)),
        None => Target {
            native: None,
            spot: around.spot(name),
        },
    }
}

/// The native commands at these places of the list of calls, without repetition.
fn called_among(alloc: Global, targets: &[Target], callees: &[u16]) -> Result<Seq<Native>, NoMemory>
    ensures { IfOk result (λ called. (native : Native) → list_any (λ n. same_native n native) called
        ≡ list_any (λ n. is_it native (get_or (natives_in targets.now) n None)) callees.now) }
{
    let mut called = Vec::new(alloc);
    for callee in callees {
        add_called(&mut called, native_at(targets, *callee))?;
    }
    Ok(Seq::from_vec(called))
}

/// The native command at a place, or `None`.
fn native_at(targets: &[Target], place: u16) -> Option<Native>
    ensures { result ≡ get_or (natives_in targets.now) place None }
{
    match targets.get(usize::from(place)) {
        Some(target) => target.native,
        None => None,
    }
}

/// Adds a native command, if there is one and the list doesn't have it yet.
fn add_called(called: &mut Vec<Native>, native: Option<Native>) -> Result<(), NoMemory>
    ensures { OnOk result ((other : Native) → list_any (λ n. same_native n other) called.new.items
        ≡ (list_any (λ n. same_native n other) called.old.items || is_it other native)) }
{
    match native {
        Some(native) if !called.contains(&native) => called.push(native)?,
        _ => {}
    }
    Ok(())
}
