//! The search for a callee of verified code that is not live, or whose signature changed since the
//! verification, and for a native command without a closure.
ghost use Rattle.std.specs.Prelude.{◌≡◌, ◌||◌, option_copied, slice_get};
ghost use Rattle.kb_registry.specs.Among.{there_by};
ghost use Rattle.kb_code.specs.Face.{declared_among, declares};
ghost use Rattle.kb_registry.specs.Missing.{declared_live, has_closure, unless_there};
ghost use Rattle.kb_registry.specs.Missing.{missing_by, missing_callee, missing_from, missing_in};
ghost use Rattle.kb_registry.specs.Missing.{native_missing};

use crate::command::HostCommand;
use crate::registry::Registry;
use kb_base::{Seq, Text};
use kb_code::Handler;
use kb_core::{Native, Signature};
use kb_handler_table::{Codes, Group};
use kb_verify::{Callee, SharedSignature};

/// Where the callees of code are looked up. Among the live commands and the code's own handlers: as a group,
/// which finds a handler by its name in a map, or as a list, which is searched in order. Or among native
/// commands alone; each other callee counts as found then.
#[derive(Drop)]
pub(crate) enum Among<'a> {
    Group(&'a Group),
    List(&'a [Handler]),
    Natives,
}

/// The signature of the first handler with a name.
fn signature_in<'a>(handlers: &'a [Handler], name: &str) -> Option<&'a Signature>
    ensures { option_copied result ≡ declared_among handlers.now name.now }
{
    for handler in handlers {
        if name == handler.command().as_str() {
            return Some(handler.signature());
        }
    }
    None
}

/// Whether a command exists and declares this signature.
fn declares(signature: Option<&Signature>, declared: &SharedSignature) -> bool
    ensures { result ≡ declares (option_copied signature.entry) declared.now }
{
    match signature {
        Some(signature) => declared.is_same(signature),
        None => false,
    }
}

impl<C: HostCommand> Registry<C> {
    /// The name of the first callee of the code, in file order and order of place, that is missing. A
    /// callee is missing if neither the live command nor the code's own handler of its name has the
    /// signature that was declared when the code was verified. `None` if no callee is missing, or if
    /// the code was not verified.
    pub fn missing_callee<'a>(&self, codes: &'a Codes) -> Option<&'a Text>
        ensures { option_copied result ≡ missing_callee codes.now self.now }
    {
        self.missing_among(&Among::List(codes.handlers()), codes)
    }

    /// The name of the first callee of an extension's code, in file order and order of place, that is a
    /// native command without a registered closure. `None` if there is none, if the code was not verified,
    /// or if the extension has no code.
    pub fn missing_native(&self, extension: u32) -> Option<&Text>
        ensures { option_copied result ≡ native_missing extension self.now }
    {
        match self.codes(extension) {
            Some(codes) => self.missing_among(&Among::Natives, codes),
            None => None,
        }
    }

    /// The name of the first callee of the code that isn't found there.
    pub(crate) fn missing_among<'a>(&self, among: &Among<'_>, codes: &'a Codes) -> Option<&'a Text>
        ensures { option_copied result
            ≡ missing_by (there_by among.now self.now) codes.now.callees codes.now.handlers }
    {
        match codes.callees() {
            Some(callees) => self.missing_from(among, codes.handlers(), callees),
            None => None,
        }
    }

    /// The name of the first missing callee of handlers.
    #[tactic(auto, using(crate::proofs::MissingLemmas::finding))]
    fn missing_from<'a>(
        &self,
        among: &Among<'_>,
        handlers: &'a [Handler],
        callees: &[Seq<Callee>],
    ) -> Option<&'a Text>
        ensures { option_copied result
            ≡ missing_from (there_by among.now self.now) handlers.now callees.now }
    {
        for place in 0..handlers.len() {
            let missing = match callees.get(place) {
                Some(callees) => self.missing_in(among, &handlers[place], callees.as_slice()),
                None => return None,
            };
            if missing.is_some() {
                return missing;
            }
        }
        None
    }

    /// The name of the first missing callee of a handler.
    fn missing_in<'a>(
        &self,
        among: &Among<'_>,
        handler: &'a Handler,
        callees: &[Callee],
    ) -> Option<&'a Text>
        ensures { option_copied result ≡ missing_in (there_by among.now self.now) handler.now callees.now }
    {
        for callee in callees {
            let missing = self.unless_there(among, handler, callee);
            if missing.is_some() {
                return missing;
            }
        }
        None
    }

    /// The name of a handler's callee if it is missing, else `None`.
    fn unless_there<'a>(
        &self,
        among: &Among<'_>,
        handler: &'a Handler,
        callee: &Callee,
    ) -> Option<&'a Text>
        ensures { option_copied result ≡ unless_there (there_by among.now self.now)
            callee.now.signature (slice_get handler.now.calls callee.now.index) }
    {
        match handler.calls().get(usize::from(callee.index)) {
            Some(name) if self.is_there(among, &callee.signature, name.as_str()) => None,
            name => name,
        }
    }

    /// Whether the command of a name is there, with this signature.
    fn is_there(&self, among: &Among<'_>, declared: &SharedSignature, name: &str) -> bool
        ensures { result ≡ there_by among.now self.now declared.now name.now }
    {
        match among {
            Among::Group(group) => self.is_live_or(group.signature(name), declared, name),
            Among::List(handlers) => self.is_live_or(signature_in(handlers, name), declared, name),
            Among::Natives => self.has_closure(Native::named(name)),
        }
    }

    /// Whether the live command of a name, or else another command, has this signature.
    fn is_live_or(&self, other: Option<&Signature>, declared: &SharedSignature, name: &str) -> bool
        ensures { result ≡ (declares (declared_live self.now name.now) declared.now
            || declares (option_copied other.entry) declared.now) }
    {
        declares(self.signature(name), declared) || declares(other, declared)
    }

    /// Whether a closure is registered for a native command, if there is one.
    fn has_closure(&self, native: Option<Native>) -> bool
        ensures { result ≡ has_closure native self.now }
    {
        match native {
            Some(native) => self.native_signature(native).is_some(),
            None => true,
        }
    }
}
