//! The live commands: closures of the host, by native command and by ticket, and handlers of extensions.
ghost use Rattle.std.specs.Prelude.{◌≡◌, ◌≢◌, ℕ, ◌+◌, ◌<◌, ◌≤◌, true, false, slice_get, Some, None, IsTrue};
ghost use Rattle.std.specs.Prelude.{is_some, option_map, option_copied, IfOk, IfSome, IfErr, IfNone, OnOk};
ghost use Rattle.std.specs.Prelude.{OnErr, IsSome};
ghost use Rattle.indexmap.specs.IndexMap.{get, index_map_len};
ghost use Rattle.kb_base.specs.Failure.{IsRefusalOrMemory};
ghost use Rattle.kb_core.specs.Native.{Fits, declaration_of};
ghost use Rattle.kb_core.specs.Ran.{Does};
ghost use Rattle.kb_code.specs.Commands.{declared_by};
ghost use Rattle.kb_code.specs.Found.{callee_of};
ghost use Rattle.kb_handler_table.specs.Live.{live_in, live_group, caller_of, group_of, codes_fault};
ghost use Rattle.kb_code.specs.Face.{same_face};
ghost use Rattle.kb_code.specs.Handler.{handler_named};
ghost use Rattle.kb_handler_table.specs.Live.{handlers_of, same_native, user_of};
ghost use Rattle.kb_registry.specs.Live.{fresh, is_live, registration_fault, registered};
ghost use Rattle.kb_registry.specs.Live.{holder, disposed, disposal_fault, callee, callee_by, table_of};
ghost use Rattle.kb_registry.specs.CodeFault.{callee_fault, code_fault, code_disposal_fault, exchange_fault};
ghost use Rattle.kb_registry.specs.Live.{where_live, with_code, with_exchanged, with_switched, without_code};
ghost use Rattle.kb_registry.specs.Missing.{missing_callee};
ghost use Rattle.kb_registry.specs.Place.{IsPlace};

use crate::command::{HostCommand, Registered};
use crate::fault::RegistryFault;
use crate::missing::Among;
use indexmap::IndexMap;
use kb_base::{Failure, NoMemory};
use kb_code::{Commands, Found, Handler, Linked, Target, same_face};
use kb_core::{Args, Core, Native, Ran, Signature};
use kb_handler_table::{CodeTable, Codes, CodesFault, Group};
use std::alloc::{AllocError, Global};
use std::marker::Model;

/// The number of native commands. No more closures than these can be registered at a time.
const NATIVES: usize = 9;

/// The number of a registration, from 1. `dispose` takes it to end the registration. No number is used
/// twice, so the ticket of an ended registration stays invalid (our decision).
#[derive(Clone, Copy, Debug, PartialEq, Eq)]
pub struct Ticket(pub u64);

/// A registered closure, with its ticket and the signature of its native command.
#[derive(Drop)]
pub struct Entry<C> {
    ticket: u64,
    signature: Signature,
    command: C,
}

/// The registered closures of a host, at most one for each native command, and the code of extensions, whose
/// handlers are live unless they are switched off. Contracts see the native command and the ticket of each
/// registered closure, the number of registrations so far and its limit, and the code of each extension.
#[derive(Drop)]
pub struct Registry<C: HostCommand> {
    alloc: Global,
    limit: u64,
    made: u64,
    table: IndexMap<Native, Entry<C>>,
    /// Where the entry of each native command is likely to be in the table, by its number. Only for speed: a
    /// hint is compared before it is used.
    hints: [usize; NATIVES],
    code: CodeTable,
}

impl<C: HostCommand> Model for Registry<C> {
    ghost use Rattle.kb_registry.specs.Live.{Live};
    ghost use Rattle.kb_registry.specs.Sound.{Sound, plain_entries};

    ghost Value = { Live };

    ghost view = { λ r. record {
      limit = r.limit;
      made = r.made;
      commands = plain_entries (λ e. e.ticket) r.table.entries;
      code = r.code;
    } };

    ghost invariant = { λ r. Sound (λ e. C.stands_for e.command) (λ e. e.signature) (λ e. e.ticket)
        r.limit r.made r.table };
}

/// The number of a native command, below `NATIVES`.
fn number(native: Native) -> usize
    ensures { result < 9 }
{
    match native {
        Native::TypeText => 0,
        Native::DeleteLeft => 1,
        Native::DeleteRight => 2,
        Native::CursorLeft => 3,
        Native::CursorRight => 4,
        Native::BufferClear => 5,
        Native::BufferTop => 6,
        Native::BufferBottom => 7,
        Native::SetContext => 8,
    }
}

/// The number after `number`.
fn following(number: u64, limit: u64) -> u64
    requires { number < limit }
    ensures { result ≡ number + 1 }
{
    number + 1
}

/// The ticket at a place of the table.
fn ticket_at<C>(table: &IndexMap<Native, Entry<C>>, place: usize) -> u64
    requires { place < index_map_len table.now }
    ensures ticket { (e : _) → slice_get table.now.entries place ≡ Some e → e.1.ticket ≡ result }
    ensures got { (e : _) → slice_get table.now.entries place ≡ Some e
        → get same_native table.now e.0 ≡ Some e.1 }
{
    let (_, entry) = table.get_index(place).unwrap();
    entry.ticket
}

/// The entry of a native command, which is looked for at this place of the table first.
fn entry_of<C>(
    table: &IndexMap<Native, Entry<C>>,
    place: usize,
    native: Native,
) -> Option<&Entry<C>>
    ensures { option_copied result ≡ get same_native table.now native }
{
    if let Some((found, entry)) = table.get_index(place) {
        if *found == native {
            return Some(entry);
        }
    }
    table.get(&native)
}

/// The place of a ticket in the table, or `None`.
fn place_of<C>(table: &IndexMap<Native, Entry<C>>, ticket: u64) -> Option<usize>
    ensures place { IsPlace (λ e. e.ticket) table.now.entries ticket result }
    ensures got { IfSome result (λ i. (e : _) → slice_get table.now.entries i ≡ Some e
        → get same_native table.now e.0 ≡ Some e.1) }
{
    for place in 0..table.len() {
        if ticket_at(table, place) == ticket {
            return Some(place);
        }
    }
    None
}

impl<C: HostCommand> Registry<C> {
    /// An empty registry that allows `limit` registrations. It allocates the table of closures at its full
    /// size. Error: `NoMemory`.
    pub fn new(alloc: Global, limit: u64) -> Result<Registry<C>, NoMemory>
        ensures { IfOk result (λ r. r ≡ fresh limit) }
    {
        let table = IndexMap::with_capacity(alloc, NATIVES)?;
        Ok(Registry {
            alloc,
            limit,
            made: 0,
            table,
            hints: [0; NATIVES],
            code: CodeTable::new(alloc),
        })
    }

    /// The reason why no closure can be registered for a native command now, or `None` if one can be.
    /// 70 if one is registered already, else 71 if the limit of registrations is reached.
    pub fn registration_fault(&self, native: Native) -> Option<RegistryFault>
        ensures fault { result ≡ registration_fault native self.now }
        ensures free { IfNone result (is_live native self.now ≡ false) }
        ensures room { IfNone result (self.now.made < self.now.limit) }
    {
        if self.entry(native).is_some() {
            return Some(RegistryFault::AlreadyExists);
        }
        if self.made == self.limit {
            return Some(RegistryFault::Exhausted);
        }
        None
    }

    /// The ticket that the next registration will have.
    pub fn next_ticket(&self) -> Ticket
        requires { self.now.made < self.now.limit }
        ensures { result.0 ≡ self.now.made + 1 }
    {
        Ticket(following(self.made, self.limit))
    }

    /// Registers a closure for its native command, and returns its ticket. On an error the closure is
    /// returned and the registry is unchanged: the fault of `registration_fault` (70 or 71), or
    /// `NoMemory`. Earlier tickets keep their meaning.
    pub fn register(&mut self, command: C) -> Result<Ticket, (C, Failure<RegistryFault>)>
        ensures allowed { OnOk result (registration_fault (C.stands_for command) self.old ≡ None) }
        ensures ticket { IfOk result (λ ticket. ticket.0 ≡ self.old.made + 1) }
        ensures ok { OnOk result (self.new ≡ registered (C.stands_for command) self.old) }
        ensures lasting { OnOk result ((t : ℕ) → t ≤ self.old.made → holder t self.new ≡ holder t self.old) }
        ensures why { let fault = registration_fault (C.stands_for command) self.old in
            IfErr result (λ e. IsRefusalOrMemory fault e.1) }
        ensures back { IfErr result (λ e. e.0 ≡ command) }
        ensures err { OnErr result (self.new ≡ self.old) }
    {
        match self.registration_fault(command.native()) {
            Some(fault) => Err((command, Failure::Fault(fault))),
            None => self
                .register_allowed(command)
                .map_err(|command| (command, Failure::NoMemory)),
        }
    }

    /// Registers a closure for its native command as `register` does, if `registration_fault` was asked
    /// before, and returns its ticket. On refused memory the closure is returned and the registry is
    /// unchanged.
    #[tactic(auto, using(crate::proofs::Allowed::registering))]
    pub fn register_allowed(&mut self, command: C) -> Result<Ticket, C>
        requires { registration_fault (C.stands_for command) self.old ≡ None }
        ensures ticket { IfOk result (λ ticket. ticket.0 ≡ self.old.made + 1) }
        ensures ok { OnOk result (self.new ≡ registered (C.stands_for command) self.old) }
        ensures lasting { OnOk result ((t : ℕ) → t ≤ self.old.made → holder t self.new ≡ holder t self.old) }
        ensures back { IfErr result (λ back. back ≡ command) }
        ensures err { OnErr result (self.new ≡ self.old) }
    {
        let native = command.native();
        match native.signature(self.alloc) {
            Ok(signature) => self.admit(native, signature, command),
            Err(_) => Err(command),
        }
    }

    /// Appends a closure to the table, and returns its ticket, or the closure itself on refused memory.
    fn admit(&mut self, native: Native, signature: Signature, command: C) -> Result<Ticket, C>
        requires native { native ≡ C.stands_for command }
        requires signature { signature ≡ declaration_of native }
        requires free { is_live native self.old ≡ false }
        requires room { self.old.made < self.old.limit }
        ensures ticket { IfOk result (λ ticket. ticket.0 ≡ self.old.made + 1) }
        ensures ok { OnOk result (self.new ≡ registered native self.old) }
        ensures back { IfErr result (λ back. back ≡ command) }
        ensures err { OnErr result (self.new ≡ self.old) }
    {
        let ticket = self.made + 1;
        let entry = Entry {
            ticket,
            signature,
            command,
        };
        let place = self.table.len();
        match self.table.insert(native, entry) {
            Ok(_) => {
                self.made = ticket;
                self.hints[number(native)] = place;
                Ok(Ticket(ticket))
            }
            Err(refused) => {
                let (_, entry) = refused.value;
                let Entry { command, .. } = entry;
                Err(command)
            }
        }
    }

    /// The entry of a native command, or `None` if no closure is registered for it.
    fn entry(&self, native: Native) -> Option<&Entry<C>>
        ensures live { is_some result ≡ is_live native self.now }
        ensures native { IfSome result (λ e. C.stands_for e.now.command ≡ native) }
        ensures signature { IfSome result (λ e. e.now.signature ≡ declaration_of native) }
    {
        entry_of(&self.table, self.hints[number(native)], native)
    }

    /// The native command of the registered closure with a ticket, or `None` if no closure has it.
    pub fn holder(&self, ticket: Ticket) -> Option<Native>
        ensures { result ≡ holder ticket.0 self.now }
    {
        match place_of(&self.table, ticket.0) {
            Some(place) => {
                let (native, _) = self.table.get_index(place).unwrap();
                Some(*native)
            }
            None => None,
        }
    }

    /// The reason why the registration with a ticket can't be ended now, or `None` if it can be. 72 if
    /// no registered closure has the ticket, 73 if a live handler calls its native command.
    pub fn disposal_fault(&self, ticket: Ticket) -> Option<RegistryFault>
        ensures { result ≡ disposal_fault ticket.0 self.now }
    {
        match self.holder(ticket) {
            Some(native) if self.code.caller_of(native).is_some() => Some(RegistryFault::InUse),
            Some(_) => None,
            None => Some(RegistryFault::StaleTicket),
        }
    }

    /// The first live handler, in load and file order, that calls a native command, or `None`.
    pub fn caller_of(&self, native: Native) -> Option<&Handler>
        ensures { option_copied result ≡ caller_of native self.now.code }
    {
        self.code.caller_of(native)
    }

    /// Ends the registration with a ticket and returns its closure. The ticket is invalid from then on,
    /// and other tickets keep their meaning. On the fault of `disposal_fault` (72 or 73) the registry
    /// is unchanged.
    pub fn dispose(&mut self, ticket: Ticket) -> Result<C, RegistryFault>
        ensures closure { IfOk result (λ command. holder ticket.0 self.old ≡ Some (C.stands_for command)) }
        ensures allowed { OnOk result (disposal_fault ticket.0 self.old ≡ None) }
        ensures why { IfErr result (λ fault. disposal_fault ticket.0 self.old ≡ Some fault) }
        ensures ok { OnOk result (self.new ≡ disposed ticket.0 self.old) }
        ensures stale { OnOk result (holder ticket.0 self.new ≡ None) }
        ensures others { OnOk result ((t : ℕ) → t ≢ ticket.0 → holder t self.new ≡ holder t self.old) }
        ensures err { OnErr result (self.new ≡ self.old) }
    {
        match self.disposal_fault(ticket) {
            Some(fault) => Err(fault),
            None => Ok(self.dispose_allowed(ticket)),
        }
    }

    /// Ends the registration with a ticket as `dispose` does, if `disposal_fault` was asked before, and
    /// returns its closure.
    pub fn dispose_allowed(&mut self, ticket: Ticket) -> C
        requires { disposal_fault ticket.0 self.old ≡ None }
        ensures closure { holder ticket.0 self.old ≡ Some (C.stands_for result) }
        ensures ok { self.new ≡ disposed ticket.0 self.old }
        ensures stale { holder ticket.0 self.new ≡ None }
        ensures others { (t : ℕ) → t ≢ ticket.0 → holder t self.new ≡ holder t self.old }
    {
        match place_of(&self.table, ticket.0) {
            Some(place) => {
                let (_, entry) = self.table.shift_remove_index(place).unwrap();
                let Entry { command, .. } = entry;
                command
            }
            None => unreachable!(),
        }
    }

    /// Runs the registered closure of a native command, with arguments that fit it. The run costs at
    /// most the native command's budget, in instructions, or it returns the unchanged core with
    /// `NoMemory`.
    pub fn call(&self, native: Native, core: Core, args: Args) -> Ran
        requires live { IsTrue (is_live native self.now) }
        requires fits { Fits native args }
        ensures { Does native core args result }
    {
        match self.entry(native) {
            Some(entry) => Registered::of(&entry.command).run(core, args),
            None => unreachable!(),
        }
    }

    /// Whether a command with this identifier is live: a native command with a registered closure, or a
    /// handler.
    pub fn is_live(&self, command: &str) -> bool
        ensures { result ≡ is_some (callee command.now self.now) }
    {
        self.signature(command).is_some()
    }

    /// The registered closure of a native command, or `None` if it has none.
    pub fn closure(&self, native: Native) -> Option<Registered<'_, C>>
        ensures native { result ≡ where_live (Some native) self.now }
        ensures live { IfSome result (λ native. IsTrue (is_live native self.now)) }
    {
        match self.entry(native) {
            Some(entry) => Some(Registered::of(&entry.command)),
            None => None,
        }
    }

    /// The signature of the live command with an identifier, or `None` if none is live.
    pub fn signature(&self, command: &str) -> Option<&Signature>
        ensures { option_copied result ≡ option_map declared_by (callee command.now self.now) }
    {
        match Native::named(command) {
            Some(native) => match self.entry(native) {
                Some(entry) => Some(&entry.signature),
                None => None,
            },
            None => match self.code.handler(command) {
                Some(handler) => Some(handler.signature()),
                None => None,
            },
        }
    }

    /// The signature of a native command, or `None` if it has no registered closure.
    pub fn native_signature(&self, native: Native) -> Option<&Signature>
        ensures { option_copied result ≡ option_map declaration_of (where_live (Some native) self.now) }
    {
        match self.entry(native) {
            Some(entry) => Some(&entry.signature),
            None => None,
        }
    }

    /// The code of an extension, live or not, or `None` if it has no code.
    pub fn codes(&self, extension: u32) -> Option<&Codes>
        ensures { option_copied result ≡ group_of extension self.now.code }
    {
        self.code.codes(extension)
    }

    /// The handlers of an extension, live or not, in file order. There are none if it has no code.
    pub fn handlers(&self, extension: u32) -> &[Handler]
        ensures { result.now ≡ handlers_of extension self.now.code }
    {
        self.code.handlers(extension)
    }

    /// The live handler with a name, with its call targets, or `None`.
    pub fn linked(&self, command: &str) -> Option<Linked<'_>>
        ensures { result ≡ handler_named command.now (live_in self.now.code) }
    {
        self.code.linked(command)
    }

    /// The live handler with a name, or `None`.
    pub fn handler(&self, command: &str) -> Option<&Handler>
        ensures { option_copied result ≡ handler_named command.now (live_in self.now.code) }
    {
        self.code.handler(command)
    }

    /// Adds the code of an extension, whose handlers are live then; extensions are numbered in load order,
    /// and the extension has no code yet. On an error the code is returned and the registry is unchanged. 70
    /// if a handler has the name of a native command, of `runCommands`, of a handler of another extension,
    /// live or not, or of another handler of the code; else 74 if a callee of verified code is neither live
    /// nor one of the code's own handlers, with the signature that it had when the code was verified; or
    /// `NoMemory`.
    pub fn register_code(
        &mut self,
        extension: u32,
        codes: Codes,
    ) -> Result<(), (Codes, Failure<RegistryFault>)>
        requires { group_of extension self.old.code ≡ None }
        ensures allowed { OnOk result (code_fault codes self.old ≡ None) }
        ensures ok { OnOk result (self.new ≡ with_code extension codes self.old) }
        ensures why { IfErr result (λ e. IsRefusalOrMemory (code_fault codes self.old) e.1) }
        ensures back { IfErr result (λ e. e.0 ≡ codes) }
        ensures err { OnErr result (self.new ≡ self.old) }
    {
        match self.code.prepare(extension, codes) {
            Ok(group) => self.admit_code(group),
            Err((codes, Failure::Fault(CodesFault::AlreadyExists))) => {
                Err((codes, Failure::Fault(RegistryFault::AlreadyExists)))
            }
            Err((codes, Failure::NoMemory)) => {
                let failure = self.callee_failure(&codes);
                Err((codes, failure))
            }
        }
    }

    /// Adds code with free names to the live handlers.
    fn admit_code(&mut self, group: Group) -> Result<(), (Codes, Failure<RegistryFault>)>
        requires free { codes_fault group.codes.handlers self.old.code ≡ None }
        requires live { group ≡ live_group group.extension group.codes }
        ensures allowed { OnOk result (callee_fault (missing_callee group.codes self.old) ≡ None) }
        ensures ok { OnOk result (self.new ≡ with_code group.extension group.codes self.old) }
        ensures why { let fault = callee_fault (missing_callee group.codes self.old) in
            IfErr result (λ e. IsRefusalOrMemory fault e.1) }
        ensures back { IfErr result (λ e. e.0 ≡ group.codes) }
        ensures err { OnErr result (self.new ≡ self.old) }
    {
        let is_missing = self
            .missing_among(&Among::Group(&group), group.codes())
            .is_some();
        if is_missing {
            let fault = Failure::Fault(RegistryFault::CalleeNotLive);
            return Err((group.into_codes(), fault));
        }
        match self.code.put(group) {
            Ok(()) => Ok(()),
            Err(codes) => Err((codes, Failure::NoMemory)),
        }
    }

    /// The reason why code can't be added when memory was refused: a missing callee, or else refused
    /// memory.
    fn callee_failure(&self, codes: &Codes) -> Failure<RegistryFault>
        ensures { IsRefusalOrMemory (callee_fault (missing_callee codes.now self.now)) result }
    {
        match self.missing_callee(codes) {
            Some(_) => Failure::Fault(RegistryFault::CalleeNotLive),
            None => Failure::NoMemory,
        }
    }

    /// The first live verified handler, in load and file order, of another extension that calls a handler of
    /// this one, or `None`.
    pub fn user_of_code(&self, extension: u32) -> Option<&Handler>
        ensures { option_copied result ≡ user_of extension self.now.code }
    {
        self.code.user_of(extension)
    }

    /// Removes the code of an extension, live or not, and returns it. 73 if a live verified handler of
    /// another extension calls one of its handlers (`user_of_code`); then the registry is unchanged.
    pub fn dispose_code(&mut self, extension: u32) -> Result<Codes, RegistryFault>
        requires { IsSome (group_of extension self.old.code) }
        ensures codes { IfOk result (λ codes. group_of extension self.old.code ≡ Some codes) }
        ensures allowed { OnOk result (code_disposal_fault extension self.old ≡ None) }
        ensures ok { OnOk result (self.new ≡ without_code extension self.old) }
        ensures why { IfErr result (λ fault. code_disposal_fault extension self.old ≡ Some fault) }
        ensures err { OnErr result (self.new ≡ self.old) }
    {
        if self.code.user_of(extension).is_some() {
            return Err(RegistryFault::InUse);
        }
        match self.code.dispose(extension) {
            Some(codes) => Ok(codes),
            None => unreachable!(),
        }
    }

    /// Exchanges the code of an extension, live or not, and returns the code before. On an error the new code
    /// is returned and the registry is unchanged. 95 if the new code doesn't have the same commands
    /// with the same parameters, budgets and depths; else 74 if a callee of verified code is neither live
    /// nor one of the code's own handlers, with the signature that it had when the code was verified; or
    /// `NoMemory`.
    pub fn replace_code(
        &mut self,
        extension: u32,
        codes: Codes,
    ) -> Result<Codes, (Codes, Failure<RegistryFault>)>
        requires { IsSome (group_of extension self.old.code) }
        ensures before { IfOk result (λ before. group_of extension self.old.code ≡ Some before) }
        ensures allowed { OnOk result (exchange_fault extension codes self.old ≡ None) }
        ensures ok { OnOk result (self.new ≡ with_exchanged extension codes self.old) }
        ensures why { IfErr result (λ e. IsRefusalOrMemory (exchange_fault extension codes self.old) e.1) }
        ensures back { IfErr result (λ e. e.0 ≡ codes) }
        ensures err { OnErr result (self.new ≡ self.old) }
    {
        if !same_face(self.handlers(extension), codes.handlers()) {
            return Err((codes, Failure::Fault(RegistryFault::SignatureChanged)));
        }
        if self.missing_callee(&codes).is_some() {
            return Err((codes, Failure::Fault(RegistryFault::CalleeNotLive)));
        }
        match self.code.prepare_exchange(extension, codes) {
            Ok(group) => match self.code.exchange(group) {
                Some(before) => Ok(before),
                None => unreachable!(),
            },
            Err(codes) => Err((codes, Failure::NoMemory)),
        }
    }

    /// Exchanges the code of an extension, live or not, for code with the same commands, parameters, budgets
    /// and depths. Nothing else is checked. Without code of the extension nothing changes. On refused memory
    /// the registry is unchanged.
    pub fn exchange_code(&mut self, extension: u32, codes: Codes) -> Result<(), NoMemory>
        requires { same_face (handlers_of extension self.old.code) codes.handlers ≡ true }
        ensures ok { OnOk result (self.new ≡ with_exchanged extension codes self.old) }
        ensures err { OnErr result (self.new ≡ self.old) }
    {
        match self.code.prepare_exchange(extension, codes) {
            Ok(group) => {
                self.code.exchange(group);
                Ok(())
            }
            Err(_) => Err(AllocError),
        }
    }

    /// Makes the handlers of an extension live, or not live. Nothing is checked: whether a handler that stays
    /// live calls one of them, or whether what they call is live, is the caller's concern. It takes no
    /// memory.
    pub fn switch_code(&mut self, extension: u32, live: bool)
        ensures { self.new ≡ with_switched extension live self.old }
    {
        self.code.switch(extension, live);
    }

    /// The live command with an identifier, found by its resolved target.
    fn found(&self, command: &str, target: Target) -> Option<Found<'_>>
        ensures { option_map callee_of result ≡ callee_by target.native command.now self.now }
    {
        match target.native {
            Some(native) => match self.entry(native) {
                Some(_) => Some(Found::Plain(native)),
                None => None,
            },
            None => match self.code.linked_near(command, target.spot) {
                Some(linked) => Some(Found::Coded(linked)),
                None => None,
            },
        }
    }
}

impl<C: HostCommand> Commands for Registry<C> {
    ghost live = { λ r. table_of r };

    fn command(&self, name: &str, target: Target) -> Option<Found<'_>> {
        self.found(name, target)
    }

    #[tactic(auto, using(crate::proofs::Lives::live_where_called))]
    fn call(&self, native: Native, core: Core, args: Args) -> Ran {
        Registry::call(self, native, core, args)
    }
}
