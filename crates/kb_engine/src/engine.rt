//! An engine as a host holds it: it is given files, then it is loaded, and then it is told events.
ghost use Rattle.std.specs.Prelude.{◌≡◌, option_map};
ghost use Rattle.kb_core.specs.Native.{natives};
ghost use Rattle.kb_engine.specs.Engine.{GivesExtension, GivesFile, GivesPlatform, Halts, IsEarly, LoadsBy};
ghost use Rattle.kb_engine.specs.Engine.{Tells, TellsLine, new_engine};
ghost use Rattle.kb_bindings.specs.Load.{MarksAreRight};
ghost use Rattle.kb_session.specs.Session.{IsOf};

use crate::files::{HostFiles, copied, is_file, platform_numbered};
use crate::notice::{refusal_text, warnings_text};
use crate::outcome::Outcome;
use crate::plain::PlainCommand;
use crate::running::Running;
use crate::taken::{Taken, TakenKind, nothing_taken};
use crate::telling::{tell_line_noted, tell_noted};
use kb_base::{Failure, Text};
use kb_session::Session;
use kb_trace::Event;
use std::alloc::Global;
use std::marker::Model;

mod inputs;
mod lookups;
mod reads;

/// An engine: its files, and the session that was loaded from them. Contracts see both, with the notice of
/// the last load, what the last event or look-up took, and the keystrokes that were looked up last.
#[derive(Drop)]
pub struct Engine {
    files: HostFiles,
    running: Option<Running>,
    notice: Text,
    taken: Taken,
    shown: Text,
    alloc: Global,
}

impl Model for Engine {
    ghost use Rattle.std.specs.Coded.{codes};
    ghost use Rattle.kb_core.specs.contracts.core_state.Core as whole;
    ghost use Rattle.kb_files.specs.contracts.extension_file.Extension as extension;
    ghost use Rattle.kb_rules.specs.contracts.removal.Removal as removal;
    ghost use Rattle.kb_rules.specs.contracts.rule.Rule as rule;
    ghost use Rattle.kb_base.specs.contracts.note.EntryPattern as marks;
    ghost use Rattle.kb_base.specs.contracts.note.Warning as warning;
    ghost use Rattle.kb_engine.specs.Values.{EngineData};

    ghost Value = { EngineData };

    ghost coded = { Prim.hlevel (
      codes,
      whole.the_row.coded,
      extension.the_row.coded,
      rule.the_row.coded,
      removal.the_row.coded,
      warning.the_row.coded,
      marks.the_row.coded,
    ) };

    ghost view = { λ e. record {
      files = e.files;
      running = e.running;
      notice = e.notice;
      taken = e.taken;
      shown = e.shown;
    } };
}

impl Engine {
    /// An engine without files.
    pub fn new(alloc: Global) -> Engine
        ensures { result ≡ new_engine }
    {
        Engine {
            files: HostFiles::new(alloc),
            running: None,
            notice: Text::new(alloc),
            taken: Taken::bare(alloc, TakenKind::Nothing, Text::new(alloc)),
            shown: Text::new(alloc),
            alloc,
        }
    }

    /// Names the platform: 0 is Linux, 1 Mac, 2 Windows; before that it is Linux. The outcomes are `Done`,
    /// `OutOfOrder` behind the load, and `Unknown` for any other number.
    pub fn set_platform(&mut self, number: u32) -> Outcome
        ensures { GivesPlatform number self.old result self.new }
    {
        if self.running.is_some() {
            return Outcome::OutOfOrder;
        }
        match platform_numbered(number) {
            Some(platform) => {
                self.files.set_platform(platform);
                Outcome::Done
            }
            None => Outcome::Unknown,
        }
    }

    /// Copies the bytes of a file: 0 is the layout of the scopes, 1 the default rules, 2 the user's rules.
    /// The outcomes are `Done`, `OutOfOrder` behind the load, `Unknown` for any other number, and
    /// `NoMemory`.
    pub fn set_file(&mut self, number: u32, bytes: &[u8]) -> Outcome
        ensures { GivesFile number bytes.now self.old result self.new }
    {
        if self.running.is_some() {
            return Outcome::OutOfOrder;
        }
        if !is_file(number) {
            return Outcome::Unknown;
        }
        match copied(self.alloc, bytes) {
            Ok(file) => {
                if self.files.set(number, file) {
                    Outcome::Done
                } else {
                    Outcome::Unknown
                }
            }
            Err(_) => Outcome::NoMemory,
        }
    }

    /// Copies the bytes of an extension's files, behind those of earlier extensions. The outcomes are `Done`,
    /// `OutOfOrder` behind the load, and `NoMemory`.
    pub fn add_extension(&mut self, manifest: &[u8], handlers: Option<&[u8]>) -> Outcome
        ensures { GivesExtension manifest.now (option_map (λ bytes. bytes.now) handlers.entry)
            self.old result self.new }
    {
        if self.running.is_some() {
            return Outcome::OutOfOrder;
        }
        match self.files.add_extension(self.alloc, manifest, handlers) {
            Ok(()) => Outcome::Done,
            Err(_) => Outcome::NoMemory,
        }
    }

    /// Loads a session of the files. The notice then has its warnings; or, if the load is refused, why, and
    /// further files can be handed in. The outcomes are `Done`, `OutOfOrder` behind the load, `Refused` and
    /// `NoMemory`.
    pub fn load(&mut self) -> Outcome
        ensures { LoadsBy self.old result self.new }
    {
        if self.running.is_some() {
            return Outcome::OutOfOrder;
        }
        match self.files.load(self.alloc) {
            Ok(session) => self.start(session),
            Err(Failure::Fault(fault)) => match refusal_text(self.alloc, &fault) {
                Ok(notice) => {
                    self.notice = notice;
                    Outcome::Refused
                }
                Err(_) => Outcome::NoMemory,
            },
            Err(Failure::NoMemory) => Outcome::NoMemory,
        }
    }

    /// Starts with a session that was loaded.
    fn start(&mut self, session: Session<PlainCommand>) -> Outcome
        requires early { IsEarly self.old }
        requires loaded { IsOf self.old.files natives session }
        requires marked { MarksAreRight self.old.files session.state.sources }
        ensures { LoadsBy self.old result self.new }
    {
        match warnings_text(self.alloc, &session) {
            Ok(notice) => match Running::new(self.alloc, session) {
                Ok(running) => {
                    self.notice = notice;
                    self.running = Some(running);
                    Outcome::Done
                }
                Err(_) => Outcome::NoMemory,
            },
            Err(_) => {
                drop(session.into_trace());
                Outcome::NoMemory
            }
        }
    }

    /// Tells the session an event. What the event takes is noted, or nothing if it isn't done. The outcomes
    /// are those of `Running::tell`, and `OutOfOrder` before the load.
    pub fn tell(&mut self, event: Event) -> Outcome
        ensures { Tells event self.old result self.new }
    {
        match &mut self.running {
            Some(running) => {
                let (outcome, taken) = tell_noted(self.alloc, running, event);
                self.taken = taken;
                outcome
            }
            None => Outcome::OutOfOrder,
        }
    }

    /// Has the session do what a line of a script says (`docs/FORMATS.md` lists the lines). What a key press
    /// or a choice takes is noted, or nothing if it isn't done. The outcomes are those of
    /// `Running::tell_said`, and `OutOfOrder` before the load.
    pub fn tell_line(&mut self, line: &[u8]) -> Outcome
        ensures { TellsLine line.now self.old result self.new }
    {
        match &mut self.running {
            Some(running) => {
                let (outcome, taken) = tell_line_noted(self.alloc, running, line);
                self.taken = taken;
                outcome
            }
            None => Outcome::OutOfOrder,
        }
    }

    /// Stops the session, after memory was refused for an event. The outcome is `NoMemory`, or `OutOfOrder`
    /// before the load.
    pub fn halt(&mut self) -> Outcome
        ensures { Halts self.old result self.new }
    {
        match &mut self.running {
            Some(running) => {
                running.halt();
                self.taken = nothing_taken(self.alloc);
                Outcome::NoMemory
            }
            None => Outcome::OutOfOrder,
        }
    }

    /// What the last event or look-up took.
    pub fn taken(&self) -> &Taken
        ensures { result.now ≡ self.now.taken }
    {
        &self.taken
    }
}
