//! The palette of a session: the list of commands for a query, and the choice of an entry.
ghost use Rattle.std.specs.Prelude.{◌≡◌, ◌++◌, false, IfOk, OnOk, OnErr, option_map};
ghost use Rattle.kb_execute.specs.Start.{stops};
ghost use Rattle.kb_resolve.specs.declared.found.Found.TheVariants.{Nothing};
ghost use Rattle.kb_session.specs.Inspect.{finish_of};
ghost use Rattle.kb_session.specs.Palette.{choice_started, entry_at, entry_lines, palette_lines};
ghost use Rattle.kb_session.specs.Session.{Does, HalfChosen, Undone};
ghost use Rattle.kb_session.specs.State.{happens};
ghost use Rattle.kb_stream.specs.Lines.{Begins};
ghost use Rattle.kb_trace.specs.declared.event.Event.TheVariants as event;

use crate::handled::{EventEnd, Handled, started_nothing};
use crate::session::Session;
use kb_base::{FaultKind, NoMemory, Refusal, Seq};
use kb_execute::{Finish, HeldCore, start_command};
use kb_palette::{Entry, list};
use kb_registry::{HostCommand, Registry};
use kb_resolve::Found;
use kb_stream::Lines;
use kb_trace::{Answer, lines};
use std::alloc::Global;

impl<C: HostCommand> Session<C> {
    /// The entries of the last palette, in the order of their numbers from 1, until one of them is chosen.
    /// `None` before any palette and behind a choice.
    pub fn listed(&self) -> Option<&[Entry]>
        ensures { option_map (λ entries. entries.now) result ≡ self.now.state.listed }
    {
        match &self.listed {
            Some(entries) => Some(entries.as_slice()),
            None => None,
        }
    }

    /// Lists the commands that a query finds, and keeps their list. An open chord stays open.
    #[tactic(auto, using(kb_stream::proofs::Undoing::undoing))]
    pub(super) fn list_palette(&mut self, query: &str) -> Result<Answer, NoMemory>
        ensures ok { IfOk result (λ answer.
            Does (happens (event.Palette query.now)) self.old answer self.new) }
        ensures err { OnErr result (Undone self.old self.new) }
    {
        self.core.refresh()?;
        let scopes = self.core.core().scopes();
        let commands = self.bindings.palette();
        let entries = list(self.alloc, query, commands, &self.history, scopes)?;
        note_palette(&mut self.trace, entries.as_slice())?;
        self.listed = Some(Seq::from_vec(entries));
        Ok(Answer::Did)
    }

    /// Chooses an entry of the last palette: its command starts without arguments, is noted in the history,
    /// and the list is closed. Without such an entry the choice is refused (96). An open chord stays open.
    #[tactic(auto, using(kb_stream::proofs::Undoing::undoing))]
    pub(super) fn choose(&mut self, number: u32) -> Result<Handled, NoMemory>
        requires running { self.old.state.stopped ≡ false }
        ensures ok { IfOk result (λ handled.
            Does (happens (event.Choose number)) self.old handled.answer self.new) }
        ensures stops { IfOk result (λ handled. self.new.state.stopped ≡ stops handled.ended.finish) }
        ensures finish { IfOk result (λ handled.
            handled.ended.finish ≡ finish_of (event.Choose number) self.old.state) }
        ensures found { IfOk result (λ handled. handled.ended.found ≡ Nothing) }
        ensures err { OnErr result (HalfChosen self.old self.new) }
    {
        let Some(entry) = entry_at(&self.listed, number) else {
            return started_nothing(self.refuse(Refusal::of(FaultKind::NoEntry)));
        };
        let command = entry.command.as_str();
        let finish = start_choice(
            self.alloc,
            number,
            command,
            &self.registry,
            &mut self.core,
            &mut self.trace,
        )?;
        self.history.note(command)?;
        self.listed = None;
        self.stopped = finish.stops();
        Ok(Handled {
            answer: Answer::Did,
            ended: EventEnd {
                finish,
                found: Found::Nothing,
            },
        })
    }
}

/// The entry with a number, counted from 1, of a list of the palette, if there is one.
fn entry_at(listed: &Option<Seq<Entry>>, number: u32) -> Option<&Entry>
    ensures { option_map (λ e. e.now) result ≡ entry_at number listed.now }
{
    let entries = listed.as_ref()?;
    let place = number.checked_sub(1)?;
    entries.as_slice().get(place as usize)
}

/// Starts the command of an entry without arguments, and adds its trace lines. On `NoMemory` the old lines
/// are still there, before any new ones.
#[tactic(auto, using(kb_stream::proofs::Undoing::undoing_behind))]
fn start_choice<C: HostCommand>(
    alloc: Global,
    number: u32,
    command: &str,
    registry: &Registry<C>,
    core: &mut HeldCore,
    trace: &mut Lines,
) -> Result<Finish, NoMemory>
    ensures core { let p = choice_started number command.now registry.now core.old in
        OnOk result (core.new ≡ p.core) }
    ensures trace { let p = choice_started number command.now registry.now core.old in
        OnOk result (trace.new ≡ trace.old ++ p.lines) }
    ensures finish { let p = choice_started number command.now registry.now core.old in
        IfOk result (λ finish. finish ≡ p.finish) }
    ensures err { OnErr result (Begins trace.old trace.new) }
{
    let text = lines::choose_text(trace, number)?;
    lines::start_line(trace, text, command)?;
    start_command(alloc, command, None, registry, core, trace)
}

/// Adds the lines of a palette with these entries.
#[tactic(auto, using(kb_stream::proofs::Undoing::undoing_behind))]
fn note_palette(trace: &mut Lines, entries: &[Entry]) -> Result<(), NoMemory>
    ensures ok { OnOk result (trace.new ≡ trace.old ++ palette_lines entries.now) }
    ensures err { OnErr result (Begins trace.old trace.new) }
{
    lines::palette_line(trace, entries.len())?;
    note_entries(trace, entries)
}

/// Adds a line for each entry, with its number from 1.
#[tactic(auto, using(kb_stream::proofs::Undoing::undoing))]
fn note_entries(trace: &mut Lines, entries: &[Entry]) -> Result<(), NoMemory>
    ensures ok { OnOk result (trace.new ≡ trace.old ++ entry_lines 1 entries.now) }
    ensures err { OnErr result (Begins trace.old trace.new) }
{
    for (place, entry) in entries.iter().enumerate() {
        let label = entry.label.as_str();
        lines::entry_line(trace, place + 1, label, entry.command.as_str())?;
    }
    Ok(())
}
