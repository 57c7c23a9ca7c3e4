//! The events that a host tells most, by bytes and numbers of its own.
ghost use Rattle.std.specs.Prelude.{◌≡◌, Some, IfOk};
ghost use Rattle.kb_context.specs.declared.value.ContextValue.TheVariants as value;
ghost use Rattle.kb_engine.specs.Engine.{Tells, TellsIf, key_told, when_text};
ghost use Rattle.kb_engine.specs.declared.outcome.Outcome.TheVariants as outcome;
ghost use Rattle.kb_trace.specs.declared.event.Event.TheVariants as event;

use crate::engine::Engine;
use crate::events::{key_told, text_in};
use crate::outcome::Outcome;
use kb_base::{NoMemory, Text};
use kb_context::ContextValue;
use kb_trace::Event;
use std::alloc::Global;

impl Engine {
    /// Presses a key, by its text as in `key` lines of a script. The outcomes are those of `tell`, and
    /// `NoKey` for a text that is no key.
    pub fn press(&mut self, key: &[u8]) -> Outcome
        ensures { TellsIf outcome.NoKey (key_told key.now) self.old result self.new }
    {
        match key_told(key) {
            Some(event) => self.tell(event),
            None => Outcome::NoKey,
        }
    }

    /// Gives the focus to a scope. The outcomes are those of `tell`, and `NoText` for bytes that aren't
    /// UTF-8.
    #[tactic(auto, using(crate::proofs::EngineLemmas::halting))]
    pub fn focus(&mut self, scope: &[u8]) -> Outcome
        ensures { TellsIf outcome.NoText (when_text scope.now (Some (event.Focus scope.now)))
            self.old result self.new }
    {
        let Some(scope) = text_in(scope) else {
            return Outcome::NoText;
        };
        match Text::from_str(self.alloc, scope) {
            Ok(scope) => self.tell(Event::Focus(scope)),
            Err(_) => self.halt(),
        }
    }

    /// Sets a context key of a scope to a truth value. The outcomes are those of `tell`, and `NoText` for
    /// bytes that aren't UTF-8.
    pub fn set_truth(&mut self, scope: &[u8], key: &[u8], truth: bool) -> Outcome
        ensures { TellsIf outcome.NoText (when_text scope.now (when_text key.now
            (Some (event.SetKey scope.now key.now (value.Truth truth))))) self.old result self.new }
    {
        self.set_value(scope, key, ContextValue::Truth(truth))
    }

    /// Sets a context key of a scope to a number. The outcomes are those of `tell`, and `NoText` for bytes
    /// that aren't UTF-8.
    pub fn set_number(&mut self, scope: &[u8], key: &[u8], number: i64) -> Outcome
        ensures { TellsIf outcome.NoText (when_text scope.now (when_text key.now
            (Some (event.SetKey scope.now key.now (value.Number number))))) self.old result self.new }
    {
        self.set_value(scope, key, ContextValue::Number(number))
    }

    /// Sets a context key of a scope to a value.
    #[tactic(auto, using(crate::proofs::EngineLemmas::halting))]
    fn set_value(&mut self, scope: &[u8], key: &[u8], value: ContextValue) -> Outcome
        ensures { TellsIf outcome.NoText (when_text scope.now (when_text key.now
            (Some (event.SetKey scope.now key.now value)))) self.old result self.new }
    {
        let Some(scope) = text_in(scope) else {
            return Outcome::NoText;
        };
        let Some(key) = text_in(key) else {
            return Outcome::NoText;
        };
        match set_event(self.alloc, scope, key, value) {
            Ok(event) => self.tell(event),
            Err(_) => self.halt(),
        }
    }

    /// Sets a context key of a scope to a text. The outcomes are those of `tell`, and `NoText` for bytes that
    /// aren't UTF-8.
    #[tactic(auto, using(crate::proofs::EngineLemmas::halting))]
    pub fn set_text(&mut self, scope: &[u8], key: &[u8], text: &[u8]) -> Outcome
        ensures { TellsIf outcome.NoText (when_text scope.now (when_text key.now (when_text text.now
            (Some (event.SetKey scope.now key.now (value.Text text.now)))))) self.old result self.new }
    {
        let Some(scope) = text_in(scope) else {
            return Outcome::NoText;
        };
        let Some(key) = text_in(key) else {
            return Outcome::NoText;
        };
        let Some(text) = text_in(text) else {
            return Outcome::NoText;
        };
        match set_text_event(self.alloc, scope, key, text) {
            Ok(event) => self.tell(event),
            Err(_) => self.halt(),
        }
    }

    /// Removes a context key from a scope. The outcomes are those of `tell`, and `NoText` for bytes that
    /// aren't UTF-8.
    #[tactic(auto, using(crate::proofs::EngineLemmas::halting))]
    pub fn unset(&mut self, scope: &[u8], key: &[u8]) -> Outcome
        ensures { TellsIf outcome.NoText (when_text scope.now (when_text key.now
            (Some (event.UnsetKey scope.now key.now)))) self.old result self.new }
    {
        let Some(scope) = text_in(scope) else {
            return Outcome::NoText;
        };
        let Some(key) = text_in(key) else {
            return Outcome::NoText;
        };
        match unset_event(self.alloc, scope, key) {
            Ok(event) => self.tell(event),
            Err(_) => self.halt(),
        }
    }

    /// Lists the commands of the palette that a query finds. The outcomes are those of `tell`, and `NoText`
    /// for bytes that aren't UTF-8.
    #[tactic(auto, using(crate::proofs::EngineLemmas::halting))]
    pub fn palette(&mut self, query: &[u8]) -> Outcome
        ensures { TellsIf outcome.NoText (when_text query.now (Some (event.Palette query.now)))
            self.old result self.new }
    {
        let Some(query) = text_in(query) else {
            return Outcome::NoText;
        };
        match Text::from_str(self.alloc, query) {
            Ok(query) => self.tell(Event::Palette(query)),
            Err(_) => self.halt(),
        }
    }

    /// Chooses the entry with this number, counted from 1, of the last palette. The outcomes are those of
    /// `tell`.
    pub fn choose(&mut self, number: u32) -> Outcome
        ensures { Tells (event.Choose number) self.old result self.new }
    {
        self.tell(Event::Choose(number))
    }
}

/// The event that sets a key. Error: `NoMemory`.
fn set_event(alloc: Global, scope: &str, key: &str, value: ContextValue) -> Result<Event, NoMemory>
    ensures { IfOk result (λ e. e ≡ event.SetKey scope.now key.now value) }
{
    let scope = Text::from_str(alloc, scope)?;
    let key = Text::from_str(alloc, key)?;
    Ok(Event::SetKey(scope, key, value))
}

/// The event that sets a key to a text. Error: `NoMemory`.
fn set_text_event(alloc: Global, scope: &str, key: &str, text: &str) -> Result<Event, NoMemory>
    ensures { IfOk result (λ e. e ≡ event.SetKey scope.now key.now (value.Text text.now)) }
{
    let value = ContextValue::Text(Text::from_str(alloc, text)?);
    set_event(alloc, scope, key, value)
}

/// The event that removes a key. Error: `NoMemory`.
fn unset_event(alloc: Global, scope: &str, key: &str) -> Result<Event, NoMemory>
    ensures { IfOk result (λ e. e ≡ event.UnsetKey scope.now key.now) }
{
    let scope = Text::from_str(alloc, scope)?;
    let key = Text::from_str(alloc, key)?;
    Ok(Event::UnsetKey(scope, key))
}
