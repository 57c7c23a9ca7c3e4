//! The context and the arguments of a start, which decide its branches. A choice is a number: its lowest
//! `KEYS` bits say which context keys count as true, and the bits above them say which arguments do.
use crate::names::{KEYS, TEXTS};
use kb_base::{NoMemory, Seq, Text, TextMap};
use kb_context::{ContextValue, Layout, LayoutScope, Scopes};
use kb_core::{Arg, Args, Core, Kind};
use std::alloc::{AllocError, Global};

/// The number of choices for a handler with this number of parameters, of which there are at most two.
pub(crate) fn count(params: usize) -> u16 {
    match params {
        0 => 8,
        1 => 16,
        _ => 32,
    }
}

// Whether a bit of a choice is set.
fn is_set(choice: u16, bit: u16) -> bool {
    choice.checked_shr(u32::from(bit)).unwrap_or(0) % 2 == 1
}

// A value of a context key that counts as true; `kind` chooses its kind.
fn true_value(alloc: Global, kind: u16) -> Result<ContextValue, NoMemory> {
    match kind {
        0 => Ok(ContextValue::Truth(true)),
        1 => Ok(ContextValue::Number(7)),
        2 => Ok(ContextValue::Text(Text::from_str(alloc, "yes")?)),
        _ => Ok(ContextValue::Names(Seq::new(alloc))),
    }
}

// A value that counts as false; `None` leaves the key unset, which counts as false too.
fn false_value(alloc: Global, kind: u16) -> Option<ContextValue> {
    match kind {
        0 => Some(ContextValue::Truth(false)),
        1 => Some(ContextValue::Number(0)),
        2 => Some(ContextValue::Text(Text::new(alloc))),
        _ => None,
    }
}

// The value of a key under a choice. Its kind depends on both, so that each key gets a value of each kind.
fn value_at(alloc: Global, choice: u16, key: u16) -> Result<Option<ContextValue>, NoMemory> {
    let kind = choice.wrapping_add(key) % 4;
    if is_set(choice, key) {
        Ok(Some(true_value(alloc, kind)?))
    } else {
        Ok(false_value(alloc, kind))
    }
}

fn keys(alloc: Global, choice: u16) -> Result<TextMap<ContextValue>, NoMemory> {
    let mut keys = TextMap::new(alloc);
    for key in 0..KEYS {
        let name = TEXTS.as_slice().get(usize::from(key)).unwrap_or(&"");
        if let Some(value) = value_at(alloc, choice, key)? {
            keys.set(alloc, name, value)?;
        }
    }
    Ok(keys)
}

// A scope with the context keys of a choice.
fn scope(alloc: Global, choice: u16) -> Result<LayoutScope, NoMemory> {
    let name = Text::from_str(alloc, "window")?;
    Ok(LayoutScope {
        name,
        parent: None,
        keys: keys(alloc, choice)?,
    })
}

// A layout of one scope, with the context keys of a choice.
fn layout(alloc: Global, choice: u16) -> Result<Layout, NoMemory> {
    let focus = Text::from_str(alloc, "window")?;
    let mut scopes = Seq::new(alloc);
    scopes.push(scope(alloc, choice)?)?;
    Ok(Layout { scopes, focus })
}

/// A core with the context keys of a choice.
pub(crate) fn core(alloc: Global, choice: u16) -> Result<Core, NoMemory> {
    match Scopes::new(alloc, layout(alloc, choice)?) {
        Ok(scopes) => Ok(Core::new(alloc, scopes)),
        Err(_) => Err(AllocError),
    }
}

fn text_arg(alloc: Global, is_true: bool) -> Result<Arg, NoMemory> {
    let text = if is_true { "yes" } else { "" };
    Ok(Arg::Text(Text::from_str(alloc, text)?))
}

fn number_arg(is_true: bool) -> Arg {
    Arg::Number(if is_true { -3 } else { 0 })
}

// An argument that counts as true or as false. For a parameter of any kind, `number` chooses the argument's
// kind.
fn arg(alloc: Global, kind: Kind, number: u16, is_true: bool) -> Result<Arg, NoMemory> {
    match (kind, number) {
        (Kind::Text, _) | (Kind::Any, 0) => text_arg(alloc, is_true),
        (Kind::Number, _) | (Kind::Any, 1) => Ok(number_arg(is_true)),
        _ => Ok(Arg::Truth(is_true)),
    }
}

/// The arguments of a choice.
pub(crate) fn args(alloc: Global, params: &[Kind], choice: u16) -> Result<Args, NoMemory> {
    let mut args = Args::new(alloc);
    let mut bit = KEYS;
    for kind in params {
        let number = choice.wrapping_add(bit) % 3;
        let arg = arg(alloc, *kind, number, is_set(choice, bit))?;
        if args.as_slice().len() < 8 {
            args.push(arg)?;
        }
        bit = bit.wrapping_add(1);
    }
    Ok(args)
}
