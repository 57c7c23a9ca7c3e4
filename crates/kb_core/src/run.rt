//! The default implementation of the native commands.
ghost use Rattle.std.specs.Prelude.{◌≡◌, IsTrue, OnOk, OnErr, IfOk, None};
ghost use Rattle.kb_core.specs.Core.{core_after};
ghost use Rattle.kb_context.specs.Scopes.{set_fault_at, value_at};
ghost use Rattle.kb_core.specs.Native.{text_of, value_of, with_root_key, parameters_of, MayLackMemory};
ghost use Rattle.kb_core.specs.Native.{buffer_after, budget_of, Fits, MayGrow};
ghost use Rattle.kb_core.specs.Ran.{Does};
ghost use Rattle.kb_core.specs.Signature.{fits};
ghost use Rattle.kb_core.specs.declared.native.Native.TheVariants.{SetContext};

use crate::arg::Arg;
use crate::args::Args;
use crate::buffer::Buffer;
use crate::core_state::Core;
use crate::native::Native;
use kb_base::{Failure, NoMemory};
use kb_context::{ContextValue, Scopes};
use std::alloc::{AllocError, Global};

/// The core after a native command, and the cost of the command in instructions.
#[derive(Debug, Drop)]
pub struct Ran {
    pub core: Core,
    pub cost: Result<u32, NoMemory>,
}

/// Runs a native command with arguments that fit it. The cost is 1. Error: `NoMemory`, only if a text may
/// grow or a context key is added; the core is then unchanged.
pub fn plain(native: Native, core: Core, args: Args) -> Ran
    requires { IsTrue (fits (parameters_of native) args) }
    ensures ok { OnOk result.cost (result.core ≡ core_after native args core) }
    ensures err { OnErr result.cost (result.core ≡ core) }
    ensures refused { OnErr result.cost (MayLackMemory native args core.scopes) }
    ensures cost { IfOk result.cost (λ cost. cost ≡ 1) }
    ensures does { Does native core args result }
{
    let mut core = core;
    let cost = match edit(native, &mut core, args) {
        Ok(()) => Ok(1),
        Err(refused) => Err(refused),
    };
    Ran { core, cost }
}

/// Runs a native command like [`plain`], at the cost of its whole budget (our decision). Error: `NoMemory`,
/// at any time; the core is then unchanged.
pub fn at_budget(native: Native, core: Core, args: Args) -> Ran
    requires { Fits native args }
    ensures does { Does native core args result }
    ensures cost { IfOk result.cost (λ cost. cost ≡ budget_of native) }
{
    let Ran { core, cost } = plain(native, core, args);
    match cost {
        Ok(_) => Ran {
            core,
            cost: Ok(native.budget()),
        },
        Err(refused) => Ran {
            core,
            cost: Err(refused),
        },
    }
}

/// Runs the command on the core. Error: `NoMemory`; the core is then unchanged.
fn edit(native: Native, core: &mut Core, args: Args) -> Result<(), NoMemory>
    requires { IsTrue (fits (parameters_of native) args) }
    ensures ok { OnOk result (core.new ≡ core_after native args core.old) }
    ensures err { OnErr result (core.new ≡ core.old) }
    ensures refused { OnErr result (MayLackMemory native args core.old.scopes) }
{
    let Core { buffer, scopes } = core;
    match native {
        Native::SetContext => set_context(scopes, args),
        _ => edit_text(native, buffer, args.as_slice()),
    }
}

/// Runs the command on the buffer. `setContext` leaves it unchanged. Error: `NoMemory`; the buffer is then
/// unchanged.
fn edit_text(native: Native, buffer: &mut Buffer, args: &[Arg]) -> Result<(), NoMemory>
    ensures ok { OnOk result (buffer.new ≡ buffer_after native args.now buffer.old) }
    ensures err { OnErr result (buffer.new ≡ buffer.old) }
    ensures refused { OnErr result (MayGrow native) }
{
    match native {
        Native::TypeText => buffer.insert(text_of(args)),
        Native::CursorLeft => buffer.move_left(),
        Native::CursorRight => buffer.move_right(),
        Native::BufferTop => buffer.move_to_top(),
        Native::BufferBottom => buffer.move_to_bottom(),
        Native::DeleteLeft => {
            buffer.delete_left();
            Ok(())
        }
        Native::DeleteRight => {
            buffer.delete_right();
            Ok(())
        }
        Native::BufferClear => {
            buffer.clear();
            Ok(())
        }
        Native::SetContext => Ok(()),
    }
}

/// Sets the context key that the first argument names to the second argument. Error: `NoMemory`; the
/// scopes are then unchanged.
fn set_context(scopes: &mut Scopes, args: Args) -> Result<(), NoMemory>
    requires { IsTrue (fits (parameters_of SetContext) args) }
    ensures ok { OnOk result
        (scopes.new.seen ≡ with_root_key (text_of args) (value_of args) scopes.old.seen) }
    ensures err { OnErr result (scopes.new ≡ scopes.old) }
    ensures allowed { OnErr result (set_fault_at scopes.old.seen 0 (text_of args) ≡ None) }
    ensures absent { OnErr result (value_at scopes.old.seen 0 (text_of args) ≡ None) }
{
    let mut args = args;
    let value = args.pop().unwrap();
    set_root_key(scopes, text_of(args.as_slice()), ContextValue::from(value))
}

/// Sets a context key in the outermost scope. If the scope lacks the key and the limit on keys is reached,
/// it does nothing and returns `Ok` (our decision). Error: `NoMemory`, only for a new key; the scopes are
/// then unchanged.
fn set_root_key(scopes: &mut Scopes, key: &str, value: ContextValue) -> Result<(), NoMemory>
    ensures ok { OnOk result (scopes.new.seen ≡ with_root_key key.now value scopes.old.seen) }
    ensures err { OnErr result (scopes.new ≡ scopes.old) }
    ensures allowed { OnErr result (set_fault_at scopes.old.seen 0 key.now ≡ None) }
    ensures absent { OnErr result (value_at scopes.old.seen 0 key.now ≡ None) }
{
    match scopes.set_root(key, value) {
        Ok(()) | Err(Failure::Fault(_)) => Ok(()),
        Err(Failure::NoMemory) => Err(AllocError),
    }
}

/// The first argument, if it is a text, or else an empty text.
fn text_of(args: &[Arg]) -> &str
    ensures { result.now ≡ text_of args.now }
{
    match args {
        [Arg::Text(text), ..] => text.as_str(),
        _ => "",
    }
}
