//! The effect of one instruction.
ghost use Rattle.std.specs.Prelude.{◌≡◌, ◌<◌, false, true, IfOk, MatchOption, OnErr};
ghost use Rattle.std.specs.Prelude.{option_map, slice_get, length};
ghost use Rattle.kb_vm.specs.Action.{Calls, Does, IsReady, IsCallable, MayLackMemory, is_stop};
ghost use Rattle.kb_vm.specs.Memory.{is_call, is_rare};
ghost use Rattle.kb_vm.specs.Effect.{effect, pushed, pushed_at, pushed_context, dropped, doubled};
ghost use Rattle.kb_vm.specs.Effect.{swapped, made};
ghost use Rattle.kb_vm.specs.Effect.{with_one, with_two, branched, entered, called};
ghost use Rattle.kb_code.specs.Found.{callee_of};
ghost use Rattle.kb_vm.specs.Operand.{arg_of};
ghost use Rattle.kb_vm.specs.Values.{joins, size_of};
ghost use Rattle.kb_vm.specs.declared.values.One.TheVariants.{Show};
ghost use Rattle.kb_vm.specs.declared.values.Two.TheVariants.{Join};
ghost use Rattle.kb_core.specs.declared.arg.Arg.TheVariants as arg;
ghost use Rattle.kb_code.specs.declared.instr.Instr.TheVariants as instr_kind;

use crate::arena::Arena;
use crate::given::{Given, fits};
use crate::operands::{Operand, Operands};
use crate::trap::Trap;
use crate::values::{One, Two, computed, context, joined, made_of_one, size_of};
use kb_base::{NoMemory, Text};
use kb_code::{Commands, Found, Instr, Linked};
use kb_core::Core;

/// The next step after an instruction. The type is small, since each instruction returns one.
#[derive(Clone, Copy, Debug)]
pub(crate) enum Action {
    /// The instruction traps.
    Stop(Trap),
    /// The handler returns.
    Leave,
    /// Continue at the next instruction.
    Next,
    /// Continue at this place. The caller traps if it isn't a later one of the same block.
    Goto(u16),
    /// Open a block that runs this many times.
    Open(u16),
    /// End an iteration of the innermost open block.
    Turn,
}

/// The result of a call instruction.
#[derive(Drop)]
pub(crate) enum Called<'r> {
    /// The call traps.
    Stop(Trap),
    /// The topmost operands are the arguments of a call of this live command, which has this name.
    Enter(&'r Text, Found<'r>),
}

/// Pushes a value.
#[inline]
fn push<'a>(operands: &mut Operands<'a>, value: Operand<'a>) -> Action
    ensures { Does (pushed (arg_of value.entry) operands.old) result operands.new }
{
    if operands.len() < 64 {
        operands.push(value);
        Action::Next
    } else {
        Action::Stop(Trap::BadCode)
    }
}

/// Pushes a text of the handler.
fn push_text<'a>(operands: &mut Operands<'a>, texts: &'a [Text], index: u16) -> Action
    ensures { Does (pushed_at (option_map arg.Text (slice_get texts.now index)) operands.old)
        result operands.new }
{
    match texts.get(usize::from(index)) {
        Some(text) => push(operands, Operand::Text(text.as_str())),
        None => Action::Stop(Trap::BadCode),
    }
}

/// Pushes an argument.
fn push_arg<'a>(operands: &mut Operands<'a>, args: &Given<'a>, index: u16) -> Action
    ensures { Does (pushed_at (slice_get args.now index) operands.old) result operands.new }
{
    match args.get(usize::from(index)) {
        Some(value) => push(operands, value),
        None => Action::Stop(Trap::BadCode),
    }
}

/// Pushes the value of a context key.
fn push_context<'a>(
    arena: &'a Arena,
    operands: &mut Operands<'a>,
    core: &Core,
    texts: &[Text],
    index: u16,
) -> Result<Action, NoMemory>
    ensures does { IfOk result (λ a. Does (pushed_context core.now (slice_get texts.now index) operands.old)
        a operands.new) }
    ensures memory { OnErr result (is_stop (pushed_context core.now (slice_get texts.now index) operands.old)
        ≡ false) }
{
    if operands.len() >= 64 {
        return Ok(Action::Stop(Trap::BadCode));
    }
    match texts.get(usize::from(index)) {
        Some(key) => {
            let value = context(arena, core.scopes(), key.as_str())?;
            Ok(push(operands, value))
        }
        None => Ok(Action::Stop(Trap::BadCode)),
    }
}

/// Drops the topmost operand.
#[inline]
fn drop_top<'a>(operands: &mut Operands<'a>) -> Action
    ensures { Does (dropped operands.old) result operands.new }
{
    match operands.pop() {
        Some(_) => Action::Next,
        None => Action::Stop(Trap::MissingOperand),
    }
}

/// Pushes the topmost operand again.
fn double<'a>(operands: &mut Operands<'a>) -> Action
    ensures { Does (doubled operands.old) result operands.new }
{
    let Some(x) = operands.pop() else {
        return Action::Stop(Trap::MissingOperand);
    };
    if operands.len() < 63 {
        operands.push(x);
        operands.push(x);
        Action::Next
    } else {
        Action::Stop(Trap::BadCode)
    }
}

/// Exchanges the two topmost operands.
fn swap<'a>(operands: &mut Operands<'a>) -> Action
    ensures { Does (swapped operands.old) result operands.new }
{
    let (Some(y), Some(x)) = (operands.pop(), operands.pop()) else {
        return Action::Stop(Trap::MissingOperand);
    };
    operands.push(y);
    operands.push(x);
    Action::Next
}

/// Pushes the result of an instruction. `None` means that an operand had a wrong kind.
#[inline]
fn put<'a>(operands: &mut Operands<'a>, value: Option<Operand<'a>>) -> Action
    requires { length operands.old < 64 }
    ensures { Does (made (option_map arg_of value.entry) operands.old) result operands.new }
{
    match value {
        Some(value) => {
            operands.push(value);
            Action::Next
        }
        None => Action::Stop(Trap::WrongArgument),
    }
}

/// Replaces the topmost operand with a result computed from it.
fn apply_one<'a>(
    arena: &'a Arena,
    operands: &mut Operands<'a>,
    what: One,
) -> Result<Action, NoMemory>
    ensures does { IfOk result (λ a. Does (with_one what operands.old) a operands.new) }
    ensures shows { OnErr result (what ≡ Show) }
    ensures memory { OnErr result (is_stop (with_one what operands.old) ≡ false) }
{
    let Some(x) = operands.pop() else {
        return Ok(Action::Stop(Trap::MissingOperand));
    };
    let value = made_of_one(arena, what, x)?;
    Ok(put(operands, value))
}

/// Replaces the two topmost operands with a result computed from them, which is no text.
#[inline]
fn apply_two<'a>(operands: &mut Operands<'a>, what: Two) -> Action
    requires { joins what ≡ false }
    ensures { Does (with_two what operands.old) result operands.new }
{
    let Some(y) = operands.pop() else {
        return Action::Stop(Trap::MissingOperand);
    };
    let Some(x) = operands.pop() else {
        return Action::Stop(Trap::MissingOperand);
    };
    put(operands, computed(what, x, y))
}

/// Replaces the two topmost operands with the first followed by the second.
fn join_texts<'a>(arena: &'a Arena, operands: &mut Operands<'a>) -> Result<Action, NoMemory>
    ensures does { IfOk result (λ a. Does (with_two Join operands.old) a operands.new) }
    ensures memory { OnErr result (is_stop (with_two Join operands.old) ≡ false) }
{
    let Some(y) = operands.pop() else {
        return Ok(Action::Stop(Trap::MissingOperand));
    };
    let Some(x) = operands.pop() else {
        return Ok(Action::Stop(Trap::MissingOperand));
    };
    let value = joined(arena, x, y)?;
    Ok(put(operands, value))
}

/// Pops a truth value, and jumps if it is false.
#[inline]
fn branch<'a>(operands: &mut Operands<'a>, to: u16) -> Action
    ensures { Does (branched to operands.old) result operands.new }
{
    match operands.pop() {
        None => Action::Stop(Trap::MissingOperand),
        Some(Operand::Truth(true)) => Action::Next,
        Some(Operand::Truth(false)) => Action::Goto(to),
        Some(_) => Action::Stop(Trap::WrongArgument),
    }
}

/// Checks a call of a live command from a handler with this declared depth.
fn enter<'r>(operands: &Operands<'_>, depth: u8, name: &'r Text, callee: Found<'r>) -> Called<'r>
    ensures does { Calls (entered depth name.now (callee_of callee.entry) operands.now) result operands.now }
    ensures ready { (table : _) → IsCallable table (callee_of callee.entry)
        → IsReady table result operands.now }
{
    let count = callee.params();
    if operands.len() < count {
        return Called::Stop(Trap::MissingOperand);
    }
    if !fits(&callee, operands.topmost(count)) {
        return Called::Stop(Trap::WrongArgument);
    }
    if callee.depth() < depth {
        Called::Enter(name, callee)
    } else {
        Called::Stop(Trap::TooDeep)
    }
}

/// Checks a call of the command at an index of the handler's list of calls.
pub(crate) fn call<'r, L: Commands>(
    commands: &'r L,
    handler: &Linked<'r>,
    operands: &Operands<'_>,
    index: u16,
) -> Called<'r>
    ensures does { Calls (called (L.live commands.now) handler.now.signature.depth
        (slice_get handler.now.calls index) operands.now) result operands.now }
    ensures ready { IsReady (L.live commands.now) result operands.now }
{
    if usize::from(index) >= handler.handler().calls().len() {
        return Called::Stop(Trap::UnknownCommand);
    }
    let (name, target) = handler.call(usize::from(index));
    match commands.command(name.as_str(), target) {
        Some(callee) => enter(
            operands,
            handler.handler().signature().depth(),
            name,
            callee,
        ),
        None => Called::Stop(Trap::UnknownCommand),
    }
}

/// The index of a call instruction in the handler's list of calls. `None` for other instructions.
#[inline]
pub(crate) fn index_of(instr: Instr) -> Option<u16>
    ensures { MatchOption result (is_call instr ≡ false) (λ n. instr ≡ instr_kind.Call n) }
{
    match instr {
        Instr::Call(n) => Some(n),
        _ => None,
    }
}

/// Performs one instruction, other than a call, of a handler with these arguments. The instructions of most
/// loops are performed here, which the compiler puts into the loop over instructions.
#[inline]
pub(crate) fn perform<'r: 'a, 'a>(
    arena: &'a Arena,
    handler: &Linked<'r>,
    args: &Given<'a>,
    core: &Core,
    operands: &mut Operands<'a>,
    instr: Instr,
) -> Result<Action, NoMemory>
    requires { is_call instr ≡ false }
    ensures does { (table : _) → IfOk result (λ a. Does (effect table handler.now args.now core.now
        operands.old instr) a operands.new) }
    ensures memory { (table : _) → OnErr result (MayLackMemory instr (effect table handler.now args.now
        core.now operands.old instr)) }
{
    match instr {
        Instr::Num(n) => Ok(push(operands, Operand::Number(i64::from(n)))),
        Instr::Truth(truth) => Ok(push(operands, Operand::Truth(truth))),
        Instr::Drop => Ok(drop_top(operands)),
        Instr::Add => Ok(apply_two(operands, Two::Add)),
        Instr::Sub => Ok(apply_two(operands, Two::Sub)),
        Instr::Less => Ok(apply_two(operands, Two::Less)),
        Instr::Jump(to) => Ok(Action::Goto(to)),
        Instr::JumpIfFalse(to) => Ok(branch(operands, to)),
        Instr::Repeat(turns) => Ok(Action::Open(turns)),
        Instr::End => Ok(Action::Turn),
        Instr::Return => Ok(Action::Leave),
        Instr::Call(_) => unreachable!(),
        _ => perform_rare(arena, handler, args, core, operands, instr),
    }
}

/// Performs an instruction that is rare in loops.
#[inline(never)]
fn perform_rare<'r: 'a, 'a>(
    arena: &'a Arena,
    handler: &Linked<'r>,
    args: &Given<'a>,
    core: &Core,
    operands: &mut Operands<'a>,
    instr: Instr,
) -> Result<Action, NoMemory>
    requires { is_rare instr ≡ true }
    ensures does { (table : _) → IfOk result (λ a. Does (effect table handler.now args.now core.now
        operands.old instr) a operands.new) }
    ensures memory { (table : _) → OnErr result (MayLackMemory instr (effect table handler.now args.now
        core.now operands.old instr)) }
{
    match instr {
        Instr::Text(n) => Ok(push_text(operands, handler.handler().texts(), n)),
        Instr::Arg(n) => Ok(push_arg(operands, args, n)),
        Instr::Dup => Ok(double(operands)),
        Instr::Swap => Ok(swap(operands)),
        Instr::Same => Ok(apply_two(operands, Two::Same)),
        Instr::Not => apply_one(arena, operands, One::Not),
        Instr::Join => join_texts(arena, operands),
        Instr::Show => apply_one(arena, operands, One::Show),
        Instr::Size => apply_one(arena, operands, One::Size),
        Instr::IsTrue => apply_one(arena, operands, One::IsTrue),
        Instr::Number => apply_one(arena, operands, One::AsNumber),
        Instr::Context(n) => push_context(arena, operands, core, handler.handler().texts(), n),
        Instr::Before => Ok(push(
            operands,
            Operand::Number(size_of(core.buffer().before.as_str())),
        )),
        Instr::After => Ok(push(
            operands,
            Operand::Number(size_of(core.buffer().after.as_str())),
        )),
        _ => unreachable!(),
    }
}
