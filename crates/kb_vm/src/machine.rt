//! The frames of handlers, and the loop that runs them.
ghost use Rattle.std.specs.Prelude.{◌≡◌, ◌≤◌, ◌<◌, ◌+◌, ◌^◌, [], true, IfOk, IfErr, is_ok, slice_get};
ghost use Rattle.std.specs.Prelude.{option_map};
ghost use Rattle.kb_base.specs.Reading.{seen};
ghost use Rattle.kb_core.specs.Native.{budget_of, parameters_of};
ghost use Rattle.kb_core.specs.Ran.{Does};
ghost use Rattle.kb_core.specs.Signature.{fits};
ghost use Rattle.kb_vm.specs.Action.{HasArguments, IsCallable};
ghost use Rattle.kb_code.specs.Commands.{IsLive, declared_by};
ghost use Rattle.kb_vm.specs.Effect.{Enter};
ghost use Rattle.kb_code.specs.Found.{callee_of};
ghost use Rattle.kb_vm.specs.Leave.{Left};
ghost use Rattle.kb_vm.specs.Meaning.{World, run, first_world};
ghost use Rattle.kb_vm.specs.Outcome.{Shows, Ends};
ghost use Rattle.kb_vm.specs.Memory.{RefusedLast};
ghost use Rattle.kb_code.specs.Blocks.{block_of};
ghost use Rattle.kb_vm.specs.Position.{standing, outset, turned};
ghost use Rattle.kb_vm.specs.State.{Begins, Turned, TurnedFrom, Pays, PaysFrom, after_native, after_coded};
ghost use Rattle.kb_vm.specs.State.{rest_of, credit, after_call, fetched_at, called_by};
ghost use Rattle.kb_vm.specs.State.{CallMayBeRefused, IsPaid, Pauses, next_of};

use crate::action::{Action, Called, call, index_of, perform};
use crate::arena::Arena;
use crate::blocks::{BLOCK_LIMIT, Turns};
use crate::call_line::call_line;
use crate::callers::Callers;
use crate::given::Given;
use crate::operands::Operands;
use crate::trap::Trap;
use kb_base::Text;
use kb_code::{Code, Commands, Found, Instr, Linked};
use kb_core::{Core, Native, Ran};
use kb_stream::Lines;
use std::alloc::Global;

/// A running handler: its arguments, the place of its next instruction, the remaining iterations of its
/// open blocks, its remaining budget in instructions (`left`), and its operands.
#[derive(Drop)]
pub(crate) struct Frame<'r, 'a> {
    pub handler: Linked<'r>,
    pub args: Given<'a>,
    pub place: usize,
    pub turns: Turns,
    pub left: u32,
    pub operands: Operands<'a>,
}

/// The state of a run: the frame of the running handler, the waiting frames, the core, the trace lines
/// of calls so far, and the cost so far (`spent`): the instructions, and what native commands reported.
#[derive(Drop)]
pub(crate) struct Machine<'r, 'a> {
    pub frame: Frame<'r, 'a>,
    pub callers: Callers<'r, 'a>,
    pub core: Core,
    pub lines: Lines,
    pub spent: u64,
}

/// The reason why a frame pauses.
#[derive(Clone, Copy, Debug)]
pub(crate) enum Pause {
    /// The handler traps.
    Stop(Trap),
    /// The handler returns.
    Leave,
    /// The handler calls the command at this index of its list of calls.
    Call(u16),
    /// Memory was refused.
    NoMemory,
}

/// The place at which a frame pauses, its remaining budget, and the reason.
#[derive(Clone, Copy, Debug)]
pub(crate) struct Paused {
    pub place: usize,
    pub left: u32,
    pub why: Pause,
}

/// The state after a turn of the machine.
#[derive(Drop)]
pub(crate) enum Turn<'r, 'a> {
    /// The run continues.
    On(Machine<'r, 'a>),
    /// The outermost handler returned.
    Ended(Machine<'r, 'a>),
    /// The running handler trapped.
    Trapped(Machine<'r, 'a>, Trap),
    /// Memory was refused.
    NoMemory(Machine<'r, 'a>),
}

/// The end of a run.
#[derive(Debug, Drop)]
pub enum End<'r> {
    /// The command completed.
    Done,
    /// Memory was refused.
    NoMemory,
    /// No live command has the name.
    NotFound,
    /// The handler of this command trapped at this place.
    Trap(Trap, &'r str, usize),
}

/// The result of a run.
#[derive(Drop)]
pub struct Outcome<'r> {
    /// The core after the run.
    pub core: Core,
    /// The cost: the number of instructions that began, plus what each native command reported. Contracts
    /// know of the latter only that it is from 0 to the native command's budget.
    pub spent: u64,
    /// One trace line for each call, in order.
    pub lines: Lines,
    /// How the run ended.
    pub finish: End<'r>,
}

/// The handler of the frame returned: its caller continues.
fn leave<'r, 'a>(machine: Machine<'r, 'a>) -> Turn<'r, 'a>
    ensures { (table : _) → Left table machine.entry result }
{
    let Machine {
        frame,
        mut callers,
        core,
        lines,
        spent,
    } = machine;
    match callers.resume(frame) {
        Ok(frame) => Turn::On(Machine {
            frame,
            callers,
            core,
            lines,
            spent,
        }),
        Err(frame) => Turn::Ended(Machine {
            frame,
            callers,
            core,
            lines,
            spent,
        }),
    }
}

/// Runs the closure of a native command on a core.
fn run_native<L: Commands>(
    alloc: Global,
    commands: &L,
    native: Native,
    core: Core,
    given: &Given<'_>,
) -> Ran
    requires live { IsLive (L.live commands.now) native }
    requires fit { fits (parameters_of native) given.now ≡ true }
    ensures { Does native core given.now result }
{
    match given.owned(alloc) {
        Ok(args) => commands.call(native, core, args),
        Err(refused) => Ran {
            core,
            cost: Err(refused),
        },
    }
}

/// Calls a native command. The budget of the native command is already taken from the frame's.
fn enter_native<'r, 'a, L: Commands>(
    alloc: Global,
    commands: &'r L,
    machine: Machine<'r, 'a>,
    native: Native,
    given: Given<'a>,
) -> Turn<'r, 'a>
    requires live { IsLive (L.live commands.now) native }
    requires fit { fits (parameters_of native) given ≡ true }
    requires room { machine.spent + budget_of native < 2 ^ 64 }
    ensures turned { (w : World) → Shows w machine.entry.core machine.entry.lines machine.entry.spent
        → RefusedLast w → TurnedFrom (L.live commands.now)
        (after_native (L.live commands.now) machine.entry native given.entry w) result }
    ensures pays { PaysFrom (budget_of native) machine.entry result }
{
    let Machine {
        frame,
        mut callers,
        core,
        lines,
        spent,
    } = machine;
    let Ran { core, cost } = run_native(alloc, commands, native, core, &given);
    callers.give_back(given);
    match cost {
        Ok(cost) => Turn::On(Machine {
            frame,
            callers,
            core,
            lines,
            spent: spent + u64::from(cost),
        }),
        Err(_) => Turn::NoMemory(Machine {
            frame,
            callers,
            core,
            lines,
            spent,
        }),
    }
}

/// Enters a handler with a new frame. The budget of the handler is already taken from the caller's.
fn enter_coded<'r, 'a>(
    machine: Machine<'r, 'a>,
    handler: Linked<'r>,
    given: Given<'a>,
) -> Turn<'r, 'a>
    ensures turned { (table : _) → (w : World)
        → Shows w machine.entry.core machine.entry.lines machine.entry.spent → RefusedLast w
        → TurnedFrom table (after_coded table machine.entry handler.entry given.entry w) result }
    ensures pays { PaysFrom handler.entry.signature.budget machine.entry result }
{
    let left = handler.handler().signature().budget();
    let Machine {
        frame,
        mut callers,
        core,
        lines,
        spent,
    } = machine;
    match callers.suspend(frame) {
        Ok(operands) => Turn::On(Machine {
            frame: Frame {
                handler,
                args: given,
                place: 0,
                turns: Turns::none(),
                left,
                operands,
            },
            callers,
            core,
            lines,
            spent,
        }),
        Err(frame) => Turn::NoMemory(Machine {
            frame,
            callers,
            core,
            lines,
            spent,
        }),
    }
}

/// Calls a command with these arguments; the frame's remaining budget is large enough. It writes the
/// trace line of the call, and then runs the command.
fn begin_call<'r, 'a, L: Commands>(
    alloc: Global,
    commands: &'r L,
    mut machine: Machine<'r, 'a>,
    name: &'r Text,
    callee: Found<'r>,
    given: Given<'a>,
) -> Turn<'r, 'a>
    requires callable { IsCallable (L.live commands.now) (callee_of callee) }
    requires fit { fits (declared_by (callee_of callee)).params given ≡ true }
    requires paid { (declared_by (callee_of callee)).budget ≤ machine.frame.left }
    requires room { machine.spent + machine.frame.left < 2 ^ 64 }
    requires place { machine.frame.place + 1 < 2 ^ 64 }
    ensures turned { (w : World) → Shows w machine.entry.core machine.entry.lines machine.entry.spent
        → RefusedLast w → TurnedFrom (L.live commands.now) (rest_of (L.live commands.now) machine.entry
        (Enter name.now (callee_of callee.entry) given.entry machine.entry.frame.operands) w) result }
    ensures pays { PaysFrom 0 machine.entry result }
{
    let Ok(()) = call_line(&mut machine.lines, name.as_str(), &given) else {
        return Turn::NoMemory(machine);
    };
    machine.frame.left -= callee.budget();
    machine.frame.place += 1;
    match callee {
        Found::Plain(native) => enter_native(alloc, commands, machine, native, given),
        Found::Coded(handler) => enter_coded(machine, handler, given),
    }
}

/// Calls a command with the topmost operands, or traps if the frame's remaining budget is too small.
fn enter_callee<'r, 'a, L: Commands>(
    alloc: Global,
    commands: &'r L,
    mut machine: Machine<'r, 'a>,
    name: &'r Text,
    callee: Found<'r>,
) -> Turn<'r, 'a>
    requires callable { IsCallable (L.live commands.now) (callee_of callee) }
    requires arguments { HasArguments (callee_of callee) machine.frame.operands }
    requires room { machine.spent + machine.frame.left < 2 ^ 64 }
    requires place { machine.frame.place + 1 < 2 ^ 64 }
    ensures turned { (w : World) → Shows w machine.entry.core machine.entry.lines machine.entry.spent
        → ((declared_by (callee_of callee.entry)).budget ≤ machine.entry.frame.left → RefusedLast w)
        → TurnedFrom (L.live commands.now) (after_call (L.live commands.now) machine.entry name.now
        (callee_of callee.entry) w) result }
    ensures pays { PaysFrom 0 machine.entry result }
{
    if machine.frame.left < callee.budget() {
        return Turn::Trapped(machine, Trap::OutOfBudget);
    }
    let Ok(spare) = machine.callers.take_spare(alloc) else {
        return Turn::NoMemory(machine);
    };
    let count = callee.params();
    let given = machine.frame.operands.take(count, spare);
    begin_call(alloc, commands, machine, name, callee, given)
}

/// Calls the command at an index of the handler's list of calls, or traps.
fn enter_call<'r, 'a, L: Commands>(
    alloc: Global,
    commands: &'r L,
    machine: Machine<'r, 'a>,
    index: u16,
) -> Turn<'r, 'a>
    requires room { machine.spent + machine.frame.left < 2 ^ 64 }
    requires place { machine.frame.place + 1 < 2 ^ 64 }
    ensures turned { (w : World) → Shows w machine.entry.core machine.entry.lines machine.entry.spent
        → CallMayBeRefused machine.entry.frame.left (called_by (L.live commands.now) machine.entry index) w
        → TurnedFrom (L.live commands.now) (rest_of (L.live commands.now) machine.entry
        (called_by (L.live commands.now) machine.entry index) w) result }
    ensures pays { PaysFrom 0 machine.entry result }
{
    let frame = &machine.frame;
    match call(commands, &frame.handler, &frame.operands, index) {
        Called::Stop(trap) => Turn::Trapped(machine, trap),
        Called::Enter(name, callee) => enter_callee(alloc, commands, machine, name, callee),
    }
}

/// The instruction at a place of the code. `BadCode` if there is none, `OutOfBudget` if nothing is left
/// of the budget.
#[inline]
pub(crate) fn fetch(code: &[Instr], place: usize, left: u32) -> Result<Instr, Trap>
    ensures instr { result ≡ fetched_at (slice_get code.now place) left }
    ensures paid { IfOk result (λ _. 1 ≤ left) }
    ensures place { IfOk result (λ _. place + 1 < 2 ^ 64) }
{
    if code.len() <= place {
        return Err(Trap::BadCode);
    }
    if left == 0 {
        return Err(Trap::OutOfBudget);
    }
    Ok(code[place])
}

/// A pause at a place.
#[inline]
fn paused_at(place: usize, left: u32, why: Pause) -> Paused
    ensures { result ≡ record { place = place; left = left; why = why } }
{
    Paused { place, left, why }
}

/// The place of the next instruction after an action at a place, or the reason for a pause. It is inlined, as
/// `perform` is, so that no action of a frequent instruction is stored and compared.
#[inline]
fn next_place(code: &Code, turns: &mut Turns, place: usize, action: Action) -> Result<usize, Pause>
    requires { place + 1 < 2 ^ 64 }
    ensures { (operands : _) → next_of code.now (standing place turns.old operands) action
        ≡ seen (λ next. standing next turns.new operands) result }
{
    match action {
        Action::Next => Ok(place + 1),
        Action::Goto(to) => {
            let to = usize::from(to);
            if place < to && code.same_block(place, to) {
                Ok(to)
            } else {
                Err(Pause::Stop(Trap::BadCode))
            }
        }
        Action::Open(count) => {
            if turns.len() >= BLOCK_LIMIT {
                return Err(Pause::Stop(Trap::BadCode));
            }
            turns.push(count);
            Ok(place + 1)
        }
        Action::Turn => end_turn(code, turns, place).ok_or(Pause::Stop(Trap::BadCode)),
        Action::Stop(trap) => Err(Pause::Stop(trap)),
        Action::Leave => Err(Pause::Leave),
    }
}

/// The place of the next instruction after an `End`: after the `Repeat` of its block if the block has a
/// further iteration, or else after the block. `None` if no block is open.
#[inline]
fn end_turn(code: &Code, turns: &mut Turns, place: usize) -> Option<usize>
    requires { place + 1 < 2 ^ 64 }
    ensures { (operands : _) → turned place operands (block_of code.now place) turns.old
        ≡ option_map (λ next. standing next turns.new operands) result }
{
    let start = code.block(place)?;
    let left = turns.pop()?;
    if left > 1 {
        turns.push(left - 1);
        Some(start + 1)
    } else {
        Some(place + 1)
    }
}

/// Runs the instructions of a frame from a place, each at a cost of 1, up to the first that calls a
/// command, returns, traps, or is refused memory. The frame's state is borrowed, so no instruction
/// moves it.
fn run_on<'r: 'a, 'a>(
    arena: &'a Arena,
    handler: &Linked<'r>,
    args: &Given<'a>,
    core: &Core,
    turns: &mut Turns,
    operands: &mut Operands<'a>,
    place: usize,
    left: u32,
) -> Paused
    ensures pauses { Pauses handler.now args.now core.now (standing place turns.old operands.old) left
        turns.new operands.new result }
    ensures few { result.left ≤ left }
    ensures paid { IsPaid left result.place result.left result.why }
{
    let code = handler.handler().code();
    let instrs = code.instrs();
    let mut place = place;
    let mut left = left;
    loop {
        let instr = match fetch(instrs, place, left) {
            Ok(instr) => instr,
            Err(trap) => return paused_at(place, left, Pause::Stop(trap)),
        };
        left -= 1;
        if let Some(index) = index_of(instr) {
            return paused_at(place, left, Pause::Call(index));
        }
        let Ok(action) = perform(arena, handler, args, core, operands, instr) else {
            return paused_at(place, left, Pause::NoMemory);
        };
        match next_place(code, turns, place, action) {
            Ok(next) => place = next,
            Err(why) => return paused_at(place, left, why),
        }
    }
}

/// One turn: runs the frame up to a pause, and then handles the pause.
fn take_turn<'r: 'a, 'a, L: Commands>(
    alloc: Global,
    arena: &'a Arena,
    commands: &'r L,
    machine: Machine<'r, 'a>,
) -> Turn<'r, 'a>
    requires { machine.spent + credit machine < 2 ^ 64 }
    ensures turned { Turned (L.live commands.now) machine.entry result }
    ensures pays { Pays machine.entry result }
{
    let Machine {
        frame,
        callers,
        core,
        lines,
        spent,
    } = machine;
    let Frame {
        handler,
        args,
        place,
        mut turns,
        left,
        mut operands,
    } = frame;
    let paused = run_on(
        arena,
        &handler,
        &args,
        &core,
        &mut turns,
        &mut operands,
        place,
        left,
    );
    let machine = Machine {
        frame: Frame {
            handler,
            args,
            place: paused.place,
            turns,
            left: paused.left,
            operands,
        },
        callers,
        core,
        lines,
        spent: spent + u64::from(left - paused.left),
    };
    match paused.why {
        Pause::Stop(trap) => Turn::Trapped(machine, trap),
        Pause::Leave => leave(machine),
        Pause::Call(index) => enter_call(alloc, commands, machine, index),
        Pause::NoMemory => Turn::NoMemory(machine),
    }
}

/// The machine at the start of a handler, with capacity for all frames that can wait: a callee declares
/// a smaller depth than its caller, so fewer frames wait than the handler's declared depth.
fn begin<'r, 'a>(
    alloc: Global,
    handler: Linked<'r>,
    args: Given<'a>,
    core: Core,
) -> Result<Machine<'r, 'a>, Core>
    ensures ok { IfOk result (Begins handler.entry args.entry core) }
    ensures err { IfErr result (λ back. back ≡ core) }
{
    let left = handler.handler().signature().budget();
    let waiting = handler.handler().signature().depth() - 1;
    let Ok(callers) = Callers::new(alloc, waiting) else {
        return Err(core);
    };
    match Operands::new(alloc) {
        Ok(operands) => Ok(Machine {
            frame: Frame {
                handler,
                args,
                place: 0,
                turns: Turns::none(),
                left,
                operands,
            },
            callers,
            core,
            lines: Lines::new(alloc),
            spent: 0,
        }),
        Err(_) => Err(core),
    }
}

/// Runs a handler whose first instruction exists and is within its budget, with arguments that fit it.
pub(crate) fn run_handler<'r: 'a, 'a, L: Commands>(
    alloc: Global,
    arena: &'a Arena,
    commands: &'r L,
    handler: Linked<'r>,
    args: Given<'a>,
    core: Core,
) -> Outcome<'r>
    requires { is_ok (fetched_at (slice_get handler.code 0) handler.signature.budget) ≡ true }
    ensures ends { Ends core (run (L.live commands.now) handler.entry args.entry
        handler.entry.signature.budget outset (first_world core)) result result.finish }
    ensures bound { result.spent ≤ handler.entry.signature.budget }
{
    let mut machine = match begin(alloc, handler, args, core) {
        Ok(machine) => machine,
        Err(core) => {
            return Outcome {
                core,
                spent: 0,
                lines: Lines::new(alloc),
                finish: End::NoMemory,
            };
        }
    };
    loop {
        match take_turn(alloc, arena, commands, machine) {
            Turn::On(next) => machine = next,
            Turn::Ended(last) => return ended_with(last, End::Done),
            Turn::Trapped(last, trap) => {
                let command = last.frame.handler.handler().command().as_str();
                let place = last.frame.place;
                return ended_with(last, End::Trap(trap, command, place));
            }
            Turn::NoMemory(last) => return ended_with(last, End::NoMemory),
        }
    }
}

/// The outcome of a machine that stopped.
fn ended_with<'r, 'a>(machine: Machine<'r, 'a>, finish: End<'r>) -> Outcome<'r>
    ensures core { result.core ≡ machine.entry.core }
    ensures spent { result.spent ≡ machine.entry.spent }
    ensures lines { result.lines ≡ machine.entry.lines }
    ensures finish { result.finish ≡ finish.entry }
{
    let Machine {
        frame: _,
        callers: _,
        core,
        lines,
        spent,
    } = machine;
    Outcome {
        core,
        spent,
        lines,
        finish,
    }
}
