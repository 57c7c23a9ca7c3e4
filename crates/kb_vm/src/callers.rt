//! The frames that wait for a command that they called. One vector has the arguments and operands of
//! all of them, and a frame that continues reuses the vectors of the frame that ended. So a call
//! allocates no memory for operands.
ghost use Rattle.std.specs.Prelude.{◌≡◌, ◌≤◌, ◌<◌, ◌+◌, ◌-◌, [], ◌∷◌, ◌++◌, length, map, reverse, take};
ghost use Rattle.std.specs.Prelude.{drop};
ghost use Rattle.std.specs.Prelude.{IfOk, OnOk, MatchResult, vec_capacity};
ghost use Rattle.kb_vm.specs.Operand.{arg_of};

use crate::blocks::Turns;
use crate::given::Given;
use crate::machine::Frame;
use crate::operands::{Operand, Operands};
use kb_base::NoMemory;
use kb_code::Linked;
use std::alloc::Global;
use std::marker::Model;

/// The largest number of values of a frame: 8 arguments and 64 operands.
const ROOM: usize = 72;

/// A waiting frame without its arguments and operands, which are in the common vector of all waiting
/// frames. The other fields are those of `Frame`.
#[derive(Drop)]
pub(crate) struct Waiting<'r> {
    pub handler: Linked<'r>,
    pub place: usize,
    pub turns: Turns,
    pub left: u32,
    /// The number of arguments.
    pub args: usize,
    /// The number of operands.
    pub operands: usize,
}

/// The waiting frames. Contracts see a list of frames, the outermost first.
#[derive(Drop)]
pub(crate) struct Callers<'r, 'a> {
    waiting: Vec<Waiting<'r>>,
    values: Vec<Operand<'a>>,
    spare: Option<Given<'a>>,
}

impl<'r, 'a> Model for Callers<'r, 'a> {
    ghost use Rattle.std.specs.Prelude.{◌≡◌, List, length, map};
    ghost use Rattle.std.specs.List.{All};
    ghost use Rattle.kb_vm.specs.Operand.{arg_of};
    ghost use Rattle.kb_vm.specs.Waiting.{IsSmall, frames_of, widths};
    ghost use Rattle.kb_vm.specs.declared.machine.Frame.{Frame};

    ghost Value = { List Frame };

    ghost view = { λ c. frames_of c.waiting.items (map arg_of c.values.items) };

    ghost invariant = { λ c. (widths c.waiting.items ≡ length (map arg_of c.values.items))
        × All IsSmall c.waiting.items };
}

impl<'r, 'a> Callers<'r, 'a> {
    /// No frames, with capacity for `count`.
    pub(crate) fn new(alloc: Global, count: u8) -> Result<Callers<'r, 'a>, NoMemory>
        ensures { IfOk result (λ callers. callers ≡ []) }
    {
        let count = usize::from(count);
        Ok(Callers {
            waiting: Vec::with_capacity(alloc, count)?,
            values: Vec::with_capacity(alloc, count * ROOM)?,
            spare: None,
        })
    }

    /// A vector for the arguments of a call. Only the first call allocates one; later calls reuse it.
    pub(crate) fn take_spare(&mut self, alloc: Global) -> Result<Given<'a>, NoMemory>
        ensures { self.new ≡ self.old }
    {
        match self.spare.take() {
            Some(spare) => Ok(spare),
            None => Given::new(alloc),
        }
    }

    /// Returns the vector of a call's arguments for reuse.
    pub(crate) fn give_back(&mut self, spare: Given<'a>)
        ensures { self.new ≡ self.old }
    {
        self.spare = Some(spare);
    }

    /// Adds a frame to the waiting ones, and returns its emptied operand stack for reuse. On refused
    /// memory it returns the frame.
    pub(crate) fn suspend(&mut self, frame: Frame<'r, 'a>) -> Result<Operands<'a>, Frame<'r, 'a>>
        ensures { MatchResult result
            (λ operands. (operands ≡ []) × (self.new ≡ self.old ++ frame.entry ∷ []))
            (λ back. (back ≡ frame.entry) × (self.new ≡ self.old)) }
    {
        let count = frame.args.as_slice().len() + frame.operands.len();
        if make_room(&mut self.waiting, &mut self.values, count).is_err() {
            return Err(frame);
        }
        let Frame {
            handler,
            args,
            place,
            turns,
            left,
            mut operands,
        } = frame;
        self.waiting.push_reserved(Waiting {
            handler,
            place,
            turns,
            left,
            args: args.as_slice().len(),
            operands: operands.len(),
        });
        save(&mut self.values, &args, &operands);
        operands.clear();
        self.spare = Some(args);
        Ok(operands)
    }

    /// The innermost waiting frame, ready to continue, in the vectors of the frame that ended. If none
    /// waits, it returns the frame that ended.
    pub(crate) fn resume(&mut self, done: Frame<'r, 'a>) -> Result<Frame<'r, 'a>, Frame<'r, 'a>>
        ensures { MatchResult result (λ frame. self.old ≡ self.new ++ frame ∷ [])
            (λ back. (back ≡ done.entry) × ((self.old ≡ []) × (self.new ≡ []))) }
    {
        let Some(waiting) = self.waiting.pop() else {
            return Err(done);
        };
        let Frame {
            handler: _,
            mut args,
            place: _,
            turns: _,
            left: _,
            mut operands,
        } = done;
        take_last(
            &mut self.values,
            &mut args,
            waiting.args,
            &mut operands,
            waiting.operands,
        );
        Ok(Frame {
            handler: waiting.handler,
            args,
            place: waiting.place,
            turns: waiting.turns,
            left: waiting.left,
            operands,
        })
    }
}

/// Reserves capacity for one more frame with `count` values.
fn make_room<'r, 'a>(
    waiting: &mut Vec<Waiting<'r>>,
    values: &mut Vec<Operand<'a>>,
    count: usize,
) -> Result<(), NoMemory>
    ensures waiting { waiting.new.items ≡ waiting.old.items }
    ensures values { values.new.items ≡ values.old.items }
    ensures place { OnOk result (length waiting.new.items < vec_capacity waiting.new) }
    ensures room { OnOk result (length values.new.items + count ≤ vec_capacity values.new) }
{
    waiting.reserve(1)?;
    values.reserve(count)?;
    Ok(())
}

/// Appends arguments and operands to a vector that has capacity for them.
fn save<'a>(values: &mut Vec<Operand<'a>>, args: &Given<'a>, operands: &Operands<'a>)
    requires { length values.old.items + (length args.now + length operands.now) ≤ vec_capacity values.old }
    ensures { map arg_of values.new.items
        ≡ map arg_of values.old.items ++ (args.now ++ reverse operands.now) }
{
    values.extend_from_slice(args.as_slice()).unwrap();
    values.extend_from_slice(operands.as_slice()).unwrap();
}

/// Moves arguments, and the operands after them, from the end of a vector.
fn take_last<'a>(
    values: &mut Vec<Operand<'a>>,
    args: &mut Given<'a>,
    arg_count: usize,
    operands: &mut Operands<'a>,
    operand_count: usize,
)
    requires args { arg_count ≤ 8 }
    requires operands { operand_count ≤ 64 }
    requires enough { arg_count + operand_count ≤ length (map arg_of values.old.items) }
    ensures kept { map arg_of values.new.items ≡ take (length (map arg_of values.old.items)
        - (arg_count + operand_count)) (map arg_of values.old.items) }
    ensures args { args.new ≡ take arg_count (drop (length (map arg_of values.old.items)
        - (arg_count + operand_count)) (map arg_of values.old.items)) }
    ensures operands { operands.new ≡ reverse (take operand_count (drop arg_count (drop
        (length (map arg_of values.old.items) - (arg_count + operand_count))
        (map arg_of values.old.items)))) }
{
    let behind = values.len() - operand_count;
    operands.refill(&values[behind..]);
    let first = behind - arg_count;
    args.refill(&values[first..behind]);
    values.truncate(first);
}
