//! Shows instructions to people.
use kb_base::Text;
use kb_code::{Handler, Instr};
use std::fmt;

/// Shows an instruction: its name, its operand, if it has one, and for a call the name at the index in the
/// handler's list of calls.
#[derive(Clone, Copy, Debug)]
pub(crate) struct Spelled<'a> {
    instr: Instr,
    callee: Option<&'a str>,
}

impl<'a> Spelled<'a> {
    /// An instruction of a handler.
    pub(crate) fn new(handler: &'a Handler, instr: Instr) -> Spelled<'a> {
        Spelled {
            instr,
            callee: callee_name(handler, instr),
        }
    }
}

impl fmt::Display for Spelled<'_> {
    fn fmt<W: fmt::Write>(&self, f: &mut fmt::Formatter<W>) -> fmt::Result {
        let name = name_of(self.instr);
        let operand = self.instr.operand();
        match self.callee {
            Some(callee) => write!(f, "{name} {operand} ({callee})"),
            None if has_operand(self.instr) => write!(f, "{name} {operand}"),
            None => f.write_str(name),
        }
    }
}

/// The name at the index of a call in the handler's list of calls, if there is one.
pub(crate) fn callee_name(handler: &Handler, instr: Instr) -> Option<&str> {
    match instr {
        Instr::Call(index) => match handler.calls().get(usize::from(index)) {
            Some(name) => Some(Text::as_str(name)),
            None => None,
        },
        _ => None,
    }
}

/// Whether an instruction has an operand.
fn has_operand(instr: Instr) -> bool {
    matches!(
        instr,
        Instr::Text(_)
            | Instr::Num(_)
            | Instr::Truth(_)
            | Instr::Arg(_)
            | Instr::Jump(_)
            | Instr::JumpIfFalse(_)
            | Instr::Call(_)
            | Instr::Context(_)
            | Instr::Repeat(_)
    )
}

/// The name of an instruction (our decision).
fn name_of(instr: Instr) -> &'static str {
    match instr {
        Instr::Return => "RETURN",
        Instr::Text(_) => "TEXT",
        Instr::Num(_) => "NUM",
        Instr::Truth(_) => "TRUTH",
        Instr::Arg(_) => "ARG",
        Instr::Drop => "DROP",
        Instr::Dup => "DUP",
        Instr::Swap => "SWAP",
        Instr::Add => "ADD",
        Instr::Sub => "SUB",
        Instr::Less => "LESS",
        Instr::Same => "SAME",
        Instr::Not => "NOT",
        Instr::Join => "JOIN",
        Instr::Show => "SHOW",
        Instr::Size => "SIZE",
        Instr::IsTrue => "ISTRUE",
        Instr::Number => "NUMBER",
        Instr::Jump(_) => "JUMP",
        Instr::JumpIfFalse(_) => "JFALSE",
        Instr::Call(_) => "CALL",
        Instr::Context(_) => "CONTEXT",
        Instr::Before => "BEFORE",
        Instr::After => "AFTER",
        Instr::Repeat(_) => "REPEAT",
        Instr::End => "END",
    }
}
