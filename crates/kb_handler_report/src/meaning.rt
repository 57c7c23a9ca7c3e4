//! Sentences on the defects of handlers.
use crate::instruction::callee_name;
use kb_code::{Handler, Instr};
use kb_verify::Defect;

/// A sentence on the defect of a handler at a place with this instruction.
pub(crate) fn defect_sentence(
    handler: &Handler,
    defect: Defect,
    instr: Option<Instr>,
) -> &'static str {
    match defect {
        Defect::MissingOperand => "It takes more values than stand on the stack.",
        Defect::WrongOperand => wrong_operand_sentence(instr),
        Defect::UnknownCommand => unknown_command_sentence(handler, instr),
        Defect::WrongArgument => {
            "A value that it hands over is of another kind than the command's parameter takes."
        }
        Defect::BadJump => "It leads to no later place of the code in its own block.",
        Defect::FallsOff => falls_off_sentence(instr),
        Defect::ShapesDiffer => shapes_sentence(instr),
        Defect::TooHigh => "More than 64 values would stand on the stack behind it.",
    }
}

/// A sentence on ways that leave different values. An `END` leads to the place after its `REPEAT` too.
fn shapes_sentence(instr: Option<Instr>) -> &'static str {
    match instr {
        Some(Instr::End) => {
            "Two ways lead here, or an iteration of the block ends, and leave other kinds of values on \
             the stack than stand behind its REPEAT, or another number of them."
        }
        _ => {
            "Two ways lead here, and leave other kinds of values on the stack, or another number of them."
        }
    }
}

/// A sentence on a command that may not be called.
fn unknown_command_sentence(handler: &Handler, instr: Option<Instr>) -> &'static str {
    match instr {
        Some(instr) if callee_name(handler, instr).is_some() => {
            "No native command, no handler of this file and none of the extensions depended on has this name."
        }
        _ => "The handler's list of calls has none of this index.",
    }
}

/// A sentence on a wrong operand.
fn wrong_operand_sentence(instr: Option<Instr>) -> &'static str {
    match instr {
        Some(Instr::Text(_)) | Some(Instr::Context(_)) => {
            "The handler's list of texts has none of this index."
        }
        Some(Instr::Arg(_)) => "The handler has no parameter of this index.",
        _ => "A value that it takes is of another kind than it should be.",
    }
}

/// A sentence on code that runs past its end.
fn falls_off_sentence(instr: Option<Instr>) -> &'static str {
    match instr {
        Some(_) => "The code ends behind it, and it is no RETURN.",
        None => "The code has no instruction.",
    }
}
