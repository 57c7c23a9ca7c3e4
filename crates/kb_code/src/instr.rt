//! Instructions.
ghost use Rattle.std.specs.Prelude.{◌≡◌, ◌==◌, find};
ghost use Rattle.kb_code.specs.Instr.{opcode_of, operand_of, instructions};

/// An instruction of a handler. The instructions and their encoding are our decision. `x` and `y` are the
/// topmost operands of the stack, `y` on top.
#[derive(Clone, Copy, Debug, PartialEq, Eq)]
pub enum Instr {
    /// Ends the handler. Remaining operands are dropped.
    Return,
    /// Pushes the handler's text with this index.
    Text(u16),
    /// Pushes this number.
    Num(u16),
    /// Pushes this boolean.
    Truth(bool),
    /// Pushes the argument with this index.
    Arg(u16),
    /// Drops the topmost operand.
    Drop,
    /// Pushes a copy of the topmost operand.
    Dup,
    /// Swaps the two topmost operands.
    Swap,
    /// The sum of two numbers, saturating at the limits of 64 signed bits.
    Add,
    /// `x` minus `y`, saturating at the limits of 64 signed bits.
    Sub,
    /// Whether the number `x` is less than the number `y`.
    Less,
    /// Whether `x` and `y` have the same kind and are equal.
    Same,
    /// The negation of a boolean.
    Not,
    /// The text `x` followed by the text `y`.
    Join,
    /// Any operand as a text: the text itself, the decimal form of a number, `true` or `false`.
    Show,
    /// The number of characters in a text.
    Size,
    /// Whether an operand is not `false`, 0 or the empty text.
    IsTrue,
    /// The operand if it is a number, or else 0.
    Number,
    /// Continues at this place.
    Jump(u16),
    /// Pops a boolean, and continues at this place if it is `false`.
    JumpIfFalse(u16),
    /// Calls the command with this index in the handler's list of calls.
    Call(u16),
    /// Pushes the value of the context key whose name is the handler's text with this index: `false` for an
    /// absent key, and `true` for a list or an object.
    Context(u16),
    /// Pushes the number of characters before the caret.
    Before,
    /// Pushes the number of characters after the caret.
    After,
    /// Opens a block that runs this many times, at least once. (Version 2.)
    Repeat(u16),
    /// Ends an iteration of the innermost open block: continues after its `Repeat`, or after itself in the
    /// last iteration. (Version 2.)
    End,
}

impl Instr {
    /// The byte that encodes the kind of instruction.
    pub fn opcode(self) -> u8
        ensures { result ≡ opcode_of self }
    {
        match self {
            Instr::Return => 0x00,
            Instr::Text(_) => 0x01,
            Instr::Num(_) => 0x02,
            Instr::Truth(_) => 0x03,
            Instr::Arg(_) => 0x04,
            Instr::Drop => 0x05,
            Instr::Dup => 0x06,
            Instr::Swap => 0x07,
            Instr::Add => 0x10,
            Instr::Sub => 0x11,
            Instr::Less => 0x12,
            Instr::Same => 0x13,
            Instr::Not => 0x14,
            Instr::Join => 0x15,
            Instr::Show => 0x16,
            Instr::Size => 0x17,
            Instr::IsTrue => 0x18,
            Instr::Number => 0x19,
            Instr::Jump(_) => 0x20,
            Instr::JumpIfFalse(_) => 0x21,
            Instr::Call(_) => 0x30,
            Instr::Context(_) => 0x40,
            Instr::Before => 0x42,
            Instr::After => 0x43,
            Instr::Repeat(_) => 0x50,
            Instr::End => 0x51,
        }
    }

    /// The operand that follows the opcode; 0 if the instruction has none.
    pub fn operand(self) -> u16
        ensures { result ≡ operand_of self }
    {
        match self {
            Instr::Text(n)
            | Instr::Num(n)
            | Instr::Arg(n)
            | Instr::Jump(n)
            | Instr::JumpIfFalse(n)
            | Instr::Call(n)
            | Instr::Context(n)
            | Instr::Repeat(n) => n,
            Instr::Truth(truth) => u16::from(truth),
            _ => 0,
        }
    }

    /// The instruction with this opcode, with the operand if it has one. `None` if no instruction has the
    /// opcode. The caller must check that the instruction allows the operand.
    pub(crate) fn of(opcode: u8, operand: u16) -> Option<Instr>
        ensures { result ≡ find (λ i. opcode_of i == opcode) (instructions operand) }
    {
        Some(match opcode {
            0x00 => Instr::Return,
            0x01 => Instr::Text(operand),
            0x02 => Instr::Num(operand),
            0x03 => Instr::Truth(operand == 1),
            0x04 => Instr::Arg(operand),
            0x05 => Instr::Drop,
            0x06 => Instr::Dup,
            0x07 => Instr::Swap,
            0x10 => Instr::Add,
            0x11 => Instr::Sub,
            0x12 => Instr::Less,
            0x13 => Instr::Same,
            0x14 => Instr::Not,
            0x15 => Instr::Join,
            0x16 => Instr::Show,
            0x17 => Instr::Size,
            0x18 => Instr::IsTrue,
            0x19 => Instr::Number,
            0x20 => Instr::Jump(operand),
            0x21 => Instr::JumpIfFalse(operand),
            0x30 => Instr::Call(operand),
            0x40 => Instr::Context(operand),
            0x42 => Instr::Before,
            0x43 => Instr::After,
            0x50 => Instr::Repeat(operand),
            0x51 => Instr::End,
            _ => return None,
        })
    }
}
