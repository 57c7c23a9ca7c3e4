//! The names of instructions.
ghost use Rattle.std.specs.Prelude.{◌≡◌};
ghost use Rattle.kb_assembly.specs.Mnemonic.{name_of, named, space_of, mnemonic_of, instr_with};

use kb_code::Instr;

/// Where the operand of an instruction comes from.
#[derive(Clone, Copy, Debug, PartialEq, Eq)]
pub(crate) enum Space {
    /// The instruction has no operand.
    Nothing,
    /// A number.
    Number,
    /// The handler's texts, by a text between quotes.
    Texts,
    /// The handler's texts, by a context key.
    Keys,
    /// The handler's calls, by a command.
    Calls,
    /// The handler's parameters.
    Params,
    /// The labels of the handler's lines.
    Labels,
}

/// The name of an instruction. `true` and `false` are two names of one instruction.
#[derive(Clone, Copy, Debug, PartialEq, Eq)]
pub(crate) enum Mnemonic {
    Return,
    Text,
    Num,
    False,
    True,
    Arg,
    Drop,
    Dup,
    Swap,
    Add,
    Sub,
    Less,
    Same,
    Not,
    Join,
    Show,
    Size,
    IsTrue,
    Number,
    Jump,
    JumpIfFalse,
    Call,
    Context,
    Before,
    After,
    Repeat,
    End,
}

impl Mnemonic {
    /// The word that names the instruction.
    pub(crate) fn name(self) -> &'static str
        ensures { result.now ≡ name_of self }
    {
        match self {
            Mnemonic::Return => "return",
            Mnemonic::Text => "text",
            Mnemonic::Num => "num",
            Mnemonic::False => "false",
            Mnemonic::True => "true",
            Mnemonic::Arg => "arg",
            Mnemonic::Drop => "drop",
            Mnemonic::Dup => "dup",
            Mnemonic::Swap => "swap",
            Mnemonic::Add => "add",
            Mnemonic::Sub => "sub",
            Mnemonic::Less => "less",
            Mnemonic::Same => "same",
            Mnemonic::Not => "not",
            Mnemonic::Join => "join",
            Mnemonic::Show => "show",
            Mnemonic::Size => "size",
            Mnemonic::IsTrue => "istrue",
            Mnemonic::Number => "number",
            Mnemonic::Jump => "jump",
            Mnemonic::JumpIfFalse => "jfalse",
            Mnemonic::Call => "call",
            Mnemonic::Context => "context",
            Mnemonic::Before => "before",
            Mnemonic::After => "after",
            Mnemonic::Repeat => "repeat",
            Mnemonic::End => "end",
        }
    }

    /// The instruction that a word names.
    pub(crate) fn named(text: &str) -> Option<Mnemonic>
        ensures { result ≡ named text.now }
    {
        match text {
            "return" => Some(Mnemonic::Return),
            "text" => Some(Mnemonic::Text),
            "num" => Some(Mnemonic::Num),
            "false" => Some(Mnemonic::False),
            "true" => Some(Mnemonic::True),
            "arg" => Some(Mnemonic::Arg),
            "drop" => Some(Mnemonic::Drop),
            "dup" => Some(Mnemonic::Dup),
            "swap" => Some(Mnemonic::Swap),
            "add" => Some(Mnemonic::Add),
            "sub" => Some(Mnemonic::Sub),
            "less" => Some(Mnemonic::Less),
            "same" => Some(Mnemonic::Same),
            "not" => Some(Mnemonic::Not),
            "join" => Some(Mnemonic::Join),
            "show" => Some(Mnemonic::Show),
            "size" => Some(Mnemonic::Size),
            "istrue" => Some(Mnemonic::IsTrue),
            "number" => Some(Mnemonic::Number),
            "jump" => Some(Mnemonic::Jump),
            "jfalse" => Some(Mnemonic::JumpIfFalse),
            "call" => Some(Mnemonic::Call),
            "context" => Some(Mnemonic::Context),
            "before" => Some(Mnemonic::Before),
            "after" => Some(Mnemonic::After),
            "repeat" => Some(Mnemonic::Repeat),
            "end" => Some(Mnemonic::End),
            _ => None,
        }
    }

    /// The name of an instruction.
    pub(crate) fn of(instr: Instr) -> Mnemonic
        ensures { result ≡ mnemonic_of instr }
    {
        match instr {
            Instr::Return => Mnemonic::Return,
            Instr::Text(_) => Mnemonic::Text,
            Instr::Num(_) => Mnemonic::Num,
            Instr::Truth(true) => Mnemonic::True,
            Instr::Truth(false) => Mnemonic::False,
            Instr::Arg(_) => Mnemonic::Arg,
            Instr::Drop => Mnemonic::Drop,
            Instr::Dup => Mnemonic::Dup,
            Instr::Swap => Mnemonic::Swap,
            Instr::Add => Mnemonic::Add,
            Instr::Sub => Mnemonic::Sub,
            Instr::Less => Mnemonic::Less,
            Instr::Same => Mnemonic::Same,
            Instr::Not => Mnemonic::Not,
            Instr::Join => Mnemonic::Join,
            Instr::Show => Mnemonic::Show,
            Instr::Size => Mnemonic::Size,
            Instr::IsTrue => Mnemonic::IsTrue,
            Instr::Number => Mnemonic::Number,
            Instr::Jump(_) => Mnemonic::Jump,
            Instr::JumpIfFalse(_) => Mnemonic::JumpIfFalse,
            Instr::Call(_) => Mnemonic::Call,
            Instr::Context(_) => Mnemonic::Context,
            Instr::Before => Mnemonic::Before,
            Instr::After => Mnemonic::After,
            Instr::Repeat(_) => Mnemonic::Repeat,
            Instr::End => Mnemonic::End,
        }
    }

    /// The instruction of this name with an operand, if it has one.
    pub(crate) fn with(self, operand: u16) -> Instr
        ensures { result ≡ instr_with self operand }
    {
        match self {
            Mnemonic::Return => Instr::Return,
            Mnemonic::Text => Instr::Text(operand),
            Mnemonic::Num => Instr::Num(operand),
            Mnemonic::False => Instr::Truth(false),
            Mnemonic::True => Instr::Truth(true),
            Mnemonic::Arg => Instr::Arg(operand),
            Mnemonic::Drop => Instr::Drop,
            Mnemonic::Dup => Instr::Dup,
            Mnemonic::Swap => Instr::Swap,
            Mnemonic::Add => Instr::Add,
            Mnemonic::Sub => Instr::Sub,
            Mnemonic::Less => Instr::Less,
            Mnemonic::Same => Instr::Same,
            Mnemonic::Not => Instr::Not,
            Mnemonic::Join => Instr::Join,
            Mnemonic::Show => Instr::Show,
            Mnemonic::Size => Instr::Size,
            Mnemonic::IsTrue => Instr::IsTrue,
            Mnemonic::Number => Instr::Number,
            Mnemonic::Jump => Instr::Jump(operand),
            Mnemonic::JumpIfFalse => Instr::JumpIfFalse(operand),
            Mnemonic::Call => Instr::Call(operand),
            Mnemonic::Context => Instr::Context(operand),
            Mnemonic::Before => Instr::Before,
            Mnemonic::After => Instr::After,
            Mnemonic::Repeat => Instr::Repeat(operand),
            Mnemonic::End => Instr::End,
        }
    }

    /// Where the operand comes from.
    pub(crate) fn space(self) -> Space
        ensures { result ≡ space_of self }
    {
        match self {
            Mnemonic::Text => Space::Texts,
            Mnemonic::Context => Space::Keys,
            Mnemonic::Call => Space::Calls,
            Mnemonic::Arg => Space::Params,
            Mnemonic::Jump | Mnemonic::JumpIfFalse => Space::Labels,
            Mnemonic::Num | Mnemonic::Repeat => Space::Number,
            _ => Space::Nothing,
        }
    }
}
