//! The faults: each has a number, a name and a meaning. `docs/FAULTS.md` is printed from this table.
ghost use Rattle.std.specs.Prelude.{◌≡◌};
ghost use Rattle.kb_base.specs.Fault.{fault_meaning, fault_name, fault_number, is_unread_pattern};

use std::fmt;

/// What can be wrong. Files, events, scripts and handlers have faults of these kinds; refused memory is one
/// too, since messages print its number. Numbers and names are our decision. Two kinds may have one name, if
/// their numbers tell where they come from: of a clause or a call, of the verifier or of a trap.
#[derive(Clone, Copy, Debug, PartialEq, Eq)]
pub enum FaultKind {
    /// The bytes of a file aren't UTF-8.
    NotUtf8 = 1,
    /// A block comment has no end.
    OpenComment = 2,
    /// A string has no closing quote.
    OpenString = 3,
    /// The text isn't JSON, or nests deeper than 127 levels.
    Syntax = 4,
    /// Memory was refused.
    NoMemory = 5,
    /// The text after the modifiers names no key.
    UnknownKey = 10,
    /// A chord has more than four keystrokes.
    TooManySteps = 11,
    /// Nothing follows the modifiers, or the text has only spaces.
    EmptyKey = 12,
    /// No scope has this name.
    UnknownScope = 20,
    /// The scopes of a layout aren't a tree, or its focus is none of them.
    BadLayout = 21,
    /// More than 10,000 context keys in all scopes.
    TooManyKeys = 22,
    /// A clause has a part that is no token: a lone `=`, `&` or `|`, or a quote or a pattern without its
    /// end.
    BadToken = 30,
    /// A clause has a token, or its end, where the grammar doesn't allow it.
    Unexpected = 31,
    /// More than 64 `(` and `!` enclose a part of a clause.
    ClauseTooDeep = 32,
    /// No whole number of 64 signed bits follows `<`, `<=`, `>` or `>=`.
    BadNumber = 33,
    /// A pattern of a clause isn't supported by `regex`, and never matches.
    UnreadPattern = 34,
    /// A required member is absent.
    MissingMember = 40,
    /// A value has the wrong kind.
    WrongShape = 41,
    /// The code of a handler isn't hexadecimal.
    BadHex = 42,
    /// Two handlers of a file have the same command.
    DuplicateHandler = 43,
    /// A limit is exceeded, of extensions or in a `handlers.json`.
    TooLarge = 44,
    /// The bytes of code aren't a whole number of three-byte instructions.
    BadLength = 50,
    /// No instruction has this opcode.
    BadOpcode = 51,
    /// The instruction doesn't allow this operand.
    BadOperand = 52,
    /// An END closes no block, a ninth block is opened, a block holds a RETURN, or a block is never
    /// closed.
    BadBlock = 53,
    /// An instruction takes more values than are on the stack.
    MissingOperand = 60,
    /// A value has the wrong kind, or no text or parameter has this index.
    WrongOperand = 61,
    /// A call has no such index, or names a command that may not be called.
    UnknownCommand = 62,
    /// An argument of a call has another kind than the parameter.
    WrongArgument = 63,
    /// A jump doesn't lead to a later place of the code in its own block.
    BadJump = 64,
    /// The code ends without a RETURN, or is empty.
    FallsOff = 65,
    /// Two ways to a place, or the end and the beginning of a block's turn, leave different kinds, or
    /// numbers, of values.
    ShapesDiffer = 66,
    /// More than 64 values would be on the stack.
    TooHigh = 67,
    /// A called command's depth isn't below the handler's.
    OverDepth = 68,
    /// A path costs more than the handler's budget.
    OverBudget = 69,
    /// A closure is registered for the native command, or a handler's name is taken.
    AlreadyExists = 70,
    /// 1,000,000 registrations were made in this session.
    Exhausted = 71,
    /// No registered closure has this ticket.
    StaleTicket = 72,
    /// A live handler calls this native command (the line adds the first one's command), or a live
    /// verified handler of another extension calls a handler of the code.
    InUse = 73,
    /// A command called by verified code isn't live as it was declared; no load gives it. Of an extension
    /// that is to be enabled: no closure is registered for a native command that its verified code calls
    /// (the line adds the first one's name).
    CalleeNotLive = 74,
    /// Trap: an instruction or call has too few values.
    TrapMissingOperand = 80,
    /// Trap: a call has no such index, or no live command has the name.
    TrapUnknownCommand = 81,
    /// Trap: a value has the wrong kind.
    TrapWrongArgument = 82,
    /// Trap: the allowance doesn't cover the instruction or the call.
    OutOfBudget = 83,
    /// Trap: the called command's depth isn't below the caller's.
    CallTooDeep = 84,
    /// Trap: a place, index or jump that isn't valid, such as a jump into another block, or a 65th value
    /// on the stack.
    BadCode = 85,
    /// An extension depends on one that isn't loaded before it.
    MissingDependency = 90,
    /// An extension has the identifier of an earlier one.
    DuplicateExtension = 91,
    /// No extension has this identifier.
    UnknownExtension = 92,
    /// An extension can't be enabled, since one that it depends on isn't enabled (the line adds the first
    /// one's identifier).
    NeedsDependency = 93,
    /// An extension can't be disabled, since an enabled one depends on it (the line adds the first one's
    /// identifier).
    NeededBy = 94,
    /// The new code of an extension doesn't declare the same commands as its code before, with the same
    /// parameters, budgets and depths.
    SignatureChanged = 95,
    /// The last palette has no entry with this number, or no palette was listed since the last choice.
    NoEntry = 96,
    /// The session was stopped before, by refused memory or a trap.
    Stopped = 97,
    /// The host has no spare closure for this native command.
    NoClosure = 98,
    /// The script has more than 16,777,216 bytes.
    TooLong = 100,
    /// Reading the script failed.
    ReadFailed = 101,
    /// Writing the trace failed.
    WriteFailed = 102,
    /// A handler of a raw session trapped.
    Trapped = 103,
}

impl FaultKind {
    /// The number that lines and messages print.
    pub fn number(self) -> u32
        ensures { result ≡ fault_number self }
    {
        self as u32
    }

    /// The name that lines and messages print behind the number.
    #[tactic(auto, unfolding(crate::specs::Fault::fault_name))]
    pub fn name(self) -> &'static str
        ensures { result.now ≡ fault_name self }
    {
        match self {
            FaultKind::NotUtf8 => "NotUtf8",
            FaultKind::OpenComment => "OpenComment",
            FaultKind::OpenString => "OpenString",
            FaultKind::Syntax => "Syntax",
            FaultKind::NoMemory => "NoMemory",
            FaultKind::UnknownKey => "UnknownKey",
            FaultKind::TooManySteps => "TooManySteps",
            FaultKind::EmptyKey => "EmptyKey",
            FaultKind::UnknownScope => "UnknownScope",
            FaultKind::BadLayout => "BadLayout",
            FaultKind::TooManyKeys => "TooManyKeys",
            FaultKind::BadToken => "BadToken",
            FaultKind::Unexpected => "Unexpected",
            FaultKind::ClauseTooDeep => "TooDeep",
            FaultKind::BadNumber => "BadNumber",
            FaultKind::UnreadPattern => "UnreadPattern",
            FaultKind::MissingMember => "MissingMember",
            FaultKind::WrongShape => "WrongShape",
            FaultKind::BadHex => "BadHex",
            FaultKind::DuplicateHandler => "DuplicateHandler",
            FaultKind::TooLarge => "TooLarge",
            FaultKind::BadLength => "BadLength",
            FaultKind::BadOpcode => "BadOpcode",
            FaultKind::BadOperand => "BadOperand",
            FaultKind::BadBlock => "BadBlock",
            FaultKind::MissingOperand => "MissingOperand",
            FaultKind::WrongOperand => "WrongOperand",
            FaultKind::UnknownCommand => "UnknownCommand",
            FaultKind::WrongArgument => "WrongArgument",
            FaultKind::BadJump => "BadJump",
            FaultKind::FallsOff => "FallsOff",
            FaultKind::ShapesDiffer => "ShapesDiffer",
            FaultKind::TooHigh => "TooHigh",
            FaultKind::OverDepth => "OverDepth",
            FaultKind::OverBudget => "OverBudget",
            FaultKind::AlreadyExists => "AlreadyExists",
            FaultKind::Exhausted => "Exhausted",
            FaultKind::StaleTicket => "StaleTicket",
            FaultKind::InUse => "InUse",
            FaultKind::CalleeNotLive => "CalleeNotLive",
            FaultKind::TrapMissingOperand => "MissingOperand",
            FaultKind::TrapUnknownCommand => "UnknownCommand",
            FaultKind::TrapWrongArgument => "WrongArgument",
            FaultKind::OutOfBudget => "OutOfBudget",
            FaultKind::CallTooDeep => "TooDeep",
            FaultKind::BadCode => "BadCode",
            FaultKind::MissingDependency => "MissingDependency",
            FaultKind::DuplicateExtension => "DuplicateExtension",
            FaultKind::UnknownExtension => "UnknownExtension",
            FaultKind::NeedsDependency => "NeedsDependency",
            FaultKind::NeededBy => "NeededBy",
            FaultKind::SignatureChanged => "SignatureChanged",
            FaultKind::NoEntry => "NoEntry",
            FaultKind::Stopped => "Stopped",
            FaultKind::NoClosure => "NoClosure",
            FaultKind::TooLong => "TooLong",
            FaultKind::ReadFailed => "ReadFailed",
            FaultKind::WriteFailed => "WriteFailed",
            FaultKind::Trapped => "Trapped",
        }
    }

    /// What it means, in one sentence without its period.
    #[tactic(auto, unfolding(crate::specs::Fault::fault_meaning))]
    pub fn meaning(self) -> &'static str
        ensures { result.now ≡ fault_meaning self }
    {
        match self {
            FaultKind::NotUtf8 => "the bytes of a file aren't UTF-8",
            FaultKind::OpenComment => "a block comment has no end",
            FaultKind::OpenString => "a string has no closing quote",
            FaultKind::Syntax => "the text isn't JSON, or nests deeper than 127 levels",
            FaultKind::NoMemory => "memory was refused",
            FaultKind::UnknownKey => "the text after the modifiers names no key",
            FaultKind::TooManySteps => "a chord has more than four keystrokes",
            FaultKind::EmptyKey => "nothing follows the modifiers, or the text has only spaces",
            FaultKind::UnknownScope => "no scope has this name",
            FaultKind::BadLayout => {
                "the scopes of a layout aren't a tree, or its focus is none of them"
            }
            FaultKind::TooManyKeys => "more than 10,000 context keys in all scopes",
            FaultKind::BadToken => {
                "a clause has a part that is no token: a lone `=`, `&` or `|`, or a quote or a \
                    pattern without its end"
            }
            FaultKind::Unexpected => {
                "a clause has a token, or its end, where the grammar doesn't allow it"
            }
            FaultKind::ClauseTooDeep => "more than 64 `(` and `!` enclose a part of a clause",
            FaultKind::BadNumber =>
                "no whole number of 64 signed bits follows `<`, `<=`, `>` or `>=`",
            FaultKind::UnreadPattern => {
                "a pattern of a clause isn't supported by `regex`, and never matches"
            }
            FaultKind::MissingMember => "a required member is absent",
            FaultKind::WrongShape => "a value has the wrong kind",
            FaultKind::BadHex => "the code of a handler isn't hexadecimal",
            FaultKind::DuplicateHandler => "two handlers of a file have the same command",
            FaultKind::TooLarge => "a limit is exceeded, of extensions or in a `handlers.json`",
            FaultKind::BadLength => {
                "the bytes of code aren't a whole number of three-byte instructions"
            }
            FaultKind::BadOpcode => "no instruction has this opcode",
            FaultKind::BadOperand => "the instruction doesn't allow this operand",
            FaultKind::BadBlock => {
                "an END closes no block, a ninth block is opened, a block holds a RETURN, or a \
                    block is never closed"
            }
            FaultKind::MissingOperand => "an instruction takes more values than are on the stack",
            FaultKind::WrongOperand => {
                "a value has the wrong kind, or no text or parameter has this index"
            }
            FaultKind::UnknownCommand => {
                "a call has no such index, or names a command that may not be called"
            }
            FaultKind::WrongArgument => "an argument of a call has another kind than the parameter",
            FaultKind::BadJump =>
                "a jump doesn't lead to a later place of the code in its own block",
            FaultKind::FallsOff => "the code ends without a RETURN, or is empty",
            FaultKind::ShapesDiffer => {
                "two ways to a place, or the end and the beginning of a block's turn, leave \
                    different kinds, or numbers, of values"
            }
            FaultKind::TooHigh => "more than 64 values would be on the stack",
            FaultKind::OverDepth => "a called command's depth isn't below the handler's",
            FaultKind::OverBudget => "a path costs more than the handler's budget",
            FaultKind::AlreadyExists => {
                "a closure is registered for the native command, or a handler's name is taken"
            }
            FaultKind::Exhausted => "1,000,000 registrations were made in this session",
            FaultKind::StaleTicket => "no registered closure has this ticket",
            FaultKind::InUse => {
                "a live handler calls this native command (the line adds the first one's command), \
                    or a live verified handler of another extension calls a handler of the code"
            }
            FaultKind::CalleeNotLive => {
                "a command called by verified code isn't live as it was declared; no load gives it. \
                    Of an extension that is to be enabled: no closure is registered for a native \
                    command that its verified code calls (the line adds the first one's name)"
            }
            FaultKind::TrapMissingOperand => "trap: an instruction or call has too few values",
            FaultKind::TrapUnknownCommand => {
                "trap: a call has no such index, or no live command has the name"
            }
            FaultKind::TrapWrongArgument => "trap: a value has the wrong kind",
            FaultKind::OutOfBudget =>
                "trap: the allowance doesn't cover the instruction or the call",
            FaultKind::CallTooDeep => "trap: the called command's depth isn't below the caller's",
            FaultKind::BadCode => {
                "trap: a place, index or jump that isn't valid, such as a jump into another block, \
                    or a 65th value on the stack"
            }
            FaultKind::MissingDependency =>
                "an extension depends on one that isn't loaded before it",
            FaultKind::DuplicateExtension => "an extension has the identifier of an earlier one",
            FaultKind::UnknownExtension => "no extension has this identifier",
            FaultKind::NeedsDependency => {
                "an extension can't be enabled, since one that it depends on isn't enabled (the \
                    line adds the first one's identifier)"
            }
            FaultKind::NeededBy => {
                "an extension can't be disabled, since an enabled one depends on it (the line adds \
                    the first one's identifier)"
            }
            FaultKind::SignatureChanged => {
                "the new code of an extension doesn't declare the same commands as its code before, \
                    with the same parameters, budgets and depths"
            }
            FaultKind::NoEntry => {
                "the last palette has no entry with this number, or no palette was listed since the \
                    last choice"
            }
            FaultKind::Stopped => "the session was stopped before, by refused memory or a trap",
            FaultKind::NoClosure => "the host has no spare closure for this native command",
            FaultKind::TooLong => "the script has more than 16,777,216 bytes",
            FaultKind::ReadFailed => "reading the script failed",
            FaultKind::WriteFailed => "writing the trace failed",
            FaultKind::Trapped => "a handler of a raw session trapped",
        }
    }

    /// Whether it is a warning alone: the entry whose clause has such a pattern is kept.
    pub fn is_unread_pattern(self) -> bool
        ensures { result ≡ is_unread_pattern self }
    {
        matches!(self, FaultKind::UnreadPattern)
    }
}

/// Shows the number and the name, as `22 TooManyKeys`.
impl fmt::Display for FaultKind {
    ghost use Rattle.std.specs.Prelude.{Some};
    ghost use Rattle.kb_base.specs.Fault.{fault_words};

    ghost output = { λ fault. Some (fault_words fault) };

    fn fmt<W: fmt::Write>(&self, f: &mut fmt::Formatter<W>) -> fmt::Result {
        let number = self.number();
        let name = self.name();
        write!(f, "{number} {name}")
    }
}
