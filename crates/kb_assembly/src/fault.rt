//! Faults of a text of assembly.
use kb_base::Failure;
use thiserror::Error;

/// What is wrong with a line. The messages and the numbers are our decision.
#[derive(Clone, Copy, Debug, PartialEq, Eq, Error)]
pub enum Mistake {
    /// A byte that may stand only between quotes or in a comment.
    #[error("this character may stand only between quotes or in a comment")]
    BadByte,
    /// Two words without white space between them.
    #[error("white space is missing between two words")]
    MissingBlank,
    /// A backslash followed by no `"`, `\`, `n`, `r` or `t`.
    #[error("after a backslash comes one of \" \\ n r t")]
    BadEscape,
    /// Quotes that aren't closed on their line.
    #[error("the quotes are not closed on this line")]
    OpenQuotes,
    /// A word that is no UTF-8 text.
    #[error("this word is no UTF-8 text")]
    NotUtf8,
    /// A first word that names no instruction and no line of a head.
    #[error("no instruction has this name")]
    UnknownInstruction,
    /// A line without a word that it needs.
    #[error("the operand is missing")]
    MissingOperand,
    /// A word behind a whole line.
    #[error("the instruction ends before this word")]
    ExtraWord,
    /// An operand that is no number from 0 to 65,535 without leading zeros.
    #[error("a number from 0 to 65535 is wanted")]
    BadNumber,
    /// A text without quotes.
    #[error("a text stands between quotes")]
    MissingQuotes,
    /// A name that nothing has.
    #[error("nothing has this name")]
    UnknownName,
    /// A name of a text, a call, a parameter or a label whose number is over 65,535.
    #[error("an operand is at most 65535, and the number of this name is larger")]
    TooMany,
    /// A label that an earlier line has already.
    #[error("an earlier line has this label")]
    DoubleLabel,
    /// A line before the first `.handler`.
    #[error("a handler begins with a line `.handler NAME`")]
    NoHandler,
    /// A line of a handler's head behind one that has to come after it, or a second one where one may be.
    #[error("this line has to stand earlier in the handler, or stands there already")]
    OutOfPlace,
    /// A word that names no kind of parameter.
    #[error("a kind is one of text, number, truth and any")]
    BadKind,
    /// A number of a head that is none from 0 to 4,294,967,295 without leading zeros.
    #[error("a number without leading zeros is wanted")]
    BadLimit,
}

impl Mistake {
    ghost use Rattle.std.specs.Prelude.{◌≡◌};
    ghost use Rattle.kb_assembly.specs.Fault.{is_of_bytes};

    /// Whether the index of the mistake is that of a byte, and not that of a word.
    pub fn is_of_bytes(self) -> bool
        ensures { result ≡ is_of_bytes self }
    {
        match self {
            Mistake::BadByte
            | Mistake::MissingBlank
            | Mistake::BadEscape
            | Mistake::OpenQuotes
            | Mistake::NotUtf8 => true,
            _ => false,
        }
    }
}

/// A mistake, and where it is: the index of a byte of a line, or of a word of it.
#[derive(Clone, Copy, Debug, PartialEq, Eq)]
pub struct LineFault {
    /// The index, from 0.
    pub at: usize,
    /// What is wrong there.
    pub mistake: Mistake,
}

impl From<LineFault> for Failure<LineFault> {
    ghost use Rattle.std.specs.Prelude.{◌≡◌};
    ghost use Rattle.kb_base.specs.declared.failure.Failure.TheVariants.{Fault};

    ghost from_gives = { λ fault failure. failure ≡ Fault fault };

    fn from(fault: LineFault) -> Failure<LineFault> {
        Failure::Fault(fault)
    }
}
