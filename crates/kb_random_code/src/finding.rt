//! What a random test may find wrong in the verifier or in the machine.

/// A fault of the verifier or of the machine, for one handler under one budget. A choice is that of
/// `choices`.
#[derive(Clone, Copy, Debug)]
pub(crate) enum Finding {
    /// `kb_handler_file` refuses the file with the handler, and its blocks are well formed.
    NotRead,
    /// `kb_handler_file` accepts the file with the handler, and its blocks aren't well formed.
    Read,
    /// The verifier accepts the handler, and a path through its code costs more than the budget.
    Accepted,
    /// The verifier refuses the handler by this fault, and the budget is enough.
    Refused {
        number: u32,
    },
    /// The verifier refuses the handler by this fault at a place behind its code.
    Outside {
        number: u32,
        place: usize,
    },
    /// The path of fault 69 is not a path of the code, is not the most expensive one, or is within the
    /// budget.
    Path,
    /// The verifier accepts the handler, and the registry refuses it by this fault.
    NotLive {
        number: u32,
    },
    /// The verifier accepts the handler, and a start doesn't find its command.
    NotFound {
        choice: u16,
    },
    /// The verifier accepts the handler, and a start ends with this trap.
    Trapped {
        choice: u16,
        number: u32,
        place: usize,
    },
    /// The verifier accepts the handler, and a start spends more than the budget.
    Spent {
        choice: u16,
        spent: u64,
    },
}
