//! Theorems about the definitions, independent of any run.
ghost use Rattle.kb_assembly_report.specs.Laws.{AcceptedIfAnyWould, SameHandlersAgain};

/// The text of a file is assembled to a file of the same handlers, if it is assembled to a file.
pub fn same_handlers_again()
    ensures { SameHandlersAgain }
{}

/// With some budgets and depths left out, the handlers of a text are accepted as they are assembled, if they
/// would be with any in the place of these, and a file can have them.
pub fn accepted_if_any_would()
    ensures { AcceptedIfAnyWould }
{}
