//! Theorems about the lints: the rules that they name can never start.
ghost use Rattle.kb_lints.specs.CutOff.{CutOffNeverStart};
ghost use Rattle.kb_lints.specs.Extended.{ExtendedNeverStart};
ghost use Rattle.kb_lints.specs.Shadow.{ShadowedNeverStart};

/// A shadowed rule is never chosen by a search, whatever is pressed and whatever the context.
pub fn shadowed_never_start()
    ensures { ShadowedNeverStart }
{}

/// A rule that is cut off is never found, in no state that key presses lead to, and in no context.
pub fn cut_off_never_start()
    ensures { CutOffNeverStart }
{}

/// A rule whose keystrokes a lower one extends is never chosen by a search, whatever is pressed and whatever
/// the context.
pub fn extended_never_start()
    ensures { ExtendedNeverStart }
{}
