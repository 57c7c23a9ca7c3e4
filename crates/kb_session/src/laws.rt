//! Theorems about sessions with verified handlers.
ghost use Rattle.kb_session.specs.Headline.{HeadlineHolds};
ghost use Rattle.kb_session.specs.Session.{RunsThrough};
ghost use Rattle.kb_session.specs.State.{RunsOn};

/// If a session is safe, as one from `Session::load` is, then no input stops it while it runs, and it stays
/// safe: each live handler is verified, and what it calls is live as it was declared. No handler ever traps,
/// so only refused memory stops the session.
pub fn runs_on_when_verified()
    ensures { RunsOn }
{}

/// If a session is safe and not stopped, a run of events never ends with `Stopped`: it handles all of them,
/// or memory is refused.
pub fn runs_through_when_verified()
    ensures { RunsThrough }
{}

/// If a session is safe and not stopped, as one from `Session::load` is, then after all lists of inputs it
/// isn't stopped, each key press starts exactly the command of the last rule whose keystrokes, clause and
/// enablement match, or opens, keeps or leaves a chord, and no handler gets stuck.
pub fn headline_holds_when_verified()
    ensures { HeadlineHolds }
{}
