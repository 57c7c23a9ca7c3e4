//! Writes lines to standard error.
ghost use Rattle.std.specs.Prelude.{◌≡◌, true, [], ◌∷◌, ◌++◌, IfSome};
ghost use Rattle.kb_run.specs.Voice.{Says, heard_by};

use std::fmt::Display;
use std::io;

/// A destination of lines, such as standard error.
pub trait Console {
    ghost use Rattle.std.specs.Prelude.{◌≡◌, ℕ, Bool, true, List, Option, None, [], ◌∷◌, ◌++◌, IfSome};
    ghost use Rattle.std.specs.Prelude.{OnOk, OnErr};
    ghost use Rattle.std.specs.Io.KnownBytes.{Appends};

    /// All that was written so far, where that is known.
    ghost said: { Self → Option (List ℕ) } = { λ _. None };

    /// Whether it failed to write a line, or may have, where that isn't known.
    ghost broken: { Self → Bool } = { λ _. true };

    /// Writes a line and a line feed. Error: the stream's, which may then have a part of the line.
    fn say<D: Display + Drop>(&mut self, line: D) -> io::Result<()>
        ensures said { OnOk result (IfSome (D.output line)
            (λ text. Appends (said self.old) (said self.new) (text ++ 10 ∷ []))) }
        ensures fails { OnErr result (broken self.new ≡ true) }
        ensures stays { broken self.old ≡ true → broken self.new ≡ true };
}

/// Standard error, of which contracts know nothing.
#[derive(Clone, Copy)]
pub struct SystemConsole<'a, R> {
    pub rt: &'a R,
}

impl<R: Eprint> Console for SystemConsole<'_, R> {
    fn say<D: Display + Drop>(&mut self, line: D) -> io::Result<()> {
        self.rt.eprintln(line)
    }
}

/// Wraps a console and ignores write errors, since they cannot be reported anywhere. Contracts see whether
/// all lines so far were written. A line is lost only if the console fails to write it.
#[derive(Drop)]
pub struct Voice<C: Drop> {
    console: C,
    heard: bool,
}

impl<C: Console + Drop> Voice<C> {
    /// Wraps a console. No line was written yet.
    pub fn new(console: C) -> Voice<C>
        ensures { heard_by C.said C.broken result
            ≡ record { whole = true; said = C.said console; broken = C.broken console } }
    {
        Voice {
            console,
            heard: true,
        }
    }

    /// Writes a line and a line feed. A line that the console refused is lost, and later ones are still
    /// tried.
    pub fn say<D: Display + Drop>(&mut self, line: D)
        ensures { IfSome (D.output line)
            (λ text. Says (heard_by C.said C.broken self.old) (heard_by C.said C.broken self.new)
            (text ++ 10 ∷ [])) }
    {
        let is_heard = self.console.say(line).is_ok();
        self.heard = self.heard && is_heard;
    }
}
