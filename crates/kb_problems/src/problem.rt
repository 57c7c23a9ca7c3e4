//! A problem.
ghost use Rattle.std.specs.Prelude.{◌≡◌, OnOk, false};
ghost use Rattle.kb_problems.specs.Starts.{never_said, says_never};
ghost use Rattle.kb_problems.specs.declared.cause.Cause.TheVariants.{Linted};

use crate::cause::{Cause, Lint};
use kb_base::NoMemory;
use kb_files::LoadFile;
use kb_places::Span;

/// A problem of some files, with its place.
#[derive(Drop)]
pub struct Problem {
    /// Why there is one.
    pub cause: Cause,
    /// The file that it is in.
    pub file: LoadFile,
    /// Where it is, among the bytes behind the file's byte order mark. `None` for a file as a whole.
    pub span: Option<Span>,
    /// What is wrong, and what to do.
    pub sentence: String,
}

/// A problem of a lint.
pub fn linted(file: LoadFile, lint: Lint, span: Option<Span>, sentence: String) -> Problem
    ensures { result ≡ record { cause = Linted lint; file = file; span = span; sentence = sentence } }
{
    Problem {
        cause: Cause::Linted(lint),
        file,
        span,
        sentence,
    }
}

/// Adds a problem that doesn't say that a rule can never start. Error: `NoMemory`.
#[tactic(auto, using(crate::proofs::ProblemLemmas::other_adds))]
pub fn push_other(problem: Problem, problems: &mut Vec<Problem>) -> Result<(), NoMemory>
    requires { says_never problem.cause ≡ false }
    ensures { OnOk result (never_said problems.new.items ≡ never_said problems.old.items) }
{
    problems.push(problem)?;
    Ok(())
}
