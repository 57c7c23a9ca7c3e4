//! The clauses of a manifest.
ghost use Rattle.std.specs.Prelude.{◌≡◌, ◌++◌, Ok, IfOk, option_map};
ghost use Rattle.kb_base.specs.Failure.{Gives};
ghost use Rattle.kb_when.specs.ClauseText.{clause_in};
ghost use Rattle.kb_pattern.specs.Pattern.{AreRight};
ghost use Rattle.kb_when.specs.Clause.{patterns_of};
ghost use Rattle.kb_when.specs.Unread.{unread_of, marked_by};
ghost use Rattle.kb_manifest.specs.Condition.{fault_by, never_holds, condition_by, condition_of};
ghost use Rattle.kb_manifest.specs.Condition.{optional_condition, IsRightBy, IsRightOf, IsOptionalRight};

use kb_base::{Failure, FaultKind, NoMemory, Seq, Text, UnreadPattern};
use kb_when::{Clause, SharedClause, WhenFault};
use std::alloc::{AllocError, Global};

/// A clause of a manifest, the fault of its warning, and its unread patterns.
#[derive(Drop)]
pub(crate) struct Condition {
    pub(crate) clause: Option<SharedClause>,
    pub(crate) fault: Option<FaultKind>,
    pub(crate) unread: Seq<UnreadPattern>,
}

/// A copy of patterns.
fn copied(alloc: Global, patterns: &[UnreadPattern]) -> Result<Seq<UnreadPattern>, NoMemory>
    ensures { IfOk result (λ made. made ≡ patterns.now) }
{
    let mut made = Seq::new(alloc);
    for unread in patterns {
        made.push(unread.copied()?)?;
    }
    Ok(made)
}

/// The fault of the warning of a clause with these patterns that aren't read, if it has one.
fn fault_by(unread: &[UnreadPattern]) -> Option<FaultKind>
    ensures { result ≡ fault_by unread.now }
{
    match unread {
        [] => None,
        _ => Some(FaultKind::UnreadPattern),
    }
}

/// A copy of a clause's patterns that aren't read.
fn told_of(alloc: Global, clause: &Clause) -> Result<Seq<UnreadPattern>, NoMemory>
    ensures told { IfOk result (λ told. told ≡ unread_of clause.now) }
    ensures whole { marked_by (unread_of clause.now) clause.now.tree ≡ clause.now }
    ensures right { AreRight (patterns_of clause.now.tree) clause.now.marks }
{
    copied(alloc, clause.unread())
}

/// The condition of a clause that was read.
fn marked_condition(alloc: Global, clause: Clause) -> Result<Condition, NoMemory>
    ensures read { IfOk result (λ condition.
        condition ≡ condition_by condition.unread (Ok clause.tree)) }
    ensures right { IfOk result (λ condition. IsRightBy condition.unread (Ok clause.tree)) }
{
    let Ok(unread) = told_of(alloc, &clause) else {
        drop(clause);
        return Err(AllocError);
    };
    let fault = fault_by(unread.as_slice());
    let clause = SharedClause::new(alloc, clause)?;
    Ok(Condition {
        clause: Some(clause),
        fault,
        unread,
    })
}

/// The condition of a clause that can't be read: the clause `false`, so that a command never starts where
/// its clause was meant to prevent that (our decision).
fn never_holds(alloc: Global, fault: WhenFault) -> Result<Condition, NoMemory>
    ensures { IfOk result (λ condition. condition ≡ never_holds fault) }
{
    let never = SharedClause::new(alloc, Clause::never(alloc))?;
    Ok(Condition {
        clause: Some(never),
        fault: Some(fault.kind()),
        unread: Seq::new(alloc),
    })
}

/// The clause of a text, or the clause `false` where the text can't be read.
#[tactic(auto, unfolding(crate::specs::Condition::condition_of, crate::specs::Condition::IsRightOf))]
fn read_condition(alloc: Global, text: &str) -> Result<Condition, NoMemory>
    ensures read { IfOk result (λ condition. condition ≡ condition_of condition.unread text.now) }
    ensures right { IfOk result (λ condition. IsRightOf condition.unread text.now) }
{
    match Clause::parse(alloc, text) {
        Ok(clause) => marked_condition(alloc, clause),
        Err(Failure::Fault(fault)) => never_holds(alloc, fault),
        Err(Failure::NoMemory) => Err(AllocError),
    }
}

/// The clause of a text, if there is one.
pub(crate) fn optional_condition(alloc: Global, text: Option<Text>) -> Result<Condition, NoMemory>
    ensures read { IfOk result (λ condition.
        condition ≡ optional_condition condition.unread text) }
    ensures right { IfOk result (λ condition. IsOptionalRight condition.unread text) }
{
    match text {
        Some(text) => read_condition(alloc, text.as_str()),
        None => Ok(Condition {
            clause: None,
            fault: None,
            unread: Seq::new(alloc),
        }),
    }
}
