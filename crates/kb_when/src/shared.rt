//! Clauses with several owners.
ghost use Rattle.std.specs.Prelude.{◌≡◌, IfOk, IfErr, option_copied};

use crate::clause::Clause;
use kb_base::NoMemory;
use kb_context::Scopes;
use std::alloc::Global;
use std::marker::Model;
use std::rc::Rc;

/// A clause with several owners, for example a contributed command and the resolver. Contracts see the
/// clause.
#[derive(Debug, Drop)]
pub struct SharedClause {
    clause: Rc<Clause>,
}

impl Model for SharedClause {
    ghost use Rattle.kb_when.specs.Marks.{MarkedClause, coded_marked};

    ghost Value = { MarkedClause };

    ghost coded = { coded_marked };

    ghost view = { λ s. s.clause.value };
}

impl SharedClause {
    ghost use Rattle.kb_context.specs.Scopes.{context};
    ghost use Rattle.kb_when.specs.Marks.{when_holds, WhenHasReadPattern};

    /// Makes a clause shareable. Error: `NoMemory`.
    pub fn new(alloc: Global, clause: Clause) -> Result<SharedClause, NoMemory>
        ensures { IfOk result (λ made. made ≡ clause) }
    {
        Ok(SharedClause {
            clause: Rc::new(alloc, clause)?,
        })
    }

    /// One more owner of the same clause, without a copy. Error: `NoMemory` if the reference count cannot
    /// grow.
    pub fn share(&self) -> Result<SharedClause, NoMemory>
        ensures { IfOk result (λ made. made ≡ self.now) }
    {
        Ok(SharedClause {
            clause: Rc::clone(&self.clause)?,
        })
    }

    /// The clause.
    pub fn as_clause(&self) -> &Clause
        ensures { result.now ≡ self.now }
    {
        &self.clause
    }

    /// Whether a clause that may be missing holds. Error: `NoMemory`. Both as for `Clause::optional_holds`.
    pub fn optional_holds(clause: Option<&SharedClause>, scopes: &Scopes) -> Result<bool, NoMemory>
        ensures value { IfOk result (λ holds.
            holds ≡ when_holds (context scopes.now.seen) (option_copied clause.entry)) }
        ensures memory { IfErr result (λ _. WhenHasReadPattern (option_copied clause.entry)) }
    {
        match clause {
            Some(clause) => clause.as_clause().holds(scopes),
            None => Ok(true),
        }
    }
}
