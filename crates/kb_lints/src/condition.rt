//! When a rule may start wherever another one may.
ghost use Rattle.std.specs.Prelude.{◌≡◌, IsTrue, true};
ghost use Rattle.kb_context.specs.Scopes.{Keys};
ghost use Rattle.kb_resolve.specs.Enablements.{enablement_in};
ghost use Rattle.kb_when.specs.Marks.{when_holds};
ghost use Rattle.kb_lints.specs.Condition.{Covers};

use kb_resolve::Enablements;
use kb_rules::Rule;
use kb_when::Clause;

/// Whether both clauses have the same tree, and none of their patterns is unread. An unread pattern is a
/// problem of its own, so that its clause isn't compared.
fn same_clause(one: &Clause, other: &Clause) -> bool
    ensures { IsTrue result → one.now ≡ other.now }
{
    one.same_tree(other) && one.unread().is_empty() && other.unread().is_empty()
}

/// Whether a condition is absent, or the same as another one.
fn covers_when(when: &Option<Clause>, other: &Option<Clause>) -> bool
    ensures { IsTrue result → (keys : Keys) → when_holds keys other.now ≡ true
        → when_holds keys when.now ≡ true }
{
    match (when, other) {
        (None, _) => true,
        (Some(when), Some(other)) => same_clause(when, other),
        (Some(_), None) => false,
    }
}

/// Whether a rule's command is that of another one, or has no enablement.
fn covers_command(rule: &Rule, other: &Rule, enablements: &Enablements) -> bool
    ensures { IsTrue result → (keys : Keys)
        → when_holds keys (enablement_in enablements.now other.now.command) ≡ true
        → when_holds keys (enablement_in enablements.now rule.now.command) ≡ true }
{
    rule.command.as_str() == other.command.as_str()
        || enablements.of(rule.command.as_str()).is_none()
}

/// Whether a rule may start wherever another one may: it has no clause or the same, and its command has no
/// enablement or is the same.
pub fn covers(rule: &Rule, other: &Rule, enablements: &Enablements) -> bool
    ensures { IsTrue result → Covers (enablement_in enablements.now) rule.now other.now }
{
    covers_when(&rule.when, &other.when) && covers_command(rule, other, enablements)
}
