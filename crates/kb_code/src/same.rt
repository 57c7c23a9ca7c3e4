//! Comparison of signatures.
ghost use Rattle.std.specs.Prelude.{◌≡◌};
ghost use Rattle.kb_code.specs.Same.{same_declaration, same_kind, same_params};

use kb_core::{Kind, Param, Signature};

/// Whether two signatures are equal: the same parameters, by name and kind, in the same order, and the same
/// budget and depth.
pub fn same_signature(own: &Signature, other: &Signature) -> bool
    ensures { result ≡ same_declaration own.now other.now }
{
    own.budget() == other.budget()
        && own.depth() == other.depth()
        && same_params(own.params(), other.params())
}

/// Whether two lists of parameters are equal.
fn same_params(own: &[Param], other: &[Param]) -> bool
    ensures { result ≡ same_params own.now other.now }
{
    match own {
        [] => other.is_empty(),
        [first, rest @ ..] => match other {
            [] => false,
            [other, others @ ..] => {
                first.name.as_str() == other.name.as_str()
                    && same_kind(first.kind, other.kind)
                    && same_params(rest, others)
            }
        },
    }
}

fn same_kind(own: Kind, other: Kind) -> bool
    ensures { result ≡ same_kind own other }
{
    matches!(
        (own, other),
        (Kind::Text, Kind::Text)
            | (Kind::Number, Kind::Number)
            | (Kind::Truth, Kind::Truth)
            | (Kind::Any, Kind::Any)
    )
}
