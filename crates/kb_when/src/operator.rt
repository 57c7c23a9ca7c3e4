//! Comparison operators of clauses.
ghost use Rattle.std.specs.Prelude.{◌≡◌};

/// A comparison of two numbers.
#[derive(Clone, Copy, Debug)]
pub enum Operator {
    /// `<`.
    Below,
    /// `<=`.
    AtMost,
    /// `>`.
    Above,
    /// `>=`.
    AtLeast,
}

impl Operator {
    ghost use Rattle.kb_when.specs.Operator.{compared, operator_eq};

    /// Whether the comparison holds for two numbers.
    pub(crate) fn compares(self, left: i64, right: i64) -> bool
        ensures { result ≡ compared self left right }
    {
        match self {
            Operator::Below => left < right,
            Operator::AtMost => left <= right,
            Operator::Above => left > right,
            Operator::AtLeast => left >= right,
        }
    }

    /// Whether both are the same operator.
    pub(crate) fn is(self, other: Operator) -> bool
        ensures { result ≡ operator_eq self other }
    {
        match (self, other) {
            (Operator::Below, Operator::Below) => true,
            (Operator::AtMost, Operator::AtMost) => true,
            (Operator::Above, Operator::Above) => true,
            (Operator::AtLeast, Operator::AtLeast) => true,
            _ => false,
        }
    }
}
