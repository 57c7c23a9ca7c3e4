//! Arguments of commands, and their kinds.
ghost use Rattle.std.specs.Prelude.{◌≡◌};
ghost use Rattle.kb_core.specs.Arg.{is_of, empty_of};

use kb_base::Text;
use kb_context::ContextValue;
use std::alloc::Global;

/// An argument of a command. Lists, objects and numbers that are not integers cannot be arguments (our
/// decision).
#[derive(Debug, Drop)]
pub enum Arg {
    Text(Text),
    /// A signed 64-bit integer.
    Number(i64),
    Truth(bool),
}

/// The kind of argument that a parameter accepts.
#[derive(Clone, Copy, Debug, Default, PartialEq, Eq)]
pub enum Kind {
    Text,
    Number,
    Truth,
    /// Any of the other three kinds.
    #[default]
    Any,
}

/// The value in the unused slots of an inline list. No command receives it.
impl Default for Arg {
    ghost use Rattle.std.specs.Prelude.{◌≡◌, false};
    ghost use Rattle.kb_core.specs.declared.arg.Arg.TheVariants.{Truth};

    ghost is_default = { λ arg. arg ≡ Truth false };

    fn default() -> Arg {
        Arg::Truth(false)
    }
}

/// Converts an argument to the value of a context key. A text is moved.
impl From<Arg> for ContextValue {
    ghost use Rattle.std.specs.Prelude.{◌≡◌};
    ghost use Rattle.kb_core.specs.Arg.{context_value};

    ghost from_gives = { λ arg value. value ≡ context_value arg };

    fn from(arg: Arg) -> ContextValue {
        match arg {
            Arg::Text(text) => ContextValue::Text(text),
            Arg::Number(number) => ContextValue::Number(number),
            Arg::Truth(truth) => ContextValue::Truth(truth),
        }
    }
}

impl Kind {
    /// Whether a parameter of this kind accepts the argument.
    pub fn takes(self, arg: &Arg) -> bool
        ensures { result ≡ is_of self arg.now }
    {
        match (self, arg) {
            (Kind::Any, _) => true,
            (Kind::Text, Arg::Text(_)) => true,
            (Kind::Number, Arg::Number(_)) => true,
            (Kind::Truth, Arg::Truth(_)) => true,
            _ => false,
        }
    }

    /// The argument for a parameter of this kind if no value is given: the empty text, 0 or `false`.
    pub fn empty(self, alloc: Global) -> Arg
        ensures { result ≡ empty_of self }
    {
        match self {
            Kind::Text => Arg::Text(Text::new(alloc)),
            Kind::Number => Arg::Number(0),
            Kind::Truth | Kind::Any => Arg::Truth(false),
        }
    }
}
