//! Parameters of commands.
ghost use Rattle.std.specs.Prelude.{◌≡◌, IfOk};
ghost use Rattle.kb_core.specs.Parameter.{declared};

use crate::arg::Kind;
use kb_base::{NoMemory, Text};
use std::alloc::Global;

/// A parameter of a command.
#[derive(Debug, Drop)]
pub struct Param {
    pub name: Text,
    pub kind: Kind,
}

/// A parameter with a static name, as those of native commands.
#[derive(Clone, Copy, Debug)]
pub struct NamedKind {
    pub name: &'static str,
    pub kind: Kind,
}

impl NamedKind {
    /// The same parameter with a name of its own. Error: `NoMemory`.
    pub fn owned(self, alloc: Global) -> Result<Param, NoMemory>
        ensures { IfOk result (λ param. param ≡ declared self) }
    {
        Ok(Param {
            name: Text::from_str(alloc, self.name)?,
            kind: self.kind,
        })
    }
}

/// A parameter for which an argument can be read: it has a name and a kind.
pub(crate) trait Parameter {
    ghost use Rattle.kb_core.specs.declared.parameter.Param.{Param};

    ghost declares: { Self → Param };

    /// The parameter's name.
    fn name(&self) -> &str
        ensures { result.now ≡ (declares self.now).name };

    /// The parameter's kind.
    fn kind(&self) -> Kind
        ensures { result ≡ (declares self.now).kind };
}

impl Parameter for Param {
    ghost declares = { λ param. param };

    fn name(&self) -> &str {
        self.name.as_str()
    }

    fn kind(&self) -> Kind {
        self.kind
    }
}

impl Parameter for NamedKind {
    ghost use Rattle.kb_core.specs.Parameter.{declared};

    ghost declares = { declared };

    fn name(&self) -> &str {
        self.name
    }

    fn kind(&self) -> Kind {
        self.kind
    }
}
