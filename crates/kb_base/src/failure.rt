//! Why a call returned nothing: a fault, or refused memory.
ghost use Rattle.kb_base.specs.Failure.{ForFault, MapsFault, TriesFault};

use crate::memory::NoMemory;
use std::alloc::{AllocError, AllocFailed};

/// Why a call returned nothing: its input has a fault, or memory was refused (5). Fault types do not include
/// refused memory, so that definitions speak of true faults alone; `Failure` adds it.
#[derive(Clone, Copy, Debug, PartialEq, Eq)]
pub enum Failure<F> {
    /// Memory was refused.
    NoMemory,
    /// A true fault, which comes again however much memory there is.
    Fault(F),
}

impl<F> Failure<F> {
    /// The same failure, with its fault mapped by `map`. Refused memory stays refused memory.
    pub fn map_fault<G, M: FnOnce(F) -> G>(self, map: M) -> Failure<G>
        requires { ForFault self (M.pre map) }
        ensures { MapsFault (M.post map) self result }
    {
        match self {
            Failure::NoMemory => Failure::NoMemory,
            Failure::Fault(fault) => Failure::Fault(map(fault)),
        }
    }

    /// The same failure, with its fault mapped by a `map` that may be refused memory. The fault is dropped
    /// then.
    pub fn try_map_fault<G, M: FnOnce(F) -> Result<G, NoMemory>>(self, map: M) -> Failure<G>
        requires { ForFault self (M.pre map) }
        ensures { TriesFault (M.post map) self result }
    {
        match self {
            Failure::NoMemory => Failure::NoMemory,
            Failure::Fault(fault) => match map(fault) {
                Ok(mapped) => Failure::Fault(mapped),
                Err(_) => Failure::NoMemory,
            },
        }
    }
}

impl<F> From<AllocError> for Failure<F> {
    ghost use Rattle.std.specs.Prelude.{◌≡◌};
    ghost use Rattle.kb_base.specs.declared.failure.Failure.TheVariants.{NoMemory};

    ghost from_gives = { λ _ made. made ≡ NoMemory };

    fn from(_refused: AllocError) -> Failure<F> {
        Failure::NoMemory
    }
}

impl<F, T: Drop> From<AllocFailed<T>> for Failure<F> {
    ghost use Rattle.std.specs.Prelude.{◌≡◌};
    ghost use Rattle.kb_base.specs.declared.failure.Failure.TheVariants.{NoMemory};

    ghost from_gives = { λ _ made. made ≡ NoMemory };

    fn from(_refused: AllocFailed<T>) -> Failure<F> {
        Failure::NoMemory
    }
}
