//! The jumps of the flat form of a clause.
ghost use Rattle.std.specs.Prelude.{◌≡◌};
ghost use Rattle.kb_base.specs.Fingerprint.{IsBytes};
ghost use Rattle.kb_when.specs.Probe.{key_of, probe_of, text_of};

use crate::leaf::Leaf;
use crate::probe::Probe;
use std::rc::Rc;

/// An atom with its probe, the place to go on at if it holds, and the place if it does not.
#[derive(Debug, Drop)]
pub(crate) struct Jump {
    pub(crate) atom: Rc<Leaf>,
    pub(crate) probe: Probe,
    pub(crate) yes: usize,
    pub(crate) no: usize,
    ghost numbers: { probe ≡ probe_of atom.value },
    ghost key: { IsBytes (key_of atom.value) },
    ghost text: { IsBytes (text_of atom.value) },
}
