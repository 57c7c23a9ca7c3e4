//! The commands that handlers may call, and their signatures.
ghost use Rattle.std.specs.Prelude.{◌≡◌, IfOk, OnOk, OnErr, false, option_copied};
ghost use Rattle.std.specs.FinMap as map;
ghost use Rattle.kb_code.specs.Same.{same_declaration};
ghost use Rattle.kb_verify.specs.Callable.{with_first};

use kb_base::{NoMemory, Seq, Text, TextMap};
use kb_code::same_signature;
use kb_core::{Param, Signature};
use std::alloc::Global;
use std::marker::Model;
use std::rc::Rc;

/// A signature with shared ownership (reference counted). Contracts see the signature itself.
#[derive(Drop)]
pub struct SharedSignature {
    signature: Rc<Signature>,
}

impl Model for SharedSignature {
    ghost use Rattle.kb_core.specs.Declaration.{Declaration};

    ghost Value = { Declaration };

    ghost view = { λ s. s.signature.value };
}

impl SharedSignature {
    /// A copy of a signature that can be shared.
    pub(crate) fn of(alloc: Global, signature: &Signature) -> Result<SharedSignature, NoMemory>
        ensures { IfOk result (λ made. made ≡ signature.now) }
    {
        let params = copied(alloc, signature.params())?;
        let copy = Signature::new(params, signature.budget(), signature.depth());
        Ok(SharedSignature {
            signature: Rc::new(alloc, copy)?,
        })
    }

    /// One more reference to the same signature, without a copy. `NoMemory` if the reference count
    /// can't grow.
    pub fn share(&self) -> Result<SharedSignature, NoMemory>
        ensures { IfOk result (λ made. made ≡ self.now) }
    {
        Ok(SharedSignature {
            signature: Rc::clone(&self.signature)?,
        })
    }

    /// Whether a signature is equal to this one: the same parameters, by name and kind, in the same order,
    /// and the same budget and depth.
    pub fn is_same(&self, other: &Signature) -> bool
        ensures { result ≡ same_declaration self.now other.now }
    {
        same_signature(&self.signature, other)
    }

    /// Borrows the signature.
    pub fn as_signature(&self) -> &Signature
        ensures { result.now ≡ self.now }
    {
        &self.signature
    }
}

/// A copy of parameters, with their names.
fn copied(alloc: Global, params: &[Param]) -> Result<Seq<Param>, NoMemory>
    ensures { IfOk result (λ copied. copied ≡ params.now) }
{
    let mut copied = Seq::new(alloc);
    for param in params {
        copied.push(Param {
            name: param.name.copied()?,
            kind: param.kind,
        })?;
    }
    Ok(copied)
}

/// The commands that a handler may call: their names and signatures. Contracts see a finite map from
/// names. One table serves all handlers of a file, and a look-up by name searches a map.
#[derive(Drop)]
pub struct Callable {
    table: TextMap<SharedSignature>,
}

impl Model for Callable {
    ghost use Rattle.std.specs.Coded.{coded_list, coded_ℕ};
    ghost use Rattle.std.specs.FinMap as map;
    ghost use Rattle.kb_core.specs.contracts.signature.Signature as signature;
    ghost use Rattle.kb_verify.specs.Callable.{Commands};

    ghost Value = { Commands };

    ghost coded = { map.code (coded_list coded_ℕ) signature.the_row.coded };

    ghost view = { λ c. c.table };
}

impl Callable {
    /// A table without commands.
    pub fn new(alloc: Global) -> Callable
        ensures { result ≡ map.empty }
    {
        Callable {
            table: TextMap::new(alloc),
        }
    }

    /// Adds a command with a copy of its signature. If the table already has a command of this name, it
    /// stays as it is (our decision: the first of equal names counts), and nothing is allocated. On
    /// `NoMemory` the table is unchanged.
    pub fn add(&mut self, alloc: Global, name: &str, signature: &Signature) -> Result<(), NoMemory>
        ensures ok { OnOk result (self.new ≡ with_first name.now signature.now self.old) }
        ensures err { OnErr result (self.new ≡ self.old) }
        ensures absent { OnErr result (map.contains_key self.old name.now ≡ false) }
    {
        if self.table.contains_key(name) {
            return Ok(());
        }
        let signature = SharedSignature::of(alloc, signature)?;
        self.table.set(alloc, name, signature)
    }

    /// The signature of the command with a name, or `None` if the table has no such command.
    pub fn get(&self, name: &str) -> Option<&SharedSignature>
        ensures { option_copied result ≡ map.get self.now name.now }
    {
        self.table.get(name)
    }
}
