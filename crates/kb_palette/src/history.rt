//! The history of choices.
ghost use Rattle.std.specs.Prelude.{◌≡◌, [], IfOk, OnOk, OnErr, position};
ghost use Rattle.std.specs.Str.{bytes_eq};
ghost use Rattle.kb_palette.specs.History.{noted};

use kb_base::NoMemory;
use lru::LruCache;
use std::alloc::Global;
use std::marker::Model;
use std::num::NonZeroUsize;

/// The last 50 distinct commands that were chosen in the palette (our decision). Contracts see the list of
/// their identifiers, the most recent choice first.
#[derive(Drop)]
pub struct History {
    cache: LruCache<String, ()>,
}

impl Model for History {
    ghost use Rattle.std.specs.Prelude.{ℕ, List};
    ghost use Rattle.kb_palette.specs.History.{texts_of, IsKept};

    ghost Value = { List (List ℕ) };

    ghost view = { λ h. texts_of h.cache.entries };

    ghost invariant = { λ h. IsKept h.cache };
}

impl History {
    /// A history without choices. Error: `NoMemory`.
    pub fn new(alloc: Global) -> Result<History, NoMemory>
        ensures { IfOk result (λ made. made ≡ []) }
    {
        let room = NonZeroUsize::new(50).unwrap();
        Ok(History {
            cache: LruCache::new(alloc, room)?,
        })
    }

    /// Notes that a command was chosen: it is then the most recent choice. If it is not among the choices and
    /// there are 50, the least recent one is forgotten. Error: `NoMemory`; the history is then unchanged.
    pub fn note(&mut self, command: &str) -> Result<(), NoMemory>
        ensures ok { OnOk result (self.new ≡ noted command.now self.old) }
        ensures err { OnErr result (self.new ≡ self.old) }
    {
        if self.cache.promote(command) {
            return Ok(());
        }
        let choice = String::from_str(*self.cache.allocator(), command)?;
        self.cache.put(choice, ())?;
        Ok(())
    }

    /// The place of a command among the choices, which is 0 for the most recent one, or `None`.
    pub(crate) fn place(&self, command: &str) -> Option<usize>
        ensures { result ≡ position (bytes_eq command.now) self.now }
    {
        if !self.cache.contains(command) {
            return None;
        }
        self.cache
            .iter()
            .position(|(chosen, _)| command == chosen.as_str())
    }
}
