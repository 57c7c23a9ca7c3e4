//! A manifest with titles in the user's language.
ghost use Rattle.std.specs.Prelude.{◌≡◌, [], IfOk, map};
ghost use Rattle.serde_json.specs.View.{view};
ghost use Rattle.kb_exchange.specs.Exchange.{exchanged};
ghost use Rattle.kb_exchange.specs.Moves.{moves_of, KeepsOthers};
ghost use Rattle.kb_localized.specs.Manifest.{messages_in};

use crate::bundle::Bundle;
use crate::messages::Messages;
use kb_base::NoMemory;
use kb_exchange::{Exchanged, exchange_values};
use std::alloc::Global;

/// The manifest with the messages of the bundles in the places of their keys: each string that is the value
/// of a member `title`, `category` or `shortTitle`, and is a `%key%` that the bundles have a message for. The
/// bundles stand in order: the one of the user's language first, then the default one.
///
/// All other bytes stay, comments and white space too. A key without a message stays, and so does all of a
/// manifest that isn't UTF-8, or has a comment or a string without its end: the load has its fault. The moves
/// lead from a place in the new manifest back to one in this.
///
/// The time is linear in the manifest, but for the search of a key in a bundle, which is logarithmic.
///
/// Error: `NoMemory`.
pub fn localize(alloc: Global, manifest: &[u8], bundles: &[Bundle]) -> Result<Exchanged, NoMemory>
    ensures bytes { IfOk result (λ made. made.bytes
        ≡ exchanged manifest.now (messages_in (map (λ b. view b.value) bundles.now) manifest.now)) }
    ensures moves { IfOk result (λ made. made.moves
        ≡ moves_of manifest.now (messages_in (map (λ b. view b.value) bundles.now) manifest.now)) }

    // What isn't replaced stays, and stands where the moves say.
    ensures kept { IfOk result (λ made. KeepsOthers manifest.now made.bytes made.moves) }

    // Without a key that has a message the manifest is the same.
    ensures same { messages_in (map (λ b. view b.value) bundles.now) manifest.now ≡ []
        → IfOk result (λ made. made.bytes ≡ manifest.now) }
{
    let messages = Messages { bundles };
    exchange_values(
        alloc,
        manifest,
        &["title", "category", "shortTitle"],
        &messages,
    )
}
