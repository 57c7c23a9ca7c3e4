//! A file in which strings that are values of members are exchanged.
ghost use Rattle.std.specs.Prelude.{◌≡◌, [], IfOk, length, map};
ghost use Rattle.kb_exchange.specs.Moves.{moves_of, KeepsOthers};
ghost use Rattle.kb_exchange.specs.Exchange.{exchanged};
ghost use Rattle.kb_exchange.specs.Renewal as words;
ghost use Rattle.kb_exchange.specs.Span.{AreInOrder};

use crate::exchanging::{Exchange, Exchanged, exchange_all};
use crate::members::values;
use kb_base::{NoMemory, Text};
use kb_places::{Span, part_of};
use std::alloc::Global;

/// What tells which strings are exchanged, and for what.
pub trait Renewal {
    ghost use Rattle.std.specs.Prelude.{◌≡◌, ℕ, List, Option, IfOk};

    ghost renewed: { Self → List ℕ → Option (List ℕ) };

    /// What is to stand in the place of a string of JSON, both with their quotes, or `None` where the string
    /// stays. Error: `NoMemory`.
    fn renewed(&self, alloc: Global, string: &[u8]) -> Result<Option<Text>, NoMemory>
        ensures { IfOk result (λ found. found ≡ renewed self.now string.now) };
}

/// The exchanges of those parts of a text that a renewal has something for.
fn exchanges_of<R: Renewal>(
    alloc: Global,
    text: &[u8],
    parts: &[Span],
    renewal: &R,
) -> Result<Vec<Exchange>, NoMemory>
    ensures { IfOk result
        (λ made. made.items ≡ words.exchanges_of (R.renewed renewal.now) text.now parts.now) }
{
    let mut made = Vec::new(alloc);
    for part in parts {
        if let Some(new) = renewal.renewed(alloc, part_of(text, *part))? {
            made.push(Exchange {
                old: *part,
                text: new,
            })?;
        }
    }
    Ok(made)
}

/// A file of JSON with comments, in which those strings are exchanged that are values of members with these
/// names and for which the renewal has something. All other bytes stay.
///
/// A file that isn't UTF-8, or has a comment or a string without its end, stays as it is. The time is linear
/// in the file, but for what the renewal does.
///
/// Error: `NoMemory`.
pub fn exchange_values<R: Renewal>(
    alloc: Global,
    file: &[u8],
    names: &[&str],
    renewal: &R,
) -> Result<Exchanged, NoMemory>
    ensures bytes { IfOk result (λ made. made.bytes
        ≡ exchanged file.now (words.renewals (R.renewed renewal.now) (map (λ n. n.now) names.now) file.now)) }
    ensures moves { IfOk result (λ made. made.moves
        ≡ moves_of file.now (words.renewals (R.renewed renewal.now) (map (λ n. n.now) names.now) file.now)) }
    ensures kept { IfOk result (λ made. KeepsOthers file.now made.bytes made.moves) }
    ensures same { words.renewals (R.renewed renewal.now) (map (λ n. n.now) names.now) file.now ≡ []
        → IfOk result (λ made. made.bytes ≡ file.now) }
{
    let parts = values(alloc, file, names)?;
    let exchanges = exchanges_of(alloc, file, parts.as_slice(), renewal)?;
    exchange_all(alloc, file, exchanges.as_slice())
}
