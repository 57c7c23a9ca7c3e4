//! Where the first message of a stream ends.
ghost use Rattle.std.specs.Prelude.{◌≡◌, ◌+◌, ◌<◌, ◌≤◌, length, min, take};
ghost use Rattle.std.specs.Result.{ForOk};
ghost use Rattle.kb_messages.specs.Reading as reading;
ghost use Rattle.kb_messages.specs.Reading.{framed, IsWithin};

use crate::fault::FrameFault;
use crate::header::{body_len, header_len};

/// The most bytes of a header, with three of the four bytes that end it.
const HEADER_LIMIT: usize = 8195;

/// The bytes that are dropped of a header that is too long.
const DROPPED: usize = 4096;

/// What stands at the front of the bytes of a stream.
#[derive(Clone, Copy, Debug)]
pub enum Front {
    /// Not all of a message.
    Wait,
    /// A message with its body between two indices.
    Body(usize, usize),
    /// No message, up to an index.
    Lost(FrameFault, usize),
}

/// Where a body ends that begins at an index, if all of it is held.
fn framed(held: usize, begin: usize, length: Result<usize, FrameFault>) -> Front
    requires begin { begin ≤ 8199 }
    requires length { ForOk length (λ n. n ≤ 16777216) }
    ensures front { result ≡ framed held begin length }
    ensures within { begin ≤ held → 0 < begin → IsWithin held result }
{
    match length {
        Err(fault) => Front::Lost(fault, begin),
        Ok(length) if begin + length <= held => Front::Body(begin, begin + length),
        Ok(_) => Front::Wait,
    }
}

/// The bytes among which a header ends.
#[tactic(auto, using(crate::proofs::FrontLemmas::heads))]
fn head_of(held: &[u8]) -> &[u8]
    ensures head { result.now ≡ take 8195 held.now }
    ensures len { length result.now ≡ min (length held.now) 8195 }
{
    if held.len() < HEADER_LIMIT {
        held
    } else {
        &held[..HEADER_LIMIT]
    }
}

/// What stands at the front of these bytes, by the index of the first blank line.
fn front_by(held: &[u8], end: usize) -> Front
    requires { end < min (length held.now) 8195 → end + 4 ≤ length held.now }
    ensures front { result ≡ reading.front_by held.now end }
    ensures within { IsWithin (length held.now) result }
{
    if end < held.len().min(HEADER_LIMIT) {
        framed(held.len(), end + 4, body_len(&held[..end]))
    } else if held.len() < HEADER_LIMIT {
        Front::Wait
    } else {
        Front::Lost(FrameFault::LongHeader, DROPPED)
    }
}

/// What stands at the front of these bytes.
pub(crate) fn front_of(held: &[u8]) -> Front
    ensures front { result ≡ reading.front_of held.now }
    ensures within { IsWithin (length held.now) result }
{
    front_by(held, header_len(head_of(held)))
}
