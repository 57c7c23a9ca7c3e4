//! Copies texts into a host's room.
ghost use Rattle.std.specs.Prelude.{◌≡◌, length, take, drop};
ghost use Rattle.kb_engine.specs.Engine.{over};

/// Copies a text from a place on over a room, as much as fits, and returns the length of the whole text. A
/// place past the end copies nothing.
pub fn read_over(text: &[u8], from: usize, into: &mut [u8]) -> usize
    ensures length { result ≡ length text.now }
    ensures copied { into.new ≡ over (take (length into.old) (drop from text.now)) into.old }
{
    let rest = bytes_from(text, from);
    let count = rest.len().min(into.len());
    into[..count].copy_from_slice(&rest[..count]);
    text.len()
}

/// The bytes from a place on.
fn bytes_from(bytes: &[u8], from: usize) -> &[u8]
    ensures { result.now ≡ drop from bytes.now }
{
    if from < bytes.len() {
        &bytes[from..]
    } else {
        &[]
    }
}
