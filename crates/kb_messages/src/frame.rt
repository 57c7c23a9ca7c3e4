//! The bytes of a message.
ghost use Rattle.std.specs.Prelude.{◌≡◌, IfOk};
ghost use Rattle.kb_messages.specs.Frame.{frame};

use kb_base::NoMemory;
use std::alloc::Global;

/// The bytes of a message with this body. Error: `NoMemory`.
pub fn write_frame(alloc: Global, body: &[u8]) -> Result<Vec<u8>, NoMemory>
    ensures { IfOk result (λ bytes. bytes.items ≡ frame body.now) }
{
    let count = body.len();
    let header = format!(in alloc; "Content-Length: {count}\r\n\r\n")?;
    let mut bytes = Vec::from_slice(alloc, header.as_bytes())?;
    bytes.extend_from_slice(body)?;
    Ok(bytes)
}
