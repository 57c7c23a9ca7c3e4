//! Classes of bytes, and blanking of bytes.
ghost use Rattle.std.specs.Prelude.{◌≡◌, map};
ghost use Rattle.kb_jsonc.specs.Bytes.{is_line_end, blanked, ends_value};

/// Whether the byte ends a line, and with it a line comment.
pub fn is_line_end(byte: u8) -> bool
    ensures { result ≡ is_line_end byte }
{
    byte == b'\r' || byte == b'\n'
}

/// Whether a comma would follow an element or a member. `before` is the last non-blank byte before the
/// comma.
pub fn ends_value(before: Option<u8>) -> bool
    ensures { result ≡ ends_value before }
{
    !matches!(before, None | Some(b'[' | b'{' | b',' | b':'))
}

/// The byte that replaces a byte of a comment: a space, or the byte itself for a line end, so that line
/// numbers stay the same.
pub fn blanked(byte: u8) -> u8
    ensures { result ≡ blanked byte }
{
    if is_line_end(byte) { byte } else { b' ' }
}

/// Replaces the bytes of a comment by blanks.
#[tactic(auto, using(std::proofs::lemmas::List::Edits::map_over_more))]
pub fn blank(bytes: &mut [u8])
    ensures { bytes.new ≡ map blanked bytes.old }
{
    for byte in bytes.iter_mut() {
        *byte = blanked(*byte);
    }
}
