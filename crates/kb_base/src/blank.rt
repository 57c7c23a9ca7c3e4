//! White space.
ghost use Rattle.std.specs.Prelude.{◌≡◌};
ghost use Rattle.std.specs.List.{list_all};
ghost use Rattle.kb_base.specs.Blank.{is_blank};

/// Whether a byte is white space of JSON: space, tab, carriage return or line feed.
pub fn is_blank(byte: u8) -> bool
    ensures { result ≡ is_blank byte }
{
    matches!(byte, b' ' | b'\t' | b'\r' | b'\n')
}

/// Whether a text is empty or consists of white space of JSON.
pub fn is_blank_text(text: &str) -> bool
    ensures { result ≡ list_all is_blank text.now }
{
    text.as_bytes().iter().all(|byte| is_blank(*byte))
}
