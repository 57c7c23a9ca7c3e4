//! Columns: code units in a line.
ghost use Rattle.std.specs.Prelude.{◌≡◌, ◌≤◌, ◌*◌, length, sum_by};
ghost use Rattle.kb_documents.specs.Columns as words;
ghost use Rattle.kb_documents.specs.Columns.{back, fit, is_inside, reach, units};

/// In which code units a client counts columns.
#[derive(Clone, Copy, Debug, PartialEq, Eq)]
pub enum Encoding {
    /// Bytes of UTF-8.
    Utf8,
    /// Units of UTF-16.
    Utf16,
}

/// Whether a byte stands inside a character, behind its first one.
pub(crate) fn is_inside(byte: u8) -> bool
    ensures { result ≡ words.is_inside byte }
{
    128 <= byte && byte <= 191
}

/// The code units that a byte of UTF-8 adds. The first byte of a character adds all units of UTF-16.
fn units(encoding: Encoding, byte: u8) -> usize
    ensures units { result ≡ words.units encoding byte }
    ensures few { result ≤ 2 }
{
    match encoding {
        Encoding::Utf8 => 1,
        Encoding::Utf16 => {
            if is_inside(byte) {
                0
            } else if byte < 240 {
                1
            } else {
                2
            }
        }
    }
}

/// The number of code units of a part of a line.
pub(crate) fn column(encoding: Encoding, part: &[u8]) -> usize
    ensures { result ≡ words.column encoding part.now }
{
    let mut sum = 0;
    for byte in part {
        sum += units(encoding, *byte);
    }
    sum
}

/// How many bytes of a line have no more than so many units together.
fn reach(encoding: Encoding, line: &[u8], character: usize) -> usize
    ensures reach { result ≡ words.reach encoding line.now character }
    ensures within { result ≤ length line.now }
{
    let mut left = character;
    for (index, byte) in line.iter().enumerate() {
        let units = units(encoding, *byte);
        if left < units {
            return index;
        }
        left -= units;
    }
    line.len()
}

/// The first byte of the character at an index.
fn back(line: &[u8], index: usize) -> usize
    ensures back { result ≡ words.back line.now index }
    ensures within { result ≤ index }
{
    let mut at = index;
    while at > 0 && at < line.len() && is_inside(line[at]) {
        at -= 1;
    }
    at
}

/// The index in a line of the character at a column, or of the line's end where the line is shorter. A column
/// inside a character is that of its beginning.
pub(crate) fn fit(encoding: Encoding, line: &[u8], character: usize) -> usize
    ensures fit { result ≡ words.fit encoding line.now character }
    ensures within { result ≤ length line.now }
{
    back(line, reach(encoding, line, character))
}
