//! Flags of patterns.
ghost use Rattle.std.specs.Prelude.{◌≡◌, nat_eq};
ghost use Rattle.std.specs.List.{list_any};

/// The flags of a pattern: which of the letters `i`, `m` and `s` follow it. These are JavaScript's flags.
/// Other letters are ignored (our decision).
#[derive(Clone, Copy, Debug, PartialEq, Eq)]
pub struct Flags {
    /// `i`: letters match in upper and lower case.
    pub ignore_case: bool,
    /// `m`: `^` and `$` also match at the start and the end of each line.
    pub multi_line: bool,
    /// `s`: `.` also matches a line feed.
    pub dot_all: bool,
}

impl Flags {
    ghost use Rattle.kb_pattern.specs.Pattern.{flags_of, same_flags};

    /// The flags for the letters after a pattern.
    pub fn of(letters: &str) -> Flags
        ensures { result ≡ flags_of letters.now }
    {
        let letters = letters.as_bytes();
        Flags {
            ignore_case: has(letters, b'i'),
            multi_line: has(letters, b'm'),
            dot_all: has(letters, b's'),
        }
    }

    /// Whether both sets of flags are equal.
    pub fn is(self, other: Flags) -> bool
        ensures { result ≡ same_flags self other }
    {
        self.ignore_case == other.ignore_case
            && self.multi_line == other.multi_line
            && self.dot_all == other.dot_all
    }
}

/// Whether `letters` contains a letter.
fn has(letters: &[u8], letter: u8) -> bool
    ensures { result ≡ list_any (nat_eq letter) letters.now }
{
    for other in letters {
        if letter == *other {
            return true;
        }
    }
    false
}
