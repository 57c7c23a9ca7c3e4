//! Names that are one edit from another one.
ghost use Rattle.std.specs.Prelude.{◌≡◌};
ghost use Rattle.kb_problems.specs.Near as near;

/// Both texts without the bytes that both begin with.
fn behind_common<'a>(one: &'a [u8], other: &'a [u8]) -> (&'a [u8], &'a [u8])
    ensures { near.is_edited result.0.now result.1.now ≡ near.is_near one.now other.now }
{
    let (mut one, mut other) = (one, other);
    while let ([a, rest @ ..], [b, others @ ..]) = (one, other) {
        if a != b {
            break;
        }
        one = rest;
        other = others;
    }
    (one, other)
}

/// Whether two neighbouring bytes at the front are exchanged, and all others are the same.
fn is_exchanged(one: &[u8], other: &[u8]) -> bool
    ensures { result ≡ near.is_exchanged one.now other.now }
{
    match (one, other) {
        ([a, b, rest @ ..], [c, d, others @ ..]) => a == d && b == c && rest == others,
        _ => false,
    }
}

/// Whether one edit at the front makes the other text of a text.
fn is_edited(one: &[u8], other: &[u8]) -> bool
    ensures { result ≡ near.is_edited one.now other.now }
{
    match (one, other) {
        ([], other) => other.len() == 1,
        (one, []) => one.len() == 1,
        ([_, rest @ ..], [_, others @ ..]) => {
            rest == others || one == others || rest == other || is_exchanged(one, other)
        }
    }
}

/// Whether one edit makes the other name of a name: a byte more, a byte less, another byte, or two
/// neighbouring bytes exchanged.
pub fn is_near(name: &str, other: &str) -> bool
    ensures { result ≡ near.is_near name.now other.now }
{
    let (one, other) = behind_common(name.as_bytes(), other.as_bytes());
    is_edited(one, other)
}
