//! The pass over a text that replaces comments and trailing commas by blanks, in place.
//!
//! Whether a comma is trailing depends on the next non-blank byte. So the pass remembers the index of the
//! last comma that may be trailing, and returns only to this index. Every other byte is visited once, and
//! a byte of a comment a second time to blank it. The time is linear.
ghost use Rattle.std.specs.Prelude.{◌≡◌, ◌<◌, length, slice_index, drop, Ok, Err, IfOk, IfErr, OnOk};
ghost use Rattle.std.specs.Prelude.{true, false};
ghost use Rattle.std.specs.Str.{IsUtf8};
ghost use Rattle.kb_base.specs.Blank.{is_blank};
ghost use Rattle.kb_jsonc.specs.Bytes.{quote, slash, comma, closes};
ghost use Rattle.kb_jsonc.specs.Pieces.{single, first_of};
ghost use Rattle.kb_jsonc.specs.Text.{plain_text};
ghost use Rattle.kb_jsonc.specs.Scan.{StandsIn, GoesOn, IsOrdinary, outcome};

use crate::bytes::{blank, ends_value};
use crate::fault::JsoncFault;
use crate::pieces::{comment_len, string_len};
use kb_base::is_blank;

/// The state of the pass.
#[derive(Clone, Copy, Debug)]
struct Scan {
    /// The number of bytes visited.
    at: usize,
    /// The last of them that is not blank; comments count as blank.
    before: Option<u8>,
    /// The index of the last comma, if it is trailing when a closing bracket comes next.
    comma: Option<usize>,
}

/// Replaces the comments and trailing commas of a text by blanks. Errors: `OpenComment` and `OpenString`,
/// for the first block comment or string that is not closed.
pub fn make_plain(bytes: &mut [u8]) -> Result<(), JsoncFault>
    requires { IsUtf8 bytes.old }
    ensures ok { OnOk result (plain_text bytes.old ≡ Ok bytes.new) }
    ensures err { IfErr result (λ fault. plain_text bytes.old ≡ Err fault) }
    ensures utf8 { OnOk result (IsUtf8 bytes.new) }
{
    let mut scan = Scan {
        at: 0,
        before: None,
        comma: None,
    };
    while scan.at < bytes.len() {
        scan = pass(bytes, scan)?;
    }
    Ok(())
}

/// Passes the next item: white space, a string, a comment, or one other byte.
fn pass(bytes: &mut [u8], scan: Scan) -> Result<Scan, JsoncFault>
    requires stands { StandsIn bytes.old scan }
    requires within { scan.at < length bytes.old }
    ensures ok { IfOk result (λ next. GoesOn bytes.old scan bytes.new next) }
    ensures err { IfErr result (λ fault. outcome bytes.old scan ≡ Err fault) }
{
    match bytes[scan.at] {
        b'"' => pass_string(bytes, scan),
        b',' => Ok(pass_comma(bytes, scan)),
        b'/' => pass_slash(bytes, scan),
        b']' | b'}' => Ok(pass_closing(bytes, scan)),
        byte if is_blank(byte) => Ok(pass_blanks(bytes, scan)),
        _ => Ok(pass_byte(bytes, scan)),
    }
}

/// Passes white space and keeps the remembered comma.
///
/// Indented files have much white space, so a whole run is passed at once.
fn pass_blanks(bytes: &[u8], scan: Scan) -> Scan
    requires stands { StandsIn bytes.now scan }
    requires within { scan.at < length bytes.now }
    requires first { is_blank (slice_index bytes.now scan.at) ≡ true }
    ensures { GoesOn bytes.now scan bytes.now result }
{
    let mut at = scan.at + 1;
    while at < bytes.len() && is_blank(bytes[at]) {
        at += 1;
    }
    Scan { at, ..scan }
}

/// Passes a string. Its content is not inspected, except for escapes.
fn pass_string(bytes: &[u8], scan: Scan) -> Result<Scan, JsoncFault>
    requires stands { StandsIn bytes.now scan }
    requires within { scan.at < length bytes.now }
    requires first { slice_index bytes.now scan.at ≡ quote }
    ensures ok { IfOk result (λ next. GoesOn bytes.now scan bytes.now next) }
    ensures err { IfErr result (λ fault. outcome bytes.now scan ≡ Err fault) }
{
    let Some(len) = string_len(&bytes[scan.at + 1..]) else {
        return Err(JsoncFault::OpenString);
    };
    Ok(Scan {
        at: scan.at + 1 + len,
        before: Some(b'"'),
        comma: None,
    })
}

/// Passes a comment and blanks it, or passes the slash alone if it does not begin a comment.
fn pass_slash(bytes: &mut [u8], scan: Scan) -> Result<Scan, JsoncFault>
    requires stands { StandsIn bytes.old scan }
    requires within { scan.at < length bytes.old }
    requires first { slice_index bytes.old scan.at ≡ slash }
    ensures ok { IfOk result (λ next. GoesOn bytes.old scan bytes.new next) }
    ensures err { IfErr result (λ fault. outcome bytes.old scan ≡ Err fault) }
{
    let Some(len) = comment_len(&bytes[scan.at..])? else {
        return Ok(pass_byte(bytes, scan));
    };
    let end = scan.at + len;
    blank(&mut bytes[scan.at..end]);
    Ok(Scan { at: end, ..scan })
}

/// Passes a comma, and remembers it if it follows an element or a member.
fn pass_comma(bytes: &[u8], scan: Scan) -> Scan
    requires stands { StandsIn bytes.now scan }
    requires within { scan.at < length bytes.now }
    requires first { slice_index bytes.now scan.at ≡ comma }
    ensures { GoesOn bytes.now scan bytes.now result }
{
    if !ends_value(scan.before) {
        return pass_byte(bytes, scan);
    }
    Scan {
        at: scan.at + 1,
        before: Some(b','),
        comma: Some(scan.at),
    }
}

/// Passes a closing bracket, and blanks the remembered comma.
fn pass_closing(bytes: &mut [u8], scan: Scan) -> Scan
    requires stands { StandsIn bytes.old scan }
    requires within { scan.at < length bytes.old }
    requires first { closes (Some (slice_index bytes.old scan.at)) ≡ true }
    ensures { GoesOn bytes.old scan bytes.new result }
{
    let Some(place) = scan.comma else {
        return pass_byte(bytes, scan);
    };
    let before = Some(bytes[scan.at]);
    bytes[place] = b' ';
    Scan {
        at: scan.at + 1,
        before,
        comma: None,
    }
}

/// Passes a byte that is not blank and begins neither a string nor a comment. Forgets the remembered
/// comma.
fn pass_byte(bytes: &[u8], scan: Scan) -> Scan
    requires stands { StandsIn bytes.now scan }
    requires within { scan.at < length bytes.now }
    requires ordinary { IsOrdinary bytes.now scan }
    ensures { GoesOn bytes.now scan bytes.now result }
{
    Scan {
        at: scan.at + 1,
        before: Some(bytes[scan.at]),
        comma: None,
    }
}
