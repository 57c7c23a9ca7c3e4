//! Opens a file of JSON with comments, for places in it.
ghost use Rattle.std.specs.Prelude.{◌≡◌, IfOk, IfErr, IsOk, Ok, string_bytes};
ghost use Rattle.std.specs.Str.{IsUtf8};
ghost use Rattle.kb_jsonc.specs.Reader as reader;
ghost use Rattle.kb_jsonc.specs.Text.{plain_text};
ghost use Rattle.kb_places.specs.Open.{Opens, Fails};

use crate::fault_place::{Misread, find_fault};
use crate::source::Source;
use kb_base::{Failure, NoMemory};
use kb_jsonc::{plain, read};
use std::alloc::{AllocError, Global};

/// The bytes behind the byte order mark, or all bytes if there is none.
pub fn without_mark(bytes: &[u8]) -> &[u8]
    ensures { result.now ≡ reader.without_mark bytes.now }
{
    match bytes {
        [0xEF, 0xBB, 0xBF, rest @ ..] => rest,
        _ => bytes,
    }
}

/// The blanked text of a file.
fn blanked(alloc: Global, bytes: &[u8]) -> Result<String, NoMemory>
    requires text { IsUtf8 bytes.now }
    requires plain { IsOk (plain_text bytes.now) }
    ensures { IfOk result (λ plain. plain_text bytes.now ≡ Ok (string_bytes plain)) }
{
    let Ok(text) = str::from_utf8(bytes) else {
        return Ok(String::new(alloc));
    };
    match plain(alloc, text) {
        Ok(plain) => Ok(plain),
        Err(Failure::NoMemory) => Err(AllocError),
        Err(Failure::Fault(_)) => Ok(String::new(alloc)),
    }
}

/// A file's source, or why it isn't read, and where. Error: `NoMemory`.
#[tactic(auto, using(crate::proofs::OpenLemmas::has_text, crate::proofs::OpenLemmas::has_plain))]
pub fn open<'a>(alloc: Global, file: &'a [u8]) -> Result<Result<Source<'a>, Misread>, NoMemory>
    ensures opened { IfOk result (λ opened. IfOk opened (Opens file.now)) }
    ensures misread { IfOk result (λ opened. IfErr opened (Fails file.now)) }
{
    let bytes = without_mark(file);
    match read(alloc, file) {
        Ok(value) => Ok(Ok(Source {
            bytes,
            plain: blanked(alloc, bytes)?,
            value,
        })),
        Err(Failure::NoMemory) => Err(AllocError),
        Err(Failure::Fault(fault)) => Ok(Err(find_fault(alloc, bytes, fault)?)),
    }
}
