//! Where the lines of a text begin and end.
ghost use Rattle.std.specs.Prelude.{◌≡◌, ◌≤◌, ◌+◌, ◌-◌, IfOk, length, slice_index, drop, take};
ghost use Rattle.std.specs.List.{before_first};
ghost use Rattle.kb_documents.specs.Lines as words;
ghost use Rattle.kb_documents.specs.Lines.{begins, ends_line, starts, starts_below};

use kb_base::NoMemory;
use std::alloc::Global;

/// Whether a byte ends a line.
fn ends_line(byte: u8) -> bool
    ensures { result ≡ words.ends_line byte }
{
    byte == b'\n' || byte == b'\r'
}

/// Whether a line begins at an index: at the beginning of the text, behind LF, and behind CR unless LF
/// follows.
fn begins(text: &[u8], index: usize) -> bool
    requires { index ≤ length text.now }
    ensures { result ≡ words.begins text.now index }
{
    if index == 0 {
        return true;
    }
    let before = text[index - 1];
    before == b'\n' || (before == b'\r' && !(index < text.len() && text[index] == b'\n'))
}

#[tactic(auto, using(crate::proofs::LineLemmas::beginning))]
/// The indices at which lines begin. The first is 0. Error: `NoMemory`.
pub(crate) fn line_starts(alloc: Global, text: &[u8]) -> Result<Vec<usize>, NoMemory>
    ensures { IfOk result (λ made. made.items ≡ starts text.now) }
{
    let mut made = Vec::new(alloc);
    for index in 0..=text.len() {
        if begins(text, index) {
            made.push(index)?;
        }
    }
    Ok(made)
}

/// A text up to the end of its first line.
pub(crate) fn first_line(text: &[u8]) -> &[u8]
    ensures { result.now ≡ before_first ends_line text.now }
{
    let mut end = 0;
    while end < text.len() && !ends_line(text[end]) {
        end += 1;
    }
    &text[..end]
}
