//! The lines of a text, for the line of any index.
ghost use Rattle.std.specs.Prelude.{◌≡◌, ◌<◌, ◌≤◌, IfOk, List, length, ℕ};
ghost use Rattle.kb_places.specs.Lines.{IsTableOf, begins_line, line_of};

use kb_base::NoMemory;
use std::alloc::Global;

/// Where the lines of a text begin.
#[derive(Drop)]
pub struct LineTable {
    starts: Vec<usize>,
}

/// Whether a line begins at an index behind the first byte: a line ends with LF, CR LF or CR alone.
fn begins_line(text: &[u8], index: usize) -> bool
    requires { index < length text.now }
    ensures { result ≡ begins_line text.now index }
{
    if index == 0 {
        return false;
    }
    let before = text[index - 1];
    before == b'\n' || (before == b'\r' && text[index] != b'\n')
}

impl LineTable {
    /// The lines of a text. Error: `NoMemory`.
    #[tactic(auto, using(crate::proofs::LineTableLemmas::beginning))]
    pub fn new(alloc: Global, text: &[u8]) -> Result<LineTable, NoMemory>
        ensures { IfOk result (IsTableOf text.now) }
    {
        let mut starts = Vec::new(alloc);
        for (index, _) in text.iter().enumerate() {
            if !begins_line(text, index) {
                continue;
            }
            starts.push(index)?;
        }
        Ok(LineTable { starts })
    }

    /// The number of the line of an index, from 1.
    pub fn line(&self, index: usize) -> usize
        ensures { (text : List ℕ) → IsTableOf text self.now → index < length text
            → result ≡ line_of text index }
    {
        self.starts
            .as_slice()
            .partition_point(|start| *start <= index)
            .saturating_add(1)
    }
}
