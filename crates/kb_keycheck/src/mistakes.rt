//! The mistakes of a script.
use std::alloc::Global;
use std::io::Write;
use std::{io, str};

/// A writer for the trace of a script, which notes the lines that tell a mistake and drops all others.
#[derive(Drop)]
pub(crate) struct Mistakes {
    lines: String,
}

/// Whether a line of the trace tells a mistake: a line of the script that can't be read, or an event that is
/// refused.
fn is_mistake(line: &str) -> bool {
    line.starts_with("unread line ") || line.starts_with("refused ")
}

impl Mistakes {
    /// No mistake.
    pub(crate) fn none(alloc: Global) -> Mistakes {
        Mistakes {
            lines: String::new(alloc),
        }
    }

    /// The lines, each with its line feed.
    pub(crate) fn text(&self) -> &str {
        self.lines.as_str()
    }

    /// Notes a line if it tells a mistake.
    fn note(&mut self, line: &str) -> io::Result<()> {
        if is_mistake(line) {
            self.lines.push_str(line)?;
            self.lines.push('\n')?;
        }
        Ok(())
    }
}

/// Each write has the lines that one event added to the trace, since a script writes them at once. A mistake
/// is the first of them. The others may be any text: a command's name may have a line feed in it.
impl Write for Mistakes {
    fn write(&mut self, bytes: &[u8]) -> io::Result<usize> {
        if let Ok(text) = str::from_utf8(bytes) {
            if let Some(line) = text.lines().next() {
                self.note(line)?;
            }
        }
        Ok(bytes.len())
    }

    fn flush(&mut self) -> io::Result<()> {
        Ok(())
    }
}
