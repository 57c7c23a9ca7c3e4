//! What a load has to say: its warnings, or why it was refused. The lines are those of `keyrun`.
ghost use Rattle.std.specs.Prelude.{◌≡◌, [], ◌∷◌, ◌++◌, IfOk};
ghost use Rattle.kb_engine.specs.Notice.{warnings_text};
ghost use Rattle.kb_files.specs.Fault.{load_line};

use crate::plain::PlainCommand;
use kb_base::{NoMemory, Text, WarningLine};
use kb_files::LoadFault;
use kb_session::Session;
use std::alloc::Global;
use std::fmt::Write;

/// A line for each warning of a session, with a line feed behind each. Error: `NoMemory`.
pub fn warnings_text(alloc: Global, session: &Session<PlainCommand>) -> Result<Text, NoMemory>
    ensures { IfOk result (λ text. text ≡ warnings_text session.now.state.sources) }
{
    let mut text = String::new(alloc);
    let warnings = session.warnings();
    for warning in warnings {
        let source = session.source(warning.origin);
        let line = WarningLine { source, warning };
        writeln!(text, "{line}")?;
    }
    Ok(Text::from_string(text))
}

/// The line of a refused load, with a line feed behind it. Error: `NoMemory`.
pub fn refusal_text(alloc: Global, fault: &LoadFault) -> Result<Text, NoMemory>
    ensures { IfOk result (λ text. text ≡ load_line fault.now ++ 10 ∷ []) }
{
    Ok(Text::from_string(format!(in alloc; "{fault}\n")?))
}
