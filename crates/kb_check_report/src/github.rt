//! Problems as commands of a workflow of GitHub, one a line: `::error file=F,line=L,col=C,title=T::SENTENCE`.
//! The source of the form is GitHub's documentation of workflow commands.
use kb_base::NoMemory;
use kb_places::Position;
use kb_problems::{Problem, Severity};

/// The word for a severity.
fn word_for(severity: Severity) -> &'static str {
    match severity {
        Severity::Error => "error",
        Severity::Warning => "warning",
        Severity::Note => "notice",
    }
}

/// What stands for a character that would end a message.
fn escape_in_message(character: char) -> Option<&'static str> {
    match character {
        '%' => Some("%25"),
        '\r' => Some("%0D"),
        '\n' => Some("%0A"),
        _ => None,
    }
}

/// What stands for a character that would end a property.
fn escape_in_property(character: char) -> Option<&'static str> {
    match character {
        ':' => Some("%3A"),
        ',' => Some("%2C"),
        _ => escape_in_message(character),
    }
}

/// Writes a message.
fn write_message(message: &str, text: &mut String) -> Result<(), NoMemory> {
    for character in message.chars() {
        match escape_in_message(character) {
            Some(escape) => text.push_str(escape)?,
            None => text.push(character)?,
        }
    }
    Ok(())
}

/// Writes a property.
fn write_property(property: &str, text: &mut String) -> Result<(), NoMemory> {
    for character in property.chars() {
        match escape_in_property(character) {
            Some(escape) => text.push_str(escape)?,
            None => text.push(character)?,
        }
    }
    Ok(())
}

/// Writes a problem behind a text.
pub(crate) fn write_command(
    problem: &Problem,
    path: &str,
    position: Option<Position>,
    text: &mut String,
) -> Result<(), NoMemory> {
    text.push_str("::")?;
    text.push_str(word_for(problem.cause.severity()))?;
    text.push_str(" file=")?;
    write_property(path, text)?;
    if let Some(Position { line, column }) = position {
        write!(text, ",line={line},col={column}")?;
    }
    text.push_str(",title=")?;
    write_property(problem.cause.name(), text)?;
    text.push_str("::")?;
    write_message(problem.sentence.as_str(), text)?;
    text.push_str("\n")
}
