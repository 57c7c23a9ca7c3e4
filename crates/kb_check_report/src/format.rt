//! How problems are written.
ghost use Rattle.std.specs.Prelude.{◌≡◌};
ghost use Rattle.kb_check_report.specs.Format.{format_named};

use kb_report::Form;

/// How problems are written.
#[derive(Clone, Copy, Debug, PartialEq, Eq)]
pub enum Format {
    /// As sentences for people, with the line of the file.
    Text,
    /// As JSON, one object a line.
    Json,
    /// As commands of a workflow of GitHub, which shows them beside the lines of a change.
    Github,
    /// As one document of SARIF 2.1.0, which services for code read.
    Sarif,
    /// As a unified diff of what their sentences guess.
    Diff,
}

/// The names of all formats.
pub const FORMAT_NAMES: [&str; 5] = ["text", "json", "github", "sarif", "diff"];

impl Format {
    /// The format of this name.
    pub fn named(name: &str) -> Option<Format>
        ensures { result ≡ format_named name.now }
    {
        match name {
            "text" => Some(Format::Text),
            "json" => Some(Format::Json),
            "github" => Some(Format::Github),
            "sarif" => Some(Format::Sarif),
            "diff" => Some(Format::Diff),
            _ => None,
        }
    }
}

impl From<Form> for Format {
    ghost use Rattle.kb_check_report.specs.Format.{format_of};

    ghost from_gives = { λ form made. made ≡ format_of form };

    fn from(form: Form) -> Self {
        match form {
            Form::Text => Format::Text,
            Form::Json => Format::Json,
        }
    }
}
