//! Golden tests of single calls of the libraries below the registry: keys, JSON, context values, clauses,
//! scopes, rules and manifests.
#![tactic(auto)]

mod clauses;
mod manifests;
mod rules;
mod scopes;
mod texts;

use kb_base::NoMemory;
use kb_context::Scopes;
use kb_golden_text::CaseRunner;
use std::alloc::Global;
use std::str;

/// Runs the cases of one golden file.
#[derive(Drop)]
pub struct Calls {
    // The scopes of the last layout that was accepted, with the changes that later calls made.
    scopes: Option<Scopes>,
}

impl Calls {
    /// A runner without scopes.
    pub fn new() -> Calls {
        Calls { scopes: None }
    }
}

fn run_over(
    alloc: Global,
    kind: &str,
    scopes: &mut Scopes,
    text: &str,
) -> Result<String, NoMemory> {
    let (kind, names) = kind.split_once(' ').unwrap_or((kind, ""));
    match kind {
        "when" => clauses::when(alloc, text, scopes),
        "choices" => clauses::choices(alloc, names, text, scopes),
        "behind" => clauses::behind(alloc, names, text),
        "call" => scopes::call(alloc, text, scopes),
        _ => String::from_str(alloc, "no kind"),
    }
}

// A case of a kind that needs scopes.
fn run_in_scopes(
    alloc: Global,
    kind: &str,
    scopes: &mut Option<Scopes>,
    text: &str,
) -> Result<String, NoMemory> {
    match scopes {
        Some(scopes) => run_over(alloc, kind, scopes, text),
        None => String::from_str(alloc, "no scopes"),
    }
}

fn run_text_case(
    alloc: Global,
    kind: &str,
    scopes: &mut Option<Scopes>,
    text: &str,
) -> Result<String, NoMemory> {
    match kind {
        "rules linux" => rules::in_force(alloc, "linux", text),
        "rules mac" => rules::in_force(alloc, "mac", text),
        "rules win" => rules::in_force(alloc, "win", text),
        "candidates" => rules::candidates(alloc, text),
        "chord" => texts::chord(alloc, text),
        "keystroke" => texts::keystroke(alloc, text),
        "plain" => texts::plain_json(alloc, text),
        "context" => texts::context(alloc, text),
        "tree" => clauses::same(alloc, text),
        "unread" => clauses::unread(alloc, text),
        _ => run_in_scopes(alloc, kind, scopes, text),
    }
}

impl CaseRunner for Calls {
    fn run_case(&mut self, alloc: Global, kind: &str, input: &[u8]) -> Result<String, NoMemory> {
        match kind {
            "json" => texts::json(alloc, input),
            "manifest" => manifests::manifest(alloc, input),
            "layout" => scopes::layout(alloc, input, &mut self.scopes),
            _ => match str::from_utf8(input) {
                Ok(text) => run_text_case(alloc, kind, &mut self.scopes, text),
                Err(_) => String::from_str(alloc, "no text"),
            },
        }
    }
}
