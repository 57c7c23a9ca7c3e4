//! Rules, read from the bytes of their file.
ghost use Rattle.std.specs.Prelude.{◌≡◌, map, IfOk};
ghost use Rattle.serde_json.specs.View.{view};
ghost use Rattle.kb_base.specs.Failure.{Gives};
ghost use Rattle.kb_base.specs.Reading.{seen};
ghost use Rattle.kb_rules.specs.RuleList.{AreRightlyMarked};
ghost use Rattle.kb_files.specs.Marked.{ReadsBy};
ghost use Rattle.kb_files.specs.RuleFile.{rules_in, rules_by, elements_in, elements_held};

use crate::value::read_value;
use kb_base::{Failure, FaultKind, NoMemory, Refusal};
use kb_jsonc::elements_in;
use kb_rules::{Origin, RuleList, read_list};
use serde_json::Value;
use std::alloc::Global;

/// The rules of a file, with a warning for each dropped element, and the unread patterns: JSON with comments
/// whose value is an array, as VS Code's `keybindings.json`.
///
/// Errors: the first fault of the file, those of its text (1 to 4) and then another shape (41); or
/// `NoMemory`.
#[tactic(auto, unfolding(crate::specs::RuleFile::rules_in))]
pub fn read_rules(alloc: Global, bytes: &[u8], origin: Origin) -> Result<RuleList, Failure<Refusal>>
    ensures read { ReadsBy (λ marks. rules_in marks origin bytes.now) result }

    // A pattern is marked as unread only if the grammar of `regex` rejects it or it nests too deep. One that
    // isn't marked is read by that grammar.
    ensures right { IfOk result AreRightlyMarked }
{
    let elements = read_elements(alloc, bytes)?;
    Ok(list_elements(alloc, elements, origin)?)
}

/// What the elements of a file give, of which each is a rule or has a warning.
fn list_elements(alloc: Global, elements: Vec<Value>, origin: Origin) -> Result<RuleList, NoMemory>
    ensures read { IfOk result (λ list.
        list ≡ rules_by list.unread origin (map view elements.items)) }
    ensures right { IfOk result AreRightlyMarked }
{
    read_list(alloc, elements, origin, None)
}

/// The elements that the bytes of a file hold.
fn read_elements(alloc: Global, bytes: &[u8]) -> Result<Vec<Value>, Failure<Refusal>>
    ensures { Gives (λ elements. map view elements.items) result (elements_held bytes.now) }
{
    let value = read_value(alloc, bytes)?;
    rule_elements(value).map_err(Failure::Fault)
}

/// The elements of a file, which has to be an array (else 41).
fn rule_elements(value: Value) -> Result<Vec<Value>, Refusal>
    ensures { seen (λ elements. map view elements.items) result ≡ elements_in (view value) }
{
    match elements_in(value) {
        Some(elements) => Ok(elements),
        None => Err(Refusal::of(FaultKind::WrongShape)),
    }
}
