//! Comparison of what handlers declare.
ghost use Rattle.std.specs.Prelude.{◌≡◌, is_some, option_copied};
ghost use Rattle.kb_code.specs.Face.{are_distinct, declared_among, each_declared, same_face};
ghost use Rattle.kb_code.specs.Handler.{handler_named};

use crate::handler::Handler;
use crate::same::same_signature;
use kb_core::Signature;

/// Whether two lists of handlers declare the same commands, each once, with equal signatures. Their order
/// doesn't count. Neither do texts, calls and code. (Our decision.)
pub fn same_face(old: &[Handler], new: &[Handler]) -> bool
    ensures { result ≡ same_face old.now new.now }
{
    (are_distinct(old) && are_distinct(new)) && (each_declared(old, new) && each_declared(new, old))
}

/// Whether no two handlers have the same name.
fn are_distinct(handlers: &[Handler]) -> bool
    ensures { result ≡ are_distinct handlers.now }
{
    for place in 0..handlers.len() {
        let name = handlers[place].command().as_str();
        if is_named(name, &handlers[place + 1..]) {
            return false;
        }
    }
    true
}

/// Whether each handler has a counterpart among the others: one of its name, with an equal signature.
fn each_declared(handlers: &[Handler], others: &[Handler]) -> bool
    ensures { result ≡ each_declared handlers.now others.now }
{
    for handler in handlers {
        match declared_among(others, handler.command().as_str()) {
            Some(signature) if same_signature(handler.signature(), signature) => continue,
            _ => return false,
        }
    }
    true
}

/// Whether one of the handlers has the name.
fn is_named(name: &str, handlers: &[Handler]) -> bool
    ensures { result ≡ is_some (handler_named name.now handlers.now) }
{
    for handler in handlers {
        if name == handler.command().as_str() {
            return true;
        }
    }
    false
}

/// The signature of the first handler with a name.
fn declared_among<'a>(handlers: &'a [Handler], name: &str) -> Option<&'a Signature>
    ensures { option_copied result ≡ declared_among handlers.now name.now }
{
    for handler in handlers {
        if name == handler.command().as_str() {
            return Some(handler.signature());
        }
    }
    None
}
