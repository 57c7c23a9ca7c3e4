//! What the faults of files mean, and what to do.
use kb_jsonc::JsoncFault;

/// What the fault of a file's text means, and what to do.
pub(crate) fn text_meaning(fault: JsoncFault) -> &'static str {
    match fault {
        JsoncFault::NotUtf8 => "this byte belongs to no UTF-8 text; save the file as UTF-8",
        JsoncFault::OpenComment => "this block comment has no end; close it with */",
        JsoncFault::OpenString => "this string has no closing quote",
        JsoncFault::Syntax => {
            "this isn't JSON: a comma, a bracket or a quote may be missing here or just before, or the value \
                nests deeper than 127 levels"
        }
    }
}
