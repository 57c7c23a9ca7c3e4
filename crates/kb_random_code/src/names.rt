//! The names in random handlers.

/// The first `KEYS` texts are the names of context keys.
pub(crate) const KEYS: u16 = 3;

/// The texts of each handler.
pub(crate) const TEXTS: [&str; 5] = ["a", "b", "c", "hi", ""];

/// The calls of each handler: natives, and the handlers of its file.
pub(crate) const CALLS: [&str; 6] = ["type", "cursorLeft", "setContext", "x.a", "x.b", "x.c"];

/// The command of the handler at a place of the file.
pub(crate) fn command_at(place: u16) -> &'static str {
    match place {
        0 => "x.a",
        1 => "x.b",
        _ => "x.c",
    }
}
