//! The names of keys by what they mean and by where they are.
ghost use Rattle.std.specs.Prelude.{◌≡◌, option_map};
ghost use Rattle.kb_keyboard.specs.Tables as words;

/// Whether an event with this `key` is no press of a key: a modifier alone, a lock, or a step of an input
/// method.
pub(crate) fn is_silent(key: &str) -> bool
    ensures { result ≡ words.is_silent key.now }
{
    matches!(
        key,
        "Control"
            | "Shift"
            | "Alt"
            | "Meta"
            | "AltGraph"
            | "Fn"
            | "FnLock"
            | "NumLock"
            | "ScrollLock"
            | "Hyper"
            | "Super"
            | "Process"
            | "Unidentified"
    )
}

/// The name of a key that doesn't write a character, by `KeyboardEvent.key`.
#[tactic(auto, unfolding(crate::specs::Tables::meanings))]
pub(crate) fn meaning(key: &str) -> Option<&'static str>
    ensures { option_map (λ name. name.now) result ≡ words.named_in words.meanings key.now }
{
    match key {
        "ArrowLeft" => Some("left"),
        "ArrowRight" => Some("right"),
        "ArrowUp" => Some("up"),
        "ArrowDown" => Some("down"),
        "Home" => Some("home"),
        "End" => Some("end"),
        "PageUp" => Some("pageup"),
        "PageDown" => Some("pagedown"),
        "Tab" => Some("tab"),
        "Enter" => Some("enter"),
        "Escape" => Some("escape"),
        " " => Some("space"),
        "Backspace" => Some("backspace"),
        "Delete" => Some("delete"),
        "Insert" => Some("insert"),
        "Pause" => Some("pausebreak"),
        "CapsLock" => Some("capslock"),
        _ => None,
    }
}

/// The name of a key of the number pad that has a sign, by `KeyboardEvent.code`.
#[tactic(auto, unfolding(crate::specs::Tables::pad_signs))]
pub(crate) fn pad_sign(code: &str) -> Option<&'static str>
    ensures { option_map (λ name. name.now) result ≡ words.named_in words.pad_signs code.now }
{
    match code {
        "NumpadMultiply" => Some("numpad_multiply"),
        "NumpadAdd" => Some("numpad_add"),
        "NumpadComma" => Some("numpad_separator"),
        "NumpadSubtract" => Some("numpad_subtract"),
        "NumpadDecimal" => Some("numpad_decimal"),
        "NumpadDivide" => Some("numpad_divide"),
        _ => None,
    }
}

/// The name of any other key with a sign, by its place: the sign of a US keyboard.
#[tactic(auto, unfolding(crate::specs::Tables::places))]
pub(crate) fn place(code: &str) -> Option<&'static str>
    ensures { option_map (λ name. name.now) result ≡ words.named_in words.places code.now }
{
    match code {
        "Minus" => Some("-"),
        "Equal" => Some("="),
        "BracketLeft" => Some("["),
        "BracketRight" => Some("]"),
        "Backslash" => Some("\\"),
        "Semicolon" => Some(";"),
        "Quote" => Some("'"),
        "Backquote" => Some("`"),
        "Comma" => Some(","),
        "Period" => Some("."),
        "Slash" => Some("/"),
        "Space" => Some("space"),
        "Pause" => Some("pausebreak"),
        _ => None,
    }
}

/// Whether two texts are the same but for the case of ASCII letters.
pub(crate) fn same_word(one: &str, other: &str) -> bool
    ensures { result ≡ words.same_word one.now other.now }
{
    one.eq_ignore_ascii_case(other)
}

/// The key that VS Code also calls by this name of a virtual key of Windows, in any ASCII letter case.
#[tactic(auto, unfolding(crate::specs::Tables::oem_name))]
pub(crate) fn oem_name(word: &str) -> Option<&'static str>
    ensures { option_map (λ name. name.now) result ≡ words.oem_name word.now }
{
    if same_word(word, "oem_1") {
        Some(";")
    } else if same_word(word, "oem_plus") {
        Some("=")
    } else if same_word(word, "oem_comma") {
        Some(",")
    } else if same_word(word, "oem_minus") {
        Some("-")
    } else if same_word(word, "oem_period") {
        Some(".")
    } else if same_word(word, "oem_2") {
        Some("/")
    } else if same_word(word, "oem_3") {
        Some("`")
    } else if same_word(word, "oem_4") {
        Some("[")
    } else if same_word(word, "oem_5") {
        Some("\\")
    } else if same_word(word, "oem_6") {
        Some("]")
    } else if same_word(word, "oem_7") {
        Some("'")
    } else {
        None
    }
}
