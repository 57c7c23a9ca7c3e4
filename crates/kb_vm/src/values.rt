//! The operations on values.
ghost use Rattle.std.specs.Prelude.{◌≡◌, false, pos, IfOk, option_map, length, OnErr, IsSome};
ghost use Rattle.std.specs.Str.{chars};
ghost use Rattle.kb_context.specs.Scopes.{context};
ghost use Rattle.std.specs.FinMap as fin_map;
ghost use Rattle.kb_vm.specs.Operand.{arg_of};
ghost use Rattle.kb_vm.specs.declared.values.One.TheVariants.{Show};
ghost use Rattle.kb_vm.specs.declared.values.Two.TheVariants.{Join};
ghost use Rattle.kb_vm.specs.Values.{one_of, two_of, size_of, shown, is_true, number_in, is_same};
ghost use Rattle.kb_vm.specs.Values.{context_arg, joins};

use crate::arena::Arena;
use crate::operands::Operand;
use kb_base::NoMemory;
use kb_context::{ContextValue, Scopes};

/// An operation on one value.
#[derive(Clone, Copy, Debug, PartialEq, Eq)]
pub enum One {
    /// The negation of a truth value.
    Not,
    /// A text: a text itself, the decimal form of a number, `true` or `false`.
    Show,
    /// The number of characters (Unicode scalar values) of a text.
    Size,
    /// Whether a value is neither false, nor 0, nor the empty text.
    IsTrue,
    /// A number itself, and 0 for any other value.
    AsNumber,
}

/// An operation on two values.
#[derive(Clone, Copy, Debug, PartialEq, Eq)]
pub enum Two {
    /// The sum of two numbers, saturating at the ends of 64 signed bits.
    Add,
    /// The first number minus the second, saturating likewise.
    Sub,
    /// Whether the first number is less than the second.
    Less,
    /// Whether both values have the same kind and are equal.
    Same,
    /// The first text followed by the second.
    Join,
}

/// The result of an operation on one value, or `None` if the value has a wrong kind.
pub(crate) fn made_of_one<'a>(
    arena: &'a Arena,
    what: One,
    x: Operand<'a>,
) -> Result<Option<Operand<'a>>, NoMemory>
    ensures made { IfOk result (λ made. option_map arg_of made ≡ one_of what (arg_of x.entry)) }
    ensures shows { OnErr result (what ≡ Show) }
{
    match (what, x) {
        (One::Not, Operand::Truth(truth)) => Ok(Some(Operand::Truth(!truth))),
        (One::Size, Operand::Text(text)) => Ok(Some(Operand::Number(size_of(text)))),
        (One::Not | One::Size, _) => Ok(None),
        (One::Show, _) => Ok(Some(Operand::Text(shown(arena, x)?))),
        (One::IsTrue, _) => Ok(Some(Operand::Truth(is_true(x)))),
        (One::AsNumber, _) => Ok(Some(Operand::Number(number_in(x)))),
    }
}

/// The number of characters of a text, saturating at the largest `i64`.
#[tactic(auto, unfolding(crate::specs::Values::size_of))]
pub(crate) fn size_of(text: &str) -> i64
    ensures { result ≡ pos (size_of text.now) }
{
    let count = count_of(text);
    if count < i64::MAX as usize {
        count as i64
    } else {
        i64::MAX
    }
}

/// The number of characters of a text.
fn count_of(text: &str) -> usize
    ensures { result ≡ length (chars text.now) }
{
    text.chars().count()
}

/// A value as a text.
fn shown<'a>(arena: &'a Arena, x: Operand<'a>) -> Result<&'a str, NoMemory>
    ensures { IfOk result (λ text. text.now ≡ shown (arg_of x.entry)) }
{
    match x {
        Operand::Text(text) => Ok(text),
        Operand::Number(number) => arena.spelled(number),
        Operand::Truth(true) => Ok("true"),
        Operand::Truth(false) => Ok("false"),
    }
}

/// Whether a value is neither false, nor 0, nor the empty text.
fn is_true(x: Operand<'_>) -> bool
    ensures { result ≡ is_true (arg_of x.entry) }
{
    match x {
        Operand::Text(text) => !text.is_empty(),
        Operand::Number(number) => number != 0,
        Operand::Truth(truth) => truth,
    }
}

/// A number itself, and 0 for any other value.
fn number_in(x: Operand<'_>) -> i64
    ensures { result ≡ number_in (arg_of x.entry) }
{
    match x {
        Operand::Number(number) => number,
        Operand::Text(_) | Operand::Truth(_) => 0,
    }
}

/// The result of an operation on two values that creates no text, or `None` if a value has a wrong kind.
#[inline]
pub(crate) fn computed<'a>(what: Two, x: Operand<'a>, y: Operand<'a>) -> Option<Operand<'a>>
    requires { joins what ≡ false }
    ensures { option_map arg_of result ≡ two_of what (arg_of x.entry) (arg_of y.entry) }
{
    match (what, x, y) {
        (Two::Same, _, _) => Some(Operand::Truth(is_same(x, y))),
        (Two::Add, Operand::Number(x), Operand::Number(y)) => {
            Some(Operand::Number(x.saturating_add(y)))
        }
        (Two::Sub, Operand::Number(x), Operand::Number(y)) => {
            Some(Operand::Number(x.saturating_sub(y)))
        }
        (Two::Less, Operand::Number(x), Operand::Number(y)) => Some(Operand::Truth(x < y)),
        _ => None,
    }
}

/// The first of two texts followed by the second, or `None` if a value is no text.
pub(crate) fn joined<'a>(
    arena: &'a Arena,
    x: Operand<'a>,
    y: Operand<'a>,
) -> Result<Option<Operand<'a>>, NoMemory>
    ensures made { IfOk result (λ made. option_map arg_of made
        ≡ two_of Join (arg_of x.entry) (arg_of y.entry)) }
    ensures takes { OnErr result (IsSome (two_of Join (arg_of x.entry) (arg_of y.entry))) }
{
    match (x, y) {
        (Operand::Text(x), Operand::Text(y)) => Ok(Some(Operand::Text(arena.joined(x, y)?))),
        _ => Ok(None),
    }
}

/// Whether both values have the same kind and are equal.
fn is_same(x: Operand<'_>, y: Operand<'_>) -> bool
    ensures { result ≡ is_same (arg_of x.entry) (arg_of y.entry) }
{
    match (x, y) {
        (Operand::Text(x), Operand::Text(y)) => x == y,
        (Operand::Number(x), Operand::Number(y)) => x == y,
        (Operand::Truth(x), Operand::Truth(y)) => x == y,
        _ => false,
    }
}

/// The value of a context key as an operand. An absent key is false. A list or an object is true.
pub(crate) fn context<'a>(
    arena: &'a Arena,
    scopes: &Scopes,
    key: &str,
) -> Result<Operand<'a>, NoMemory>
    ensures { IfOk result (λ made.
        arg_of made ≡ context_arg (fin_map.get (context scopes.now.seen) key.now)) }
{
    match scopes.get(key) {
        None => Ok(Operand::Truth(false)),
        Some(ContextValue::Truth(truth)) => Ok(Operand::Truth(*truth)),
        Some(ContextValue::Number(number)) => Ok(Operand::Number(*number)),
        Some(ContextValue::Text(text)) => Ok(Operand::Text(arena.copied(text.as_str())?)),
        Some(ContextValue::Texts(_) | ContextValue::Names(_)) => Ok(Operand::Truth(true)),
    }
}
