//! A recursive-descent parser with one token of lookahead. Each contract states how the state machine of
//! `specs/Reading.antt` continues after the tokens that the function consumes. Faults are decided without
//! allocating.
ghost use Rattle.std.specs.Prelude.{◌≡◌, ◌≤◌, ◌<◌, ◌∷◌, [], IfOk, IfErr, map, length};
ghost use Rattle.kb_when.specs.Tree.{clause_of, clauses_of};
ghost use Rattle.kb_base.specs.Failure.{Gives};
ghost use Rattle.kb_base.specs.Reading.{seen};
ghost use Rattle.kb_when.specs.Grammar.{any_joined, all_joined};
ghost use Rattle.kb_when.specs.Reading.{at_operand, clause_of_tokens};
ghost use Rattle.kb_when.specs.Parser.{Begins, FailsToBegin, FailsAt, behind_close, all_read};
ghost use Rattle.kb_when.specs.Parser.{ReadsOperand, ReadsConjunction, ReadsDisjunction};
ghost use Rattle.kb_when.specs.Parser.{FailsOperand, FailsConjunction, FailsDisjunction};
ghost use Rattle.kb_when.specs.Parser.{clause_of_condition};
ghost use Rattle.kb_when.specs.declared.token.Token.TheVariants.{Not, Open, Word};

use crate::atom::{Atom, Condition, key_tail, next, plain};
use crate::fault::WhenFault;
use crate::token::Token;
use crate::tree::Tree;
use crate::words::{is_reserved, is_word};
use kb_base::{Failure, Text};
use std::alloc::Global;

/// The maximum number of `(` and `!` around an operand (our decision).
const DEPTH_LIMIT: usize = 64;

/// The beginning of an operand.
#[derive(Clone, Copy)]
enum Start<'t> {
    /// A `!`.
    Not,
    /// A `(`.
    Open,
    /// A complete atom.
    Atom(Condition<'t>),
}

/// Parses the beginning of an operand. Errors: `TooDeep`, `BadNumber` and `Unexpected`.
fn begin(tokens: &[Token], depth: usize) -> Result<(Start<'_>, &[Token]), WhenFault>
    ensures ok { IfOk result (λ r. Begins depth tokens.now r.0 r.1.now) }
    ensures err { IfErr result (FailsToBegin depth tokens.now) }
{
    let Some((first, rest)) = next(tokens) else {
        return Err(WhenFault::Unexpected);
    };
    match first {
        Token::Not => {
            if depth >= DEPTH_LIMIT {
                return Err(WhenFault::TooDeep);
            }
            Ok((Start::Not, rest))
        }
        Token::Open => {
            if depth >= DEPTH_LIMIT {
                return Err(WhenFault::TooDeep);
            }
            Ok((Start::Open, rest))
        }
        Token::Word(word) => {
            let (condition, rest) = atom(word, rest)?;
            Ok((Start::Atom(condition), rest))
        }
        _ => Err(WhenFault::Unexpected),
    }
}

/// Parses the atom that begins with a word. Errors: `BadNumber` and `Unexpected`.
fn atom<'t>(word: &'t Text, rest: &'t [Token]) -> Result<(Condition<'t>, &'t [Token]), WhenFault>
    ensures ok { IfOk result (λ r. (depth : _) →
        ReadsOperand depth (Word word.now ∷ rest.now) (clause_of_condition r.0) r.1.now) }
    ensures err { IfErr result (FailsAt at_operand (Word word.now ∷ rest.now)) }
{
    if is_word(word, "true") {
        return Ok((plain(Atom::True), rest));
    }
    if is_word(word, "false") {
        return Ok((plain(Atom::False), rest));
    }
    if is_reserved(word) {
        return Err(WhenFault::Unexpected);
    }
    key_tail(word, rest)
}

/// The tokens after a `)`. Error: `Unexpected`.
fn behind_close(tokens: &[Token]) -> Result<&[Token], WhenFault>
    ensures { seen (λ r. r.now) result ≡ behind_close tokens.now }
{
    let Some((first, rest)) = next(tokens) else {
        return Err(WhenFault::Unexpected);
    };
    match first {
        Token::Close => Ok(rest),
        _ => Err(WhenFault::Unexpected),
    }
}

/// Checks that no token is left. Error: `Unexpected`.
fn all_read(tokens: &[Token]) -> Result<(), WhenFault>
    ensures { result ≡ all_read tokens.now }
{
    if tokens.is_empty() {
        return Ok(());
    }
    Err(WhenFault::Unexpected)
}

/// Parses an operand with its leading `!`.
#[cycle(descent)]
fn operand(
    alloc: Global,
    tokens: &[Token],
    depth: usize,
) -> Result<(Tree, &[Token]), Failure<WhenFault>>
    requires { depth ≤ 64 }
    ensures ok { IfOk result (λ r. ReadsOperand depth tokens.now (clause_of r.0) r.1.now) }
    ensures err { IfErr result (FailsOperand depth tokens.now) }
{
    let (start, rest) = begin(tokens, depth)?;
    match start {
        Start::Not => negated(alloc, rest, depth),
        Start::Open => enclosed(alloc, rest, depth),
        Start::Atom(condition) => Ok((condition.tree(alloc)?, rest)),
    }
}

/// Parses the operand after a `!`.
#[cycle(descent)]
fn negated(
    alloc: Global,
    rest: &[Token],
    depth: usize,
) -> Result<(Tree, &[Token]), Failure<WhenFault>>
    requires { depth < 64 }
    ensures ok { IfOk result (λ r. ReadsOperand depth (Not ∷ rest.now) (clause_of r.0) r.1.now) }
    ensures err { IfErr result (FailsOperand depth (Not ∷ rest.now)) }
{
    let (tree, more) = operand(alloc, rest, depth + 1)?;
    let tree = Box::new(alloc, tree)?;
    Ok((Tree::negation(tree), more))
}

/// Parses a clause after a `(`, and its `)`.
#[cycle(descent)]
fn enclosed(
    alloc: Global,
    rest: &[Token],
    depth: usize,
) -> Result<(Tree, &[Token]), Failure<WhenFault>>
    requires { depth < 64 }
    ensures ok { IfOk result (λ r. ReadsOperand depth (Open ∷ rest.now) (clause_of r.0) r.1.now) }
    ensures err { IfErr result (FailsOperand depth (Open ∷ rest.now)) }
{
    let (tree, more) = disjunction(alloc, rest, depth + 1)?;
    let after = behind_close(more)?;
    Ok((tree, after))
}

/// Trees joined by `||`; a single tree is returned as it is.
fn joined_by_or(mut trees: Vec<Tree>) -> Tree
    requires { 0 < length trees.items }
    ensures { clause_of result ≡ any_joined (clauses_of (map clause_of trees.items)) }
{
    if trees.len() == 1 {
        return trees.remove(0);
    }
    Tree::any(trees)
}

/// Trees joined by `&&`; a single tree is returned as it is.
fn joined_by_and(mut trees: Vec<Tree>) -> Tree
    requires { 0 < length trees.items }
    ensures { clause_of result ≡ all_joined (clauses_of (map clause_of trees.items)) }
{
    if trees.len() == 1 {
        return trees.remove(0);
    }
    Tree::all(trees)
}

/// Parses operands joined by `&&`. A loop, so that a long list does not deepen the call stack.
#[cycle(descent)]
fn conjunction(
    alloc: Global,
    tokens: &[Token],
    depth: usize,
) -> Result<(Tree, &[Token]), Failure<WhenFault>>
    requires { depth ≤ 64 }
    ensures ok { IfOk result (λ r. ReadsConjunction depth tokens.now (clause_of r.0) r.1.now) }
    ensures err { IfErr result (FailsConjunction depth tokens.now) }
{
    let mut trees = Vec::new(alloc);
    let mut rest = tokens;
    loop {
        let (tree, more) = operand(alloc, rest, depth)?;
        trees.push(tree)?;
        let Some((first, after)) = next(more) else {
            return Ok((joined_by_and(trees), more));
        };
        match first {
            Token::And => rest = after,
            _ => return Ok((joined_by_and(trees), more)),
        }
    }
}

/// Parses conjunctions joined by `||`. A loop, for the same reason.
#[cycle(descent)]
fn disjunction(
    alloc: Global,
    tokens: &[Token],
    depth: usize,
) -> Result<(Tree, &[Token]), Failure<WhenFault>>
    requires { depth ≤ 64 }
    ensures ok { IfOk result (λ r. ReadsDisjunction depth tokens.now (clause_of r.0) r.1.now) }
    ensures err { IfErr result (FailsDisjunction depth tokens.now) }
{
    let mut trees = Vec::new(alloc);
    let mut rest = tokens;
    loop {
        let (tree, more) = conjunction(alloc, rest, depth)?;
        trees.push(tree)?;
        let Some((first, after)) = next(more) else {
            return Ok((joined_by_or(trees), more));
        };
        match first {
            Token::Or => rest = after,
            _ => return Ok((joined_by_or(trees), more)),
        }
    }
}

/// Parses all tokens. Errors: the first of `Unexpected` (31), `TooDeep` (32) and `BadNumber` (33) from the
/// left, or `NoMemory`.
pub(crate) fn parse_tokens(alloc: Global, tokens: &[Token]) -> Result<Tree, Failure<WhenFault>>
    ensures { Gives clause_of result (clause_of_tokens tokens.now) }
{
    let (tree, rest) = disjunction(alloc, tokens, 0)?;
    all_read(rest)?;
    Ok(tree)
}
