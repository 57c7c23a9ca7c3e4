//! The words of an instruction, and the instruction of words.
ghost use Rattle.std.specs.Prelude.{◌≡◌, ◌∷◌, [], IfOk, option_map, decimal, Ok, ◌<◌, ◌^◌};
ghost use Rattle.kb_code.specs.declared.instr.Instr.{Instr as TheInstr};
ghost use Rattle.kb_base.specs.Failure.{Gives};
ghost use Rattle.kb_code.specs.Instr.{operand_of};
ghost use Rattle.kb_assembly.specs.Mnemonic.{mnemonic_of, space_of, name_of, named, instr_with};
ghost use Rattle.kb_assembly.specs.Line.{hash_in, number_word, named_word, operand_word, operand_in};
ghost use Rattle.kb_assembly.specs.Line.{instr_of, IsLine};
ghost use Rattle.kb_assembly.specs.Line.{first_word, written_word, written_name, written_operand, written};
ghost use Rattle.kb_assembly.specs.Line.{bare, listed};
ghost use Rattle.kb_assembly.specs.Names.{chosen};

use crate::fault::{LineFault, Mistake};
use crate::mnemonic::{Mnemonic, Space};
use crate::names::{Names, after_hash, is_bare, needs_quotes, number_in};
use crate::words::Word;
use kb_base::{NoMemory, Seq, Text};
use kb_code::Instr;
use std::alloc::Global;

/// What is behind the `#` of a word without quotes.
pub(crate) fn hash_in(word: &Word) -> Option<&str>
    ensures { option_map (λ rest. rest.now) result ≡ hash_in word.now }
{
    if word.is_quoted {
        None
    } else {
        after_hash(word.text.as_str())
    }
}

/// The number that a word without quotes spells.
fn number_word(word: &Word) -> Result<u16, Mistake>
    ensures { result ≡ number_word word.now }
{
    if word.is_quoted {
        return Err(Mistake::BadNumber);
    }
    number_in(word.text.as_str()).ok_or(Mistake::BadNumber)
}

/// The number of the operand that a word names.
fn named_word(names: &Names, space: Space, word: &Word) -> Result<u16, Mistake>
    ensures { result ≡ named_word names.now space word.now }
{
    if needs_quotes(space) && !word.is_quoted {
        return Err(Mistake::MissingQuotes);
    }
    let name = word.text.as_str();
    match names.found(space, name) {
        Some(number) => Ok(number),
        None => Err(names.lack(space, name)),
    }
}

/// The number of the operand that a word stands for.
fn operand_word(names: &Names, space: Space, word: &Word) -> Result<u16, Mistake>
    ensures { result ≡ operand_word names.now space word.now }
{
    if space == Space::Number {
        return number_word(word);
    }
    match hash_in(word) {
        Some(digits) => number_in(digits).ok_or(Mistake::BadNumber),
        None => named_word(names, space, word),
    }
}

/// A mistake at a word.
pub(crate) fn at_word(at: usize, mistake: Mistake) -> LineFault
    ensures { result ≡ record { at = at; mistake = mistake } }
{
    LineFault { at, mistake }
}

/// The number of the operand that the words behind the first stand for; 0 if there is none.
fn operand_in(names: &Names, space: Space, words: &[Word]) -> Result<u16, LineFault>
    ensures { result ≡ operand_in names.now space words.now }
{
    if space == Space::Nothing {
        return match words {
            [] => Ok(0),
            _ => Err(at_word(1, Mistake::ExtraWord)),
        };
    }
    match words {
        [] => Err(at_word(1, Mistake::MissingOperand)),
        [word] => operand_word(names, space, word).map_err(|mistake| at_word(1, mistake)),
        _ => Err(at_word(2, Mistake::ExtraWord)),
    }
}

/// The instruction that a word names.
fn first_word(word: &Word) -> Result<Mnemonic, LineFault>
    ensures { result ≡ first_word word.now }
{
    if word.is_quoted {
        return Err(at_word(0, Mistake::UnknownInstruction));
    }
    Mnemonic::named(word.text.as_str()).ok_or(at_word(0, Mistake::UnknownInstruction))
}

/// The instruction of these words.
///
/// What is read is in the grammar, and what is in the grammar is read. Errors: the first mistake, at the
/// index of its word.
pub fn instr_of(names: &Names, words: &[Word]) -> Result<Instr, LineFault>
    ensures exact { result ≡ instr_of names.now words.now }
    ensures grammar { IfOk result (IsLine names.now words.now) }
    ensures only { (instr : TheInstr) → IsLine names.now words.now instr → result ≡ Ok instr }
{
    read_words(names, words)
}

/// The instruction of these words.
fn read_words(names: &Names, words: &[Word]) -> Result<Instr, LineFault>
    ensures { result ≡ instr_of names.now words.now }
{
    match words {
        [] => Err(at_word(0, Mistake::UnknownInstruction)),
        [first, operands @ ..] => {
            let mnemonic = first_word(first)?;
            let operand = operand_in(names, mnemonic.space(), operands)?;
            Ok(mnemonic.with(operand))
        }
    }
}

/// The word of a name.
pub(crate) fn written_name(alloc: Global, space: Space, name: &str) -> Result<Word, NoMemory>
    ensures { IfOk result (λ word. word ≡ written_name space name.now) }
{
    let is_quoted = needs_quotes(space) || !is_bare(name);
    Ok(Word {
        is_quoted,
        text: Text::from_str(alloc, name)?,
    })
}

/// A number as a word.
fn numeral(alloc: Global, number: u16) -> Result<Word, NoMemory>
    ensures { IfOk result (λ word. word ≡ bare (decimal number)) }
{
    let string = format!(in alloc; "{number}")?;
    Ok(Word {
        is_quoted: false,
        text: Text::from_string(string),
    })
}

/// A number behind a `#`.
fn hashed(alloc: Global, number: u16) -> Result<Word, NoMemory>
    ensures { IfOk result (λ word. word ≡ bare (35 ∷ decimal number)) }
{
    let string = format!(in alloc; "#{number}")?;
    Ok(Word {
        is_quoted: false,
        text: Text::from_string(string),
    })
}

/// The word of an operand.
fn written_word(alloc: Global, names: &Names, space: Space, number: u16) -> Result<Word, NoMemory>
    ensures { IfOk result (λ word. word ≡ written_word space number (chosen names.now space number)) }
{
    match names.chosen(alloc, space, number)? {
        Some(name) => written_name(alloc, space, name),
        None => hashed(alloc, number),
    }
}

/// The words of an operand.
fn written_operand(
    alloc: Global,
    names: &Names,
    space: Space,
    number: u16,
) -> Result<Option<Word>, NoMemory>
    ensures { IfOk result (λ word. listed word ≡ written_operand names.now space number) }
{
    match space {
        Space::Nothing => Ok(None),
        Space::Number => Ok(Some(numeral(alloc, number)?)),
        _ => Ok(Some(written_word(alloc, names, space, number)?)),
    }
}

/// The words of an instruction, which are read as it again. Error: `NoMemory`.
pub fn written(alloc: Global, names: &Names, instr: Instr) -> Result<Seq<Word>, NoMemory>
    ensures words { IfOk result (λ words. words ≡ written names.now instr) }
    ensures again { IfOk result (λ words. instr_of names.now words ≡ Ok instr) }
    ensures fits { IfOk result (λ words. operand_of instr < 2 ^ 16) }
{
    written_words(alloc, names, instr)
}

/// The words of an instruction.
fn written_words(alloc: Global, names: &Names, instr: Instr) -> Result<Seq<Word>, NoMemory>
    ensures words { IfOk result (λ words. words ≡ written names.now instr) }
    ensures fits { IfOk result (λ words. operand_of instr < 2 ^ 16) }
{
    let mnemonic = Mnemonic::of(instr);
    let mut words = Seq::new(alloc);
    let text = Text::from_str(alloc, mnemonic.name())?;
    words.push(Word {
        is_quoted: false,
        text,
    })?;
    match written_operand(alloc, names, mnemonic.space(), instr.operand())? {
        Some(word) => words.push(word)?,
        None => {}
    }
    Ok(words)
}
