//! Chords: keystrokes pressed one after another.
ghost use Rattle.std.specs.Prelude.{◌≡◌, ◌<◌, ◌≤◌, ◌+◌, ◌↔◌, length, List, [], ◌∷◌, ◌++◌, IfOk, OnOk, Ok};
ghost use Rattle.std.specs.Prelude.{string_bytes, option_to_list, IsTrue, IsFalse, IsSome, false};
ghost use Rattle.std.specs.Str.{IsUtf8};
ghost use Rattle.kb_keys.specs.Keystroke.{KnownKeys};
ghost use Rattle.kb_keys.specs.Chord.{chord_limit, chord_of, steps_of, with_step, chord_spelling};
ghost use Rattle.kb_keys.specs.Chord.{spelling_after, begins_with, same_keys};

use crate::key_fault::KeyFault;
use crate::keystroke::Keystroke;
use kb_base::NoMemory;
use smallvec::SmallVec;
use std::alloc::Global;
use std::marker::Model;

/// The maximum number of keystrokes in a chord (our decision; VS Code's documentation describes chords of
/// two).
pub const LIMIT: usize = 4;

/// Up to `LIMIT` keystrokes, in the order in which they are pressed. They are stored inline, so a chord
/// never allocates. Some calls take an allocator only because the inner list requires one.
#[derive(Debug, Drop, PartialEq, Eq, Hash)]
pub struct Chord {
    strokes: SmallVec<Keystroke, LIMIT, Global>,
}

impl Model for Chord {
    ghost use Rattle.std.specs.Prelude.{◌≡◌, ◌≤◌, List, length};
    ghost use Rattle.kb_keys.specs.declared.keystroke.Keystroke.{Keystroke};
    ghost use Rattle.kb_keys.specs.Chord.{chord_limit};

    ghost Value = { List Keystroke };

    ghost view = { λ c. c.strokes.items };

    ghost invariant = { λ c. (length c.strokes.items ≤ chord_limit) × (c.strokes.capacity ≡ chord_limit) };

    ghost inverse = { λ strokes. record { strokes = record { items = strokes; capacity = chord_limit } } };

    ghost use Rattle.std.proofs.Common.{ap, sym};

    ghost inverse_ok = { λ a h.
        ap (λ n. record { strokes = record { items = a.strokes.items; capacity = n } }) (sym h.1) };
}

impl Chord {
    /// The empty chord: no key has been pressed yet. No chord text denotes it.
    pub fn new(alloc: Global) -> Chord
        ensures { result ≡ [] }
    {
        Chord {
            strokes: SmallVec::new(alloc),
        }
    }

    /// Parses a chord text: one or more key texts (see `Keystroke::parse`), separated by spaces. Only
    /// U+0020 is a separator (our decision). Repeated, leading and trailing spaces are ignored.
    ///
    /// Errors: `EmptyKey` (12) if the text has no key text, `TooManySteps` (11) if it has more than
    /// `LIMIT`, otherwise the error of the first invalid key text.
    pub fn parse(alloc: Global, text: &str) -> Result<Chord, KeyFault>
        ensures { result ≡ chord_of text.now }
    {
        let count = count_steps(text);
        if count == 0 {
            return Err(KeyFault::EmptyKey);
        }
        if count > LIMIT {
            return Err(KeyFault::TooManySteps);
        }
        let mut chord = Chord::new(alloc);
        let mut rest = text;
        while !rest.is_empty() {
            let (step, after) = cut_at_space(rest);
            if !step.is_empty() {
                chord.push(Keystroke::parse(step)?);
            }
            rest = after;
        }
        Ok(chord)
    }

    /// The canonical text: the canonical texts of the keystrokes, with one space between them. `parse`
    /// reads it back, except for the empty chord, whose text is empty. Error: `NoMemory`.
    pub fn text(&self, alloc: Global) -> Result<String, NoMemory>
        ensures spelling { IfOk result (λ text. string_bytes text ≡ chord_spelling self.now) }
        ensures reads_back { 0 < length self.now
            → IfOk result (λ text. chord_of (string_bytes text) ≡ Ok self.now) }
    {
        let mut text = String::new(alloc);
        write_strokes(self.as_slice(), &mut text)?;
        Ok(text)
    }

    /// A copy of the chord.
    pub fn copied(&self, alloc: Global) -> Chord
        ensures { result ≡ self.now }
    {
        let strokes = SmallVec::from_slice(alloc, self.strokes.as_slice()).unwrap();
        Chord { strokes }
    }

    /// The number of keystrokes.
    pub fn len(&self) -> usize
        ensures value { result ≡ length self.now }
        ensures fits { result ≤ chord_limit }
    {
        self.strokes.len()
    }

    /// Whether the chord has no keystrokes.
    pub fn is_empty(&self) -> bool
        ensures { IsTrue result ↔ (self.now ≡ []) }
    {
        self.strokes.is_empty()
    }

    /// The keystrokes, in order.
    pub fn as_slice(&self) -> &[Keystroke]
        ensures strokes { result.now ≡ self.now }
        ensures fits { length self.now ≤ chord_limit }
    {
        self.strokes.as_slice()
    }

    /// Adds a keystroke at the end.
    pub fn push(&mut self, stroke: Keystroke)
        requires { length self.old < chord_limit }
        ensures { self.new ≡ self.old ++ stroke ∷ [] }
    {
        self.strokes.push_reserved(stroke);
    }

    /// Removes the last keystroke and returns it, or `None` if there is none.
    pub fn pop(&mut self) -> Option<Keystroke>
        ensures taken { self.old ≡ self.new ++ option_to_list result }
        ensures some { IsSome result ↔ (0 < length self.old) }
    {
        self.strokes.pop()
    }

    /// Removes all keystrokes.
    pub fn clear(&mut self)
        ensures { self.new ≡ [] }
    {
        self.strokes.clear();
    }

    /// Whether the chord begins with these keystrokes.
    pub fn begins_with(&self, pressed: &[Keystroke]) -> bool
        ensures value { result ≡ begins_with self.now pressed.now }
        ensures front { IsTrue result ↔ ((more : List Keystroke) × (self.now ≡ pressed.now ++ more)) }
        ensures bound { IsTrue result → length pressed.now ≤ length self.now }
    {
        self.has_last_of(pressed) && self.strokes.as_slice().starts_with(pressed)
    }

    /// Whether the last of several keystrokes is in its place. A search compares rules that all begin with
    /// the first keystroke, so this tells most of those that differ.
    #[tactic(auto, using(crate::proofs::BeginsLemmas::apart))]
    fn has_last_of(&self, pressed: &[Keystroke]) -> bool
        ensures { IsFalse result → begins_with self.now pressed.now ≡ false }
    {
        let strokes = self.strokes.as_slice();
        if pressed.len() < 2 || strokes.len() < pressed.len() {
            return true;
        }
        let place = pressed.len() - 1;
        strokes[place] == pressed[place]
    }

    /// Whether both chords have the same keystrokes in the same order.
    pub fn same_keys(&self, other: &Chord) -> bool
        ensures value { result ≡ same_keys self.now other.now }
        ensures meaning { IsTrue result ↔ (self.now ≡ other.now) }
    {
        self == other
    }
}

/// Appends the canonical text of keystrokes to a line, as `Chord::text` returns it. Error: `NoMemory`; the
/// line may then have a part of the text.
pub fn write_strokes(strokes: &[Keystroke], line: &mut String) -> Result<(), NoMemory>
    ensures spelling { OnOk result
        (string_bytes line.new ≡ string_bytes line.old ++ chord_spelling strokes.now) }
    ensures known { OnOk result (KnownKeys strokes.now) }
{
    let Some((first, more)) = strokes.split_first() else {
        return Ok(());
    };
    first.write_to(line)?;
    write_more(more, line)?;
    Ok(())
}

/// Appends a space and the canonical text of each of these keystrokes to a line.
fn write_more(more: &[Keystroke], line: &mut String) -> Result<(), NoMemory>
    ensures spelling { OnOk result
        (string_bytes line.new ≡ string_bytes line.old ++ spelling_after more.now) }
    ensures known { OnOk result (KnownKeys more.now) }
{
    for stroke in more {
        line.push(' ')?;
        stroke.write_to(line)?;
    }
    Ok(())
}

/// The number of key texts in a chord text.
fn count_steps(text: &str) -> usize
    ensures { result ≡ length (steps_of text.now) }
{
    let mut count = 0;
    let mut rest = text;
    while !rest.is_empty() {
        let (step, after) = cut_at_space(rest);
        if !step.is_empty() {
            count += 1;
        }
        rest = after;
    }
    count
}

/// The text before the first space and the text after it. Without a space, the whole text and an empty
/// one.
fn cut_at_space(text: &str) -> (&str, &str)
    requires { 0 < length text.now }
    ensures steps { steps_of text.now ≡ with_step result.0.now (steps_of result.1.now) }
    ensures shorter { length result.1.now < length text.now }
    ensures text { IsUtf8 result.0.now × IsUtf8 result.1.now }
{
    match text.split_once(' ') {
        Some((step, after)) => (step, after),
        None => (text, ""),
    }
}
