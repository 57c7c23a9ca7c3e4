//! The state of an open chord.
ghost use Rattle.std.specs.Prelude.{◌≡◌, ◌≢◌, ◌<◌, ◌↔◌, [], ◌∷◌, ◌++◌, length, IfOk, IfErr};
ghost use Rattle.std.specs.Prelude.{OnOk, OnErr, IsTrue, Some};
ghost use Rattle.kb_context.specs.Scopes.{context};
ghost use Rattle.kb_keys.specs.Chord.{chord_limit};
ghost use Rattle.kb_resolve.specs.ChordState.{step, pressed_after};
ghost use Rattle.kb_resolve.specs.Enablements.{enablement_in};
ghost use Rattle.kb_resolve.specs.Pressed.{step_of};
ghost use Rattle.kb_resolve.specs.Resolved.{found_in};
ghost use Rattle.kb_resolve.specs.Resolver.{MayAskPatterns, resolved};

use crate::enablements::Enablements;
use crate::found::Found;
use crate::pressed::{Press, Pressed};
use crate::resolved::Resolved;
use crate::resolver::Resolver;
use kb_base::NoMemory;
use kb_context::Scopes;
use kb_keys::{Chord, Keystroke};
use std::alloc::Global;
use std::marker::Model;

/// The keystrokes of the open chord: fewer than four, and none if no chord is open. Contracts see their
/// list.
#[derive(Debug, Drop)]
pub struct ChordState {
    pressed: Chord,
}

impl Model for ChordState {
    ghost use Rattle.std.specs.Prelude.{◌<◌, List, length};
    ghost use Rattle.kb_keys.specs.Chord.{chord_limit};
    ghost use Rattle.kb_keys.specs.declared.keystroke.Keystroke.{Keystroke};

    ghost Value = { List Keystroke };

    ghost view = { λ s. s.pressed };

    ghost invariant = { λ s. length s.pressed < chord_limit };
}

impl ChordState {
    /// No open chord. It allocates nothing: the list only keeps the allocator.
    pub fn new(alloc: Global) -> ChordState
        ensures { result ≡ [] }
    {
        ChordState {
            pressed: Chord::new(alloc),
        }
    }

    /// The keystrokes of the open chord, in order, or none if no chord is open.
    pub fn pressed(&self) -> &[Keystroke]
        ensures strokes { result.now ≡ self.now }
        ensures fits { length self.now < chord_limit }
    {
        self.pressed.as_slice()
    }

    /// Ends the open chord, if there is one, and returns whether there was one.
    pub fn leave(&mut self) -> bool
        ensures was_open { IsTrue result ↔ (self.old ≢ []) }
        ensures left { self.new ≡ [] }
    {
        let was_open = !self.pressed.is_empty();
        self.pressed.clear();
        was_open
    }

    /// Presses a key. The result is that of the search for the keystrokes of the open chord followed by
    /// this one, with the context keys that the focus sees now and with these enablements.
    /// - If the chosen rule has more keystrokes, the chord stays open with this keystroke (VS Code's
    ///   documentation of chords).
    /// - Otherwise no chord is open afterwards. A key that ends a chord without a rule has no other
    ///   effect (our decision).
    ///
    /// Each press evaluates the clauses and enablements anew, with no regard to their values at earlier
    /// presses of the chord (our decision). The rule is borrowed, and its position is that among the rules
    /// in force. `NoMemory` is that of `Resolver::resolve`, and the chord is then unchanged.
    pub fn press<'r>(
        &mut self,
        stroke: Keystroke,
        resolver: &'r Resolver,
        scopes: &Scopes,
        enablements: &Enablements,
    ) -> Result<Press<'r>, NoMemory>
        ensures step { IfOk result (λ press. step_of press.does
            ≡ step self.old stroke (context scopes.now.seen) (enablement_in enablements.now) resolver.now) }
        ensures found { IfOk result (λ press. found_in resolver.now press.found
            ≡ Some (resolved (self.old ++ stroke ∷ []) (context scopes.now.seen)
            (enablement_in enablements.now) resolver.now)) }
        ensures pressed { OnOk result (self.new
            ≡ pressed_after self.old stroke (context scopes.now.seen) (enablement_in enablements.now)
            resolver.now) }
        ensures err { OnErr result (self.new ≡ self.old) }

        // Without a pattern that is evaluated, no memory is needed.
        ensures memory { IfErr result (λ _. MayAskPatterns (self.old ++ stroke ∷ []) (context scopes.now.seen)
            (enablement_in enablements.now) resolver.now) }
    {
        if self.pressed.is_empty() {
            return self.begin(stroke, resolver, scopes, enablements);
        }
        self.go_on(stroke, resolver, scopes, enablements)
    }

    /// Presses a key while no chord is open. The keystroke is kept only if it begins a chord.
    fn begin<'r>(
        &mut self,
        stroke: Keystroke,
        resolver: &'r Resolver,
        scopes: &Scopes,
        enablements: &Enablements,
    ) -> Result<Press<'r>, NoMemory>
        requires { self.old ≡ [] }
        ensures step { IfOk result (λ press. step_of press.does
            ≡ step self.old stroke (context scopes.now.seen) (enablement_in enablements.now) resolver.now) }
        ensures found { IfOk result (λ press. found_in resolver.now press.found
            ≡ Some (resolved (self.old ++ stroke ∷ []) (context scopes.now.seen)
            (enablement_in enablements.now) resolver.now)) }
        ensures pressed { OnOk result (self.new
            ≡ pressed_after self.old stroke (context scopes.now.seen) (enablement_in enablements.now)
            resolver.now) }
        ensures err { OnErr result (self.new ≡ self.old) }
        ensures memory { IfErr result (λ _. MayAskPatterns (self.old ++ stroke ∷ []) (context scopes.now.seen)
            (enablement_in enablements.now) resolver.now) }
    {
        let stroke = &stroke;
        let only = [*stroke];
        match resolver.resolve(only.as_slice(), scopes, enablements)? {
            Resolved::Found(placed) => Ok(Press {
                does: Pressed::Start(placed.rule),
                found: Found::At(placed.position),
            }),
            Resolved::More => {
                self.pressed.push(*stroke);
                Ok(Press {
                    does: Pressed::More,
                    found: Found::More,
                })
            }
            Resolved::Nothing => Ok(Press {
                does: Pressed::Unbound,
                found: Found::Nothing,
            }),
        }
    }

    /// Presses a further key of the open chord.
    fn go_on<'r>(
        &mut self,
        stroke: Keystroke,
        resolver: &'r Resolver,
        scopes: &Scopes,
        enablements: &Enablements,
    ) -> Result<Press<'r>, NoMemory>
        requires { self.old ≢ [] }
        ensures step { IfOk result (λ press. step_of press.does
            ≡ step self.old stroke (context scopes.now.seen) (enablement_in enablements.now) resolver.now) }
        ensures found { IfOk result (λ press. found_in resolver.now press.found
            ≡ Some (resolved (self.old ++ stroke ∷ []) (context scopes.now.seen)
            (enablement_in enablements.now) resolver.now)) }
        ensures pressed { OnOk result (self.new
            ≡ pressed_after self.old stroke (context scopes.now.seen) (enablement_in enablements.now)
            resolver.now) }
        ensures err { OnErr result (self.new ≡ self.old) }
        ensures memory { IfErr result (λ _. MayAskPatterns (self.old ++ stroke ∷ []) (context scopes.now.seen)
            (enablement_in enablements.now) resolver.now) }
    {
        self.pressed.push(stroke);
        match resolver.resolve(self.pressed.as_slice(), scopes, enablements) {
            Ok(Resolved::Found(placed)) => {
                self.pressed.clear();
                Ok(Press {
                    does: Pressed::Start(placed.rule),
                    found: Found::At(placed.position),
                })
            }
            Ok(Resolved::More) => Ok(Press {
                does: Pressed::More,
                found: Found::More,
            }),
            Ok(Resolved::Nothing) => {
                self.pressed.clear();
                Ok(Press {
                    does: Pressed::Left,
                    found: Found::Nothing,
                })
            }
            Err(refused) => {
                self.pressed.pop();
                Err(refused)
            }
        }
    }
}
