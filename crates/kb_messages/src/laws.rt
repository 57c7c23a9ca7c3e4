//! Theorems about streams, independent of any run.
ghost use Rattle.std.specs.Prelude.{◌≡◌, ◌++◌, ℕ, List, []};
ghost use Rattle.kb_messages.specs.Stream.{bytes_of, frames, joined, messages, received_of, taken_all};
ghost use Rattle.kb_messages.specs.Stream.{AreShort};

/// What is received doesn't depend on the pieces: bytes that come later change nothing of what was received,
/// and go on where it ended.
pub fn pieces_change_nothing()
    ensures { (first more : List ℕ) →
        taken_all (first ++ more) ≡ joined (taken_all first) (taken_all ((taken_all first).held ++ more)) }
{}

/// Messages that were written are received, in order, whatever the pieces are, and nothing else.
pub fn what_is_written_is_received()
    ensures { (bodies pieces : List (List ℕ)) → AreShort bodies → bytes_of pieces ≡ frames bodies →
        received_of [] pieces ≡ messages bodies }
{}
