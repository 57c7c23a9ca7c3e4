//! What a sentence on a problem would have in the place of what it quotes. Sentences are written by the
//! crates that find problems; here they are read again, so that an editor or a diff can make the change.
#![tactic(auto)]

mod cutting;
mod guessing;

pub use guessing::{Guess, guess_in};
