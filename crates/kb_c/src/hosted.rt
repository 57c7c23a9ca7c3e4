//! What a handle leads to.
use kb_engine::Engine;
use kb_hosted_keycheck::Desk;

/// An engine, and beside it the files that `keycheck` is run over.
#[derive(Drop)]
pub struct Hosted {
    pub engine: Engine,
    pub desk: Desk,
}
