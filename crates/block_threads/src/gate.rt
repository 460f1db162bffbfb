//! A gate, which is told of what the works of blocks do.

use stream_tokens::Token;

/// Is told when the work of a block begins, and of each token before the block takes it.
pub trait Gate {
    fn enter(&self, block: u32);

    fn taken(&self, block: u32, t: &Token);
}

/// The gate through which everything passes.
#[derive(Clone, Copy, Debug, Drop)]
pub struct OpenGate;

impl Gate for OpenGate {
    fn enter(&self, _block: u32) {}

    fn taken(&self, _block: u32, _t: &Token) {}
}
