//! What the blocks have in common that put each token changed.

ghost use Rattle.std.specs.Prelude.{◌≡◌};
ghost use Rattle.alu_array.specs.ChangeSteps.{change_wants, change_gives, change_put};

use block_core::Wish;
use stream_tokens::Token;

/// How far such a block has come.
#[derive(Clone, Copy)]
pub enum ChangeState {
    /// The next token is wanted.
    Wanting,
    /// This token is put.
    Giving(Token),
    Ended,
}

impl ChangeState {
    #[inline]
    pub fn wants(self) -> Wish
        ensures { result ≡ change_wants self }
    {
        match self {
            ChangeState::Wanting => Wish::Take(0),
            ChangeState::Giving(t) => Wish::Put(0, t),
            ChangeState::Ended => Wish::Finished,
        }
    }

    /// A token came, and `t` is what becomes of it.
    #[inline]
    pub fn gives(self, t: Token) -> ChangeState
        ensures { result ≡ change_gives self t }
    {
        match self {
            ChangeState::Wanting => ChangeState::Giving(t),
            other => other,
        }
    }

    #[inline]
    pub fn put(self) -> ChangeState
        ensures { result ≡ change_put self }
    {
        match self {
            ChangeState::Giving(Token::Done) => ChangeState::Ended,
            ChangeState::Giving(_) => ChangeState::Wanting,
            other => other,
        }
    }
}
