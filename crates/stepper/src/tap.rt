//! What is told of each token that is put.

ghost use Rattle.std.specs.Prelude.{◌≡◌, ◌<◌, ◌+◌, ℕ, Bool, true, false, List, [], length, slice_get, Some, None, IsOk, IfOk, IfErr, get_or};
ghost use Rattle.stream_tokens.specs.declared.Token.{Token};
ghost use Rattle.plays.specs.Told.{Tapped, one_told, HasLists};

use std::alloc::{AllocError, Global};
use std::marker::Model;
use stream_tokens::{Stream, Token};

/// What is given each token that is put.
pub trait Tap {
    /// The tokens given so far, channel by channel, or nothing.
    ghost told: { Self → Tapped };

    /// Whether `on_put` may find no memory.
    ghost may_refuse: { Self → Bool };

    /// A token was put on a channel. A tap that tells appends it to the channel's list and leaves all other lists; without
    /// memory it stays as it was.
    fn on_put(&mut self, channel: u32, token: Token) -> Result<(), AllocError>
        requires { HasLists (channel + 1) (told self.old) }
        ensures same_refusal { may_refuse self.new ≡ may_refuse self.old }
        ensures ok { IfOk result (λ _. told self.new ≡ one_told channel token (told self.old)) }
        ensures refused { IfErr result (λ _. told self.new ≡ told self.old) }
        ensures sure { may_refuse self.old ≡ false → IsOk result };
}

/// A tap that keeps nothing.
#[derive(Clone, Copy, Debug, Drop)]
pub struct NoTap;

impl Tap for NoTap {
    ghost told = { λ _. None };

    ghost may_refuse = { λ _. false };

    #[inline]
    fn on_put(&mut self, _channel: u32, _token: Token) -> Result<(), AllocError> {
        Ok(())
    }
}

/// A tap that keeps the tokens of each channel.
#[derive(Drop)]
pub struct KeepAll {
    streams: Vec<Stream>,
}

impl Model for KeepAll {
    ghost use Rattle.std.specs.Prelude.{List};
    ghost use Rattle.stream_tokens.specs.declared.Token.{Token};

    ghost Value = { List (List Token) };

    ghost view = { λ k. k.streams.items };
}

impl KeepAll {
    /// A tap with an empty list for each of so many channels.
    pub fn new(alloc: Global, channels: u32) -> Result<KeepAll, AllocError>
        ensures number { IfOk result (λ keep. length keep ≡ channels) }
        ensures empty { IfOk result (λ keep. (c : ℕ) → get_or keep c [] ≡ []) }
    {
        let mut streams = Vec::new(alloc);
        for _ in 0..channels {
            streams.push(Stream::new(alloc))?;
        }
        Ok(KeepAll { streams })
    }

    /// The tokens that were put on a channel.
    pub fn stream(&self, channel: u32) -> &Stream
        requires { channel < length self.now }
        ensures { slice_get self.now channel ≡ Some result.now }
    {
        &self.streams[channel as usize]
    }
}

impl Tap for KeepAll {
    ghost told = { λ keep. Some keep };

    ghost may_refuse = { λ _. true };

    fn on_put(&mut self, channel: u32, token: Token) -> Result<(), AllocError> {
        self.streams[channel as usize].push(token)
    }
}
