//! Wires carry their tokens in packets.

ghost use Rattle.std.specs.Prelude.{◌≡◌, ◌+◌, ℕ, Some, slice_get, [], ◌∷◌};
ghost use Rattle.ruled_wires.specs.Ends.{fresh_end, wire_stream};
ghost use Rattle.wire_tests.specs.Putting.{HasPut};

use ruled_wires::{PACKET_MOST, Rx, Sent, Streams, Tx, flush, wire};
use std::alloc::{AllocError, Global};
use std::marker::Brand;
use std::sync::Wait;
use std::test::Fail;
use stream_tokens::Token;

/// More than any wire here carries.
const AMPLE: usize = 1000;

/// Puts a token, and sends all that is kept where as many are as may be.
fn put_one<W: Streams, R: Wait>(rt: &R, outs: &mut [Tx<W>], t: Token)
    requires { ((n : ℕ) × HasPut outs.old n × (slice_get (wire_stream W.streams 0) n ≡ Some t)) }
    ensures { (n : ℕ) → HasPut outs.old n → HasPut outs.new (n + 1) }
{
    let tx = &mut outs[0];
    tx.put(Sent::Token(t));
    if tx.kept() >= PACKET_MOST {
        flush(rt, outs);
    }
}

/// Puts a whole stream on its wire.
pub(crate) fn put_all<W: Streams, R: Wait>(rt: &R, outs: &mut [Tx<W>], tokens: &[Token])
    requires fresh { outs.old ≡ fresh_end 0 ∷ [] }
    requires stream { wire_stream W.streams 0 ≡ tokens.now }
{
    for t in tokens {
        put_one(rt, outs, *t);
    }
    flush(rt, outs);
}

/// Takes all tokens from a wire.
fn take_all<W: Streams, R: Wait>(
    rt: &R,
    alloc: Global,
    rx: &mut Rx<W>,
) -> Result<Vec<Token>, AllocError> {
    let mut taken = Vec::new(alloc);
    for _ in 0..AMPLE {
        if rx.ended() {
            break;
        }
        if let Sent::Token(t) = rx.take(rt) {
            taken.push(t)?;
        }
    }
    Ok(taken)
}

/// In how many messages these tokens go over a wire, and what is taken from it.
fn through_a_wire<W: Streams, R: Wait>(
    rt: &R,
    alloc: Global,
    tokens: &[Token],
) -> Result<(u64, Vec<Token>), AllocError>
    requires { W.streams ≡ tokens.now ∷ [] }
{
    let (tx, mut rx) = wire::<W>(alloc, 0, 16)?;
    let mut outs = Vec::with_capacity(alloc, 1)?;
    outs.push(tx)?;
    put_all(rt, outs.as_mut_slice(), tokens);
    let taken = take_all(rt, alloc, &mut rx)?;
    let messages = match outs.as_slice().first() {
        Some(tx) => tx.messages(),
        None => 0,
    };
    Ok((messages, taken))
}

#[test]
fn tokens_go_in_packets(rt: HostRuntime) -> Result<(), Fail> {
    let mut tokens = Vec::new(rt.alloc());
    for n in 0..639 {
        tokens.push(Token::Item(n))?;
    }
    tokens.push(Token::Done)?;
    let (messages, taken) = through_a_wire::<Brand, HostRuntime>(
        &rt,
        rt.alloc(),
        tokens.as_slice(),
    )?;
    assert_eq!(rt; messages, 10);
    assert_eq!(rt; taken.len(), 640);
    assert!(rt; taken == tokens);
    Ok(())
}
