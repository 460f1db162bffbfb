//! The streams that wires carry.

use std::marker::Brand;

/// Names the streams of all wires, by their channels' numbers. It has no calls: whoever calls a function that is generic over
/// it chooses the list, and nothing of that is left at run time.
pub trait Streams {
    ghost use Rattle.std.specs.Prelude.{List};
    ghost use Rattle.stream_tokens.specs.declared.Token.{Token};

    ghost streams: { List (List Token) };
}

impl Streams for Brand {
    ghost use Rattle.std.specs.Prelude.{[]};

    ghost streams = { [] };
}
