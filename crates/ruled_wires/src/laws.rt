//! Laws of wires and their ends.

ghost use Rattle.ruled_wires.specs.Laws.{EndsJoin};

use crate::ends::{Rx, Tx};
use crate::streams::Streams;

/// Whatever a wire holds, the views of its two ends can become one again under the rule.
pub fn ends_join()
    ensures { EndsJoin }
{}

fn may_cross<T: Send>() {}

/// Both ends may pass to another thread.
pub fn ends_may_cross<W: Streams + Send>() {
    may_cross::<Tx<W>>();
    may_cross::<Rx<W>>();
}
