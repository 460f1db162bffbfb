//! Two capacities between which the least one lies.

ghost use Rattle.std.specs.Prelude.{◌≡◌, ◌+◌, ◌*◌, ◌-◌, ◌<◌, ◌≤◌, ℕ, true, false, min};
ghost use Rattle.sam_base.specs.declared.TheConstants.{CAPACITY_MOST};
ghost use Rattle.plays.specs.Net.{Net};
ghost use Rattle.sam_sizing.specs.Trials.{EndsAs, LiesWithin};

use sam_base::{Items, Waiting};
use stepper::Ending;

/// A capacity that does not suffice, or 0, with what waits under it, and a larger one that suffices.
#[derive(Drop)]
pub(crate) struct Bounds {
    pub(crate) low: u32,
    pub(crate) below: Items<Waiting>,
    pub(crate) high: u32,
}

impl Bounds {
    /// Whether a capacity lies between the two.
    pub(crate) fn are_apart(&self) -> bool
        requires { self.now.low < self.now.high }
        ensures apart { result ≡ true → self.now.low + 1 < self.now.high }
        ensures next { result ≡ false → self.now.high ≡ self.now.low + 1 }
    {
        self.high - self.low > 1
    }

    /// The capacity halfway between the two.
    pub(crate) fn middle(&self) -> u32
        requires { self.now.low + 1 < self.now.high }
        ensures above { self.now.low < result }
        ensures below { result < self.now.high }
    {
        self.low + (self.high - self.low) / 2
    }

    /// The bounds that are left once a run with a capacity between them has ended.
    pub(crate) fn after(self, middle: u32, ending: Ending) -> Bounds
        requires above { self.low < middle }
        requires below { middle < self.high }
        ensures ordered { result.low < result.high }
        ensures most { result.high ≤ self.high }
        ensures closer { result.high - result.low < self.high - self.low }
        ensures within { (net : Net) → LiesWithin net self → EndsAs net middle ending → LiesWithin net result }
    {
        let Bounds { low, below, high } = self;
        match ending {
            Ending::Finished => Bounds {
                low,
                below,
                high: middle,
            },
            Ending::Stalled(waiting) => Bounds {
                low: middle,
                below: waiting,
                high,
            },
        }
    }
}

/// Twice a capacity, but no more than the top one.
pub(crate) fn doubled(capacity: u32, top: u32) -> u32
    requires most { top ≤ CAPACITY_MOST }
    requires below { capacity < top }
    ensures { result ≡ min (2 * capacity) top }
{
    (2 * capacity).min(top)
}
