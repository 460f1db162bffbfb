//! The capacities that are asked for the channels of a graph.

ghost use Rattle.std.specs.Prelude.{◌≡◌, All, IfOk, Some, replicate};
ghost use Rattle.stepper.specs.Capacity.{IsCapacity, CapacitiesFor};
ghost use Rattle.parts.specs.Parts.{gives};
ghost use Rattle.parts.specs.Answers.{ComesAlways};
ghost use Rattle.runs.specs.Capacities.{capacities_of};

use sam_base::{Fault, Items};
use std::alloc::{AllocError, Global};

/// One capacity for each of so many channels.
fn all_alike(
    alloc: Global,
    channels: usize,
    all: Option<u32>,
) -> Result<Vec<Option<u32>>, AllocError>
    ensures { IfOk result (λ each. each.items ≡ replicate channels all) }
{
    vec![in alloc; all; channels]
}

/// The capacities of so many channels: that of all, unless a pair gives a channel its own.
///
/// `NoSuchChannel` tells the first pair that names a channel which isn't there.
pub(crate) fn channel_capacities(
    alloc: Global,
    channels: usize,
    all: Option<u32>,
    pairs: &[(u32, u32)],
) -> Result<Items<Option<u32>>, Fault>
    requires all { IsCapacity all }
    requires own { All (λ pair. IsCapacity (Some pair.1)) pairs.now }
    ensures fit { IfOk result (CapacitiesFor channels) }
    ensures comes { ComesAlways (gives (capacities_of channels all pairs.now)) result }
{
    let Ok(mut each) = all_alike(alloc, channels, all) else {
        return Err(Fault::OutOfMemory);
    };
    for pair in pairs {
        let channel = pair.0 as usize;
        if channel >= each.len() {
            return Err(Fault::NoSuchChannel(pair.0));
        }
        each[channel] = Some(pair.1);
    }
    Ok(Items::from_vec(each))
}
