//! Decimals in bounds, and pairs of them.

ghost use Rattle.std.specs.Prelude.{◌≡◌, ◌≤◌, ◌==◌, IfOk, IfSome, All, map, option_map};
ghost use Rattle.std.specs.List.{slice_split};
ghost use Rattle.words.specs.Asked.{bounded_number, pair_of, pairs_of, all_read, has_repeats, distinct_pairs, IsCapacityGiven};

use crate::CHANNEL_MOST;
use sam_base::{CAPACITY_MOST, Items};
use sam_text::read_u64;
use std::alloc::{AllocError, Global};
use std::collections::BTreeSet;

/// The number of a decimal in these bounds.
pub fn number_in(low: u32, high: u32, text: &str) -> Option<u32>
    ensures read { result ≡ bounded_number low high text.now }
    ensures bounded { IfSome result (λ number. (low ≤ number) × (number ≤ high)) }
{
    let bytes = text.as_bytes();
    match read_u64(bytes, 0, bytes.len()) {
        Ok(number) if low as u64 <= number && number <= high as u64 => Some(number as u32),
        _ => None,
    }
}

/// A channel and its capacity, as `c=n`.
fn pair(text: &str) -> Option<(u32, u32)>
    ensures read { result ≡ pair_of text.now }
    ensures bounded { IfSome result (λ pair. IsCapacityGiven pair.1) }
{
    let (channel, capacity) = text.split_once('=')?;
    let channel = number_in(0, CHANNEL_MOST, channel)?;
    let capacity = number_in(1, CAPACITY_MOST, capacity)?;
    Some((channel, capacity))
}

/// Whether some channel has two pairs.
fn repeats(alloc: Global, pairs: &[(u32, u32)]) -> Result<bool, AllocError>
    ensures { IfOk result (λ found. found ≡ has_repeats pairs.now) }
{
    let mut channels = BTreeSet::new(alloc);
    for pair in pairs {
        if !channels.insert(pair.0)? {
            return Ok(true);
        }
    }
    Ok(false)
}

/// The parts between commas.
fn parts<'a>(alloc: Global, text: &'a str) -> Result<Vec<&'a str>, AllocError>
    ensures { IfOk result (λ parts. map (λ part. part.now) parts.items ≡ slice_split (λ b. b == 44) text.entry.now) }
{
    text.split(',').collect(alloc)
}

/// The pair of each part, where none is lacking.
fn each_pair(alloc: Global, parts: &[&str]) -> Result<Option<Vec<(u32, u32)>>, AllocError>
    ensures read { IfOk result (λ pairs. option_map (λ pairs. pairs.items) pairs ≡ all_read (map (λ part. pair_of part.now) parts.now)) }
    ensures bounded { IfOk result (λ pairs. IfSome pairs (λ pairs. All (λ pair. IsCapacityGiven pair.1) pairs.items)) }
{
    let mut pairs = Vec::new(alloc);
    for part in parts {
        match pair(part) {
            Some(pair) => pairs.push(pair)?,
            None => return Ok(None),
        }
    }
    Ok(Some(pairs))
}

/// The pairs, where no channel has two.
fn once(alloc: Global, pairs: Vec<(u32, u32)>) -> Result<Option<Items<(u32, u32)>>, AllocError>
    ensures read { IfOk result (λ once. once ≡ distinct_pairs pairs.items) }
    ensures same { IfOk result (λ once. IfSome once (λ once. once ≡ pairs.items)) }
{
    if repeats(alloc, &pairs)? {
        Ok(None)
    } else {
        Ok(Some(Items::from_vec(pairs)))
    }
}

/// Channels with their capacities, as `c=n,c=n`, where none stands twice.
pub fn pairs(alloc: Global, text: &str) -> Result<Option<Items<(u32, u32)>>, AllocError>
    ensures read { IfOk result (λ pairs. pairs ≡ pairs_of text.now) }
    ensures bounded { IfOk result (λ pairs. IfSome pairs (All (λ pair. IsCapacityGiven pair.1))) }
{
    let parts = parts(alloc, text)?;
    match each_pair(alloc, &parts)? {
        Some(pairs) => once(alloc, pairs),
        None => Ok(None),
    }
}
