//! Tests of the blocks: tokens in, tokens out, for every kind.
#![tactic(auto)]

#[cfg(test)]
mod bench;
#[cfg(test)]
mod kinds;
#[cfg(test)]
mod tokens;
