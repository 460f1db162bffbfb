//! Tensor storage, level by level: a dense level stores its size, a compressed level a segment array and a coordinate
//! array. Contracts see a storage by the ranks of its stored prefixes.
#![tactic(auto)]

mod build;
mod compressed;
mod dense;
mod faults;
mod keys;
mod level;
mod pairs;
mod positions;
mod rows;
mod storage;

pub use faults::BuildFault;
pub use storage::Storage;
