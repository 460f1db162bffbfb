//! What the ends of a wire know.

use std::collections::LinkedList;
use stream_tokens::Token;

/// What an end may do, and what it knows of its wire. No value of it is made: it stands in proofs alone.
pub struct Known {
    pub sends: bool,
    pub takes: bool,
    pub stream: LinkedList<Token>,
    pub capacity: u64,
    pub sent: u64,
    pub messages: u64,
    pub sent_lost: bool,
    pub received: u64,
    pub got_lost: bool,
}
