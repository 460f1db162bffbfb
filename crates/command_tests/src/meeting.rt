//! A gate at which the works of all blocks meet.

use block_threads::Gate;
use std::alloc::{AllocError, Global};
use std::sync::atomic::{AtomicU64, Ordering};
use std::thread;
use stream_tokens::Token;

/// Each work waits until all have begun, and the blocks 1 and 2 wait for each other at their first token. The tokens of each
/// block are counted and their numbers added up.
#[derive(Drop)]
pub(crate) struct Meeting {
    blocks: u64,
    entered: AtomicU64,
    met: AtomicU64,
    gave_up: AtomicU64,
    tokens: Vec<AtomicU64>,
    sums: Vec<AtomicU64>,
}

fn zeros(alloc: Global, count: u64) -> Result<Vec<AtomicU64>, AllocError> {
    let mut words = Vec::new(alloc);
    for _ in 0..count {
        words.push(AtomicU64::new(0))?;
    }
    Ok(words)
}

fn read(words: &[AtomicU64], block: usize) -> Option<u64> {
    match words.get(block) {
        Some(word) => Some(word.load(Ordering::SeqCst)),
        None => None,
    }
}

impl Meeting {
    pub(crate) fn new(alloc: Global, blocks: u64) -> Result<Meeting, AllocError> {
        Ok(Meeting {
            blocks,
            entered: AtomicU64::new(0),
            met: AtomicU64::new(0),
            gave_up: AtomicU64::new(0),
            tokens: zeros(alloc, blocks)?,
            sums: zeros(alloc, blocks)?,
        })
    }

    /// Marks the word, and waits until so many have.
    fn meet(&self, word: &AtomicU64, wanted: u64) {
        word.fetch_add(1, Ordering::SeqCst);
        for _ in 0..100_000_000u64 {
            if word.load(Ordering::SeqCst) >= wanted {
                return;
            }
            thread::yield_now();
        }
        self.gave_up.fetch_add(1, Ordering::SeqCst);
    }

    /// How many waits gave up.
    pub(crate) fn gave_up(&self) -> u64 {
        self.gave_up.load(Ordering::SeqCst)
    }

    /// How many tokens a block took.
    pub(crate) fn tokens(&self, block: usize) -> Option<u64> {
        read(self.tokens.as_slice(), block)
    }

    /// The numbers that a block took, added up.
    pub(crate) fn sum(&self, block: usize) -> Option<u64> {
        read(self.sums.as_slice(), block)
    }
}

impl Gate for Meeting {
    fn enter(&self, _block: u32) {
        self.meet(&self.entered, self.blocks);
    }

    fn taken(&self, block: u32, t: &Token) {
        let Some(tokens) = self.tokens.get(block as usize) else {
            return;
        };
        if tokens.fetch_add(1, Ordering::SeqCst) == 0 && (block == 1 || block == 2) {
            self.meet(&self.met, 2);
        }
        let (Some(sum), Some(number)) = (self.sums.get(block as usize), t.value()) else {
            return;
        };
        sum.fetch_add(number, Ordering::SeqCst);
    }
}
