// Chance: a sample of ranks without repetition, and a shuffle, both drawn from a word source.

#![tactic(auto)]

mod sample;
mod shuffle;

pub use sample::{RankSlot, sample_unique_indices};
pub use shuffle::shuffle_items;
