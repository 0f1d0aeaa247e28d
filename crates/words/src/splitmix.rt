// SplitMix64, by Steele, Lea and Flood: endless words from a seed.
ghost use Rattle.std.specs.Prelude.{◌≡◌};
ghost use Rattle.words.specs.Mixing as mixing;

use crate::Source;
use refusals::Refusal;

#[derive(Clone, Copy)]
pub struct SplitMix64 {
    state: u64,
}

impl SplitMix64 {
    // The words from a seed on.
    pub fn new(seed: u64) -> SplitMix64
        ensures { result.state ≡ seed }
    {
        SplitMix64 { state: seed }
    }
}

// Each bit of the answer depends on all bits of the state.
#[tactic(auto, unfolding(crate::specs::Mixing::mix))]
fn mixed(state: u64) -> u64
    ensures { result ≡ mixing.mix state }
{
    let z = (state ^ (state >> 30)).wrapping_mul(0xbf58476d1ce4e5b9);
    let z = (z ^ (z >> 27)).wrapping_mul(0x94d049bb133111eb);
    z ^ (z >> 31)
}

impl Source for SplitMix64 {
    ghost coming = { λ s. mixing.mixed s.state };

    fn take(&mut self) -> Result<u64, Refusal> {
        self.state = self.state.wrapping_add(0x9e3779b97f4a7c15);
        Ok(mixed(self.state))
    }
}
