// A tape: words written down beforehand, taken from the first to the last.
ghost use Rattle.std.specs.Prelude.{◌≡◌};
ghost use Rattle.words.specs.Words.{written};

use crate::Source;
use refusals::Refusal;

// The words still to come.
#[derive(Drop)]
pub struct Tape<'t> {
    words: &'t [u64],
}

impl<'t> Tape<'t> {
    // The whole tape.
    pub fn new(words: &'t [u64]) -> Tape<'t>
        ensures { result.words.now ≡ words.now }
    {
        Tape { words }
    }
}

impl Source for Tape<'_> {
    ghost coming = { λ t. written t.words.now };

    fn take(&mut self) -> Result<u64, Refusal> {
        let (word, rest) = self.words.split_first().ok_or(Refusal::WordsSpent)?;
        self.words = rest;
        Ok(*word)
    }
}
