// Words to draw with: sources of 64-bit words, and draws of numbers up to a bound.

#![tactic(auto)]

ghost use Rattle.std.specs.Prelude.{◌≡◌, ℕ, List, Ok, Err};
ghost use Rattle.words.specs.Words.{Words, Taken};
ghost use Rattle.words.specs.Draws.{draws, Drawn, WordsUsed};

use refusals::Refusal;

mod splitmix;
mod tape;

pub use splitmix::SplitMix64;
pub use tape::Tape;

// A source means the words that are still to come.
pub trait Source {
    ghost coming: { Self → Words };

    // The first word; a source that is spent refuses, and is left as it was.
    fn take(&mut self) -> Result<u64, Refusal>
        ensures taken { Taken (coming self.old) result (coming self.new) }
        ensures same { elim result [ Ok _ ↦ Unit {0} | Err _ ↦ self.new ≡ self.old ] };
}

// A number up to the bound, drawn from the words to come.
#[tactic(auto, using(crate::proofs::Drawing::words_used, crate::proofs::Drawing::draw_spent))]
pub fn draw_up_to<S: Source>(source: &mut S, bound: u64) -> Result<u64, Refusal>
    ensures drawn { Drawn bound (S.coming source.old) result (S.coming source.new) }
    ensures words { (bs : List ℕ) → WordsUsed bs (S.coming source.old) (draws bs (S.coming source.old)) }
{
    let word = source.take()?;
    match bound.checked_add(1) {
        Some(many) => Ok(word % many),
        // every word is at most the greatest bound
        None => Ok(word),
    }
}
