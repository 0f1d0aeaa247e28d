// Sampling as Bentley and Floyd published it, over a keyed table in rank memory that the caller lends.
ghost use Rattle.std.specs.Prelude.{◌≡◌, ℕ, List, map};
ghost use Rattle.sampling.specs.Floyd.{inserted};
ghost use Rattle.sampling.specs.Samples as samples;

use refusals::Refusal;
use table::{Entry, find};
use words::{Source, draw_up_to};

// A slot of rank memory: a rank, with nothing kept for it.
pub type RankSlot = Entry<u64, ()>;

// What goes behind the ranks taken so far: the number drawn or, where it is among them, the bound.
fn pick(taken: &[RankSlot], drawn: u64, bound: u64) -> u64
    ensures { (s : List ℕ) → taken.now ≡ map samples.slot s → result ≡ inserted s drawn bound }
{
    match find(taken, &drawn) {
        Some(_) => bound,
        None => drawn,
    }
}

// Draws ranks below the total, none twice, and writes them from the first slot on in the order drawn: as many as
// asked for, or all. Answers how many.
pub fn sample_unique_indices<S: Source>(
    source: &mut S,
    total: u64,
    asked: u64,
    ranks: &mut [RankSlot],
) -> Result<u64, Refusal>
    ensures { samples.SamplingTold total asked (S.coming source.old) ranks.old result (S.coming source.new) ranks.new }
{
    let many = asked.min(total);
    if (ranks.len() as u64) < many {
        return Err(Refusal::RankMemory);
    }
    let first = total - many;
    for (len, bound) in (first..total).enumerate() {
        match draw_up_to(source, bound) {
            Ok(drawn) => {
                let key = pick(&ranks[..len], drawn, bound);
                ranks[len] = Entry { key, value: () };
            }
            Err(refusal) => {
                ranks.fill(Entry { key: 0, value: () });
                return Err(refusal);
            }
        }
    }
    Ok(many)
}
