// A shuffle from the last position down.
ghost use Rattle.sampling.specs.Shuffles as shuffles;

use refusals::Refusal;
use words::{Source, draw_up_to};

// Exchanges each position, from the last down to the second, with one that is drawn up to it.
// Where the words run out, the exchanges made so far stay.
pub fn shuffle_items<T, S: Source>(items: &mut [T], source: &mut S) -> Result<(), Refusal>
    ensures { shuffles.ShuffleTold items.old (S.coming source.old) result (S.coming source.new) items.new }
{
    // By positions, since a shuffle is defined as exchanges of positions, from the last down.
    for i in (1..items.len()).rev() {
        let j = draw_up_to(source, i as u64)?;
        items.swap(i, j as usize);
    }
    Ok(())
}
