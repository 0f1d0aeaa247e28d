// Asking again for compromised sets.
ghost use Rattle.std.specs.Prelude.{◌≡◌};
ghost use Rattle.replay_rigs.specs.Told.{sets_told};

use asking::{Unasked, are_next, read};
use scenarios::CellState;
use sets::{count_sets, write_set};
use std::alloc::Global;
use std::str::SplitWhitespace;

// No plan has more participants.
const MEMBERS: usize = 64;

// Whether so many sets of so many faulty participants take a first few of each cell.
fn sets_are(n: usize, boundaries: u64, faults: usize, count: u64) -> bool
    ensures { result ≡ sets_told n boundaries faults count }
{
    count_sets(n, faults, CellState { boundaries }).is_ok_and(|many| many == count)
}

pub(crate) fn sets_agree(words: &mut SplitWhitespace<'_>) -> Result<bool, Unasked> {
    let n = read(words)?;
    let state = read(words)?;
    let faults = read(words)?;
    let count = read(words)?;
    Ok(sets_are(n, state, faults, count))
}

pub(crate) fn set_agrees(words: &mut SplitWhitespace<'_>, heap: Global) -> Result<bool, Unasked> {
    let n = read(words)?;
    let boundaries = read(words)?;
    let faults = read(words)?;
    let number = read(words)?;
    let mut members = vec![in heap; 0usize; MEMBERS]?;
    write_set(n, faults, CellState { boundaries }, number, &mut members)?;
    members.truncate(faults);
    are_next(words, &members)
}
