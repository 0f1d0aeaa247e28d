// Writing the names that the masks of a round pick.
ghost use Rattle.std.specs.Prelude.{◌≡◌, ◌≤◌, length};
ghost use Rattle.views.specs.Groups as groups;
ghost use Rattle.views.specs.Memories as memories;

use refusals::Refusal;
use scenarios::{RoundScenario, mask_contains};

// How many of the names a mask picks.
fn group_len<N>(mask: u64, names: &[N]) -> usize
    ensures { result ≡ length (groups.picked mask 0 names.now) }
{
    (0..names.len()).filter(|&i| mask_contains(mask, i)).count()
}

// Writes each name into the group or groups that hear it, and answers the sizes of the groups.
fn fill<N: Copy>(
    round: RoundScenario,
    names: &[N],
    primary: &mut [N],
    secondary: &mut [N],
) -> (usize, usize)
    requires first { length (groups.picked round.primary 0 names.now) ≤ length primary.old }
    requires second { length (groups.picked round.secondary 0 names.now) ≤ length secondary.old }
    ensures { groups.Written (groups.picked round.primary 0 names.now) (groups.picked round.secondary 0 names.now) primary.old secondary.old result primary.new secondary.new }
{
    let mut p: usize = 0;
    let mut s: usize = 0;
    // The names are gone through by index, and both masks tested at each, by a rule of this repository (docs/DECISIONS.md);
    // `enumerate` would prove too.
    for i in 0..names.len() {
        if mask_contains(round.primary, i) {
            primary[p] = names[i];
            p += 1;
        }
        if mask_contains(round.secondary, i) {
            secondary[s] = names[i];
            s += 1;
        }
    }
    (p, s)
}

// Writes the groups of a round, unless one of the memories is too short. Groups of a round are picked name by name;
// all others are copied whole, so only the test of room is the same.
pub(crate) fn put_picked<N: Copy>(
    round: RoundScenario,
    names: &[N],
    primary: &mut [N],
    secondary: &mut [N],
) -> Result<(usize, usize), Refusal>
    ensures { memories.BothWritten (groups.picked round.primary 0 names.now) (groups.picked round.secondary 0 names.now) primary.old secondary.old result primary.new secondary.new }
{
    let first = group_len(round.primary, names);
    let second = group_len(round.secondary, names);
    if primary.len() < first || secondary.len() < second {
        return Err(Refusal::GroupMemory);
    }
    Ok(fill(round, names, primary, secondary))
}
