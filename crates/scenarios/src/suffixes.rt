// The counts of a plan's rounds, held for reading.
ghost use Rattle.std.specs.Prelude.{◌≡◌, ◌-◌, ◌^◌, ◌<◌, ◌≤◌, [], ◌∷◌, length, take};
ghost use Rattle.scenarios.specs.Cells.{cells};
ghost use Rattle.scenarios.specs.Fits.{Among};
ghost use Rattle.scenarios.specs.Scenarios.{count};
ghost use Rattle.scenarios.specs.Counting.{layer, entries};

use crate::counting::{Place, Slot, value_of};
use crate::participants::Participants;

// Slots that begin with the entries of so many rounds, whose total has 64 bits.
#[derive(Clone, Copy)]
pub(crate) struct SuffixCounts<'a> {
    pub(crate) participants: Participants,
    pub(crate) rounds: usize,
    pub(crate) slots: &'a [Slot],
    ghost fits: { count rounds (participants.number ∷ []) < 2 ^ 64 },
    ghost held: { take (length (entries participants.number rounds)) slots.now ≡ entries participants.number rounds },
}

impl SuffixCounts<'_> {
    // How many scenarios continue from a place. At the last depth there is one, with no search.
    pub(crate) fn continuations(&self, place: Place) -> u64
        requires within { place.depth ≤ self.now.rounds }
        requires reached { Among (layer self.now.participants.number place.depth) place.state.boundaries }
        ensures { result ≡ count (self.now.rounds - place.depth) (cells self.now.participants.number place.state.boundaries) }
    {
        if place.depth == self.rounds {
            return 1;
        }
        value_of(self.slots, place)
    }
}
