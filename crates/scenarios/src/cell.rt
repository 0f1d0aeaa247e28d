// Residual cells: participants that every round so far has treated alike.
ghost use Rattle.std.specs.Prelude.{◌≡◌, ◌<◌, ◌≤◌, length};
ghost use Rattle.scenarios.specs.Masks.{bit};
ghost use Rattle.scenarios.specs.Cells.{cells, ranges_from};
ghost use Rattle.scenarios.specs.Ranges.{RangesTold};

use crate::mask::mask_contains;
use crate::participants::Participants;
use arrayvec::ArrayVec;
use refusals::Refusal;

// A residual state: bit i is set where a cell ends after participant i.
#[derive(Clone, Copy, PartialEq, Eq, Debug)]
pub struct CellState {
    pub boundaries: u64,
}

impl CellState {
    // The state with one cell of all participants.
    pub fn initial() -> CellState
        ensures { result.boundaries ≡ 0 }
    {
        CellState { boundaries: 0 }
    }

    // Whether a cell ends after participant `idx`.
    pub fn boundary_after(&self, idx: usize) -> bool
        ensures { result ≡ bit self.now.boundaries idx }
    {
        mask_contains(self.boundaries, idx)
    }

    // The cells of so many participants as (start, len) ranges. The bounds are a plan's first two rules, asked for alone.
    pub fn cell_ranges(self, participants: usize) -> Result<ArrayVec<(usize, usize), 64>, Refusal>
        ensures { RangesTold participants self.boundaries result }
    {
        if participants < 2 {
            return Err(Refusal::FewParticipants);
        }
        if participants > 64 {
            return Err(Refusal::ManyParticipants);
        }
        Ok(self.ranges(Participants {
            number: participants,
        }))
    }

    // The cells of so many participants as (start, len) ranges.
    pub(crate) fn ranges(self, participants: Participants) -> ArrayVec<(usize, usize), 64>
        ensures listed { result.items ≡ ranges_from 0 (cells participants.number self.boundaries) }
        ensures few { length result.items ≤ participants.number }
    {
        let n = participants.number;
        let mut ranges = ArrayVec::new();
        let mut start: usize = 0;
        // Participants are numbers, and no list of them is there to go over.
        for idx in 0..n - 1 {
            if self.boundary_after(idx) {
                ranges.push((start, idx + 1 - start));
                start = idx + 1;
            }
        }
        ranges.push((start, n - start));
        ranges
    }
}
