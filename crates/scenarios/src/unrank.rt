// The scenario of a rank.
ghost use Rattle.std.specs.Prelude.{◌-◌, ◌<◌, ◌≤◌, [], ◌∷◌, length};
ghost use Rattle.scenarios.specs.Cells as cellular;
ghost use Rattle.scenarios.specs.Counting.{layer};
ghost use Rattle.scenarios.specs.Fits.{Among};
ghost use Rattle.scenarios.specs.Scenarios.{count};
ghost use Rattle.scenarios.specs.Unranking.{Stepped, RoundsTold};

use crate::cell::CellState;
use crate::counting::Place;
use crate::draw::round_at;
use crate::edge::Edges;
use crate::round::RoundScenario;
use crate::suffixes::SuffixCounts;

// The first round of a continuation, the state after it, and the rank of the continuation behind it.
#[derive(Clone, Copy)]
pub(crate) struct Step {
    round: RoundScenario,
    next: CellState,
    left: u64,
}

impl SuffixCounts<'_> {
    // The first round of the continuation of a rank from a place. Each edge owns an interval of ranks: its multiplicity times
    // the continuations behind it.
    fn first_round(&self, place: Place, rank: u64) -> Step
        requires within { place.depth < self.now.rounds }
        requires reached { Among (layer self.now.participants.number place.depth) place.state.boundaries }
        requires below { rank < count (self.now.rounds - place.depth) (cellular.cells self.now.participants.number place.state.boundaries) }
        ensures { Stepped self.now.participants.number self.now.rounds place.depth place.state.boundaries rank result }
    {
        let mut edges = Edges::of(self.participants, place.state);
        let mut left = rank;
        loop {
            let edge = edges.edge();
            let suffix = self.continuations(Place {
                depth: place.depth + 1,
                state: edge.next,
            });
            let size = edge.multiplicity as u64 * suffix;
            if left < size {
                return Step {
                    round: round_at(&edges, u128::from(left / suffix)),
                    next: edge.next,
                    left: left % suffix,
                };
            }
            left -= size;
            if !edges.advance() {
                // the intervals of all edges hold every rank
                unreachable!()
            }
        }
    }

    // Writes the scenario of a rank from the first slot on, and answers the state that it leaves.
    pub(crate) fn unrank(&self, rank: u64, out: &mut [RoundScenario]) -> CellState
        requires room { self.now.rounds ≤ length out.old }
        requires below { rank < count self.now.rounds (self.now.participants.number ∷ []) }
        ensures { RoundsTold self.now.participants.number self.now.rounds rank out.old result out.new }
    {
        let mut state = CellState::initial();
        let mut left = rank;
        for (depth, round) in out[..self.rounds].iter_mut().enumerate() {
            let step = self.first_round(Place { depth, state }, left);
            *round = step.round;
            state = step.next;
            left = step.left;
        }
        state
    }
}
