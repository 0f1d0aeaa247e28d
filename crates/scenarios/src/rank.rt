// The rank of canonical rounds among all scenarios of as many rounds.
ghost use Rattle.std.specs.Prelude.{◌≡◌, ◌-◌, ◌+◌, ◌<◌, length};
ghost use Rattle.scenarios.specs.Cells.{cells};
ghost use Rattle.scenarios.specs.Turns.{Turn};
ghost use Rattle.scenarios.specs.Fits.{Among};
ghost use Rattle.scenarios.specs.Counting.{layer};
ghost use Rattle.scenarios.specs.Ranking.{Tells, FirstRank, RankTold};

use crate::cell::CellState;
use crate::counting::Place;
use crate::edge::Edges;
use crate::read::{RoundRank, read_round};
use crate::round::RoundScenario;
use crate::suffixes::SuffixCounts;

impl SuffixCounts<'_> {
    // The rank, among the scenarios from a place, of the first one that begins with the round that was read.
    fn rank_before(&self, place: Place, read: RoundRank) -> u64
        requires within { place.depth < self.now.rounds }
        requires reached { Among (layer self.now.participants.number place.depth) place.state.boundaries }
        requires told { (t : Turn) × Tells self.now.participants.number place.state.boundaries read t }
        ensures { (t : Turn) → Tells self.now.participants.number place.state.boundaries read t → FirstRank (self.now.rounds - (place.depth + 1)) (cells self.now.participants.number place.state.boundaries) t read.rank result }
    {
        let mut edges = Edges::of(self.participants, place.state);
        let mut before: u64 = 0;
        loop {
            let edge = edges.edge();
            let ways = self.continuations(Place {
                depth: place.depth + 1,
                state: edge.next,
            });
            if edge.leader == read.leader_cell && edge.next == read.next {
                return before + read.rank as u64 * ways;
            }
            before += edge.multiplicity as u64 * ways;
            if !edges.advance() {
                // a turn that was read is one of the edges
                unreachable!()
            }
        }
    }

    // The rank of a script of as many rounds as were counted; none where it is not legal or not canonical.
    pub(crate) fn rank(&self, script: &[RoundScenario]) -> Option<u64>
        requires { length script.now ≡ self.now.rounds }
        ensures { RankTold self.now.participants.number script.now result }
    {
        let mut state = CellState::initial();
        let mut rank: u64 = 0;
        for (depth, round) in script.iter().enumerate() {
            let read = read_round(self.participants, state, *round)?;
            rank += self.rank_before(Place { depth, state }, read);
            state = read.next;
        }
        Some(rank)
    }
}
