// The test whether rounds are canonical.
ghost use Rattle.std.specs.Prelude.{◌<◌, ◌≤◌};
ghost use Rattle.scenarios.specs.Canonical.{CanonicalTold};

use crate::cell::CellState;
use crate::participants::Participants;
use crate::read::read_round;
use crate::round::RoundScenario;

// The residual state of rounds that are legal and canonical; none where they are not.
pub(crate) fn residual_state(
    participants: Participants,
    rounds: &[RoundScenario],
) -> Option<CellState>
    ensures { CanonicalTold participants.number rounds.now result }
{
    let mut state = CellState::initial();
    for round in rounds {
        state = read_round(participants, state, *round)?.next;
    }
    Some(state)
}
