// Twins scenarios: counted, and ranked to and fro.

#![tactic(auto)]

ghost use Rattle.std.specs.Prelude.{◌≡◌};
ghost use Rattle.scenarios.specs.Worked.{WorkedTotals, WorkedRanks};
ghost use Rattle.scenarios.specs.Claims.{TurnsFit, TurnsApart, TurnsBegin, TurnsWalk, RoundsStand, RoundsFound, RoundsApart, RanksCorrespond, CellsResidual, RepeatsCanonical};

mod canon;
mod cell;
mod count;
mod counted;
mod counting;
mod draw;
mod edge;
mod mask;
mod mode;
mod participants;
mod plan;
mod query;
mod rank;
mod read;
mod refinement;
mod repeat;
mod role;
mod round;
mod suffixes;
mod unrank;

pub use cell::CellState;
pub use counted::{CountRefused, CountedPlan};
pub use counting::{Place, Slot};
pub use edge::{TransitionEdge, edge_at};
pub use mask::mask_contains;
pub use mode::Mode;
pub use plan::{Plan, PlanNumbers};
pub use round::RoundScenario;

// Worked numbers, of the definitions that the other contracts cite.
// A theorem has nothing to answer, so this function and those below answer 0.
pub fn worked_stand() -> u8
    ensures worked_totals { WorkedTotals }
    ensures worked_ranks { WorkedRanks }
    ensures answer { result ≡ 0 }
{
    0
}

// The turns from given cells are those that fit, each once, and a walk takes them in their order.
pub fn turns_stand() -> u8
    ensures turns_fit { TurnsFit }
    ensures turns_apart { TurnsApart }
    ensures turns_begin { TurnsBegin }
    ensures turns_walk { TurnsWalk }
    ensures answer { result ≡ 0 }
{
    0
}

// The rounds of the turns are the legal rounds that stand in order, each once.
pub fn rounds_stand() -> u8
    ensures rounds_stand { RoundsStand }
    ensures rounds_found { RoundsFound }
    ensures rounds_apart { RoundsApart }
    ensures answer { result ≡ 0 }
{
    0
}

// Ranks below the total and canonical scenarios correspond one to one.
pub fn ranks_stand() -> u8
    ensures ranks_correspond { RanksCorrespond }
    ensures cells_residual { CellsResidual }
    ensures repeats_canonical { RepeatsCanonical }
    ensures answer { result ≡ 0 }
{
    0
}
