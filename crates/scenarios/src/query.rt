// What plans answer: the scenario of a rank, the rank of a scenario, and whether rounds are canonical.
ghost use Rattle.std.specs.Prelude.{◌≡◌, ◌<◌, ◌≤◌, length, Ok, Err};
ghost use Rattle.scenarios.specs.Plans.{CorrespondsIn};
ghost use Rattle.scenarios.specs.PlanCounts.{Counted, ScenarioTold, UnrankedTold, ShapeTold, CanonicalAnswered, RankAnswered};

use crate::canon::residual_state;
use crate::cell::CellState;
use crate::counted::CountedPlan;
use crate::mode::Mode;
use crate::plan::{Plan, PlanNumbers};
use crate::repeat::{all_alike, repeat_first};
use crate::round::RoundScenario;
use refusals::Refusal;

// Refuses rounds that cannot be a scenario of the plan by their number, or in sustained mode by not being alike.
fn check_shape(plan: PlanNumbers, rounds: &[RoundScenario]) -> Result<(), Refusal>
    ensures { ShapeTold plan rounds.now result }
{
    if rounds.len() > 64 {
        return Err(Refusal::ManyRounds);
    }
    if rounds.len() != plan.rounds {
        return Err(Refusal::NotCanonical);
    }
    match plan.mode {
        Mode::Sustained if !all_alike(rounds) => Err(Refusal::NotCanonical),
        _ => Ok(()),
    }
}

impl Plan {
    // Whether rounds are a canonical scenario of the plan, and then the residual state after them.
    pub fn canonical(&self, rounds: &[RoundScenario]) -> Result<CellState, Refusal>
        ensures { CanonicalAnswered self.now rounds.now result }
    {
        check_shape(self.numbers(), rounds)?;
        residual_state(self.size(), rounds).ok_or(Refusal::NotCanonical)
    }
}

impl CountedPlan<'_> {
    // The scenario of a rank, all its rounds: in sustained mode the one round that is ranked is repeated.
    fn unrank(&self, rank: u64, rounds: &mut [RoundScenario]) -> CellState
        requires room { self.now.plan.rounds ≤ length rounds.old }
        requires below { rank < self.now.total }
        ensures { UnrankedTold self.now.plan rank rounds.old result rounds.new }
    {
        let plan = self.numbers();
        let state = self.counts().unrank(rank, rounds);
        if let Mode::Sustained = plan.mode {
            repeat_first(rounds, plan.rounds);
        }
        state
    }

    // Writes the scenario of a rank from the first slot on, and answers the residual state after it.
    pub fn scenario(&self, rank: u64, rounds: &mut [RoundScenario]) -> Result<CellState, Refusal>
        ensures told { ScenarioTold self.now.plan rank rounds.old result rounds.new }
        ensures corresponds { CorrespondsIn self.now.plan.mode self.now.plan.participants self.now.plan.rounds }
    {
        if rounds.len() < self.numbers().rounds {
            return Err(Refusal::ShortMemory);
        }
        if rank >= self.total() {
            return Err(Refusal::OutOfRange);
        }
        Ok(self.unrank(rank, rounds))
    }

    // The rank whose scenario these rounds are, if they are a canonical scenario of the plan.
    pub fn rank(&self, rounds: &[RoundScenario]) -> Result<u64, Refusal>
        ensures told { RankAnswered self.now.plan rounds.now result }
        ensures corresponds { CorrespondsIn self.now.plan.mode self.now.plan.participants self.now.plan.rounds }
    {
        check_shape(self.numbers(), rounds)?;
        let counts = self.counts();
        counts
            .rank(&rounds[..counts.rounds])
            .ok_or(Refusal::NotCanonical)
    }
}
