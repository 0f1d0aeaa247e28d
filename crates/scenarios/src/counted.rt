// A plan that has been counted, with the memory that holds its counts.
ghost use Rattle.std.specs.Prelude.{◌≡◌};
ghost use Rattle.scenarios.specs.Plans.{depth_of};
ghost use Rattle.scenarios.specs.PlanCounts.{Counted};

use crate::counting::Slot;
use crate::plan::{Plan, PlanNumbers};
use crate::suffixes::SuffixCounts;
use refusals::Refusal;
use std::marker::Model;

// A counted plan: the memory holds the plan's counts, and is held for reading till the plan is let go.
#[derive(Drop)]
pub struct CountedPlan<'a> {
    pub(crate) plan: Plan,
    pub(crate) total: u64,
    pub(crate) memory: &'a [Slot],
}

impl<'a> Model for CountedPlan<'a> {
    ghost use Rattle.scenarios.specs.PlanCounts.{CountedNumbers, Counted};

    ghost Value = { CountedNumbers };

    ghost view = { λ c. record { plan = c.plan; total = c.total; memory = c.memory.now } };

    ghost invariant = { λ c. Counted c.plan c.total c.memory.now };
}

// A plan whose counting was refused, with its memory, all of it zero.
#[derive(Drop)]
pub struct CountRefused<'a> {
    pub refusal: Refusal,
    pub plan: Plan,
    pub memory: &'a mut [Slot],
}

impl CountedPlan<'_> {
    // The numbers of the plan that was counted.
    pub fn numbers(&self) -> PlanNumbers
        ensures value { result ≡ self.now.plan }
        ensures counted { Counted self.now.plan self.now.total self.now.memory }
    {
        self.plan.numbers()
    }

    // How many scenarios the plan has; in sustained mode, how many single rounds.
    pub fn total(&self) -> u64
        ensures value { result ≡ self.now.total }
        ensures counted { Counted self.now.plan self.now.total self.now.memory }
    {
        self.total
    }

    // The counts of the rounds that are ranked.
    pub(crate) fn counts(&self) -> SuffixCounts<'_>
        ensures { (result.participants.number ≡ self.now.plan.participants) × (result.rounds ≡ depth_of self.now.plan.mode self.now.plan.rounds) }
    {
        SuffixCounts {
            participants: self.plan.size(),
            rounds: self.plan.depth(),
            slots: self.memory,
        }
    }
}
