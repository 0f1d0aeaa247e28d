// Counting a plan in memory handed in.
ghost use Rattle.std.specs.Prelude.{◌≡◌, Ok, Err};
ghost use Rattle.scenarios.specs.PlanCounts.{PlanCounted, PlanRefused};

use crate::counted::{CountRefused, CountedPlan};
use crate::counting::{Slot, count_in};
use crate::plan::Plan;

impl Plan {
    // Counts the scenarios of the plan. The memory then holds an entry for each state that rounds can lead to, and is kept
    // with the plan; refused, plan and memory come back, the memory all zero.
    pub fn count<'a>(self, memory: &'a mut [Slot]) -> Result<CountedPlan<'a>, CountRefused<'a>>
        ensures { elim result [
          | Ok v ↦ (v.plan ≡ self) × PlanCounted self memory.old v.total v.memory
          | Err e ↦ (e.plan ≡ self) × PlanRefused self memory.old e.refusal e.memory.now
        ] }
    {
        match count_in(self.size(), self.depth(), memory) {
            Ok(total) => Ok(CountedPlan {
                plan: self,
                total,
                memory,
            }),
            Err(refusal) => Err(CountRefused {
                refusal,
                plan: self,
                memory,
            }),
        }
    }
}
