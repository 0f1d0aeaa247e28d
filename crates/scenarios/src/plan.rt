// A plan: how many participants, faults and rounds, in which mode, and how many cases at most.
ghost use Rattle.std.specs.Prelude.{◌≡◌, Some, None, Ok, Err};
ghost use Rattle.refusals.specs.Refusals.{number_of};
ghost use Rattle.scenarios.specs.Plans.{plan_fault, depth_of};

use crate::mode::Mode;
use crate::participants::Participants;
use refusals::Refusal;
use std::marker::Model;

// The numbers of a plan, to be read and passed on.
#[derive(Clone, Copy)]
pub struct PlanNumbers {
    pub participants: usize,
    pub faults: usize,
    pub rounds: usize,
    pub mode: Mode,
    pub cap: u64,
}

impl PlanNumbers {
    // These numbers, unless they break a rule; the first rule broken is the refusal.
    fn checked(self) -> Result<PlanNumbers, Refusal>
        ensures { elim result [
          | Ok p ↦ (p ≡ self) × (plan_fault self.participants self.faults self.rounds self.cap ≡ None)
          | Err e ↦ plan_fault self.participants self.faults self.rounds self.cap ≡ Some (number_of e)
        ] }
    {
        if self.participants < 2 {
            Err(Refusal::FewParticipants)
        } else if self.participants > 64 {
            Err(Refusal::ManyParticipants)
        } else if self.faults == 0 {
            Err(Refusal::NoFaults)
        } else if self.faults >= self.participants {
            Err(Refusal::ManyFaults)
        } else if self.rounds == 0 {
            Err(Refusal::NoRounds)
        } else if self.cap == 0 {
            Err(Refusal::NoCap)
        } else if self.rounds > 64 {
            Err(Refusal::ManyRounds)
        } else {
            Ok(self)
        }
    }
}

// A plan that has been checked: numbers that break no rule. It moves on when it is counted, so it is neither `Copy` nor
// `Clone`.
#[derive(Drop)]
pub struct Plan {
    numbers: PlanNumbers,
}

impl Model for Plan {
    ghost use Rattle.std.specs.Prelude.{◌≡◌, None};
    ghost use Rattle.scenarios.specs.Plans.{plan_fault};
    ghost use Rattle.scenarios.specs.declared.plan.PlanNumbers.{PlanNumbers};

    ghost Value = { PlanNumbers };

    ghost view = { λ p. p.numbers };

    ghost invariant = { λ p. plan_fault p.numbers.participants p.numbers.faults p.numbers.rounds p.numbers.cap ≡ None };
}

impl Plan {
    // A plan with these numbers, unless they break a rule; the first rule broken is the refusal.
    pub fn new(
        participants: usize,
        faults: usize,
        rounds: usize,
        mode: Mode,
        cap: u64,
    ) -> Result<Plan, Refusal>
        ensures { elim result [
          | Ok p ↦ (plan_fault participants faults rounds cap ≡ None)
              × (p.participants ≡ participants) × (p.faults ≡ faults) × (p.rounds ≡ rounds) × (p.mode ≡ mode) × (p.cap ≡ cap)
          | Err e ↦ plan_fault participants faults rounds cap ≡ Some (number_of e)
        ] }
    {
        let numbers = PlanNumbers {
            participants,
            faults,
            rounds,
            mode,
            cap,
        };
        Ok(Plan {
            numbers: numbers.checked()?,
        })
    }

    // All its numbers.
    pub(crate) fn numbers(&self) -> PlanNumbers
        ensures value { result ≡ self.now }
        ensures ruled { plan_fault result.participants result.faults result.rounds result.cap ≡ None }
    {
        self.numbers
    }

    // How many participants there are, as a number that a mask has bits for.
    pub(crate) fn size(&self) -> Participants
        ensures { result.number ≡ self.now.participants }
    {
        Participants {
            number: self.numbers.participants,
        }
    }

    // How many participants there are.
    pub fn participants(&self) -> usize
        ensures { result ≡ self.now.participants }
    {
        self.numbers.participants
    }

    // How many participants are compromised.
    pub fn faults(&self) -> usize
        ensures { result ≡ self.now.faults }
    {
        self.numbers.faults
    }

    // How many rounds a scenario has.
    pub fn rounds(&self) -> usize
        ensures { result ≡ self.now.rounds }
    {
        self.numbers.rounds
    }

    // How the rounds of a scenario are chosen.
    pub fn mode(&self) -> Mode
        ensures { result ≡ self.now.mode }
    {
        self.numbers.mode
    }

    // How many rounds are counted: in sustained mode one stands for all.
    pub(crate) fn depth(&self) -> usize
        ensures { result ≡ depth_of self.now.mode self.now.rounds }
    {
        match self.numbers.mode {
            Mode::Sampled => self.numbers.rounds,
            Mode::Sustained => 1,
        }
    }

    // How many cases a campaign has at most.
    pub fn cap(&self) -> u64
        ensures { result ≡ self.now.cap }
    {
        self.numbers.cap
    }
}
