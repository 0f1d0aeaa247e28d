// Why a call is refused: one cause for each rule that a caller can break.

#![tactic(auto)]

ghost use Rattle.std.specs.Prelude.{◌≡◌};
ghost use Rattle.refusals.specs.Refusals as refusals;

#[derive(Clone, Copy, PartialEq, Eq, Debug)]
pub enum Refusal {
    // participants below 2
    FewParticipants,
    // participants above 64
    ManyParticipants,
    // faults 0
    NoFaults,
    // faults not below the participants
    ManyFaults,
    // rounds of a plan 0
    NoRounds,
    // cap 0
    NoCap,
    // rounds of a plan, scenario or script above 64
    ManyRounds,
    // count memory too short
    CountMemory,
    // total above 2^64 - 1
    TotalTooLarge,
    // sampling, and rank memory below the cap
    RankMemory,
    // word source spent
    WordsSpent,
    // ticket memory too short
    TicketMemory,
    // rig number above 1
    RigNumber,
    // nothing left to draw
    NothingLeft,
    // round memory below the rounds, or set memory below the faults
    ShortMemory,
    // rank, set number or position not below its total
    OutOfRange,
    // rounds not canonical, or not as many as the plan has
    NotCanonical,
    // term length 0
    NoTerm,
    // more than 64 names
    ManyNames,
    // no names, in a view split
    NoNames,
    // a sender that is none of the names
    UnknownSender,
    // group memory shorter than its group
    GroupMemory,
    // script leader not below the elector's count
    LeaderOutOfRange,
    // plan line breaks its form, at this place
    PlanLine(usize),
}

impl Refusal {
    // The number of the cause, from 1 in the order of the list above. Users meet refusals by their numbers, so each is written out.
    pub fn number(&self) -> u8
        ensures { result ≡ refusals.number_of self.now }
    {
        match self {
            Refusal::FewParticipants => 1,
            Refusal::ManyParticipants => 2,
            Refusal::NoFaults => 3,
            Refusal::ManyFaults => 4,
            Refusal::NoRounds => 5,
            Refusal::NoCap => 6,
            Refusal::ManyRounds => 7,
            Refusal::CountMemory => 8,
            Refusal::TotalTooLarge => 9,
            Refusal::RankMemory => 10,
            Refusal::WordsSpent => 11,
            Refusal::TicketMemory => 12,
            Refusal::RigNumber => 13,
            Refusal::NothingLeft => 14,
            Refusal::ShortMemory => 15,
            Refusal::OutOfRange => 16,
            Refusal::NotCanonical => 17,
            Refusal::NoTerm => 18,
            Refusal::ManyNames => 19,
            Refusal::NoNames => 20,
            Refusal::UnknownSender => 21,
            Refusal::GroupMemory => 22,
            Refusal::LeaderOutOfRange => 23,
            Refusal::PlanLine(_) => 24,
        }
    }

    // Where a text is at fault, if a text is what was refused.
    pub fn place(&self) -> Option<usize>
        ensures { result ≡ refusals.place_of self.now }
    {
        match self {
            Refusal::PlanLine(place) => Some(*place),
            _ => None,
        }
    }
}
