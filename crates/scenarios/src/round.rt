// One round of a scenario.

// Who leads a round, and which participants each half of a doubled participant hears in it.
// Bit i of a mask stands for participant i. The masks may overlap.
#[derive(Clone, Copy, PartialEq, Eq, Debug)]
pub struct RoundScenario {
    pub leader: usize,
    pub primary: u64,
    pub secondary: u64,
}
