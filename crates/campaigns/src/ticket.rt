// A ticket: the rank of a scenario, and the number of one of its compromised sets.
#[derive(Clone, Copy)]
pub struct Ticket {
    pub rank: u64,
    pub set: u64,
}
