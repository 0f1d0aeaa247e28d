// How the rounds of a scenario are chosen.

#[derive(Clone, Copy, PartialEq, Eq, Debug)]
pub enum Mode {
    // each round for itself
    Sampled,
    // one round, repeated
    Sustained,
}
