// Rounds that are all alike.
ghost use Rattle.std.specs.Prelude.{◌≡◌, ◌<◌, ◌≤◌, ◌++◌, length, drop, replicate, Decides, slice_index_or};
ghost use Rattle.scenarios.specs.Plans.{AllAlike};

use crate::round::RoundScenario;

// Writes the first round into each of the first `count` places.
pub(crate) fn repeat_first(rounds: &mut [RoundScenario], count: usize)
    requires { (0 < count) × (count ≤ length rounds.old) }
    ensures { rounds.new ≡ replicate count (slice_index_or rounds.old 0 (record { leader = 0; primary = 0; secondary = 0 })) ++ drop count rounds.old }
{
    let first = rounds[0];
    rounds[..count].fill(first);
}

// Whether each round is the same as the first.
pub(crate) fn all_alike(rounds: &[RoundScenario]) -> bool
    ensures { Decides result (AllAlike rounds.now) }
{
    let Some((first, rest)) = rounds.split_first() else {
        return true;
    };
    rest.iter().all(|round| round == first)
}
