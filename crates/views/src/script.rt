// A script of rounds: what it is refused for, and the round at a view.
ghost use Rattle.std.specs.Prelude.{◌≡◌};
ghost use Rattle.views.specs.Groups as groups;
ghost use Rattle.views.specs.Memories as memories;

use refusals::Refusal;
use scenarios::RoundScenario;
use terms::TermLength;

// The term length, unless the script, the term length or the list of names is refused.
pub(crate) fn script_term<N>(
    rounds: &[RoundScenario],
    term: u32,
    names: &[N],
) -> Result<TermLength, Refusal>
    ensures { memories.UnlessFault (groups.script_fault rounds.now term names.now) (λ t. t.length ≡ term) result }
{
    if rounds.len() > 64 {
        return Err(Refusal::ManyRounds);
    }
    let term = TermLength::new(term)?;
    if names.len() > 64 {
        return Err(Refusal::ManyNames);
    }
    Ok(term)
}

// The round that a script plays at a view, or none past the script.
pub(crate) fn round_at(
    rounds: &[RoundScenario],
    term: &TermLength,
    view: u64,
) -> Option<RoundScenario>
    ensures { result ≡ groups.round_at rounds.now term.now.length view }
{
    rounds.get(term.script_place(view) as usize).copied()
}
