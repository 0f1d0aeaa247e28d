// Where a message goes, by a script.
ghost use Rattle.std.specs.Prelude.{◌≡◌, map, Some};
ghost use Rattle.views.specs.Memories as memories;
ghost use Rattle.views.specs.Routes as routes;

use crate::find::place_of;
use crate::groups::Scenario;
use crate::name::Name;
use crate::script::{round_at, script_term};
use crate::target::SplitTarget;
use refusals::Refusal;
use scenarios::{RoundScenario, mask_contains};

// Which halves hear a sender in a round, by the sender's place in the list.
fn route_in<N: Name>(round: RoundScenario, sender: &N, names: &[N]) -> Result<SplitTarget, Refusal>
    ensures { memories.UnlessFault (routes.sender_fault (routes.holds (N.meaning sender.now) (map N.meaning names.now))) (λ t. t ≡ routes.scripted_target (Some round) (routes.place_of (N.meaning sender.now) (map N.meaning names.now))) result }
{
    let place = place_of(sender, names).ok_or(Refusal::UnknownSender)?;
    let primary = mask_contains(round.primary, place);
    let secondary = mask_contains(round.secondary, place);
    Ok(SplitTarget::of(primary, secondary))
}

impl Scenario<'_> {
    // Which halves hear a sender at a view: in a scripted round by the sender's place in the list, past the script both.
    pub fn route<N: Name>(
        &self,
        view: u64,
        term: u32,
        sender: &N,
        names: &[N],
    ) -> Result<SplitTarget, Refusal>
        ensures told { routes.RouteTold self.now.rounds.now term view (N.meaning sender.now) (map N.meaning names.now) result }
        ensures agrees { routes.RouteAgrees N.meaning self.now.rounds.now term view (N.meaning sender.now) names.now result }
    {
        let term = script_term(self.rounds, term, names)?;
        match round_at(self.rounds, &term, view) {
            None => Ok(SplitTarget::Both),
            Some(round) => route_in(round, sender, names),
        }
    }
}
