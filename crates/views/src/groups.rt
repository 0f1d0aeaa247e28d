// The groups of names that the two halves hear, by a script.
ghost use Rattle.views.specs.Groups as groups;

use crate::name::Name;
use crate::parts::put_parts;
use crate::picked::put_picked;
use crate::script::{round_at, script_term};
use refusals::Refusal;
use scenarios::RoundScenario;

// A script: one round for each leader term, from the first on.
#[derive(Clone, Copy)]
pub struct Scenario<'r> {
    pub rounds: &'r [RoundScenario],
}

impl Scenario<'_> {
    // Writes the names that each half hears at a view, the primary half's first, and answers how many each hears.
    pub fn partitions<N: Name>(
        &self,
        view: u64,
        term: u32,
        names: &[N],
        primary: &mut [N],
        secondary: &mut [N],
    ) -> Result<(usize, usize), Refusal>
        ensures { groups.GroupsTold self.now.rounds.now term view names.now primary.old secondary.old result primary.new secondary.new }
    {
        let term = script_term(self.rounds, term, names)?;
        match round_at(self.rounds, &term, view) {
            None => put_parts(names, names, primary, secondary),
            Some(round) => put_picked(round, names, primary, secondary),
        }
    }
}
