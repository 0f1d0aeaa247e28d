// Worked numbers, proved of the definitions that the contracts of the other crates cite.

#![tactic(auto)]

ghost use Rattle.std.specs.Prelude.{◌≡◌};
ghost use Rattle.scenarios.specs.Worked.{WorkedTotals, WorkedRanks};
ghost use Rattle.worked.specs.Worked.{WorkedDraws, WorkedSets, WorkedTerms, WorkedGroups};

// Totals, ranks, draws, compromised sets, terms, groups and a route at given values.
// A theorem has nothing to answer, so the function answers 0.
pub fn worked_stand() -> u8
    ensures worked_totals { WorkedTotals }
    ensures worked_ranks { WorkedRanks }
    ensures worked_draws { WorkedDraws }
    ensures worked_sets { WorkedSets }
    ensures worked_terms { WorkedTerms }
    ensures worked_groups { WorkedGroups }
    ensures answer { result ≡ 0 }
{
    0
}
