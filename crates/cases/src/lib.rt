// Cases: no two of a plan's canonical cases are renamings of each other, and every legal case is a renaming of one. No code.

#![tactic(auto)]

ghost use Rattle.std.specs.Prelude.{◌≡◌};
ghost use Rattle.cases.specs.Claims.{EachCaseOnce};

// Each legal case of a plan is a renaming of the case of exactly one rank and set number.
// A theorem has nothing to answer, so the function answers 0.
pub fn cases_stand() -> u8
    ensures each_case_once { EachCaseOnce }
    ensures answer { result ≡ 0 }
{
    0
}
