// What is drawn up, as a theorem on plans and words.
ghost use Rattle.std.specs.Prelude.{◌≡◌};
ghost use Rattle.campaigns.specs.Deals.{EachDrawnOnce};

// Cases are drawn up each once, and where the cap cuts nothing, every legal case is a renaming of exactly one.
// A theorem has nothing to answer, so the function answers 0.
pub fn deals_stand() -> u8
    ensures each_drawn_once { EachDrawnOnce }
    ensures answer { result ≡ 0 }
{
    0
}
