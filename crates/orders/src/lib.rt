// Orders, permutations, and the one sorted rearrangement of a list. No code: definitions and theorems for the crates above.

#![tactic(auto)]

ghost use Rattle.std.specs.Prelude.{◌≡◌};
ghost use Rattle.orders.specs.Orders.{Lex};
ghost use Rattle.orders.specs.Claims.{Sorts, LexOrders};

// The lexicographic order is total, and every list has exactly one rearrangement that is sorted by it.
// A theorem has nothing to answer, so the function answers 0.
pub fn sorting_stands() -> u8
    ensures lex_orders { LexOrders }
    ensures sorts { Sorts Lex }
    ensures answer { result ≡ 0 }
{
    0
}
