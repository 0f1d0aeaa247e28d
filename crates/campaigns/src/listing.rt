// Listing: a ticket for each compromised set of each scenario, written one behind the other into lent memory.
ghost use Rattle.std.specs.Prelude.{◌≡◌, ℕ, ◌<◌, ◌≤◌, List, ◌++◌, length, Some};
ghost use Rattle.std.specs.List.{AllByRecursion};
ghost use Rattle.std.specs.Iterator.{IsFinite, AlwaysYields};
ghost use Rattle.campaigns.specs.Tickets as listed;
ghost use Rattle.campaigns.specs.Listings as listings;

use crate::ticket::Ticket;
use scenarios::{CountedPlan, RoundScenario};
use sets::count_sets;

// Writes a ticket for each set of one rank behind the first `len`, and answers where they end; writes none if not all fit.
// The memory is lent, so its length in use stands beside it.
fn put_tickets(rank: u64, count: u64, tickets: &mut [Ticket], len: usize) -> Option<usize>
    requires { len ≤ length tickets.old }
    ensures within { listings.Within result tickets.new }
    ensures told { (xs front : List Ticket) → listings.Front xs front len tickets.old → listings.Listed xs (front ++ listings.numbered rank count) result tickets.new }
{
    if count > (tickets.len() - len) as u64 {
        return None;
    }
    let end = len + count as usize;
    for (number, ticket) in tickets[len..end].iter_mut().enumerate() {
        *ticket = Ticket {
            rank,
            set: number as u64,
        };
    }
    Some(end)
}

// How many compromised sets the scenario of a rank has; none only if the rank is too great.
fn sets_of(counted: &CountedPlan<'_>, rank: u64) -> Option<u64>
    ensures { rank < counted.now.total → result ≡ Some (listed.set_count counted.now.plan rank) }
{
    let round = RoundScenario {
        leader: 0,
        primary: 0,
        secondary: 0,
    };
    let mut rounds = [round; 64];
    let numbers = counted.numbers();
    let state = counted.scenario(rank, &mut rounds).ok()?;
    count_sets(numbers.participants, numbers.faults, state).ok()
}

// Writes a ticket for each set of the scenario of a rank behind the first `len`, and answers where they end. As above, the memory
// is lent.
fn note_rank(
    counted: &CountedPlan<'_>,
    rank: u64,
    tickets: &mut [Ticket],
    len: usize,
) -> Option<usize>
    requires { len ≤ length tickets.old }
    ensures within { listings.Within result tickets.new }
    ensures told { rank < counted.now.total → (xs front : List Ticket) → listings.Front xs front len tickets.old → listings.Listed xs (front ++ listed.tickets_for counted.now.plan rank) result tickets.new }
{
    let count = sets_of(counted, rank)?;
    put_tickets(rank, count, tickets, len)
}

// Writes the tickets of these ranks, in order, and answers how many; none if not all fit.
pub(crate) fn list_ranks<I: Iterator<Item = u64> + Drop>(
    counted: &CountedPlan<'_>,
    ranks: I,
    tickets: &mut [Ticket],
) -> Option<usize>
    requires can { I.can_next ranks }
    requires ends { IsFinite (I.remaining ranks) }
    ensures within { listings.Within result tickets.new }
    ensures told { (chosen : List ℕ) → AlwaysYields I.next_gives (λ k. k) ranks chosen → AllByRecursion (λ k. k < counted.now.total) chosen → listings.Listed tickets.old (listed.tickets_of counted.now.plan chosen) result tickets.new }
{
    let mut len = 0;
    for rank in ranks {
        len = note_rank(counted, rank, tickets, len)?;
    }
    Some(len)
}
