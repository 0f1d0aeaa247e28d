// Opening a campaign: ranks are chosen, each of their sets gets a ticket, and the tickets are shuffled and cut.
ghost use Rattle.std.specs.Prelude.{◌≡◌, Ok, Err};
ghost use Rattle.refusals.specs.Refusals.{number_of};
ghost use Rattle.campaigns.specs.Openings as openings;
ghost use Rattle.campaigns.specs.Listings as listings;

use crate::listing::list_ranks;
use crate::ticket::Ticket;
use refusals::Refusal;
use sampling::{RankSlot, sample_unique_indices, shuffle_items};
use scenarios::CountedPlan;
use table::Entry;
use words::Source;

// What is held for reading, and how many cases are drawn up: the first tickets, so many. The memory is held whole, since what stands
// behind the cases is promised too.
#[derive(Drop)]
pub struct Opened<'a> {
    pub(crate) counted: CountedPlan<'a>,
    pub(crate) tickets: &'a [Ticket],
    pub(crate) cases: usize,
}

// Why a campaign was not opened, with the counted plan and the ticket memory.
#[derive(Drop)]
pub struct OpenRefused<'a> {
    pub refusal: Refusal,
    pub counted: CountedPlan<'a>,
    pub tickets: &'a mut [Ticket],
}

// Chooses ranks, all of them or as many as the cap, and lists a ticket for each of their sets; answers how many.
fn list_chosen<S: Source>(
    counted: &CountedPlan<'_>,
    source: &mut S,
    ranks: &mut [RankSlot],
    tickets: &mut [Ticket],
) -> Result<usize, Refusal>
    requires { listings.RankRoom counted.now.plan ranks.old }
    ensures { listings.ChoiceTold counted.now.plan (S.coming source.old) ranks.old tickets.old result (S.coming source.new) ranks.new tickets.new }
{
    let total = counted.total();
    let cap = counted.numbers().cap;
    if total <= cap {
        return list_ranks(counted, 0..total, tickets).ok_or(Refusal::TicketMemory);
    }
    let many = sample_unique_indices(source, total, cap, ranks)?;
    let chosen = ranks[..many as usize].iter().map(|slot| slot.key);
    list_ranks(counted, chosen, tickets).ok_or(Refusal::TicketMemory)
}

// Lists the tickets, shuffles them, and answers how many are cases, no more than the cap: as far as words and ticket memory suffice.
fn open_through<S: Source>(
    counted: &CountedPlan<'_>,
    source: &mut S,
    ranks: &mut [RankSlot],
    tickets: &mut [Ticket],
) -> Result<usize, Refusal>
    requires { listings.RankRoom counted.now.plan ranks.old }
    ensures { elim result [
      | Ok cases ↦ openings.OpenedAs counted.now.plan (S.coming source.old) ranks.old tickets.old cases (S.coming source.new) ranks.new tickets.new
      | Err e ↦ listings.Cause counted.now.plan (S.coming source.old) tickets.old (number_of e) (S.coming source.new)
    ] }
{
    let len = list_chosen(counted, source, ranks, tickets)?;
    shuffle_items(&mut tickets[..len], source)?;
    Ok(counted.numbers().cap.min(len as u64) as usize)
}

// The same; where that is refused, rank and ticket memory are all zero, unless rank memory is too short: then all stays as it was.
fn open_in<S: Source>(
    counted: &CountedPlan<'_>,
    source: &mut S,
    ranks: &mut [RankSlot],
    tickets: &mut [Ticket],
) -> Result<usize, Refusal>
    ensures { elim result [
      | Ok cases ↦ openings.OpenedAs counted.now.plan (S.coming source.old) ranks.old tickets.old cases (S.coming source.new) ranks.new tickets.new
      | Err e ↦ openings.OpeningRefused counted.now.plan (S.coming source.old) ranks.old tickets.old (number_of e) (S.coming source.new) ranks.new tickets.new
    ] }
{
    let cap = counted.numbers().cap;
    if counted.total() > cap && (ranks.len() as u64) < cap {
        return Err(Refusal::RankMemory);
    }
    let opened = open_through(counted, source, ranks, tickets);
    if opened.is_err() {
        ranks.fill(Entry { key: 0, value: () });
        tickets.fill(Ticket { rank: 0, set: 0 });
    }
    opened
}

// Draws up the cases of a counted plan.
pub fn open_campaign<'a, S: Source>(
    counted: CountedPlan<'a>,
    source: &mut S,
    ranks: &mut [RankSlot],
    tickets: &'a mut [Ticket],
) -> Result<Opened<'a>, OpenRefused<'a>>
    ensures plan { elim result [ Ok v ↦ v.counted ≡ counted.entry | Err e ↦ e.counted ≡ counted.entry ] }
    ensures told { elim result [
      | Ok v ↦ openings.OpenedAs counted.entry.plan (S.coming source.old) ranks.old tickets.old v.cases (S.coming source.new) ranks.new v.tickets.now
      | Err e ↦ openings.OpeningRefused counted.entry.plan (S.coming source.old) ranks.old tickets.old (number_of e.refusal) (S.coming source.new) ranks.new e.tickets.now
    ] }
{
    match open_in(&counted, source, ranks, tickets) {
        Ok(cases) => Ok(Opened {
            counted,
            tickets,
            cases,
        }),
        Err(refusal) => Err(OpenRefused {
            refusal,
            counted,
            tickets,
        }),
    }
}
