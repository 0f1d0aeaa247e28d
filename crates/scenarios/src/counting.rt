// Counting: the states that rounds can lead to, depth by depth, each with how many scenarios continue from it.
ghost use Rattle.std.specs.Prelude.{◌≡◌, ℕ, ◌+◌, ◌-◌, ◌*◌, ◌<◌, ◌≤◌, List, [], ◌∷◌, length, take, drop, replicate, Ok, Err, slice_index_or};
ghost use Rattle.std.specs.List.{flat_map};
ghost use Rattle.scenarios.specs.Cells.{cells};
ghost use Rattle.scenarios.specs.Fits.{Among};
ghost use Rattle.scenarios.specs.Scenarios.{count};
ghost use Rattle.scenarios.specs.Counting as counts;
ghost use Rattle.scenarios.specs.Slots as slot;

use crate::cell::CellState;
use crate::edge::Edges;
use crate::participants::Participants;
use refusals::Refusal;
use table::{Entry, Key, NotAdded, add, find};

// A residual state after so many rounds.
#[derive(Clone, Copy)]
pub struct Place {
    pub depth: usize,
    pub state: CellState,
}

// Two places are the same if their depths and their boundaries are.
impl Key for Place {
    ghost meaning = { λ p. p.depth ∷ p.state.boundaries ∷ [] };

    // Boundaries first: they tell most places apart, and counting compares places more than it does anything else.
    fn same(&self, other: &Place) -> bool {
        self.state.boundaries == other.state.boundaries && self.depth == other.depth
    }
}

// A place, and how many scenarios continue from it.
pub type Slot = Entry<Place, u64>;

// No rounds, and no scenario: what an empty slot holds.
const ZERO: Slot = Entry {
    key: Place {
        depth: 0,
        state: CellState { boundaries: 0 },
    },
    value: 0,
};

// Notes a place behind those that the first `len` slots hold, unless it is among them.
// The answer is how many slots are in use then, or None where no slot is left for it. The slots are lent, so the number in use
// stands beside them here and below.
fn note_place(slots: &mut [Slot], len: usize, place: Place) -> Option<usize>
    ensures { (ps : List Place) (xs : List counts.Slot) → slot.Holds ps len xs slots.old → slot.Kept (counts.note counts.same_place ps place) xs result slots.new }
{
    match add(slots, len, place, 0) {
        Ok(at) => Some(at + 1),
        Err(NotAdded::There) => Some(len),
        Err(NotAdded::Full) => None,
    }
}

// The count that these slots hold for a place; 0 for one that is not there, which is never asked for.
pub(crate) fn value_of(slots: &[Slot], place: Place) -> u64
    ensures { slot.Valued place (length slots.now) slots.now result }
{
    find(slots, &place).map_or(0, |i| slots[i].value)
}

// Notes the places at a depth after one more round from a place.
fn note_nexts(
    participants: Participants,
    depth: usize,
    place: Place,
    slots: &mut [Slot],
    len: usize,
) -> Option<usize>
    ensures { (ps : List Place) (xs : List counts.Slot) → slot.Holds ps len xs slots.old → slot.Kept (counts.noted counts.same_place ps (slot.afters participants.number depth place)) xs result slots.new }
{
    let mut edges = Edges::of(participants, place.state);
    let mut used = len;
    loop {
        used = note_place(
            slots,
            used,
            Place {
                depth,
                state: edges.edge().next,
            },
        )?;
        if !edges.advance() {
            return Some(used);
        }
    }
}

// Notes the places at a depth after one more round from each place in the slots from `from` to `len`.
fn note_layer(
    participants: Participants,
    depth: usize,
    slots: &mut [Slot],
    from: usize,
    len: usize,
) -> Option<usize>
    requires { (from ≤ len) × (len ≤ length slots.old) }
    ensures { (ps : List Place) (xs : List counts.Slot) → slot.Holds ps len xs slots.old → slot.Kept (counts.noted counts.same_place ps (flat_map (slot.afters participants.number depth) (drop from ps))) xs result slots.new }
{
    let mut used = len;
    // By index, since the slots behind fill up meanwhile.
    for i in from..len {
        used = note_nexts(participants, depth, slots[i].key, slots, used)?;
    }
    Some(used)
}

// Notes all places that rounds can lead to, depth by depth. Participants and rounds go together through this and the next functions,
// but no fact holds of the two, so a type would only be taken apart in each.
fn discover(participants: Participants, rounds: usize, slots: &mut [Slot]) -> Option<usize>
    ensures { slot.Kept (counts.places participants.number rounds) slots.old result slots.new }
{
    let mut from = 0;
    let mut len = note_place(slots, 0, ZERO.key)?;
    for depth in 1..=rounds {
        let end = len;
        len = note_layer(participants, depth, slots, from, end)?;
        from = end;
    }
    Some(len)
}

// A total with one product more, or None where that does not fit: a weight that does not fit makes a product that does not, unless the value is 0.
fn add_product(total: u64, weight: u128, value: u64) -> Option<u64>
    ensures { 0 < value → slot.FitsAs (total + weight * value) result }
{
    let weight = u64::try_from(weight).ok()?;
    total.checked_add(weight.checked_mul(value)?)
}

// How many scenarios continue from a place, by the counts of the places after it, or None where that does not fit.
fn sum_nexts(
    participants: Participants,
    rounds: usize,
    slots: &[Slot],
    len: usize,
    place: Place,
) -> Option<u64>
    ensures { (xs : List counts.Slot) (i : ℕ) → slot.Settled participants.number rounds (counts.places participants.number rounds) len (i + 1) xs slots.now → i < len → place ≡ (slice_index_or slots.now i counts.zero_slot).key → slot.FitsAs (counts.entry participants.number rounds place).value result }
{
    if place.depth >= rounds {
        return Some(1);
    }
    let used = &slots[..len.min(slots.len())];
    let mut edges = Edges::of(participants, place.state);
    let mut total = 0;
    loop {
        let edge = edges.edge();
        let value = value_of(
            used,
            Place {
                depth: place.depth + 1,
                state: edge.next,
            },
        );
        total = add_product(total, edge.multiplicity, value)?;
        if !edges.advance() {
            return Some(total);
        }
    }
}

// Gives each place its count, from the last to the first; none where a count does not fit.
fn settle(participants: Participants, rounds: usize, slots: &mut [Slot], len: usize) -> Option<()>
    requires { len ≤ length slots.old }
    ensures { (xs : List counts.Slot) → slot.Holds (counts.places participants.number rounds) len xs slots.old → slot.SettledOr participants.number rounds len xs result slots.new }
{
    // By index, since each count is made from those behind it in the same slots.
    for i in (0..len).rev() {
        let place = slots[i].key;
        slots[i].value = sum_nexts(participants, rounds, slots, len, place)?;
    }
    Some(())
}

// The count of the first place, the one before all rounds.
fn first_value(slots: &[Slot]) -> u64
    requires { 0 < length slots.now }
    ensures { result ≡ (slice_index_or slots.now 0 counts.zero_slot).value }
{
    slots[0].value
}

// Finds the places and gives each its count, as far as the slots suffice and the counts fit, and answers the total.
fn count_through(
    participants: Participants,
    rounds: usize,
    slots: &mut [Slot],
) -> Result<u64, Refusal>
    ensures { elim result [ Ok v ↦ counts.CountedAs participants.number rounds slots.old v slots.new | Err e ↦ counts.Cause participants.number rounds slots.old e ] }
{
    let len = discover(participants, rounds, slots).ok_or(Refusal::CountMemory)?;
    settle(participants, rounds, slots, len).ok_or(Refusal::TotalTooLarge)?;
    Ok(first_value(slots))
}

// Counts the scenarios of so many rounds, and leaves in the slots the count of each place that rounds can lead to.
// Where that is refused, all slots are zero.
pub(crate) fn count_in(
    participants: Participants,
    rounds: usize,
    slots: &mut [Slot],
) -> Result<u64, Refusal>
    ensures { elim result [ Ok v ↦ counts.CountedAs participants.number rounds slots.old v slots.new | Err e ↦ counts.RefusedAs participants.number rounds slots.old e slots.new ] }
{
    let counted = count_through(participants, rounds, slots);
    if counted.is_err() {
        slots.fill(ZERO);
    }
    counted
}
