// Compromised sets: how many take a first few members of each residual cell, and the set of a number.
// Calls take participants, faults and a state one by one and refuse what breaks a rule; a type for them would ask more of callers.

#![tactic(auto)]

ghost use Rattle.std.specs.Prelude.{◌≡◌, ℕ, ◌+◌, ◌-◌, ◌^◌, ◌<◌, ◌≤◌, min, ◌++◌, length, take, drop, Some, None, Ok, Err, slice_index};
ghost use Rattle.std.specs.List.{range_with_len, AllByRecursion};
ghost use Rattle.refusals.specs.Refusals.{number_of};
ghost use Rattle.scenarios.specs.Cells.{cells, ranges_from, total};
ghost use Rattle.sets.specs.Sets.{amounts};
ghost use Rattle.sets.specs.Ways as ways;
ghost use Rattle.sets.specs.Answers.{faults_fault, SetsCounted, SetWritten};

use arrayvec::ArrayVec;
use refusals::Refusal;
use scenarios::CellState;
use std::array;

// How many sets of so many faulty participants take a first few of each cell.
pub fn count_sets(participants: usize, faults: usize, state: CellState) -> Result<u64, Refusal>
    ensures { SetsCounted participants faults state.boundaries result }
{
    let cells = campaign_cells(participants, faults, state)?;
    Ok(count_ways(cells.as_slice())[faults])
}

// Writes the members of the set of a number, in front; what is refused leaves the memory as it was.
pub fn write_set(
    participants: usize,
    faults: usize,
    state: CellState,
    number: u64,
    members: &mut [usize],
) -> Result<(), Refusal>
    ensures { SetWritten participants faults state.boundaries number members.old result members.new }
{
    let cells = campaign_cells(participants, faults, state)?;
    let cells = cells.as_slice();
    if members.len() < faults {
        return Err(Refusal::ShortMemory);
    }
    if number >= count_ways(cells)[faults] {
        return Err(Refusal::OutOfRange);
    }
    allocate_faults(cells, faults, number, members);
    Ok(())
}

// The cells as (start, len) ranges, unless participants and faults break a rule.
fn campaign_cells(
    participants: usize,
    faults: usize,
    state: CellState,
) -> Result<ArrayVec<(usize, usize), 64>, Refusal>
    ensures { elim result [ Ok c ↦ (faults_fault participants faults ≡ None) × (c.items ≡ ranges_from 0 (cells participants state.boundaries)) × (length c.items ≤ participants) | Err e ↦ faults_fault participants faults ≡ Some (number_of e) ] }
{
    // A plan tests faults by the same two rules between its others. No plan is at hand here, and two rules need no function of their own.
    let told = state.cell_ranges(participants)?;
    if faults == 0 {
        return Err(Refusal::NoFaults);
    }
    if faults >= participants {
        return Err(Refusal::ManyFaults);
    }
    Ok(told)
}

// How many sets the cells have, for each number of faults below 64.
fn count_ways(cells: &[(usize, usize)]) -> [u64; 64]
    requires filled { AllByRecursion (λ c. 0 < c) (ways.sizes cells.now) }
    requires small { total (ways.sizes cells.now) ≤ 64 }
    ensures { ways.Ways result (ways.sizes cells.now) }
{
    let [(_, len), rest @ ..] = cells else {
        return array::from_fn(|faults| u64::from(faults == 0));
    };
    with_cell(&count_ways(rest), *len)
}

// How many sets there are with a cell of `len` before those that have `rest`, for each number of faults below 64.
fn with_cell(rest: &[u64; 64], len: usize) -> [u64; 64]
    requires { (k : ℕ) → k < 64 → ways.with_one_more rest.now len k < 2 ^ 64 }
    ensures { (k : ℕ) → k < 64 → slice_index result k ≡ ways.with_one_more rest.now len k }
{
    array::from_fn(|faults| ways_of(rest, len, faults))
}

// How many sets of so many faults there are with a cell of `len` before those that have `rest`. That faults are below 64 is all that is
// asked of them here and below, since participants are at most 64.
fn ways_of(rest: &[u64; 64], len: usize, faults: usize) -> u64
    requires few { faults < 64 }
    requires fits { ways.with_one_more rest.now len faults < 2 ^ 64 }
    ensures { result ≡ ways.with_one_more rest.now len faults }
{
    rest[faults - len.min(faults)..=faults].iter().sum()
}

// Writes the members of the set of a number, of those that the cells have.
fn allocate_faults(cells: &[(usize, usize)], faults: usize, number: u64, members: &mut [usize])
    requires row { ways.InRow cells.now }
    requires few { faults < 64 }
    requires room { faults ≤ length members.old }
    requires numbered { number < length (amounts (ways.sizes cells.now) faults) }
    ensures { members.new ≡ ways.allocated cells.now faults number ++ drop faults members.old }
{
    let [(start, len), rest @ ..] = cells else {
        return;
    };
    let (taken, left) = find_taken(&count_ways(rest), *len, faults, number);
    write_members(members, *start, taken);
    allocate_faults(rest, faults - taken, left, &mut members[taken..]);
}

// How many the set of a number takes from a cell of `len` before those that have `rest`, and its number there.
fn find_taken(rest: &[u64; 64], len: usize, faults: usize, number: u64) -> (usize, u64)
    requires few { faults < 64 }
    requires numbered { number < ways.with_one_more rest.now len faults }
    ensures within { result.0 ≤ min len faults }
    ensures below { result.1 < slice_index rest.now (faults - result.0) }
    ensures split { number ≡ ways.ways_below rest.now faults result.0 + result.1 }
{
    let least = faults - len.min(faults);
    let mut left = number;
    for (taken, owned) in rest[least..=faults].iter().rev().enumerate() {
        if left < *owned {
            return (taken, left);
        }
        left -= *owned;
    }
    // a number below all ways falls to one of the amounts
    unreachable!()
}

// Writes so many participants from `start` on, in front.
fn write_members(members: &mut [usize], start: usize, taken: usize)
    requires room { taken ≤ length members.old }
    requires small { start + taken ≤ 64 }
    ensures { members.new ≡ range_with_len start taken ++ drop taken members.old }
{
    for (i, member) in members[..taken].iter_mut().enumerate() {
        *member = start + i;
    }
}
