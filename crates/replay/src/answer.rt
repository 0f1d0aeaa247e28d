// Asking the questions again. Each answers whether the stored answer agrees.
ghost use Rattle.std.specs.Prelude.{◌≡◌};
ghost use Rattle.scenarios.specs.Edges.{edge_in};
ghost use Rattle.replay.specs.Told.{edge_told, edges_told};

use asking::{Round, Unasked, are_next, read, read_while};
use scenarios::{CellState, CountedPlan, Mode, Plan, RoundScenario, Slot, edge_at};
use std::alloc::Global;
use std::str::SplitWhitespace;

// A plan by its participants, rounds and mode. Faults and cap have no part in what is asked, so any that are allowed do.
// A mode is a letter here as in a plan line, whose reader the stored answers do not use.
fn read_plan(words: &mut SplitWhitespace<'_>) -> Result<Plan, Unasked> {
    let participants = read::<usize>(words)?;
    let rounds = read::<usize>(words)?;
    let mode = match read::<char>(words)? {
        's' => Mode::Sampled,
        'u' => Mode::Sustained,
        _ => return Err(Unasked::Form),
    };
    Ok(Plan::new(participants, 1, rounds, mode, 1)?)
}

// A closure for `map_err` would be handed lent memory, which is not checked yet, so this is a match.
fn count(plan: Plan, memory: &mut [Slot]) -> Result<CountedPlan<'_>, Unasked> {
    match plan.count(memory) {
        Ok(counted) => Ok(counted),
        Err(refused) => Err(Unasked::Refused(refused.refusal)),
    }
}

pub(crate) fn total_agrees(
    words: &mut SplitWhitespace<'_>,
    memory: &mut [Slot],
) -> Result<bool, Unasked> {
    let plan = read_plan(words)?;
    let total = read::<u64>(words)?;
    let counted = count(plan, memory)?;
    Ok(counted.total() == total)
}

// Whether the state has an edge at the last of so many places, and none behind it.
fn edges_are(n: usize, boundaries: u64, count: usize) -> bool
    ensures { result ≡ edges_told n boundaries count }
{
    let state = CellState { boundaries };
    count > 0 && edge_at(n, state, count - 1).is_some() && edge_at(n, state, count).is_none()
}

pub(crate) fn edges_agree(words: &mut SplitWhitespace<'_>) -> Result<bool, Unasked> {
    let n = read(words)?;
    let state = read(words)?;
    let count = read(words)?;
    Ok(edges_are(n, state, count))
}

// Whether the edge at this place leads to this state, is led by this cell, and stands for so many rounds.
fn edge_is(n: usize, boundaries: u64, place: usize, next: u64, leader: usize, rounds: u64) -> bool
    ensures { result ≡ edge_told (edge_in n boundaries place) next leader rounds }
{
    edge_at(n, CellState { boundaries }, place).is_some_and(|edge| {
        edge.next.boundaries == next
            && edge.leader == leader
            && edge.multiplicity == u128::from(rounds)
    })
}

pub(crate) fn edge_agrees(words: &mut SplitWhitespace<'_>) -> Result<bool, Unasked> {
    let n = read(words)?;
    let state = read(words)?;
    let place = read(words)?;
    let next = read(words)?;
    let leader = read(words)?;
    let rounds = read(words)?;
    Ok(edge_is(n, state, place, next, leader, rounds))
}

// The rounds up to the bar, no more than a plan has. The other program reads names so; in `asking` a promise for these lines would be
// longer than they are.
fn read_rounds(
    words: &mut SplitWhitespace<'_>,
    heap: Global,
    most: usize,
) -> Result<Vec<RoundScenario>, Unasked> {
    let (rounds, Some("|")) = read_while::<Round>(words, heap, most)? else {
        return Err(Unasked::Form);
    };
    Ok(rounds.iter().map(|read| read.round).collect(heap)?)
}

// A scenario has to be canonical, to be found by its rank, and to have the rank that finds it; both ways the same cells are
// left.
pub(crate) fn unrank_agrees(
    words: &mut SplitWhitespace<'_>,
    heap: Global,
    memory: &mut [Slot],
) -> Result<bool, Unasked> {
    let plan = read_plan(words)?;
    let rank = read::<u64>(words)?;
    let stored = read_rounds(words, heap, plan.rounds())?;
    let left = plan.canonical(&stored)?;
    let cells = left.cell_ranges(plan.participants())?;
    let counted = count(plan, memory)?;
    let nothing = RoundScenario {
        leader: 0,
        primary: 0,
        secondary: 0,
    };
    let mut found = vec![in heap; nothing; stored.len()]?;
    let state = counted.scenario(rank, &mut found)?;
    let back = counted.rank(&stored)?;
    let sizes: Vec<usize> = cells
        .as_slice()
        .iter()
        .map(|(_, size)| *size)
        .collect(heap)?;
    Ok(
        are_next(words, &sizes)?
            && found.as_slice() == stored.as_slice()
            && state == left
            && back == rank,
    )
}
