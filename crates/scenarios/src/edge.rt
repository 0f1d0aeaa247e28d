// The edges of a residual state, walked in their order.
ghost use Rattle.std.specs.Prelude.{◌≡◌, false, ◌+◌, ◌*◌, ◌^◌, ◌<◌, ◌≤◌};
ghost use Rattle.std.specs.List.{AllByRecursion};
ghost use Rattle.scenarios.specs.Fits.{Fills};
ghost use Rattle.scenarios.specs.Cells as cells;
ghost use Rattle.scenarios.specs.Steps.{first_fill, next_fill};
ghost use Rattle.scenarios.specs.Standing.{sizes_in, ranges_in, fill_in, Stands, Stands-prop, Stepped, edge_in};

use crate::cell::CellState;
use crate::mask::set_mask_range;
use crate::participants::Participants;
use crate::refinement::LocalRefinement;
use arrayvec::ArrayVec;

// An edge: the cells that a round leaves, the cell that leads in it, and how many rounds take that way.
#[derive(Clone, Copy)]
pub struct TransitionEdge {
    pub next: CellState,
    pub leader: usize,
    pub multiplicity: u128,
}

// A cell of a state, from its first participant on, and how it is split.
#[derive(Clone, Copy, Default)]
pub(crate) struct SplitCell {
    pub(crate) start: usize,
    pub(crate) size: usize,
    pub(crate) split: LocalRefinement,
}

// A walk over the edges of a state. It stands at an edge until it is moved on, and a caller draws rounds from it there; an iterator
// would have left the edge that it gives.
#[derive(Drop)]
pub(crate) struct Edges {
    pub(crate) participants: Participants,
    pub(crate) cells: ArrayVec<SplitCell, 64>,
    // the place of the cell whose last member leads
    pub(crate) leader: usize,
    ghost stands: { Stands participants.number cells.items leader } by { Stands-prop participants.number cells.items leader },
}

// Moves on to the next splits of the cells: the last cell that has a next split takes it, and those behind it begin again.
// False where no cell has one, and then all begin again; there is no value to answer beside it.
fn next_splits(cells: &mut [SplitCell], leader: usize) -> bool
    requires filled { Fills leader 0 (sizes_in cells.old) (fill_in cells.old) }
    requires small { AllByRecursion (λ c. (0 < c) × (c ≤ 64)) (sizes_in cells.old) }
    ensures stepped { Stepped result (next_fill leader 0 (sizes_in cells.old) (fill_in cells.old)) (fill_in cells.new) }
    ensures again { result ≡ false → fill_in cells.new ≡ first_fill leader 0 (sizes_in cells.old) }
    ensures placed { ranges_in cells.new ≡ ranges_in cells.old }
{
    // Indexed, since a proof does not learn what a walk from the back by `iter_mut` leaves in the slice.
    for i in (0..cells.len()).rev() {
        let cell = &mut cells[i];
        let led = i == leader;
        match cell.split.next(cell.size, led) {
            Some(split) => {
                cell.split = split;
                return true;
            }
            None => cell.split = LocalRefinement::first(cell.size, led),
        }
    }
    false
}

// Sets each cell to its first split.
fn first_splits(cells: &mut [SplitCell], leader: usize)
    requires small { AllByRecursion (λ c. (0 < c) × (c ≤ 64)) (sizes_in cells.old) }
    ensures begun { fill_in cells.new ≡ first_fill leader 0 (sizes_in cells.old) }
    ensures placed { ranges_in cells.new ≡ ranges_in cells.old }
{
    for (i, cell) in cells.iter_mut().enumerate() {
        cell.split = LocalRefinement::first(cell.size, i == leader);
    }
}

// The mask with a bit at the last participant of each of these parts too, which begin at `start`.
pub(crate) fn add_local_boundaries(mask: u64, start: usize, parts: &[usize]) -> u64
    requires below { mask < 2 ^ start }
    requires filled { AllByRecursion (λ p. 0 < p) parts.now }
    requires within { start + cells.total parts.now ≤ 64 }
    ensures { result ≡ mask + 2 ^ start * cells.ends parts.now }
{
    let mut out = mask;
    let mut end = start;
    for part in parts {
        end += *part;
        out = set_mask_range(out, end - 1, 1);
    }
    out
}

impl Edges {
    ghost use Rattle.scenarios.specs.Edges.{Begun, Advanced, turn_at, edge_of};

    // The walk over the edges of a state, at its first edge.
    pub(crate) fn of(participants: Participants, state: CellState) -> Edges
        ensures { Begun participants.number (cells.cells participants.number state.boundaries) result }
    {
        let ranges = state.ranges(participants);
        let mut cells = ArrayVec::new();
        for &(start, size) in ranges.as_slice() {
            // the first cell leads
            let split = LocalRefinement::first(size, cells.is_empty());
            cells.push(SplitCell { start, size, split });
        }
        Edges {
            participants,
            cells,
            leader: 0,
        }
    }

    // Moves on to the next edge; false at the last. There is nothing to answer but that.
    pub(crate) fn advance(&mut self) -> bool
        ensures { Advanced self.old result self.new }
    {
        if next_splits(self.cells.as_mut_slice(), self.leader) {
            return true;
        }
        if self.leader + 1 >= self.cells.len() {
            return false;
        }
        self.leader += 1;
        first_splits(self.cells.as_mut_slice(), self.leader);
        true
    }

    // The edge at which the walk stands.
    pub(crate) fn edge(&self) -> TransitionEdge
        ensures { result ≡ edge_of (turn_at self.now) }
    {
        let mut ends: u64 = 0;
        let mut multiplicity: u128 = 1;
        for (i, cell) in self.cells.as_slice().iter().enumerate() {
            ends = add_local_boundaries(ends, cell.start, cell.split.sizes());
            multiplicity *= cell.split.multiplicity(i == self.leader) as u128;
        }
        // no boundary stands after the last participant of all
        let boundaries = ends & ((1 << (self.participants.number - 1)) - 1);
        TransitionEdge {
            next: CellState { boundaries },
            leader: self.leader,
            multiplicity,
        }
    }
}

// The edge at this place of a state's edges, in their order; none where there are not so many, or where the participants
// are none or above 64.
pub fn edge_at(n: usize, state: CellState, place: usize) -> Option<TransitionEdge>
    ensures { result ≡ edge_in n state.boundaries place }
{
    let mut edges = Edges::of(Participants::new(n)?, state);
    for _ in 0..place {
        if !edges.advance() {
            return None;
        }
    }
    Some(edges.edge())
}
