// Reading a round back: the parts and roles of its cells, and from these its turn and its number in it.
ghost use Rattle.std.specs.Prelude.{◌≡◌, ℕ, ◌+◌, ◌-◌, ◌*◌, ◌^◌, ◌<◌, ◌≤◌, true, length, nat_lt};
ghost use Rattle.std.specs.List.{AllByRecursion};
ghost use Rattle.scenarios.specs.Cells.{total};
ghost use Rattle.scenarios.specs.Letters.{role};
ghost use Rattle.scenarios.specs.Roles.{number};
ghost use Rattle.scenarios.specs.Edges.{sizes_of};
ghost use Rattle.scenarios.specs.Refinements.{sizes};
ghost use Rattle.scenarios.specs.Readings.{spelled, Reads, MemberRead, PartsRead, RanksChoice, Placed, CellRead};
ghost use Rattle.scenarios.specs.Readings.{tallied, FitsTally, LedRanges, CellsRead, ends_at, LeadsRange, LegalTold, RoundRead};

use crate::cell::CellState;
use crate::edge::add_local_boundaries;
use crate::mask::mask_contains;
use crate::participants::Participants;
use crate::refinement::LocalRefinement;
use crate::role::Role;
use crate::round::RoundScenario;

// The parts of a cell that have a role, the first `len` of them, and the mask of their roles. They are four at most,
// and no leader is among them; it becomes a refinement where the leader is put behind. It is copied whole, as that is.
#[derive(Clone, Copy)]
struct Reading {
    parts: [usize; 5],
    len: usize,
    roles: u8,
}

// The cells read so far, from the last one back: the number of their letters, and a bit at the end of each part.
#[derive(Clone, Copy)]
struct Tally {
    rank: u128,
    marks: u64,
}

// A turn, by the cell that leads and the state after it, and the number of a round in it.
#[derive(Clone, Copy)]
pub(crate) struct RoundRank {
    pub(crate) leader_cell: usize,
    pub(crate) next: CellState,
    pub(crate) rank: u128,
}

// The role of participant `i`.
fn role_of(round: &RoundScenario, i: usize) -> Role
    ensures { number result ≡ role round.now i }
{
    match (
        mask_contains(round.primary, i),
        mask_contains(round.secondary, i),
    ) {
        (false, false) => Role::Outside,
        (true, true) => Role::Both,
        (false, true) => Role::Secondary,
        (true, false) => Role::Primary,
    }
}

// The reading with one member more. Its role is a new one above all roles so far, or the last one, whose part grows.
fn read_member(reading: Reading, next: Role) -> Option<Reading>
    requires whole { Reads reading (spelled reading) }
    requires below { length (spelled reading) < 64 }
    ensures { MemberRead (spelled reading) (number next) result }
{
    let Reading {
        mut parts,
        len,
        roles,
    } = reading;
    let place = next.place();
    let above = roles >> place;
    if above == 0 {
        parts[len] = 1;
        return Some(Reading {
            parts,
            len: len + 1,
            roles: roles + (1 << place),
        });
    }
    if above == 1 {
        parts[len - 1] += 1;
        return Some(Reading { parts, len, roles });
    }
    None
}

// The parts of the `len` participants from `start` on, by their roles, if these rise.
fn read_parts(round: &RoundScenario, start: usize, len: usize) -> Option<Reading>
    requires { start + len ≤ 64 }
    ensures { PartsRead round.now start len result }
{
    let mut reading = Reading {
        parts: [0; 5],
        len: 0,
        roles: 0,
    };
    // Participants are numbers, and no list of them is there to go over.
    for idx in start..start + len {
        reading = read_member(reading, role_of(round, idx))?;
    }
    Some(reading)
}

// The number of a choice of roles: how many smaller masks have as many.
fn choice_rank(roles: u8) -> u64
    requires { roles < 16 }
    ensures { RanksChoice roles result }
{
    (0..roles)
        .filter(|mask| mask.count_ones() == roles.count_ones())
        .count() as u64
}

// How the cell of the `size` participants from `start` on is split, and the number of its letters.
fn read_cell(
    round: &RoundScenario,
    start: usize,
    size: usize,
    led: bool,
) -> Option<(LocalRefinement, u64)>
    requires within { (0 < size) × (start + size ≤ 64) }
    requires placed { Placed led start size round.now.leader }
    ensures { CellRead round.now start size led result }
{
    if !led {
        let Reading { parts, len, roles } = read_parts(round, start, size)?;
        return Some((LocalRefinement { parts, len }, choice_rank(roles)));
    }
    let Reading {
        mut parts,
        len,
        roles,
    } = read_parts(round, start, size - 1)?;
    let placement = role_of(round, round.leader).placement()?;
    parts[len] = 1;
    Some((
        LocalRefinement {
            parts,
            len: len + 1,
        },
        choice_rank(roles) * 3 + placement,
    ))
}

// The tally with one cell more in front of the others, so its number is the lowest digit.
fn add_cell(tally: Tally, start: usize, refinement: LocalRefinement, digit: u64, led: bool) -> Tally
    requires filled { AllByRecursion (λ p. 0 < p) (sizes refinement) }
    requires within { start + total (sizes refinement) ≤ 64 }
    requires some { led ≡ true → 0 < refinement.len }
    requires fits { FitsTally (tallied tally start led refinement digit) }
    ensures { result ≡ tallied tally start led refinement digit }
{
    Tally {
        rank: tally.rank * u128::from(refinement.multiplicity(led)) + u128::from(digit),
        marks: tally.marks + add_local_boundaries(0, start, refinement.sizes()),
    }
}

// The splits and the letters of all cells. The last cell is read first, since the first one has the lowest digit.
fn read_cells(round: &RoundScenario, ranges: &[(usize, usize)], leader_cell: usize) -> Option<Tally>
    requires { LedRanges leader_cell round.now.leader ranges.now }
    ensures { CellsRead round.now leader_cell (sizes_of ranges.now) result }
{
    let mut tally = Tally { rank: 0, marks: 0 };
    for (i, &(start, size)) in ranges.iter().enumerate().rev() {
        let led = i == leader_cell;
        let (refinement, digit) = read_cell(round, start, size, led)?;
        tally = add_cell(tally, start, refinement, digit, led);
    }
    Some(tally)
}

// The range whose last member leads.
fn leading_range(ranges: &[(usize, usize)], leader: usize) -> Option<usize>
    requires few { leader < 64 }
    requires within { (k : ℕ) → k < length ranges.now → ends_at ranges.now k ≤ 64 }
    ensures { LeadsRange ranges.now leader result }
{
    ranges
        .iter()
        .position(|&(start, size)| start + size == leader + 1)
}

// Whether the mask has no bit from `n` on.
fn mask_within(mask: u64, n: usize) -> bool
    ensures { result ≡ nat_lt mask (2 ^ n) }
{
    n >= 64 || mask >> n == 0
}

// Whether the round is one of `n` participants: one of them leads, some half hears it, and no mask goes past them.
fn is_legal(n: usize, round: &RoundScenario) -> bool
    ensures { LegalTold n round.now result }
{
    if round.leader >= n || !mask_within(round.primary, n) || !mask_within(round.secondary, n) {
        return false;
    }
    mask_contains(round.primary, round.leader) || mask_contains(round.secondary, round.leader)
}

// The turn from the cells of this state that the round belongs to, and its number there.
pub(crate) fn read_round(
    participants: Participants,
    state: CellState,
    round: RoundScenario,
) -> Option<RoundRank>
    ensures { RoundRead participants.number state.boundaries round result }
{
    let n = participants.number;
    if !is_legal(n, &round) {
        return None;
    }
    let cells = state.ranges(participants);
    let ranges = cells.as_slice();
    let leader_cell = leading_range(ranges, round.leader)?;
    let Tally { rank, marks } = read_cells(&round, ranges, leader_cell)?;
    // No bit stands for the last participant of all.
    let next = CellState {
        boundaries: marks % (1 << (n - 1)),
    };
    Some(RoundRank {
        leader_cell,
        next,
        rank,
    })
}
