// Drawing a round: its masks grow by the letters of one part of a cell after the other.
ghost use Rattle.std.specs.Prelude.{◌≡◌, ◌+◌, ◌-◌, ◌<◌, ◌≤◌, length, take, replicate};
ghost use Rattle.scenarios.specs.Cells.{total};
ghost use Rattle.scenarios.specs.Letters.{grown, Below};
ghost use Rattle.scenarios.specs.Turns as turns;
ghost use Rattle.scenarios.specs.Turns.{spell, tones, ways, weight};
ghost use Rattle.scenarios.specs.Fits.{Split};
ghost use Rattle.scenarios.specs.Roles.{number, letters};
ghost use Rattle.scenarios.specs.Refinements.{sizes};
ghost use Rattle.scenarios.specs.Edges.{turn_at};

use crate::edge::{Edges, SplitCell};
use crate::mask::set_mask_range;
use crate::role::{Role, roles_from_rank};
use crate::round::RoundScenario;

// The round with each participant of `[start, start + len)` in this role. Each caller has at hand that the round is drawn below
// `start`, so a type for a round and a place would only be built and taken apart.
fn apply_role(round: RoundScenario, start: usize, len: usize, role: Role) -> RoundScenario
    requires below { Below start round }
    requires within { start + len ≤ 64 }
    ensures { result ≡ grown round start (replicate len (number role)) }
{
    let RoundScenario {
        leader,
        primary,
        secondary,
    } = round;
    match role {
        Role::Outside => round,
        Role::Both => RoundScenario {
            leader,
            primary: set_mask_range(primary, start, len),
            secondary: set_mask_range(secondary, start, len),
        },
        Role::Secondary => RoundScenario {
            leader,
            primary,
            secondary: set_mask_range(secondary, start, len),
        },
        Role::Primary => RoundScenario {
            leader,
            primary: set_mask_range(primary, start, len),
            secondary,
        },
    }
}

// The round with these parts, from `start` on, each in its role.
fn draw_parts(
    round: RoundScenario,
    start: usize,
    parts: &[usize],
    roles: [Role; 4],
) -> RoundScenario
    requires below { Below start round }
    requires within { start + total parts.now ≤ 64 }
    requires few { length parts.now ≤ 4 }
    ensures { result ≡ grown round start (spell parts.now (letters (take (length parts.now) roles))) }
{
    let mut drawn = round;
    let mut at = start;
    for (part, role) in parts.iter().zip(&roles) {
        drawn = apply_role(drawn, at, *part, *role);
        at += *part;
    }
    drawn
}

// The round with a cell in the way `digit` of its split. A leader is the last member of its cell.
fn draw_cell(round: RoundScenario, cell: SplitCell, led: bool, digit: u64) -> RoundScenario
    requires below { Below cell.start round }
    requires whole { Split led cell.size (sizes cell.split) }
    requires within { cell.start + cell.size ≤ 64 }
    requires choice { digit < ways led (sizes cell.split) }
    ensures { result ≡ grown round cell.start (spell (sizes cell.split) (tones led (sizes cell.split) digit)) }
{
    let SplitCell { start, size, split } = cell;
    let parts = split.sizes();
    if !led {
        return draw_parts(round, start, parts, roles_from_rank(parts.len(), digit));
    }
    let others = &parts[..parts.len() - 1];
    let roles = roles_from_rank(others.len(), digit / 3);
    let drawn = draw_parts(round, start, others, roles);
    apply_role(drawn, start + size - 1, 1, Role::placed(digit % 3))
}

// The round of the edge at which the walk stands, and of a number below the edge's weight. The first cell has the
// lowest digit of the number.
pub(crate) fn round_at(edges: &Edges, rank: u128) -> RoundScenario
    requires { rank < weight (turn_at edges.now) }
    ensures { result ≡ turns.round (turn_at edges.now) rank }
{
    let cells = edges.cells.as_slice();
    let leading = cells[edges.leader];
    let mut drawn = RoundScenario {
        leader: leading.start + leading.size - 1,
        primary: 0,
        secondary: 0,
    };
    let mut left = rank;
    for (i, cell) in cells.iter().enumerate() {
        let led = i == edges.leader;
        let space = cell.split.multiplicity(led) as u128;
        drawn = draw_cell(drawn, *cell, led, (left % space) as u64);
        left /= space;
    }
    drawn
}
