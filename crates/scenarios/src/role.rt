// The roles of participants in a round, and the choices of roles for the parts of a cell.
ghost use Rattle.std.specs.Prelude.{◌≡◌, ◌-◌, ◌<◌, length, take};
ghost use Rattle.std.specs.List.{slice_get};
ghost use Rattle.scenarios.specs.Turns.{choices, choose, roles_in, subset};
ghost use Rattle.scenarios.specs.Roles.{number, letters, PlacedAs};

use crate::mask::mask_contains;

// What a participant that does not lead hears in a round, in role order.
#[derive(Clone, Copy, PartialEq, Eq, Debug)]
pub(crate) enum Role {
    Outside,
    Both,
    Secondary,
    Primary,
}

const IN_ORDER: [Role; 4] = [Role::Outside, Role::Both, Role::Secondary, Role::Primary];

impl Role {
    // The place of the role in the role order.
    pub(crate) fn place(self) -> u8
        ensures { result ≡ number self }
    {
        self as u8
    }

    // The role of a leader in this placement: primary, secondary, both. Placements are digits of a round's number.
    pub(crate) fn placed(placement: u64) -> Role
        requires { placement < 3 }
        ensures { number result ≡ 3 - placement }
    {
        match placement {
            0 => Role::Primary,
            1 => Role::Secondary,
            _ => Role::Both,
        }
    }

    // The placement of a leader in this role; a leader that is outside has none.
    pub(crate) fn placement(self) -> Option<u64>
        ensures { PlacedAs (number self) result }
    {
        match self {
            Role::Outside => None,
            Role::Both => Some(2),
            Role::Secondary => Some(1),
            Role::Primary => Some(0),
        }
    }
}

// How many choices of `len` roles there are.
pub(crate) fn role_subset_count(len: usize) -> u64
    ensures { result ≡ choose len }
{
    match len {
        0 => 1,
        1 => 4,
        2 => 6,
        3 => 4,
        4 => 1,
        _ => 0,
    }
}

// The mask of four bits that is the choice `rank` of `len` roles, in numeric order.
fn kth_mask(len: usize, rank: u64) -> Option<u8>
    ensures { result ≡ slice_get (choices len) rank }
{
    let mut mask: u8 = 0;
    let mut left = rank;
    // The search passes over masks with another number of ones and stops at the wanted one. It is written so by a rule of this
    // repository (docs/DECISIONS.md); `filter` and `nth` would prove too.
    loop {
        if mask == 16 {
            break None;
        }
        if u64::from(mask.count_ones()) == len as u64 {
            if left == 0 {
                break Some(mask);
            }
            left -= 1;
        }
        mask += 1;
    }
}

// The roles of a choice, in role order from the first place on. Four roles are passed by value; a list of so few would have to be
// pushed to and taken apart again.
fn roles_of(mask: u8) -> [Role; 4]
    ensures { letters (take (length (roles_in mask)) result) ≡ roles_in mask }
{
    let mut roles = [Role::Outside; 4];
    let mut next: usize = 0;
    for role in IN_ORDER {
        if mask_contains(mask as u64, role.place() as usize) {
            roles[next] = role;
            next += 1;
        }
    }
    roles
}

// The roles of the choice `rank` of `len` roles.
pub(crate) fn roles_from_rank(len: usize, rank: u64) -> [Role; 4]
    requires { rank < choose len }
    ensures { letters (take len result) ≡ subset len rank }
{
    match kth_mask(len, rank) {
        Some(mask) => roles_of(mask),
        // there are as many choices as ranks
        None => unreachable!(),
    }
}
