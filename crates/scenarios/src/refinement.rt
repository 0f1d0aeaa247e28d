// How one cell is split in a round: its parts, with the leader alone at the end if it is in the cell.
ghost use Rattle.std.specs.Prelude.{◌≤◌};

use crate::role::role_subset_count;

// The sizes of the parts of a cell, the first `len` of them. Five sizes cost less to pass by value than to lend, and an
// `ArrayVec` is not `Copy`. Whether the leader is in the cell is the walk's to say, so it is handed in at each call.
#[derive(Clone, Copy, PartialEq, Eq, Debug)]
pub(crate) struct LocalRefinement {
    pub(crate) parts: [usize; 5],
    pub(crate) len: usize,
    ghost few: { len ≤ 5 },
}

// No parts. Written out, since a struct with a ghost field derives no `Default`; an `ArrayVec` of such asks for one.
impl Default for LocalRefinement {
    fn default() -> LocalRefinement {
        LocalRefinement {
            parts: [0; 5],
            len: 0,
        }
    }
}

impl LocalRefinement {
    ghost use Rattle.std.specs.Prelude.{◌≡◌, ◌-◌, ◌<◌, ◌≤◌, true, Some, None};
    ghost use Rattle.std.specs.List.{AllByRecursion};
    ghost use Rattle.scenarios.specs.Cells.{total};
    ghost use Rattle.scenarios.specs.Fits.{Split};
    ghost use Rattle.scenarios.specs.Steps.{first_split};
    ghost use Rattle.scenarios.specs.Turns.{ways};
    ghost use Rattle.scenarios.specs.Refinements.{sizes, LastAbove, Composed, Refined};

    // The parts that are in use.
    pub(crate) fn sizes(&self) -> &[usize]
        ensures { result.now ≡ sizes self.now }
    {
        &self.parts[..self.len]
    }

    // The first refinement of a cell of `size`: its members stay together, but for a leader.
    pub(crate) fn first(size: usize, led: bool) -> LocalRefinement
        requires { 0 < size }
        ensures { sizes result ≡ first_split led size }
    {
        if !led {
            LocalRefinement {
                parts: [size, 0, 0, 0, 0],
                len: 1,
            }
        } else if size == 1 {
            LocalRefinement {
                parts: [1, 0, 0, 0, 0],
                len: 1,
            }
        } else {
            LocalRefinement {
                parts: [size - 1, 1, 0, 0, 0],
                len: 2,
            }
        }
    }

    // The last part that has more than one member.
    fn last_above_one(&self) -> Option<usize>
        ensures { LastAbove (sizes self.now) result }
    {
        self.sizes().iter().rposition(|size| *size > 1)
    }

    // The next composition after these parts. The last part above 1 gives one member to the part before it, and the rest
    // of it goes to the end; where it is the first part, there is one part more.
    fn next_composition(self) -> Option<LocalRefinement>
        requires few { self.len ≤ 4 }
        requires filled { AllByRecursion (λ p. 0 < p) (sizes self) }
        requires small { total (sizes self) ≤ 64 }
        ensures { Composed (sizes self) result }
    {
        let j = self.last_above_one()?;
        let LocalRefinement { parts, len } = self;
        let rest = parts[j] - 1;
        let mut out = parts;
        out[j] = 1;
        if j > 0 {
            out[j - 1] = parts[j - 1] + 1;
            out[len - 1] = rest;
            Some(LocalRefinement { parts: out, len })
        } else if len < 4 {
            out[len] = rest;
            Some(LocalRefinement {
                parts: out,
                len: len + 1,
            })
        } else {
            None
        }
    }

    // The refinement after this one, of the same cell.
    pub(crate) fn next(self, size: usize, led: bool) -> Option<LocalRefinement>
        requires split { Split led size (sizes self) }
        requires within { (0 < size) × (size ≤ 64) }
        ensures { Refined led (sizes self) result }
    {
        if !led {
            return self.next_composition();
        }
        let LocalRefinement { parts, len } = self;
        let front = LocalRefinement {
            parts,
            len: len - 1,
        };
        let LocalRefinement { mut parts, len } = front.next_composition()?;
        parts[len] = 1;
        Some(LocalRefinement {
            parts,
            len: len + 1,
        })
    }

    // How many ways there are to give the parts their letters; a leader is placed in three ways.
    pub(crate) fn multiplicity(self, led: bool) -> u64
        requires { led ≡ true → 0 < self.len }
        ensures { result ≡ ways led (sizes self) }
    {
        if led {
            role_subset_count(self.len - 1) * 3
        } else {
            role_subset_count(self.len)
        }
    }
}
