// How many participants there are.
ghost use Rattle.std.specs.Prelude.{◌≡◌, ◌<◌, ◌≤◌, ◌||◌, true, Some, None, ◌==◌, nat_lt};

// As many as have a bit each in a mask, and at least one.
#[derive(Clone, Copy)]
pub(crate) struct Participants {
    pub(crate) number: usize,
    ghost within: { (0 < number) × (number ≤ 64) },
}

impl Participants {
    // So many participants, unless there are none or too many for a mask.
    pub(crate) fn new(number: usize) -> Option<Participants>
        ensures { elim result [ Some p ↦ p.number ≡ number | None ↦ (number == 0 || nat_lt 64 number) ≡ true ] }
    {
        if number == 0 || number > 64 {
            return None;
        }
        Some(Participants { number })
    }
}
