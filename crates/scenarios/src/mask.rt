// Masks of participants, a bit for each.
ghost use Rattle.std.specs.Prelude.{◌≡◌, ◌+◌, ◌-◌, ◌*◌, ◌^◌, ◌<◌, ◌≤◌};
ghost use Rattle.scenarios.specs.Masks.{bit};

// Whether bit `idx` of the mask is set; no mask has a bit from 64 on.
pub fn mask_contains(mask: u64, idx: usize) -> bool
    ensures { result ≡ bit mask idx }
{
    idx < 64 && (mask >> idx) & 1 == 1
}

// The mask with every bit of `[start, start + len)` set too, where it has none from `start` on. That the range is within 64 bits each
// caller has from its own cell, so no type says it.
pub(crate) fn set_mask_range(mask: u64, start: usize, len: usize) -> u64
    requires below { mask < 2 ^ start }
    requires within { start + len ≤ 64 }
    ensures { result ≡ mask + (2 ^ len - 1) * 2 ^ start }
{
    if len == 0 {
        return mask;
    }
    mask | (u64::MAX >> (64 - len)) << start
}
