// Asking again for the place of a view in the leader terms.
ghost use Rattle.std.specs.Prelude.{◌≡◌};
ghost use Rattle.replay_rigs.specs.Told.{place_told};

use asking::{Unasked, read};
use std::str::SplitWhitespace;
use terms::TermLength;

// Whether a view has this term number, this place in a script, and this first view of its term.
fn place_is(view: u64, length: u32, index: u64, place: u64, start: u64) -> bool
    ensures { result ≡ place_told length view index place start }
{
    TermLength::new(length).is_ok_and(|term| {
        term.index(view) == index && term.script_place(view) == place && term.start(view) == start
    })
}

pub(crate) fn place_agrees(words: &mut SplitWhitespace<'_>) -> Result<bool, Unasked> {
    let view = read(words)?;
    let length = read(words)?;
    let index = read(words)?;
    let place = read(words)?;
    let start = read(words)?;
    Ok(place_is(view, length, index, place, start))
}
