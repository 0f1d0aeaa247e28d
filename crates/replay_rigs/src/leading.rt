// Asking again who leads a view, by none to three scripts over an elector.
use asking::{Unasked, read};
use electors::{Dynamic, Elector, ElectorState, Lot, Rotation, Scheduled};
use refusals::Refusal;
use std::alloc::Global;
use std::str::SplitWhitespace;

// How many scripts there are over an elector at most.
const HEIGHT: u64 = 3;

// How many leaders a script has at most.
const LEADERS: usize = 64;

// The leaders of a script. One that is no number breaks the form, whatever its fault. So does one
// too many: refused only when the script is made, it would come after the faults of those below.
fn script_of(word: &str, heap: Global) -> Result<Vec<usize>, Unasked> {
    if word == "-" {
        return Ok(Vec::new(heap));
    }
    let leaders = word
        .split(',')
        .take(LEADERS + 1)
        .map(|leader| leader.parse::<usize>().map_err(|_| Unasked::Form))
        .try_collect::<Vec<usize>>(heap)?;
    if leaders.len() > LEADERS {
        return Err(Unasked::Form);
    }
    Ok(leaders)
}

// A pile of scripts, the outermost first. One too high is not read.
fn read_pile(words: &mut SplitWhitespace<'_>, heap: Global) -> Result<Vec<Vec<usize>>, Unasked> {
    let height = read::<u64>(words)?;
    if height > HEIGHT {
        return Err(Unasked::Form);
    }
    let mut pile = Vec::new(heap);
    for _ in 0..height {
        let word = words.next().ok_or(Unasked::Form)?;
        pile.push(script_of(word, heap)?)?;
    }
    Ok(pile)
}

// The script over an elector.
fn over<E: Elector + Drop>(below: E, leaders: &[usize]) -> Result<ElectorState<E>, Refusal> {
    ElectorState::new(below, leaders).map_err(|refused| refused.refusal)
}

// The leader of a view, where it is the same at other epochs.
fn leader_at<I, E: Elector<Mode = I>>(elector: &E, view: u64, input: &I) -> Option<usize> {
    let leader = elector.elect(0, view, input);
    [1, view, u64::MAX]
        .iter()
        .all(|epoch| elector.elect(*epoch, view, input) == leader)
        .then_some(leader)
}

// The same under a pile of scripts. A pile of each height is a type of its own, so each height has an arm.
fn led_under<I, E: Elector<Mode = I> + Drop>(
    below: E,
    pile: &[Vec<usize>],
    view: u64,
    input: &I,
) -> Result<Option<usize>, Unasked> {
    match pile {
        [] => Ok(leader_at(&below, view, input)),
        [a] => Ok(leader_at(&over(below, a)?, view, input)),
        [a, b] => Ok(leader_at(&over(over(below, b)?, a)?, view, input)),
        [a, b, c] => Ok(leader_at(&over(over(over(below, c)?, b)?, a)?, view, input)),
        _ => Err(Unasked::Form),
    }
}

// By turns, or by lot with a number.
fn led(
    word: &str,
    pile: &[Vec<usize>],
    count: usize,
    view: u64,
    term: u32,
) -> Result<Option<usize>, Unasked> {
    if word == "rot" {
        return led_under(Rotation::new(count, term)?, pile, view, &Scheduled);
    }
    let lot = word.strip_prefix("lot:").ok_or(Unasked::Form)?;
    let number = lot.parse::<u64>().map_err(|_| Unasked::Form)?;
    led_under(Lot::new(count, term)?, pile, view, &Dynamic { number })
}

// The Rust panics where a leader of a script is no participant.
pub(crate) fn elect_agrees(words: &mut SplitWhitespace<'_>, heap: Global) -> Result<bool, Unasked> {
    let pile = read_pile(words, heap)?;
    let view = read(words)?;
    let term = read(words)?;
    let count = read(words)?;
    let below = words.next().ok_or(Unasked::Form)?;
    let told = words.next().ok_or(Unasked::Form)?;
    match led(below, &pile, count, view, term) {
        Ok(leader) => Ok(leader.is_some() && told.parse::<usize>().ok() == leader),
        Err(Unasked::Refused(Refusal::LeaderOutOfRange)) => Ok(told == "panic"),
        Err(unasked) => Err(unasked),
    }
}
