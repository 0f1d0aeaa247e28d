// Asking again for samples, shuffled lists and words.
use asking::{Bar, Unasked, are_next, read, read_while};
use refusals::Refusal;
use sampling::{RankSlot, sample_unique_indices, shuffle_items};
use std::alloc::Global;
use std::str::SplitWhitespace;
use table::Entry;
use words::{Source, SplitMix64, Tape};

// The longest list that is shuffled.
const ITEMS: u64 = 256;

// The longest tape; no question that is stored has a longer one.
const WORDS: usize = 255;

// Where a question's words come from. The two sources differ in type, so each is handed on in an arm of its own; a source
// over both would match at every word.
#[derive(Drop)]
enum Origin {
    Tape(Vec<u64>),
    Seed(u64),
}

// A tape or a seed, and the bar behind it.
fn read_origin(words: &mut SplitWhitespace<'_>, heap: Global) -> Result<Origin, Unasked> {
    match read_while::<u64>(words, heap, WORDS)? {
        (tape, Some("|")) => Ok(Origin::Tape(tape)),
        (tape, Some("seed")) if tape.is_empty() => {
            let seed = read::<u64>(words)?;
            read::<Bar>(words)?;
            Ok(Origin::Seed(seed))
        }
        _ => Err(Unasked::Form),
    }
}

// Whether the words are spent, and the line says so.
fn is_spent(refusal: Refusal, words: &mut SplitWhitespace<'_>) -> bool {
    words.next() == Some("spent") && refusal == Refusal::WordsSpent
}

// A sample that is refused has to leave zeros; so the slots do not hold zeros before, but what is no rank.
pub(crate) fn sample_agrees(
    words: &mut SplitWhitespace<'_>,
    heap: Global,
    ranks: &mut [RankSlot],
) -> Result<bool, Unasked> {
    let total = read::<u64>(words)?;
    let asked = read::<u64>(words)?;
    let origin = read_origin(words, heap)?;
    ranks.fill(Entry {
        key: u64::MAX,
        value: (),
    });
    let answer = match origin {
        Origin::Tape(tape) => sample_unique_indices(&mut Tape::new(&tape), total, asked, ranks),
        Origin::Seed(seed) => {
            sample_unique_indices(&mut SplitMix64::new(seed), total, asked, ranks)
        }
    };
    match answer {
        Ok(many) => {
            let drawn: Vec<u64> = ranks
                .iter()
                .take(many as usize)
                .map(|slot| slot.key)
                .collect(heap)?;
            are_next(words, &drawn)
        }
        Err(refusal) => Ok(is_spent(refusal, words) && ranks.iter().all(|slot| slot.key == 0)),
    }
}

// Shuffles the numbers from 0 on.
pub(crate) fn shuffle_agrees(
    words: &mut SplitWhitespace<'_>,
    heap: Global,
) -> Result<bool, Unasked> {
    let len = read::<u64>(words)?;
    if len > ITEMS {
        return Err(Unasked::Form);
    }
    let mut items: Vec<u64> = (0..len).collect(heap)?;
    let answer = match read_origin(words, heap)? {
        Origin::Tape(tape) => shuffle_items(&mut items, &mut Tape::new(&tape)),
        Origin::Seed(seed) => shuffle_items(&mut items, &mut SplitMix64::new(seed)),
    };
    match answer {
        Ok(()) => are_next(words, &items),
        Err(refusal) => Ok(is_spent(refusal, words)),
    }
}

pub(crate) fn splitmix_agrees(words: &mut SplitWhitespace<'_>) -> Result<bool, Unasked> {
    let mut source = SplitMix64::new(read(words)?);
    // Word by word, since a line may have as many as it likes.
    for word in words {
        if source.take()? != word.parse::<u64>().map_err(|_| Unasked::Form)? {
            return Ok(false);
        }
    }
    Ok(true)
}
