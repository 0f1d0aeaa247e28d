// Reading the words of a line.
ghost use Rattle.std.specs.Prelude.{◌≡◌, ◌≤◌, length, IfOk, IfErr};
ghost use Rattle.asking.specs.Words as told;

use crate::unasked::Unasked;
use std::alloc::Global;
use std::str::{FromStr, SplitWhitespace};

// The next word, as a value of the type that is wanted.
pub fn read<T: FromStr>(words: &mut SplitWhitespace<'_>) -> Result<T, Unasked>
where
    T::Err: Drop,
    ensures { told.Reads T.from_str_gives words.old words.new result }
{
    let word = words.next().ok_or(Unasked::Form)?;
    word.parse::<T>().map_err(|_| Unasked::Form)
}

// The values that the next words write, up to a word that writes none, and that word; it is missing where the line ends before.
// Where they are more than `most`, the form is broken, and what is behind the first too many is left.
pub fn read_while<'a, T: FromStr + Drop>(
    words: &mut SplitWhitespace<'a>,
    heap: Global,
    most: usize,
) -> Result<(Vec<T>, Option<&'a str>), Unasked>
where
    T::Err: Drop,
    ensures read { IfOk result (λ read. told.ReadsWhile T.from_str_gives words.old read.0.items read.1 words.new) }
    ensures bound { IfOk result (λ read. length read.0.items ≤ most) }
    ensures unread { IfErr result (λ e. told.StopsReading T.from_str_gives most words.old e words.new) }
{
    let mut items = Vec::new(heap);
    while let Some(word) = words.next() {
        match word.parse::<T>() {
            Ok(_) if items.len() >= most => return Err(Unasked::Form),
            Ok(item) => items.push(item)?,
            Err(_) => return Ok((items, Some(word))),
        }
    }
    Ok((items, None))
}

// Whether the words that come next are these; those behind the first that is not are left.
pub fn are_next<T: FromStr + PartialEq + Drop>(
    words: &mut SplitWhitespace<'_>,
    items: &[T],
) -> Result<bool, Unasked>
where
    T::Err: Drop,
    ensures { told.AreNext T.from_str_gives T.eq words.old items.now result words.new }
{
    for item in items {
        if read::<T>(words)? != *item {
            return Ok(false);
        }
    }
    Ok(true)
}

// The bar that parts a question from its answer, or one part of an answer from the next.
#[derive(Clone, Copy, PartialEq, Eq)]
pub struct Bar;

impl FromStr for Bar {
    type Err = Unasked;

    ghost from_str_gives = { λ word r. r ≡ told.bar_of word };

    fn from_str(word: &str) -> Result<Bar, Unasked> {
        if word == "|" {
            Ok(Bar)
        } else {
            Err(Unasked::Form)
        }
    }
}
