// Questions of a kind of the tests' own, and what is read of words.
ghost use Rattle.std.specs.Prelude.{false, true, cond, [], ◌∷◌, codes};

use crate::{Question, Round, Unasked, are_next, ask_all, read, read_while};
use scenarios::RoundScenario;
use std::alloc::Global;
use std::str::SplitWhitespace;
use std::test::Fail;

// What the half of a number is, or its double.
#[derive(Clone, Copy, PartialEq, Eq)]
struct Kind {
    doubles: bool,
}

impl Question for Kind {
    type Memory = ();

    ghost kinds = { record { doubles = false } ∷ record { doubles = true } ∷ [] };

    ghost word = { λ kind. cond kind.doubles (codes "double") (codes "half") };

    fn kinds() -> &'static [Kind] {
        &[Kind { doubles: false }, Kind { doubles: true }]
    }

    fn word(self) -> &'static str {
        if self.doubles { "double" } else { "half" }
    }

    fn agrees(
        self,
        words: &mut SplitWhitespace<'_>,
        _heap: Global,
        _memory: &mut (),
    ) -> Result<bool, Unasked> {
        let number = read::<u64>(words)?;
        let answer = read::<u64>(words)?;
        if self.doubles {
            return Ok(answer == number.wrapping_mul(2));
        }
        Ok(answer == number / 2)
    }
}

#[test]
fn asks_each_line_and_tells_of_faults_and_kinds(rt: HostRuntime) -> Result<(), Fail> {
    let heap = rt.alloc();
    let mut out = Vec::<u8>::new(heap);
    let input = b"double 3 6\nhalf 9 3\nthird 9 3\n".as_slice();
    ask_all::<Kind, _, _>(input, heap, &mut out, &mut ())?;
    let told =
        "line 2 does not agree\nline 3 does not agree\nhalf 0 of 1 agree\ndouble 1 of 1 agree\n";
    assert!(rt; out.as_slice() == told.as_bytes());
    Ok(())
}

#[test]
fn tells_of_no_kinds_behind_a_line_that_cannot_be_read(rt: HostRuntime) -> Result<(), Fail> {
    let heap = rt.alloc();
    let mut out = Vec::<u8>::new(heap);
    let input = b"half 9 3\n\xff\n".as_slice();
    assert!(rt; ask_all::<Kind, _, _>(input, heap, &mut out, &mut ()).is_err());
    assert!(rt; out.as_slice() == b"line 1 does not agree\n".as_slice());
    Ok(())
}

#[test]
fn reads_up_to_a_word_of_another_form(rt: HostRuntime) -> Result<(), Fail> {
    let mut words = "3 5 | 2:9:4 end 7 8".split_whitespace();
    let (numbers, bar) = read_while::<u64>(&mut words, rt.alloc(), 2)?;
    assert!(rt; numbers.as_slice() == [3, 5].as_slice() && bar == Some("|"));
    let (rounds, end) = read_while::<Round>(&mut words, rt.alloc(), 64)?;
    let round = RoundScenario {
        leader: 2,
        primary: 9,
        secondary: 4,
    };
    assert!(rt; rounds.as_slice() == [Round { round }].as_slice() && end == Some("end"));
    assert!(rt; are_next::<u64>(&mut words, &[7, 8])?);
    let (none, end) = read_while::<u64>(&mut words, rt.alloc(), 0)?;
    assert!(rt; none.is_empty() && end.is_none());
    let mut words = "3 5 7 9".split_whitespace();
    assert!(rt;
        matches!(
            read_while::<u64>(&mut words, rt.alloc(), 2),
            Err(Unasked::Form)
        )
    );
    assert!(rt; words.next() == Some("9"));
    Ok(())
}
