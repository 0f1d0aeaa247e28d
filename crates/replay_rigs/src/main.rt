// Asks again what the Rust module was asked of draws, compromised sets, views and electors, and compares the answers.
//
// A line of standard input is a question with the answer that the Rust gave:
//
//     sample T K WORDS | RANK..      K ranks below T, in the order drawn, from these words
//     shuffle N WORDS | I..          the numbers below N, shuffled by these words
//     splitmix SEED WORD..           the first words of SplitMix64 from this seed
//     sets N S F C                   C sets of F of the N participants take a first few of each cell of the state S
//     set N S F K I..                the set of number K among them has these members
//     place V L I P S                in terms of L views, view V is in term I, at place P of a script, and S starts its term
//     partitions ROUND.. V L NAME.. | NAME.. | NAME..   what each half hears at view V by a script of these rounds
//     route ROUND.. V L SENDER NAME.. | TARGET          which halves hear the sender then
//     view_partitions V L NAME.. | NAME.. | NAME..      the split of the names at view V
//     view_route V L SENDER NAME.. | TARGET             which parts of the split hold the sender
//     elect H SCRIPT.. V L N BELOW I                    participant I of N leads view V by H scripts over an elector
//
// WORDS is a tape, `W..`, or `seed S`, the words of SplitMix64 from the seed S. In place of what is drawn there may stand
// `spent`: the tape ends too early.
//
// A NAME or a SENDER is a number below 2^16, asked as a seat and as a key. A SCRIPT has its leaders between commas, `-` is
// an empty one, and the outermost comes first; BELOW is `rot`, by turns, or `lot:X`, by lot with the number X. In place of
// the groups, the target or the leader there may stand `panic`: the port has to refuse, for want of names, for a sender
// that is none of them, or for a leader that is no participant.
//
// The number of each line that does not agree, or that is no such line, is printed, and at the end how many of each kind
// agree. A question that is refused does not agree, unless its answer is `spent` or `panic`: all other stored ones have
// answers.

#![tactic(auto)]

use asking::ask_all;
use sampling::RankSlot;
use std::io;
use std::io::{BufReader, BufWriter, Write};
use table::Entry;

mod allocation;
mod chance;
mod kind;
mod leading;
mod names;
mod place;
mod splits;

use kind::Kind;

// How many ranks are drawn at most.
const RANKS: usize = 4000;

fn main(rt: HostRuntime) -> io::Result<()> {
    let heap = rt.alloc();
    let mut memory: Vec<RankSlot> = vec![in heap; Entry { key: 0, value: () }; RANKS]?;
    let mut out = BufWriter::new(heap, rt.stdout())?;
    let input = BufReader::new(heap, rt.stdin())?;
    ask_all::<Kind, _, _>(input, heap, &mut out, &mut memory)?;
    out.flush()
}

#[cfg(test)]
mod tests {
    use super::{Entry, Kind, RANKS, RankSlot, ask_all};
    use std::alloc::{AllocError, Global};
    use std::process::Abort;
    use std::test::Fail;

    // The word so many times.
    fn times(heap: Global, word: &str, count: usize) -> Result<String, AllocError> {
        let mut words = String::new(heap);
        for _ in 0..count {
            words.push_str(word)?;
        }
        Ok(words)
    }

    // Whether the line agrees or not, as expected.
    fn asked(rt: &impl Abort, heap: Global, line: &str, agrees: bool) -> Result<(), Fail> {
        let mut memory: Vec<RankSlot> = vec![in heap; Entry { key: 0, value: () }; RANKS]?;
        let mut out = Vec::<u8>::new(heap);
        ask_all::<Kind, _, _>(line.as_bytes(), heap, &mut out, &mut memory)?;
        let told = out.starts_with(b"line 1 does not agree\n");
        assert!(rt; told != agrees, "{}", line);
        Ok(())
    }

    #[test]
    fn a_tape_has_at_most_255_words(rt: HostRuntime) -> Result<(), Fail> {
        let heap = rt.alloc();
        for (count, agrees) in [(255, true), (256, false)] {
            let tape = times(heap, " 1", count)?;
            let line = format!(in heap; "shuffle 2{tape} | 0 1")?;
            asked(&rt, heap, &line, agrees)?;
        }
        Ok(())
    }

    #[test]
    fn a_script_has_at_most_15_rounds(rt: HostRuntime) -> Result<(), Fail> {
        let heap = rt.alloc();
        for (count, agrees) in [(15, true), (16, false)] {
            let rounds = times(heap, " 0:1:2", count)?;
            let line = format!(in heap; "partitions{rounds} 1 1 7 8 | 7 | 8")?;
            asked(&rt, heap, &line, agrees)?;
        }
        Ok(())
    }

    // The script below it has a leader that is no participant, which is what the line tells.
    #[test]
    fn a_script_over_an_elector_has_at_most_64_leaders(rt: HostRuntime) -> Result<(), Fail> {
        let heap = rt.alloc();
        for (count, agrees) in [(64, true), (65, false)] {
            let leaders = times(heap, ",1", count - 1)?;
            let line = format!(in heap; "elect 2 1{leaders} 9 0 5 7 rot panic")?;
            asked(&rt, heap, &line, agrees)?;
        }
        Ok(())
    }
}
