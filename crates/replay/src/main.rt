// Asks again what the Rust module was asked, and compares the answers.
//
// A line of standard input is a question with the answer that the Rust gave:
//
//     total N R M T                  N participants and R rounds have T scenarios in mode M
//     edges N S C                    the state S of N participants has C edges
//     edge N S P X L W               its edge P leads to the state X, led by cell L, and stands for W rounds
//     unrank N R M K ROUND.. | C..   the scenario of rank K has these rounds, and leaves cells of these sizes
//
// The number of each line that does not agree, or that is no such line, is printed, and at the end how many of each kind
// agree. A question that is refused does not agree: all stored ones have answers.

#![tactic(auto)]

use asking::ask_all;
use scenarios::{CellState, Place, Slot};
use std::io;
use std::io::{BufReader, BufWriter, Write};
use table::Entry;

mod answer;
mod kind;

use kind::Kind;

// How many states the count memory holds: enough for every plan that is asked about.
const SLOTS: usize = 40000;

fn main(rt: HostRuntime) -> io::Result<()> {
    let heap = rt.alloc();
    let nothing = Entry {
        key: Place {
            depth: 0,
            state: CellState::initial(),
        },
        value: 0,
    };
    // on the heap because it is too large for the stack
    let mut memory: Vec<Slot> = vec![in heap; nothing; SLOTS]?;
    let mut out = BufWriter::new(heap, rt.stdout())?;
    let input = BufReader::new(heap, rt.stdin())?;
    ask_all::<Kind, _, _>(input, heap, &mut out, &mut memory)?;
    out.flush()
}
