// Lists the scenarios of a plan, a line for each rank.
//
// The first 64 bytes of standard input are the text of the plan line; what follows them is not looked at. The header is
// printed once the plan is counted, so a refused plan prints its refusal and nothing else.

#![tactic(auto)]

ghost use Rattle.std.specs.Prelude.{Ok, Err};
ghost use Rattle.list.specs.Asked.{Planned, Unplanned};

use refusals::Refusal;
use scenarios::{CellState, CountedPlan, Place, Plan, RoundScenario, Slot};
use std::alloc::Global;
use std::io;
use std::io::{BufWriter, Read, Write};
use table::Entry;
use text::read_plan_line;

mod show;

use show::{Header, Line, Refused};

// How many bytes of standard input are looked at.
const TEXT: u64 = 64;

// How many states the count memory holds.
const SLOTS: usize = 2000;

// The plan that a text writes, unless the text is no plan line or its numbers break a rule. A conversion by trait would only stand
// around this one call.
fn plan_in(text: &[u8]) -> Result<Plan, Refusal>
    ensures { elim result [ Ok p ↦ Planned text.now p | Err e ↦ Unplanned text.now e ] }
{
    let line = read_plan_line(text)?;
    Plan::new(
        line.participants as usize,
        line.faults as usize,
        line.rounds as usize,
        line.mode,
        u64::from(line.cap),
    )
}

// Prints a line for each rank below `listed`. The rounds are written over for each.
fn print_scenarios<W: Write>(
    out: &mut W,
    counted: &CountedPlan<'_>,
    listed: u64,
    rounds: &mut [RoundScenario],
) -> io::Result<()> {
    for rank in 0..listed {
        // a counted plan has a scenario for each rank below its total; a listing with a gap would hide it if one lacked
        if let Err(refusal) = counted.scenario(rank, rounds) {
            return print_refusal(out, refusal);
        }
        let line = Line { rank, rounds };
        writeln!(out, "{line}")?;
    }
    Ok(())
}

// Counts the plan and prints its listing. Counting takes the plan, so its numbers are asked for before.
fn print_listing<W: Write>(out: &mut W, heap: Global, plan: Plan) -> io::Result<()> {
    let participants = plan.participants();
    let rounds = plan.rounds();
    let cap = plan.cap();
    let slot = Entry {
        key: Place {
            depth: 0,
            state: CellState::initial(),
        },
        value: 0,
    };
    let round = RoundScenario {
        leader: 0,
        primary: 0,
        secondary: 0,
    };
    // on the heap: the count memory is too large for the stack
    let mut memory: Vec<Slot> = vec![in heap; slot; SLOTS]?;
    let mut script = vec![in heap; round; rounds]?;
    match plan.count(memory.as_mut_slice()) {
        Ok(counted) => {
            let total = counted.total();
            let header = Header {
                participants,
                rounds,
                total,
            };
            writeln!(out, "{header}")?;
            print_scenarios(out, &counted, total.min(cap), script.as_mut_slice())
        }
        Err(refused) => print_refusal(out, refused.refusal),
    }
}

// Prints why there is no listing.
fn print_refusal<W: Write>(out: &mut W, refusal: Refusal) -> io::Result<()> {
    let refused = Refused { refusal };
    writeln!(out, "{refused}")
}

// Prints what is asked for by a text: a listing, or why there is none.
fn answer<W: Write>(out: &mut W, heap: Global, text: &[u8]) -> io::Result<()> {
    match plan_in(text) {
        Ok(plan) => print_listing(out, heap, plan),
        Err(refusal) => print_refusal(out, refusal),
    }
}

fn main(rt: HostRuntime) -> io::Result<()> {
    let mut text = Vec::new(rt.alloc());
    rt.stdin().take(TEXT).read_to_end(&mut text)?;
    let mut out = BufWriter::new(rt.alloc(), rt.stdout())?;
    answer(&mut out, rt.alloc(), text.as_slice())?;
    out.flush()
}

#[cfg(test)]
mod tests {
    use super::answer;
    use std::alloc::Global;
    use std::process::Abort;
    use std::test::Fail;

    // Whether the text is answered by these lines.
    fn answers(rt: &impl Abort, heap: Global, text: &str, lines: &str) -> Result<(), Fail> {
        let mut out: Vec<u8> = Vec::new(heap);
        answer(&mut out, heap, text.as_bytes())?;
        assert!(rt; out.as_slice() == lines.as_bytes(), "{}", text);
        Ok(())
    }

    #[test]
    fn listings(rt: HostRuntime) -> Result<(), Fail> {
        let heap = rt.alloc();
        answers(
            &rt,
            heap,
            "2 1 1 s 2\n",
            "participants 2 rounds 1 scenarios 12\n0 1:2:0\n1 1:0:2\n",
        )?;
        answers(
            &rt,
            heap,
            "7 2 3 u 2\n",
            "participants 7 rounds 3 scenarios 252\n0 6:64:0 6:64:0 6:64:0\n1 6:0:64 6:0:64 6:0:64\n",
        )
    }

    #[test]
    fn refusals(rt: HostRuntime) -> Result<(), Fail> {
        let heap = rt.alloc();
        answers(&rt, heap, "1 1 1 s 1\n", "refused 1\n")?;
        answers(&rt, heap, "65 1 1 s 1\n", "refused 2\n")?;
        answers(&rt, heap, "7 0 1 s 1\n", "refused 3\n")?;
        answers(&rt, heap, "7 7 1 s 1\n", "refused 4\n")?;
        answers(&rt, heap, "7 2 0 s 1\n", "refused 5\n")?;
        answers(&rt, heap, "7 2 2 s 0\n", "refused 6\n")?;
        answers(&rt, heap, "7 2 65 s 1\n", "refused 7\n")?;
        answers(&rt, heap, "64 1 64 s 1\n", "refused 8\n")?;
        answers(&rt, heap, "2 1 64 s 1\n", "refused 9\n")?;
        answers(&rt, heap, "7 2 2 x 1\n", "refused 24 6\n")?;
        answers(&rt, heap, "", "refused 24 0\n")
    }
}
