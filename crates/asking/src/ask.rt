// Asking the questions of all lines.
ghost use Rattle.std.specs.Prelude.{◌≡◌, ℕ, Bool, List, IfOk, OnOk, OnErr, string_bytes};
ghost use Rattle.std.specs.Iterator.{IsFinite};
ghost use Rattle.std.specs.Io.KnownBytes.{Appends};
ghost use Rattle.asking.specs.Lines.{kind_of, Asks, fault_of, closing, Report, GivesAll, LinesOf};

use crate::question::Question;
use crate::tally::Tallies;
use crate::unasked::Unasked;
use std::alloc::{AllocError, Global};
use std::io;
use std::io::{BufRead, Lines, Write};

// The kind that a word names.
fn kind_of<Q: Question>(word: &str) -> Option<Q>
    ensures { result ≡ kind_of Q.word Q.kinds word.now }
{
    Q::kinds().iter().copied().find(|kind| kind.word() == word)
}

// Asks the question of a line, and notes in the tally of its kind whether the answer agrees.
// False too where the line is no question: it belongs to no tally, so the line number is all that tells of it.
fn ask<Q: Question>(
    line: &str,
    heap: Global,
    memory: &mut Q::Memory,
    tallies: &mut Tallies<Q>,
) -> Result<bool, AllocError>
    ensures agreed { IfOk result (λ agrees. Asks Q.word Q.kinds Q.eq line.now agrees tallies.old.each.items tallies.new.each.items) }
    ensures no_memory { OnErr result (tallies.new ≡ tallies.old) }
{
    let mut words = line.split_whitespace();
    let Some(kind) = words.next().and_then(|word| kind_of::<Q>(word)) else {
        return Ok(false);
    };
    let agreed = match kind.agrees(&mut words, heap, memory) {
        Ok(agrees) => agrees && words.next().is_none(),
        Err(Unasked::Memory) => return Err(AllocError),
        Err(_) => false,
    };
    tallies.note(kind, agreed);
    Ok(agreed)
}

// Asks the question of a line, and writes the number of the line where its answer does not agree, or where it is no question.
fn answer_line<Q: Question, W: Write>(
    number: u64,
    line: &str,
    heap: Global,
    out: &mut W,
    memory: &mut Q::Memory,
    tallies: &mut Tallies<Q>,
) -> io::Result<()>
    ensures { OnOk result ((agrees : Bool) × Asks Q.word Q.kinds Q.eq line.now agrees tallies.old.each.items tallies.new.each.items × Appends (W.contents out.old) (W.contents out.new) (fault_of number agrees)) }
{
    if !ask(line, heap, memory, tallies)? {
        writeln!(out, "line {number} does not agree")?;
    }
    Ok(())
}

// Writes how many of each kind agree.
fn write_tallies<Q: Question, W: Write>(tallies: &Tallies<Q>, out: &mut W) -> io::Result<()>
    ensures { OnOk result (Appends (W.contents out.old) (W.contents out.new) (closing Q.word tallies.now.each.items)) }
{
    for (kind, tally) in &tallies.each {
        let word = kind.word();
        writeln!(out, "{word} {tally}")?;
    }
    Ok(())
}

// Asks the questions of the lines, one after the other, and then writes the tallies.
fn ask_lines<Q: Question, L: Iterator<Item = io::Result<String>> + Drop, W: Write>(
    lines: L,
    heap: Global,
    out: &mut W,
    memory: &mut Q::Memory,
) -> io::Result<()>
    requires can { L.can_next lines }
    requires ends { IsFinite (L.remaining lines) }
    ensures { OnOk result ((given : List (List ℕ)) × (text : List ℕ) × GivesAll L.next_gives string_bytes lines given × Report Q.word Q.kinds Q.eq given text × Appends (W.contents out.old) (W.contents out.new) text) }
{
    let mut tallies = Tallies::<Q>::none(heap)?;
    let mut number: u64 = 0;
    for line in lines {
        number = number.saturating_add(1);
        answer_line(number, line?.as_str(), heap, out, memory, &mut tallies)?;
    }
    write_tallies(&tallies, out)
}

// Asks the questions of the lines that are left of the input, and writes the number of each line that does not agree, or that is
// no question, and at the end how many of each kind agree. A line that cannot be read ends it, and then no tally is written.
pub fn ask_all<Q: Question, R: BufRead + Drop, W: Write>(
    input: R,
    heap: Global,
    out: &mut W,
    memory: &mut Q::Memory,
) -> io::Result<()>
    ensures { OnOk result ((given : List (List ℕ)) × (text : List ℕ) × LinesOf ⟦<Lines<R, Global> as Iterator>⟧.next_gives string_bytes R.remaining input given × Report Q.word Q.kinds Q.eq given text × Appends (W.contents out.old) (W.contents out.new) text) }
{
    ask_lines::<Q, _, _>(input.lines(heap), heap, out, memory)
}
