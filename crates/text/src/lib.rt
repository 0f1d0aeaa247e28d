// The reader of plan lines.
//
// A plan line has five fields: participants, faults, rounds, mode and cap. A space ends each of the first four, a line feed
// ends the fifth and the text. Numbers are decimal, with no needless zero in front, of at most 32 bits; the mode is `s` for
// sampled or `u` for sustained.

#![tactic(auto)]

ghost use Rattle.std.specs.Prelude.{◌≡◌, ℕ, ◌+◌, ◌<◌, ◌==◌, length, drop, List, Option, IfSome, Ok, Err};
ghost use Rattle.std.specs.Fn.{FnReturnsAt};
ghost use Rattle.std.specs.List.{position};
ghost use Rattle.text.specs.Lines as lines;

use refusals::Refusal;
use scenarios::Mode;

#[derive(Clone, Copy, PartialEq, Eq, Debug)]
pub struct PlanLine {
    pub participants: u32,
    pub faults: u32,
    pub rounds: u32,
    pub mode: Mode,
    pub cap: u32,
}

// How many bytes from the place `from` on stand before the first byte `end`.
fn field_length(text: &[u8], from: usize, end: u8) -> Option<usize>
    ensures length { result ≡ position (λ b. b == end) (drop from text.now) }
    ensures within { IfSome result (λ n. from + n < length text.now) }
{
    text.iter().skip(from).position(|b| *b == end)
}

// The number so far with the digit `b` after it, where that is a digit and the number fits.
fn push_digit(n: u32, b: u8) -> Option<u32>
    ensures { result ≡ lines.pushed n b }
{
    let digit = char::from(b).to_digit(10)?;
    n.checked_mul(10)?.checked_add(digit)
}

// The number that the bytes write, where they are a numeral of at most 32 bits.
#[tactic(auto, using(crate::proofs::Digits::counted_more, crate::proofs::Digits::counted_stop, crate::proofs::Digits::counted_all))]
fn read_numeral(bytes: &[u8]) -> Option<u32>
    ensures { result ≡ lines.numeral bytes.now }
{
    if let [] | [b'0', _, ..] = bytes {
        return None;
    }
    let mut n: u32 = 0;
    for b in bytes {
        n = push_digit(n, *b)?;
    }
    Some(n)
}

// The mode that a byte stands for: a letter, so it is matched as a character.
fn mode_letter(b: u8) -> Option<Mode>
    ensures { result ≡ lines.mode_of b }
{
    match b as char {
        's' => Some(Mode::Sampled),
        'u' => Some(Mode::Sustained),
        _ => None,
    }
}

// The mode that the bytes name, where they are the one letter of a mode.
fn mode_in(bytes: &[u8]) -> Option<Mode>
    ensures { result ≡ lines.mode_in bytes.now }
{
    match bytes {
        [b] => mode_letter(*b),
        _ => None,
    }
}

// The field at `from` as `read` reads it, and the place after its end. The text is handed on whole, since a refusal says the place in it.
fn read_field<T, F: Fn(&[u8]) -> Option<T>>(
    text: &[u8],
    from: usize,
    end: u8,
    read: F,
) -> Result<(T, usize), Refusal>
    requires { F.IsAlwaysCallable read }
    ensures { (held : List ℕ → Option T) → lines.Reads (FnReturnsAt F.Fn read) held text.now from → result ≡ lines.field_at held text.now from end }
{
    let length = field_length(text, from, end).ok_or(Refusal::PlanLine(text.len()))?;
    let e = from + length;
    let held = read(&text[from..e]).ok_or(Refusal::PlanLine(from))?;
    Ok((held, e + 1))
}

// Reads a text that is one plan line and nothing more; a refusal has the place of the first fault.
pub fn read_plan_line(text: &[u8]) -> Result<PlanLine, Refusal>
    ensures { elim result [ Ok line ↦ lines.Line text.now line | Err e ↦ lines.Refused text.now e ] }
{
    let (participants, at) = read_field(text, 0, b' ', read_numeral)?;
    let (faults, at) = read_field(text, at, b' ', read_numeral)?;
    let (rounds, at) = read_field(text, at, b' ', read_numeral)?;
    let (mode, at) = read_field(text, at, b' ', mode_in)?;
    let (cap, at) = read_field(text, at, b'\n', read_numeral)?;
    if at < text.len() {
        return Err(Refusal::PlanLine(at));
    }
    Ok(PlanLine {
        participants,
        faults,
        rounds,
        mode,
        cap,
    })
}

// That a text is at most one line, and is one just where no fault is found; and that a number is read just where it is written so.
// A theorem has nothing to answer, so this function and those below answer 0.
pub fn lines_stand() -> u8
    ensures lines_stand { lines.LinesStand }
    ensures answer { result ≡ 0 }
{
    0
}

// Examples of lines, and of places of faults.
pub fn lines_worked_stand() -> u8
    ensures lines_worked { lines.LinesWorked }
    ensures answer { result ≡ 0 }
{
    0
}
