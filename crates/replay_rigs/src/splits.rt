// Asking again for the groups that the two halves hear, and where a message goes, by seats and by keys.
use crate::names::{Numbered, Room, named, unused};
use asking::{Round, Unasked, read, read_while};
use refusals::Refusal;
use scenarios::RoundScenario;
use std::alloc::Global;
use std::str::SplitWhitespace;
use views::{PublicKey, Scenario, Seat, SplitTarget, view_partitions, view_route};

// The names at a view are parted by a script or, where there is none, by the view's own split.
#[derive(Clone, Copy)]
struct Split<'q> {
    script: Option<Scenario<'q>>,
    view: u64,
    term: u32,
    names: &'q [u16],
}

// The groups of both halves that a line tells, or none where it says that the Rust panics.
type Groups = Option<(Vec<u16>, Vec<u16>)>;

// The longest script that is asked about; no question that is stored has a longer one.
const ROUNDS: usize = 15;

// As many names as there can be, and so as many in a group.
const NAMES: usize = 64;

// A script, and the view behind it.
pub(crate) fn read_script(
    words: &mut SplitWhitespace<'_>,
    heap: Global,
) -> Result<(Vec<RoundScenario>, u64), Unasked> {
    let (rounds, Some(view)) = read_while::<Round>(words, heap, ROUNDS)? else {
        return Err(Unasked::Form);
    };
    let view = view.parse::<u64>().map_err(|_| Unasked::Form)?;
    Ok((rounds.iter().map(|read| read.round).collect(heap)?, view))
}

// The names up to the bar.
fn read_names(words: &mut SplitWhitespace<'_>, heap: Global) -> Result<Vec<u16>, Unasked> {
    match read_while::<u16>(words, heap, NAMES)? {
        (names, Some("|")) => Ok(names),
        _ => Err(Unasked::Form),
    }
}

fn read_groups(words: &mut SplitWhitespace<'_>, heap: Global) -> Result<Groups, Unasked> {
    if words.clone()?.next() == Some("panic") {
        words.next();
        return Ok(None);
    }
    let first = read_names(words, heap)?;
    match read_while::<u16>(words, heap, NAMES)? {
        (second, None) => Ok(Some((first, second))),
        _ => Err(Unasked::Form),
    }
}

impl Split<'_> {
    // The Rust panics for want of names; nothing is written then.
    fn groups_are<N: Numbered>(&self, heap: Global, told: &Groups) -> Result<bool, Unasked> {
        let names = named::<N>(heap, self.names)?;
        let marker = unused(self.names)?;
        let mut first = Room::<N>::marked(heap, marker)?;
        let mut second = Room::<N>::marked(heap, marker)?;
        let answer = match &self.script {
            Some(script) => script.partitions(
                self.view,
                self.term,
                &names,
                &mut first.slots,
                &mut second.slots,
            ),
            None => view_partitions(
                self.view,
                self.term,
                &names,
                &mut first.slots,
                &mut second.slots,
            ),
        };
        Ok(match (answer, told) {
            (Ok(sizes), Some((a, b))) => {
                sizes == (a.len(), b.len()) && first.holds(a) && second.holds(b)
            }
            (Err(Refusal::NoNames), None) => first.holds(&[]) && second.holds(&[]),
            _ => false,
        })
    }

    // The Rust panics where the sender is none of the names in a scripted round, and where there are no names for a split.
    fn target_is<N: Numbered>(
        &self,
        heap: Global,
        sender: u16,
        told: &str,
    ) -> Result<bool, Unasked> {
        let names = named::<N>(heap, self.names)?;
        let sender = N::numbered(sender);
        let answer = match &self.script {
            Some(script) => script.route(self.view, self.term, &sender, &names),
            None => view_route(self.view, self.term, &sender, &names),
        };
        let refused = if self.script.is_none() && self.names.is_empty() {
            Refusal::NoNames
        } else {
            Refusal::UnknownSender
        };
        Ok(match answer {
            Ok(target) => told == word_of(target),
            Err(refusal) => told == "panic" && refusal == refused,
        })
    }
}

// The word that stored answers have for it; it is compared, and printed nowhere.
fn word_of(target: SplitTarget) -> &'static str {
    match target {
        SplitTarget::None => "None",
        SplitTarget::Primary => "Primary",
        SplitTarget::Secondary => "Secondary",
        SplitTarget::Both => "Both",
    }
}

// A list of names always has groups by a script.
pub(crate) fn groups_agree(
    words: &mut SplitWhitespace<'_>,
    heap: Global,
    script: Option<Scenario<'_>>,
    view: u64,
) -> Result<bool, Unasked> {
    let term = read(words)?;
    let names = read_names(words, heap)?;
    let told = read_groups(words, heap)?;
    let split = Split {
        script,
        view,
        term,
        names: &names,
    };
    Ok(split.groups_are::<Seat>(heap, &told)? && split.groups_are::<PublicKey>(heap, &told)?)
}

pub(crate) fn route_agrees(
    words: &mut SplitWhitespace<'_>,
    heap: Global,
    script: Option<Scenario<'_>>,
    view: u64,
) -> Result<bool, Unasked> {
    let term = read(words)?;
    let sender = read(words)?;
    let names = read_names(words, heap)?;
    let told = words.next().ok_or(Unasked::Form)?;
    let split = Split {
        script,
        view,
        term,
        names: &names,
    };
    Ok(
        split.target_is::<Seat>(heap, sender, told)?
            && split.target_is::<PublicKey>(heap, sender, told)?,
    )
}
