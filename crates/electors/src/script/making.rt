// Scripts from lists of leaders.
ghost use Rattle.std.specs.Prelude.{◌≡◌, ◌≤◌, length, Some, None, Ok, Err};
ghost use Rattle.refusals.specs.Refusals.{number_of};
ghost use Rattle.electors.specs.Making.{leaders_fault};
ghost use Rattle.electors.specs.States.{leaders_of, Answered};

use super::{ElectorState, ScriptRefused};
use crate::elector::Elector;
use arrayvec::ArrayVec;
use refusals::Refusal;

// Refuses leaders of whom there are more than 64 or one is no participant.
fn check(count: usize, leaders: &[usize]) -> Result<(), Refusal>
    ensures { elim result [ Ok _ ↦ leaders_fault count leaders.now ≡ None | Err e ↦ leaders_fault count leaders.now ≡ Some (number_of e) ] }
{
    if leaders.len() > 64 {
        return Err(Refusal::ManyRounds);
    }
    if !leaders.iter().all(|leader| *leader < count) {
        return Err(Refusal::LeaderOutOfRange);
    }
    Ok(())
}

impl<E: Elector> ElectorState<E> {
    // A script over an elector, unless it has more than 64 leaders or one that is no participant.
    pub fn new(below: E, leaders: &[usize]) -> Result<ElectorState<E>, ScriptRefused<E>>
        ensures { Answered E.Elector.counts E.Elector.terms E.Elector.elects below leaders.now result }
    {
        match check(below.participants(), leaders) {
            Ok(()) => {
                let mut kept = ArrayVec::new();
                // It takes them all: there are at most 64.
                let _ = kept.try_extend_from_slice(leaders);
                Ok(ElectorState {
                    below,
                    leaders: kept,
                })
            }
            Err(refusal) => Err(ScriptRefused {
                refusal,
                script: ElectorState {
                    below,
                    leaders: ArrayVec::new(),
                },
            }),
        }
    }
}

impl<E> ElectorState<E> {
    // The leaders of the script.
    pub fn leaders(&self) -> &[usize]
        ensures value { result.now ≡ leaders_of self.now }
        ensures few { length result.now ≤ 64 }
    {
        self.leaders.as_slice()
    }
}
