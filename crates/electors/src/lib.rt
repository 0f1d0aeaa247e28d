// Electors: who leads each view, by turns, by lot or by a script, and that what an elector means decides what is seen of it.

#![tactic(auto)]

ghost use Rattle.std.specs.Prelude.{◌≡◌};
ghost use Rattle.electors.specs.Scripts.{SameMeaning};
ghost use Rattle.electors.specs.States.{Answered, Alike};

mod elector;
mod lot;
mod panel;
mod rotation;
mod script;

pub use elector::{Dynamic, Elector, Scheduled};
pub use lot::Lot;
pub use rotation::Rotation;
pub use script::{ElectorState, ScriptRefused};

// What is seen of two electors at a view: each one's participants, term length and leader.
// Of electors that mean the same the same is seen.
pub fn elect_both<I, E: Elector<Mode = I>, F: Elector<Mode = I>>(
    e: &E,
    f: &F,
    epoch: u64,
    view: u64,
    input: &I,
) -> ((usize, u32, usize), (usize, u32, usize))
    ensures first { result.0 ≡ (E.Elector.counts e.now, E.Elector.terms e.now, E.Elector.elects e.now epoch view input.now) }
    ensures second { result.1 ≡ (F.Elector.counts f.now, F.Elector.terms f.now, F.Elector.elects f.now epoch view input.now) }
    ensures same { SameMeaning (E.Elector.counts e.now) (F.Elector.counts f.now) (E.Elector.terms e.now) (F.Elector.terms f.now) (E.Elector.elects e.now) (F.Elector.elects f.now) → result.0 ≡ result.1 }
{
    (
        (
            e.participants(),
            e.term_length().get(),
            e.elect(epoch, view, input),
        ),
        (
            f.participants(),
            f.term_length().get(),
            f.elect(epoch, view, input),
        ),
    )
}

// One script over two electors.
// Over electors that mean the same the two scripts mean the same, and so on for scripts over these.
#[tactic(auto, using(crate::proofs::Meanings::answered_alike))]
pub fn script_both<I, E: Elector<Mode = I>, F: Elector<Mode = I>>(
    e: E,
    f: F,
    leaders: &[usize],
) -> (
    Result<ElectorState<E>, ScriptRefused<E>>,
    Result<ElectorState<F>, ScriptRefused<F>>,
)
    ensures first { Answered E.Elector.counts E.Elector.terms E.Elector.elects e leaders.now result.0 }
    ensures second { Answered F.Elector.counts F.Elector.terms F.Elector.elects f leaders.now result.1 }
    ensures same { SameMeaning (E.Elector.counts e) (F.Elector.counts f) (E.Elector.terms e) (F.Elector.terms f) (E.Elector.elects e) (F.Elector.elects f) → Alike E.Elector.counts E.Elector.terms E.Elector.elects F.Elector.counts F.Elector.terms F.Elector.elects result.0 result.1 }
{
    (ElectorState::new(e, leaders), ElectorState::new(f, leaders))
}
