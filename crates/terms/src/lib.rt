// Leader terms: which term a view is in, which round of a script it plays, and where its term begins.

#![tactic(auto)]

ghost use Rattle.std.specs.Prelude.{◌≡◌, ◌<◌, Ok, Err};
ghost use Rattle.refusals.specs.Refusals.{number_of};
ghost use Rattle.terms.specs.Terms as terms;

use refusals::Refusal;

// How many views share one leader; at least 1.
#[derive(Clone, Copy)]
pub struct TermLength {
    length: u32,
    ghost ok: { 0 < length },
}

impl TermLength {
    // A term of so many views, unless it has none.
    pub fn new(length: u32) -> Result<TermLength, Refusal>
        ensures { elim result [ Ok t ↦ (0 < length) × (t.length ≡ length) | Err e ↦ (length ≡ 0) × (number_of e ≡ 18) ] }
    {
        if length == 0 {
            return Err(Refusal::NoTerm);
        }
        Ok(TermLength { length })
    }

    // How many views share one leader.
    pub fn get(&self) -> u32
        ensures { (result ≡ self.now.length) × (0 < result) }
    {
        self.length
    }

    // The number of the term with this view: 0 for view 0, from 1 on for the others.
    #[tactic(auto, using(crate::proofs::Indices::index_is))]
    pub fn index(&self, view: u64) -> u64
        ensures { result ≡ terms.term_index self.now.length view }
    {
        view.div_ceil(u64::from(self.length))
    }

    // The place of the round that a script plays at this view.
    pub fn script_place(&self, view: u64) -> u64
        ensures { result ≡ terms.script_place self.now.length view }
    {
        self.index(view).saturating_sub(1)
    }

    // The first view of the term with this view.
    #[tactic(auto, using(crate::proofs::Indices::start_below))]
    pub fn start(&self, view: u64) -> u64
        ensures { result ≡ terms.term_start self.now.length view }
    {
        if view == 0 {
            0
        } else {
            u64::from(self.length) * self.script_place(view) + 1
        }
    }
}
