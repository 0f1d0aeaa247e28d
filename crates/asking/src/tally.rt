// How many questions of each kind were asked, and how many answers agree.
ghost use Rattle.std.specs.Prelude.{◌≡◌, Some, IfOk};
ghost use Rattle.asking.specs.Tallies as tell;

use crate::question::Question;
use std::alloc::{AllocError, Global};
use std::fmt;

#[derive(Clone, Copy, PartialEq, Eq)]
pub(crate) struct Tally {
    pub(crate) asked: u64,
    pub(crate) agreed: u64,
}

impl Tally {
    // One question more, and one answer more that agrees if it does.
    fn with(self, agrees: bool) -> Tally
        ensures { result ≡ tell.one_more agrees self }
    {
        Tally {
            asked: self.asked.saturating_add(1),
            agreed: self.agreed.saturating_add(u64::from(agrees)),
        }
    }
}

impl fmt::Display for Tally {
    ghost output = { λ t. Some (tell.shown t) };

    fn fmt<W: fmt::Write>(&self, f: &mut fmt::Formatter<W>) -> fmt::Result {
        write!(f, "{} of {} agree", self.agreed, self.asked)
    }
}

// A tally for each kind.
#[derive(Drop)]
pub(crate) struct Tallies<Q> {
    pub(crate) each: Vec<(Q, Tally)>,
}

impl<Q: Question> Tallies<Q> {
    // Before the first question.
    pub(crate) fn none(heap: Global) -> Result<Tallies<Q>, AllocError>
        ensures { IfOk result (λ t. t.each.items ≡ tell.none_asked Q.kinds) }
    {
        let nothing = Tally {
            asked: 0,
            agreed: 0,
        };
        let each = Q::kinds()
            .iter()
            .map(|kind| (*kind, nothing))
            .collect(heap)?;
        Ok(Tallies { each })
    }

    // One question more of this kind; the other tallies stay.
    pub(crate) fn note(&mut self, kind: Q, agrees: bool)
        ensures { self.new.each.items ≡ tell.noted Q.eq kind agrees self.old.each.items }
    {
        for (of, tally) in self.each.iter_mut() {
            if *of == kind {
                *tally = tally.with(agrees);
            }
        }
    }
}
