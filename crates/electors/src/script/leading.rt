// A script as an elector.
ghost use Rattle.electors.specs.States.{state_elects};

use super::ElectorState;
use crate::elector::Elector;
use terms::TermLength;

impl<E: Elector> Elector for ElectorState<E> {
    type Mode = E::Mode;

    ghost counts = { λ s. E.Elector.counts s.below };

    ghost terms = { λ s. E.Elector.terms s.below };

    ghost elects = { state_elects E.Elector.counts E.Elector.terms E.Elector.elects };

    fn participants(&self) -> usize {
        self.below.participants()
    }

    fn term_length(&self) -> TermLength {
        self.below.term_length()
    }

    // At a place of the script the leader there, else the leader below.
    fn elect(&self, epoch: u64, view: u64, input: &E::Mode) -> usize {
        let place = self.below.term_length().script_place(view);
        let count = self.below.participants();
        match self.leaders().get(place as usize) {
            Some(leader) if *leader < count => *leader,
            _ => self.below.elect(epoch, view, input),
        }
    }
}
