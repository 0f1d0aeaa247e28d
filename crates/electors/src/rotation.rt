// The elector by turns.
ghost use Rattle.electors.specs.Making.{MadeOf};
ghost use Rattle.electors.specs.Scripts.{turn_of};

use crate::elector::{Elector, Scheduled};
use crate::panel::Panel;
use refusals::Refusal;
use terms::TermLength;

// The participants take turns, a term each. Turns and lots are types of their own, since each has its own input; what they share
// is the panel's.
#[derive(Clone, Copy)]
pub struct Rotation {
    panel: Panel,
}

impl Rotation {
    // Turns of so many participants in terms of so many views, from 2 to 64 participants and terms of at least 1 view.
    pub fn new(participants: usize, term: u32) -> Result<Rotation, Refusal>
        ensures { MadeOf participants term (λ e. e.panel.count) (λ e. e.panel.term.length) result }
    {
        let panel = Panel::new(participants, term)?;
        Ok(Rotation { panel })
    }
}

impl Elector for Rotation {
    type Mode = Scheduled;

    ghost counts = { λ e. e.panel.count };

    ghost terms = { λ e. e.panel.term.length };

    ghost elects = { λ e epoch view input. turn_of e.panel.count e.panel.term.length view };

    fn participants(&self) -> usize {
        self.panel.participants()
    }

    fn term_length(&self) -> TermLength {
        self.panel.term_length()
    }

    fn elect(&self, _epoch: u64, view: u64, _input: &Scheduled) -> usize {
        self.panel.member(self.term_length().index(view))
    }
}
