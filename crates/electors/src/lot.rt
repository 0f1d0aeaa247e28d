// The elector by lot.
ghost use Rattle.std.specs.Prelude.{◌%◌};
ghost use Rattle.electors.specs.Making.{MadeOf};

use crate::elector::{Dynamic, Elector};
use crate::panel::Panel;
use refusals::Refusal;
use terms::TermLength;

// The number that is handed in decides.
#[derive(Clone, Copy)]
pub struct Lot {
    panel: Panel,
}

impl Lot {
    // A lot among so many participants in terms of so many views, from 2 to 64 participants and terms of at least 1 view.
    pub fn new(participants: usize, term: u32) -> Result<Lot, Refusal>
        ensures { MadeOf participants term (λ e. e.panel.count) (λ e. e.panel.term.length) result }
    {
        let panel = Panel::new(participants, term)?;
        Ok(Lot { panel })
    }
}

impl Elector for Lot {
    type Mode = Dynamic;

    ghost counts = { λ e. e.panel.count };

    ghost terms = { λ e. e.panel.term.length };

    ghost elects = { λ e epoch view input. input.number % e.panel.count };

    fn participants(&self) -> usize {
        self.panel.participants()
    }

    fn term_length(&self) -> TermLength {
        self.panel.term_length()
    }

    fn elect(&self, _epoch: u64, _view: u64, input: &Dynamic) -> usize {
        self.panel.member(input.number)
    }
}
