// Participants that lead by terms: what turns and lots share.
ghost use Rattle.std.specs.Prelude.{◌≡◌, ◌%◌, ◌<◌};
ghost use Rattle.electors.specs.Making.{MadeOf};

use refusals::Refusal;
use terms::TermLength;

// So many participants, and how many views share one leader.
#[derive(Clone, Copy)]
pub(crate) struct Panel {
    count: usize,
    term: TermLength,
    ghost some: { 0 < count },
}

impl Panel {
    // From 2 to 64 participants in terms of at least 1 view; else the first rule broken. Scenarios test the same bounds, and the two
    // crates share only the refusals.
    pub(crate) fn new(participants: usize, term: u32) -> Result<Panel, Refusal>
        ensures { MadeOf participants term (λ p. p.count) (λ p. p.term.length) result }
    {
        if participants < 2 {
            return Err(Refusal::FewParticipants);
        }
        if participants > 64 {
            return Err(Refusal::ManyParticipants);
        }
        let term = TermLength::new(term)?;
        Ok(Panel {
            count: participants,
            term,
        })
    }

    // How many participants there are.
    pub(crate) fn participants(&self) -> usize
        ensures { result ≡ self.now.count }
    {
        self.count
    }

    // How many views share one leader.
    pub(crate) fn term_length(&self) -> TermLength
        ensures { result ≡ self.now.term }
    {
        self.term
    }

    // The participant that a number falls on, as they are counted over and over.
    pub(crate) fn member(&self, number: u64) -> usize
        ensures { (result ≡ number % self.now.count) × (result < self.now.count) }
    {
        (number % self.count as u64) as usize
    }
}
