// What the program prints, each line as a value with the bytes that it is written in.
ghost use Rattle.std.specs.Prelude.{Some};
ghost use Rattle.refusals.specs.Refusals.{number_of, place_of};
ghost use Rattle.list.specs.Shown as shown_as;

use refusals::Refusal;
use scenarios::RoundScenario;
use std::fmt;

// The first line of a listing.
#[derive(Clone, Copy)]
pub(crate) struct Header {
    pub(crate) participants: usize,
    pub(crate) rounds: usize,
    pub(crate) total: u64,
}

impl fmt::Display for Header {
    ghost output = { λ h. Some (shown_as.header h.participants h.rounds h.total) };

    fn fmt<W: fmt::Write>(&self, f: &mut fmt::Formatter<W>) -> fmt::Result {
        let Header {
            participants,
            rounds,
            total,
        } = *self;
        write!(
            f,
            "participants {participants} rounds {rounds} scenarios {total}"
        )
    }
}

// A rank and the rounds of its scenario.
#[derive(Clone, Copy)]
pub(crate) struct Line<'a> {
    pub(crate) rank: u64,
    pub(crate) rounds: &'a [RoundScenario],
}

impl fmt::Display for Line<'_> {
    ghost output = { λ l. Some (shown_as.line l.rank l.rounds.now) };

    fn fmt<W: fmt::Write>(&self, f: &mut fmt::Formatter<W>) -> fmt::Result {
        let rank = self.rank;
        write!(f, "{rank}")?;
        for round in self.rounds {
            let RoundScenario {
                leader,
                primary,
                secondary,
            } = *round;
            write!(f, " {leader}:{primary}:{secondary}")?;
        }
        Ok(())
    }
}

// Why there is no listing, in the form of this program; a refusal has no text of its own.
#[derive(Clone, Copy)]
pub(crate) struct Refused {
    pub(crate) refusal: Refusal,
}

impl fmt::Display for Refused {
    ghost output = { λ r. Some (shown_as.refused (number_of r.refusal) (place_of r.refusal)) };

    fn fmt<W: fmt::Write>(&self, f: &mut fmt::Formatter<W>) -> fmt::Result {
        let number = self.refusal.number();
        match self.refusal.place() {
            Some(place) => write!(f, "refused {number} {place}"),
            None => write!(f, "refused {number}"),
        }
    }
}
