// A round as a line writes it: its leader and both masks, with colons between.
ghost use Rattle.std.specs.Prelude.{MatchResult, OkIff};
ghost use Rattle.asking.specs.Rounds.{HasColon, IsSplit, IsNumber, number_in, ReadsRound};

use crate::unasked::Unasked;
use scenarios::RoundScenario;
use std::str::FromStr;

#[derive(Clone, Copy, PartialEq, Eq)]
pub struct Round {
    pub round: RoundScenario,
}

// The parts of a text around its first colon.
fn parts(text: &str) -> Result<(&str, &str), Unasked>
    ensures { MatchResult result (λ x. IsSplit text.now x.0.now x.1.now) (λ _. ¬ (HasColon text.now)) }
{
    text.split_once(':').ok_or(Unasked::Form)
}

fn number(text: &str) -> Result<u64, Unasked>
    ensures { OkIff result (IsNumber text.now) (number_in text.now) }
{
    text.parse::<u64>().map_err(|_| Unasked::Form)
}

impl FromStr for Round {
    type Err = Unasked;

    ghost from_str_gives = { ReadsRound };

    fn from_str(word: &str) -> Result<Round, Unasked> {
        let (leader, masks) = parts(word)?;
        let (primary, secondary) = parts(masks)?;
        Ok(Round {
            round: RoundScenario {
                leader: number(leader)? as usize,
                primary: number(primary)?,
                secondary: number(secondary)?,
            },
        })
    }
}
