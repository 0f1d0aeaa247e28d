// What is asked.
ghost use Rattle.std.specs.Prelude.{[], ◌∷◌};
ghost use Rattle.replay_rigs.specs.declared.kind.Kind.TheVariants.{Sample, Shuffle, SplitMix, Sets, Set, Place, Partitions, Route, ViewPartitions, ViewRoute, Elect};
ghost use Rattle.replay_rigs.specs.Words.{word_of};

use crate::allocation::{set_agrees, sets_agree};
use crate::chance::{sample_agrees, shuffle_agrees, splitmix_agrees};
use crate::leading::elect_agrees;
use crate::place::place_agrees;
use crate::splits::{groups_agree, read_script, route_agrees};
use asking::{Question, Unasked, read};
use sampling::RankSlot;
use std::alloc::Global;
use std::str::SplitWhitespace;
use views::Scenario;

// A sample of ranks, a shuffled list, or the words of a seed; a number of compromised sets, or the set of a number; the place
// of a view, the groups or the target by a script, the groups or the target of a view split, or a leader.
#[derive(Clone, Copy, PartialEq, Eq)]
pub(crate) enum Kind {
    Sample,
    Shuffle,
    SplitMix,
    Sets,
    Set,
    Place,
    Partitions,
    Route,
    ViewPartitions,
    ViewRoute,
    Elect,
}

impl Question for Kind {
    // for the ranks of a sample
    type Memory = Vec<RankSlot>;

    ghost kinds = { Sample ∷ Shuffle ∷ SplitMix ∷ Sets ∷ Set ∷ Place ∷ Partitions ∷ Route ∷ ViewPartitions ∷ ViewRoute ∷ Elect ∷ [] };

    ghost word = { word_of };

    fn kinds() -> &'static [Kind] {
        &[
            Kind::Sample,
            Kind::Shuffle,
            Kind::SplitMix,
            Kind::Sets,
            Kind::Set,
            Kind::Place,
            Kind::Partitions,
            Kind::Route,
            Kind::ViewPartitions,
            Kind::ViewRoute,
            Kind::Elect,
        ]
    }

    fn word(self) -> &'static str {
        match self {
            Kind::Sample => "sample",
            Kind::Shuffle => "shuffle",
            Kind::SplitMix => "splitmix",
            Kind::Sets => "sets",
            Kind::Set => "set",
            Kind::Place => "place",
            Kind::Partitions => "partitions",
            Kind::Route => "route",
            Kind::ViewPartitions => "view_partitions",
            Kind::ViewRoute => "view_route",
            Kind::Elect => "elect",
        }
    }

    // The kind itself says how it is asked: each reads its line in its own way.
    fn agrees(
        self,
        words: &mut SplitWhitespace<'_>,
        heap: Global,
        memory: &mut Vec<RankSlot>,
    ) -> Result<bool, Unasked> {
        match self {
            Kind::Sample => sample_agrees(words, heap, memory),
            Kind::Shuffle => shuffle_agrees(words, heap),
            Kind::SplitMix => splitmix_agrees(words),
            Kind::Sets => sets_agree(words),
            Kind::Set => set_agrees(words, heap),
            Kind::Place => place_agrees(words),
            Kind::Partitions => {
                let (rounds, view) = read_script(words, heap)?;
                groups_agree(words, heap, Some(Scenario { rounds: &rounds }), view)
            }
            Kind::Route => {
                let (rounds, view) = read_script(words, heap)?;
                route_agrees(words, heap, Some(Scenario { rounds: &rounds }), view)
            }
            Kind::ViewPartitions => {
                let view = read(words)?;
                groups_agree(words, heap, None, view)
            }
            Kind::ViewRoute => {
                let view = read(words)?;
                route_agrees(words, heap, None, view)
            }
            Kind::Elect => elect_agrees(words, heap),
        }
    }
}
