// What is asked.
ghost use Rattle.std.specs.Prelude.{[], ◌∷◌};
ghost use Rattle.replay.specs.declared.kind.Kind.TheVariants.{Total, Edges, Edge, Unrank};
ghost use Rattle.replay.specs.Words.{word_of};

use crate::answer::{edge_agrees, edges_agree, total_agrees, unrank_agrees};
use asking::{Question, Unasked};
use scenarios::Slot;
use std::alloc::Global;
use std::str::SplitWhitespace;

// A number of scenarios, a number of edges, an edge, or the scenario of a rank.
#[derive(Clone, Copy, PartialEq, Eq)]
pub(crate) enum Kind {
    Total,
    Edges,
    Edge,
    Unrank,
}

impl Question for Kind {
    // for the counts of a plan
    type Memory = Vec<Slot>;

    ghost kinds = { Total ∷ Edges ∷ Edge ∷ Unrank ∷ [] };

    ghost word = { word_of };

    fn kinds() -> &'static [Kind] {
        &[Kind::Total, Kind::Edges, Kind::Edge, Kind::Unrank]
    }

    fn word(self) -> &'static str {
        match self {
            Kind::Total => "total",
            Kind::Edges => "edges",
            Kind::Edge => "edge",
            Kind::Unrank => "unrank",
        }
    }

    // The kind itself says how it is asked: each reads its line in its own way.
    fn agrees(
        self,
        words: &mut SplitWhitespace<'_>,
        heap: Global,
        memory: &mut Vec<Slot>,
    ) -> Result<bool, Unasked> {
        match self {
            Kind::Total => total_agrees(words, memory),
            Kind::Edges => edges_agree(words),
            Kind::Edge => edge_agrees(words),
            Kind::Unrank => unrank_agrees(words, heap, memory),
        }
    }
}
