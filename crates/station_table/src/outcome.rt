ghost use Rattle.std.specs.Prelude.{◌≡◌};
ghost use Rattle.station_table.specs.Reactions.{silent};

use crate::reaction::Reaction;
use bus_model::Change;
use std::alloc::Global;

/// What a reading made the station do, and what it changed of what the station shows.
#[derive(Drop)]
pub struct Outcome {
    /// What the station does in answer.
    pub reaction: Reaction,
    /// What changed.
    pub change: Change,
}

impl Outcome {
    /// The station does nothing.
    #[inline]
    pub fn quiet(alloc: Global, change: Change) -> Outcome
        ensures { result ≡ record { reaction = silent; change = change } }
    {
        Outcome {
            reaction: Reaction::silent(alloc),
            change,
        }
    }

    /// Nothing changed.
    #[inline]
    pub fn answer(reaction: Reaction) -> Outcome
        ensures { result ≡ record { reaction = reaction; change = Change.Nothing } }
    {
        Outcome {
            reaction,
            change: Change::Nothing,
        }
    }
}
