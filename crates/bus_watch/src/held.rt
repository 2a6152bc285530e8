ghost use Rattle.std.specs.Prelude.{◌≡◌};
ghost use Rattle.bus_watch.specs.Held.{held_with, is_filled, most_of, nothing_held};

use crate::watch::Watch;

/// Between how many pairs of addresses messages of several packets may be half joined: all units of a bus have fewer.
const MOST_PAIRS: usize = 4_096;

/// How many NAMEs a bus has room for in any case, twice as many as it has addresses: so half is free when it is begun anew.
const ROOM_OF_A_BUS: usize = 512;

/// How much is kept of all buses together before what was heard is reported and let go.
#[derive(Clone, Copy)]
pub struct Limits {
    /// How many NAMEs have rows, and how many units have lists; or 512 for each bus, where that is more.
    pub most: usize,
    /// How many runs there are in all lists together. One of several codes counts as many.
    pub keep: u64,
}

/// How much watches keep together.
#[derive(Clone, Copy)]
pub(crate) struct Held {
    names: usize,
    units: usize,
    runs: u64,
    pairs: usize,
    room: usize,
}

impl Held {
    /// Nothing, by no watch.
    pub(crate) fn nothing() -> Held
        ensures { result ≡ nothing_held }
    {
        Held {
            names: 0,
            units: 0,
            runs: 0,
            pairs: 0,
            room: 0,
        }
    }

    /// This, with what one more watch keeps.
    pub(crate) fn with(self, watch: &Watch) -> Held
        ensures { result ≡ held_with self watch.now }
    {
        Held {
            names: self.names.saturating_add(watch.names()),
            units: self.units.saturating_add(watch.units()),
            runs: self.runs.saturating_add(watch.kept()),
            pairs: self.pairs.saturating_add(watch.pairs()),
            room: self.room.saturating_add(ROOM_OF_A_BUS),
        }
    }

    /// Whether that is as much as may be kept, or messages were announced between 4,096 pairs of addresses.
    pub(crate) fn fills(self, limits: Limits) -> bool
        ensures { result ≡ is_filled limits self }
    {
        let most = self.most(limits);
        self.names >= most
            || self.units >= most
            || self.runs >= limits.keep
            || self.pairs >= MOST_PAIRS
    }

    /// How many NAMEs, and how many units, there may be.
    fn most(self, limits: Limits) -> usize
        ensures { result ≡ most_of limits self }
    {
        if limits.most < self.room {
            self.room
        } else {
            limits.most
        }
    }
}
