ghost use Rattle.std.specs.Prelude.{◌≡◌, ◌<◌, ◌∷◌, [], List, OnOk};
ghost use Rattle.picture.specs.declared.unit.DrawnUnit.{DrawnUnit as AUnit};
ghost use Rattle.watch_page.specs.Listing.{Lists};
ghost use Rattle.watch_page.specs.declared.unit_list.Listed.{Listed as AListed};

use picture::DrawnUnit;
use std::alloc::{AllocError, Global};

/// How many units of each order are listed.
pub const MOST_LISTED: usize = 1_000;

/// How many orders there are of how bad it is what a unit on the bus tells, and then those that are gone.
pub(crate) const NOW: usize = 8;

/// How many orders there are: by the worst that a unit told at any time, and then by how it stands.
pub const ORDERS: usize = 7 * NOW;

/// Whether a unit is on the bus.
#[derive(Clone, Copy, PartialEq, Eq)]
pub enum Presence {
    /// It holds an address, or sends from one that nobody has claimed.
    On,
    /// It has lost its address, or could not claim one.
    Gone,
    /// It sent from an address that nobody had claimed, and frames were missed since, or somebody claimed it.
    Past,
    /// Frames were missed since it was heard: which address it holds is not known.
    Unknown,
}

/// A unit that is listed.
#[derive(Clone, Copy)]
pub struct Listed {
    /// In which order it stands, below `ORDERS`; the least first.
    pub order: usize,
    pub unit: DrawnUnit,
    /// Whether it is on the bus.
    pub presence: Presence,
}

/// Units that are listed: of each order the first `MOST_LISTED`.
#[derive(Drop)]
pub(crate) struct UnitList {
    pub(crate) listed: Vec<Listed>,
    counts: [usize; ORDERS],
}

impl UnitList {
    /// No unit is listed.
    pub(crate) fn new(alloc: Global) -> UnitList
        ensures { (so : AUnit → AListed) → Lists so [] result }
    {
        UnitList {
            listed: Vec::new(alloc),
            counts: [0; ORDERS],
        }
    }

    /// Lists a unit, unless as many of its order are.
    pub(crate) fn put(&mut self, one: &Listed) -> Result<(), AllocError>
        requires { one.now.order < ORDERS }
        ensures { OnOk result ((so : AUnit → AListed) (units : List AUnit) → so one.now.unit ≡ one.now → Lists so units self.old
            → Lists so (one.now.unit ∷ units) self.new) }
    {
        let count = self.counts[one.order];
        if count >= MOST_LISTED {
            return Ok(());
        }
        self.listed.push(*one)?;
        self.counts[one.order] = count + 1;
        Ok(())
    }
}
