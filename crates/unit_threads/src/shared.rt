//! The garage that the threads of a run share under one lock.

ghost use Rattle.std.specs.Prelude.{◌≡◌, IfErr};
ghost use Rattle.garage.specs.Calls.{IsNoMemoryOrFull};
ghost use Rattle.unit_threads.specs.Going.{GoesOnFrom};

use crate::turn::{one_read, one_turn};
use garage::{Garage, GarageError, Parked};
use std::alloc::Global;
use std::marker::{Brand, PhantomData};
use unit_trait::Unit;

/// Stands for the garage that a run was handed.
pub(crate) trait Start: Send + Sync {
    ghost use Rattle.journal.specs.Journal.{GarageValue};

    ghost start: { GarageValue };
}

/// A run picks the garage that it was handed.
impl Start for Brand {
    ghost use Rattle.std.specs.Prelude.{[]};

    ghost start = { record { settings = record { stations = []; limit = 0 }; journal = [] } };
}

/// A garage that goes on from the one that a run was handed.
#[derive(Drop)]
pub(crate) struct SharedGarage<S: Start> {
    garage: Garage,
    start: PhantomData<S>,
    ghost goes_on: { GoesOnFrom S.start garage },
}

impl<S: Start> SharedGarage<S> {
    /// The garage as the run was handed it.
    pub(crate) fn new(garage: Garage) -> SharedGarage<S>
        requires { garage ≡ S.start }
    {
        SharedGarage {
            garage,
            start: PhantomData,
        }
    }

    /// The garage as the run hands it back.
    pub(crate) fn into_garage(self) -> Garage
        ensures { GoesOnFrom S.start result }
    {
        let SharedGarage { garage, start: _ } = self;
        garage
    }

    /// Gives a unit a seat.
    pub(crate) fn mount(
        &mut self,
        alloc: Global,
        unit: Box<dyn Unit>,
        want: u8,
    ) -> Result<Parked, (Box<dyn Unit>, GarageError)>
        requires { Unit {0} }
    {
        self.garage.mount(alloc, unit, want)
    }

    /// One turn of a unit.
    pub(crate) fn turn(&mut self, alloc: Global, parked: Parked) -> Result<Parked, GarageError>
        requires { Unit {0} }
    {
        one_turn(alloc, &mut self.garage, parked)
    }

    /// Takes a unit off the bus.
    pub(crate) fn dismiss(&mut self, parked: Parked) -> Result<(), GarageError> {
        self.garage.dismiss(parked)
    }

    /// Each station reads.
    pub(crate) fn read(&mut self, alloc: Global) -> Result<(), GarageError>
        ensures { IfErr result IsNoMemoryOrFull }
    {
        one_read(alloc, &mut self.garage)
    }
}
