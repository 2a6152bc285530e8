//! A unit of one's own.

ghost use Rattle.std.specs.Prelude.{◌≡◌};

use fault_memory::{FaultChange, FaultError, FaultMemory};
use name_field::Name;
use std::alloc::Global;
use unit_trait::{Refused, Unit};

/// A unit that clears and obeys as it was told to.
#[derive(Drop)]
pub struct WillingUnit {
    pub name: Name,
    pub memory: FaultMemory,
    pub willing: bool,
}

impl WillingUnit {
    /// A unit with the active codes 100/1, 101/1 and so on, so many of them.
    pub fn new(
        alloc: Global,
        name: u64,
        willing: bool,
        codes: u32,
    ) -> Result<WillingUnit, FaultError> {
        let mut memory = FaultMemory::new(alloc);
        for spn in 100..100 + codes.min(445) {
            memory.apply(FaultChange::Set { spn, fmi: 1 })?;
        }
        Ok(WillingUnit {
            name: Name::from_number(name),
            memory,
            willing,
        })
    }
}

impl Unit for WillingUnit {
    ghost name_of = { λ u. u.name };

    ghost memory_of = { λ u. u.memory };

    ghost wants = { λ u. u.willing };

    ghost Works = { λ u v. v ≡ u };

    ghost Takes = { λ u _ v. v.willing ≡ u.willing };

    ghost Answers = { λ u _ agrees v. (agrees ≡ u.willing) × (v.willing ≡ u.willing) };

    fn name(&self) -> Name {
        self.name
    }

    fn memory(&self) -> &FaultMemory {
        &self.memory
    }

    fn think(&mut self) {}

    fn apply(&mut self, change: FaultChange) -> Result<(), FaultError> {
        self.memory.apply(change)
    }

    fn clear_active(&mut self) -> Result<(), Refused> {
        if !self.willing {
            return Err(Refused);
        }
        self.memory.clear_active();
        Ok(())
    }

    fn clear_previous(&mut self) -> Result<(), Refused> {
        if !self.willing {
            return Err(Refused);
        }
        self.memory.clear_previous();
        Ok(())
    }

    fn commanded(&mut self, _address: u8) -> bool {
        self.willing
    }

    fn wants_dm1(&self) -> bool {
        self.willing
    }
}
