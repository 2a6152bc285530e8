//! The unit: what it is asked for, and its own work.

ghost use Rattle.std.specs.Prelude.{◌≡◌, true};

use fault_memory::{FaultChange, FaultError, FaultMemory};
use name_field::Name;
use std::alloc::Global;
use unit_trait::{Refused, Unit};

/// A unit whose fault 100/1 comes with its turn of a number; it clears and obeys as it is asked.
#[derive(Drop)]
pub struct LateUnit {
    pub name: Name,
    pub memory: FaultMemory,
    /// How many turns are left until the fault; 0: it came.
    pub left: u32,
}

impl LateUnit {
    /// A unit without codes.
    pub fn new(alloc: Global, name: u64, left: u32) -> LateUnit {
        LateUnit {
            name: Name::from_number(name),
            memory: FaultMemory::new(alloc),
            left,
        }
    }
}

impl Unit for LateUnit {
    ghost name_of = { λ u. u.name };

    ghost memory_of = { λ u. u.memory };

    ghost wants = { λ _. true };

    ghost Works = { λ u v. v.name ≡ u.name };

    ghost Takes = { λ u _ v. v.left ≡ u.left };

    ghost Answers = { λ u _ agrees v. (agrees ≡ true) × (v.left ≡ u.left) };

    fn name(&self) -> Name {
        self.name
    }

    fn memory(&self) -> &FaultMemory {
        &self.memory
    }

    fn think(&mut self) {
        if self.left == 0 {
            return;
        }
        self.left -= 1;
        if self.left == 0 {
            // (where memory is refused, the fault comes to no one's notice)
            let _ = self.memory.apply(FaultChange::Set { spn: 100, fmi: 1 });
        }
    }

    fn apply(&mut self, change: FaultChange) -> Result<(), FaultError> {
        self.memory.apply(change)
    }

    fn clear_active(&mut self) -> Result<(), Refused> {
        self.memory.clear_active();
        Ok(())
    }

    fn clear_previous(&mut self) -> Result<(), Refused> {
        self.memory.clear_previous();
        Ok(())
    }

    fn commanded(&mut self, _address: u8) -> bool {
        true
    }

    fn wants_dm1(&self) -> bool {
        true
    }
}
