//! A unit of a simulated vehicle, whose kind says what it does of its own.

ghost use Rattle.std.specs.Prelude.{◌≡◌};
ghost use Rattle.fault_memory.specs.Memory.{new_memory};
ghost use Rattle.unit_trait.specs.Kinds.{is_willing, MayWork};

use crate::kind::UnitKind;
use crate::refused::Refused;
use crate::unit::Unit;
use fault_memory::{FaultChange, FaultError, FaultMemory};
use name_field::Name;
use std::alloc::Global;

/// A simulated unit of a kind.
///
/// - Plain: it clears and obeys, and wants to tell of its active codes. Its own work is nothing.
/// - Guarded: it neither clears nor obeys, and wants to tell nothing. Its own work is nothing.
/// - Flicker: like a plain one, but its one code comes and goes as it works.
#[derive(Drop)]
pub struct Simulated {
    name: Name,
    memory: FaultMemory,
    kind: UnitKind,
}

impl Simulated {
    /// A unit with an empty fault memory. Takes no memory.
    pub fn new(alloc: Global, name: Name, kind: UnitKind) -> Simulated
        ensures name { result.name ≡ name }
        ensures memory { result.memory ≡ new_memory }
        ensures kind { result.kind ≡ kind }
    {
        Simulated {
            name,
            memory: FaultMemory::new(alloc),
            kind,
        }
    }

    fn is_willing(&self) -> bool
        ensures { result ≡ is_willing self.now.kind }
    {
        match self.kind {
            UnitKind::Plain | UnitKind::Flicker { .. } => true,
            UnitKind::Guarded => false,
        }
    }

    fn is_active(&self, spn: u32, fmi: u8) -> bool {
        self.memory
            .active()
            .iter()
            .any(|code| code.spn() == spn && code.fmi() == fmi)
    }
}

impl Unit for Simulated {
    ghost name_of = { λ u. u.name };

    ghost memory_of = { λ u. u.memory };

    ghost wants = { λ u. is_willing u.kind };

    ghost Works = { λ u v. (v.kind ≡ u.kind) × MayWork u.kind u.memory v.memory };

    ghost Takes = { λ u _ v. v.kind ≡ u.kind };

    ghost Answers = { λ u _ agrees v. (agrees ≡ is_willing u.kind) × (v.kind ≡ u.kind) };

    fn name(&self) -> Name {
        self.name
    }

    fn memory(&self) -> &FaultMemory {
        &self.memory
    }

    /// A flicker heals its code where that is active, and sets it where it is not. A refused change is let go.
    fn think(&mut self) {
        let UnitKind::Flicker { spn, fmi } = self.kind else {
            return;
        };
        let change = if self.is_active(spn, fmi) {
            FaultChange::Heal { spn, fmi }
        } else {
            FaultChange::Set { spn, fmi }
        };
        let _ = self.memory.apply(change);
    }

    fn apply(&mut self, change: FaultChange) -> Result<(), FaultError> {
        self.memory.apply(change)
    }

    fn clear_active(&mut self) -> Result<(), Refused> {
        if !self.is_willing() {
            return Err(Refused);
        }
        self.memory.clear_active();
        Ok(())
    }

    fn clear_previous(&mut self) -> Result<(), Refused> {
        if !self.is_willing() {
            return Err(Refused);
        }
        self.memory.clear_previous();
        Ok(())
    }

    fn commanded(&mut self, _address: u8) -> bool {
        self.is_willing()
    }

    fn wants_dm1(&self) -> bool {
        self.is_willing()
    }
}
