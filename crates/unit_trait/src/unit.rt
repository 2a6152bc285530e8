ghost use Rattle.std.specs.Prelude.{ℕ, Bool, ◌≡◌, ◌⊎◌, OnOk, OnErr, IfErr, is_ok};
ghost use Rattle.fault_memory.specs.Memory.{MemoryValue};
ghost use Rattle.fault_memory.specs.declared.change.FaultChange.{FaultChange as AnyChange};
ghost use Rattle.unit_trait.specs.declared.question.Question.{Question as AnyQuestion};
ghost use Rattle.fault_memory.specs.Changes.{Grows, changed, cleared_active, cleared_previous};

use crate::question::{Clear, Question};
use crate::refused::Refused;
use fault_memory::{FaultChange, FaultError, FaultMemory};
use name_field::Name;

/// A control unit: its NAME, its fault memory, and what it answers to the bus.
///
/// No call changes the NAME. What a unit chooses (how it thinks, whether it clears, whether it obeys a commanded address,
/// whether it wants to begin a DM1) is its own.
pub trait Unit: Send + Drop {
    /// The NAME.
    ghost name_of: { Self → ℕ };

    /// What its fault memory holds.
    ghost memory_of: { Self → MemoryValue };

    /// Whether it wants to begin a DM1.
    ghost wants: { Self → Bool };

    /// What the unit may be after its own work: before, after.
    ghost Works: { Self → Self → Type 0 };

    /// What it may be after it was told of a change of its fault memory: before, the change, after.
    ghost Takes: { Self → AnyChange → Self → Type 0 };

    /// What it may answer to a question, and what it may be then: before, the question, whether it agrees, after.
    ghost Answers: { Self → AnyQuestion → Bool → Self → Type 0 };

    /// The NAME (SAE J1939-81).
    fn name(&self) -> Name
        ensures { result ≡ name_of self.now };

    /// The fault memory (SAE J1939-73).
    fn memory(&self) -> &FaultMemory
        ensures { result.now ≡ memory_of self.now };

    /// Does the unit's own work, which may change the fault memory in any lawful way.
    fn think(&mut self)
        ensures name { name_of self.new ≡ name_of self.old }
        ensures works { Works self.old self.new };

    /// Makes the change in the fault memory, or refuses it as the memory does: for the reason that is defined for the change, or
    /// for want of the memory of a longer list. Refused, it leaves the fault memory as it was.
    fn apply(&mut self, change: FaultChange) -> Result<(), FaultError>
        ensures name { name_of self.new ≡ name_of self.old }
        ensures ok { OnOk result (changed (memory_of self.old) change ≡ Ok (memory_of self.new)) }
        ensures refused { (e : FaultError) → changed (memory_of self.old) change ≡ Err e → result ≡ Err e }
        ensures why { IfErr result (λ e. ((e ≡ FaultError.OutOfMemory)
            × Grows (changed (memory_of self.old) change) (memory_of self.old))
            ⊎ (changed (memory_of self.old) change ≡ Err e)) }
        ensures err { OnErr result (memory_of self.new ≡ memory_of self.old) }
        ensures takes { Takes self.old change self.new };

    /// Clears the active and the pending codes and puts the lamps off (DM11), or refuses (18) with the memory as it was. Takes no
    /// memory.
    fn clear_active(&mut self) -> Result<(), Refused>
        ensures name { name_of self.new ≡ name_of self.old }
        ensures ok { OnOk result (memory_of self.new ≡ cleared_active (memory_of self.old)) }
        ensures err { OnErr result (memory_of self.new ≡ memory_of self.old) }
        ensures answers { Answers self.old (Question.Clear Clear.Active) (is_ok result) self.new };

    /// Clears the previously active codes (DM3), or refuses (18) with the memory as it was. Takes no memory.
    fn clear_previous(&mut self) -> Result<(), Refused>
        ensures name { name_of self.new ≡ name_of self.old }
        ensures ok { OnOk result (memory_of self.new ≡ cleared_previous (memory_of self.old)) }
        ensures err { OnErr result (memory_of self.new ≡ memory_of self.old) }
        ensures answers { Answers self.old (Question.Clear Clear.Previous) (is_ok result) self.new };

    /// Whether the unit obeys the command to hold the address (0 to 253). Keeps the memory, and takes none.
    fn commanded(&mut self, address: u8) -> bool
        ensures name { name_of self.new ≡ name_of self.old }
        ensures memory { memory_of self.new ≡ memory_of self.old }
        ensures answers { Answers self.old (Question.Hold address) result self.new };

    /// Whether the unit wants to begin a DM1 at its next turn.
    fn wants_dm1(&self) -> bool
        ensures { result ≡ wants self.now };
}
