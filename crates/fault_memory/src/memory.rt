ghost use Rattle.std.specs.Prelude.{◌≡◌, ◌≤◌, ◌⊎◌, ◌↔◌, Result, Ok, Err, OnOk, OnErr, IfOk, IfErr, IsTrue};
ghost use Rattle.std.specs.List.{list_any, position};
ghost use Rattle.trouble_code.specs.Code.{code};
ghost use Rattle.fault_memory.specs.Memory.{MemoryValue, new_memory, all_codes, codes_held, IsKeptCode, IsLawfulMemory};
ghost use Rattle.fault_memory.specs.Changes.{is_fault, if_in_range, changed, Grows, Follows, fault_set, fault_healed, fault_pended, fault_unpended, cleared_active, cleared_previous};
ghost use Rattle.fault_memory.specs.declared.error.FaultError.{FaultError};

use crate::change::FaultChange;
use crate::error::FaultError;
use std::alloc::{AllocError, Global};
use std::marker::Model;
use trouble_code::{Dtc, DtcError, Lamps};

/// The most codes that the three lists of one memory hold together.
const MOST_CODES: usize = 445;

/// The lamps, the active trouble codes, the previously active ones and the pending ones of one control unit (SAE J1939-73).
///
/// No pair of SPN and FMI stands twice over the three lists, each count is 1 to 126, and the three lists hold at most 445
/// codes together.
#[derive(Debug, Drop)]
pub struct FaultMemory {
    lamps: Lamps,
    active: Vec<Dtc>,
    previous: Vec<Dtc>,
    pending: Vec<Dtc>,
}

impl Model for FaultMemory {
    ghost use Rattle.fault_memory.specs.Memory.{MemoryValue, IsLawfulMemory};

    ghost Value = { MemoryValue };

    ghost view = { λ m. record { lamps = m.lamps; active = m.active.items; previous = m.previous.items; pending = m.pending.items } };

    ghost invariant = { λ m. IsLawfulMemory (record { lamps = m.lamps; active = m.active.items; previous = m.previous.items; pending = m.pending.items }) };
}

impl FaultMemory {
    /// The memory of a new unit: the lamps off (00 FF), and no code. It takes no memory yet.
    #[tactic(auto, using(crate::proofs::Lawful::empty_is_lawful))]
    pub fn new(alloc: Global) -> FaultMemory
        ensures { result ≡ new_memory }
    {
        FaultMemory {
            lamps: Lamps::off(),
            active: Vec::new(alloc),
            previous: Vec::new(alloc),
            pending: Vec::new(alloc),
        }
    }

    /// The lamps, and how they flash.
    pub fn lamps(&self) -> Lamps
        ensures value { result ≡ self.now.lamps }
        ensures lawful { IsLawfulMemory self.now }
    {
        self.lamps
    }

    /// The active codes, the one that became active last at the end.
    pub fn active(&self) -> &[Dtc]
        ensures value { result.now ≡ self.now.active }
        ensures lawful { IsLawfulMemory self.now }
    {
        self.active.as_slice()
    }

    /// The previously active codes, the one that was healed last at the end.
    pub fn previous(&self) -> &[Dtc]
        ensures value { result.now ≡ self.now.previous }
        ensures lawful { IsLawfulMemory self.now }
    {
        self.previous.as_slice()
    }

    /// The pending codes, the one that became pending last at the end.
    pub fn pending(&self) -> &[Dtc]
        ensures value { result.now ≡ self.now.pending }
        ensures lawful { IsLawfulMemory self.now }
    {
        self.pending.as_slice()
    }

    /// Makes one change.
    ///
    /// - `Set`: an active code stays as it is. A previously active one moves to the end of the active codes, its count one
    ///   more, at most 126. A pending one moves there with its count. A new one is put there with count 1.
    /// - `Heal`: an active code moves to the end of the previously active ones, with its count.
    /// - `Pend`: a code in any of the three lists stays as it is. A new one is put at the end of the pending codes with
    ///   count 1.
    /// - `Unpend`: a pending code goes away.
    /// - `Lamp`: all lamps and flash codes are replaced.
    ///
    /// Refused, in this order: `SpnTooLarge` above 524,287, `FmiTooLarge` above 31, `Full` for a new code where the three
    /// lists hold 445 together, `NotActive` where the code to be healed is not active, `NotPending` where the code that is
    /// to go away is not pending, `OutOfMemory` where the memory for a longer list is refused. After a refusal the memory
    /// is as it was. `Unpend` and `Lamp` take no memory.
    pub fn apply(&mut self, change: FaultChange) -> Result<(), FaultError>
        ensures ok { OnOk result (changed self.old change ≡ Ok self.new) }
        ensures refused { (e : FaultError) → changed self.old change ≡ Err e → result ≡ Err e }
        ensures why { IfErr result
            (λ e. ((e ≡ FaultError.OutOfMemory) × Grows (changed self.old change) self.old) ⊎ (changed self.old change ≡ Err e)) }
        ensures unchanged { OnErr result (self.new ≡ self.old) }
    {
        match change {
            FaultChange::Set { spn, fmi } => {
                let first = first_occurrence(spn, fmi)?;
                self.set(first)
            }
            FaultChange::Heal { spn, fmi } => {
                let first = first_occurrence(spn, fmi)?;
                self.heal(first)
            }
            FaultChange::Pend { spn, fmi } => {
                let first = first_occurrence(spn, fmi)?;
                self.pend(first)
            }
            FaultChange::Unpend { spn, fmi } => {
                let first = first_occurrence(spn, fmi)?;
                self.unpend(first)
            }
            FaultChange::Lamp { lamps } => {
                self.lamps = lamps;
                Ok(())
            }
        }
    }

    /// A fault is there; `first` is the code of its first occurrence.
    fn set(&mut self, first: Dtc) -> Result<(), FaultError>
        requires first { (first ≡ code first.spn first.fmi 1) × IsKeptCode first }
        ensures { Follows (fault_set first.spn first.fmi self.old) self.old self.new result }
    {
        if has_fault(&self.active, first) {
            return Ok(());
        }
        if let Some(place) = place_of(&self.previous, first) {
            let code = self.previous[place];
            self.active.push(code.occurred_again())?;
            self.previous.remove(place);
            return Ok(());
        }
        if let Some(place) = place_of(&self.pending, first) {
            let code = self.pending[place];
            self.active.push(code)?;
            self.pending.remove(place);
            return Ok(());
        }
        if self.is_full() {
            return Err(FaultError::Full);
        }
        self.active.push(first)?;
        Ok(())
    }

    /// A fault has gone; `first` is the code of its first occurrence.
    fn heal(&mut self, first: Dtc) -> Result<(), FaultError>
        ensures { Follows (fault_healed first.spn first.fmi self.old) self.old self.new result }
    {
        let Some(place) = place_of(&self.active, first) else {
            return Err(FaultError::NotActive);
        };
        let code = self.active[place];
        self.previous.push(code)?;
        self.active.remove(place);
        Ok(())
    }

    /// A fault was seen and is not confirmed yet; `first` is the code of its first occurrence.
    fn pend(&mut self, first: Dtc) -> Result<(), FaultError>
        requires first { (first ≡ code first.spn first.fmi 1) × IsKeptCode first }
        ensures { Follows (fault_pended first.spn first.fmi self.old) self.old self.new result }
    {
        if self.is_known(first) {
            return Ok(());
        }
        if self.is_full() {
            return Err(FaultError::Full);
        }
        self.pending.push(first)?;
        Ok(())
    }

    /// A pending fault was not seen again; `first` is the code of its first occurrence.
    fn unpend(&mut self, first: Dtc) -> Result<(), FaultError>
        ensures { Follows (fault_unpended first.spn first.fmi self.old) self.old self.new result }
    {
        let Some(place) = place_of(&self.pending, first) else {
            return Err(FaultError::NotPending);
        };
        self.pending.remove(place);
        Ok(())
    }

    /// Whether a code with the SPN and FMI of this one stands in any of the three lists.
    fn is_known(&self, fault: Dtc) -> bool
        ensures { result ≡ list_any (is_fault fault.spn fault.fmi) (all_codes self.now) }
    {
        has_fault(&self.active, fault)
            || has_fault(&self.previous, fault)
            || has_fault(&self.pending, fault)
    }

    /// Whether the three lists hold 445 codes together.
    fn is_full(&self) -> bool
        ensures { IsTrue result ↔ (445 ≤ codes_held self.now) }
    {
        self.active.len() + self.previous.len() + self.pending.len() >= MOST_CODES
    }

    /// Clears the active and the pending codes and puts the lamps off (DM11). The previously active codes stay. It takes no
    /// memory.
    #[tactic(auto, using(crate::proofs::Lawful::cleared_active_is_lawful))]
    pub fn clear_active(&mut self)
        ensures { self.new ≡ cleared_active self.old }
    {
        self.lamps = Lamps::off();
        self.active.clear();
        self.pending.clear();
    }

    /// Clears the previously active codes (DM3). The lamps, the active and the pending codes stay. It takes no memory.
    pub fn clear_previous(&mut self)
        ensures { self.new ≡ cleared_previous self.old }
    {
        self.previous.clear();
    }

    /// Whether the other memory has the same lamps and, in the same order, the same codes. It takes no memory.
    pub fn is_same(&self, other: &FaultMemory) -> bool
        ensures same { IsTrue result ↔ (self.now ≡ other.now) }
        ensures lawful { IsLawfulMemory self.now }
    {
        if self.lamps != other.lamps || !same_codes(&self.active, &other.active) {
            return false;
        }
        same_codes(&self.previous, &other.previous) && same_codes(&self.pending, &other.pending)
    }

    /// The same lamps and codes, in memory of their own.
    #[tactic(auto, using(crate::proofs::Lawful::copy_is_lawful))]
    pub fn copy(&self) -> Result<FaultMemory, AllocError>
        ensures same { IfOk result (λ m. m ≡ self.now) }
        ensures lawful { IfOk result IsLawfulMemory }
    {
        let active = self.active.clone()?;
        let previous = self.previous.clone()?;
        let pending = self.pending.clone()?;
        Ok(FaultMemory {
            lamps: self.lamps,
            active,
            previous,
            pending,
        })
    }
}

/// The code of a first occurrence, or why no code has this SPN and FMI.
fn first_occurrence(spn: u32, fmi: u8) -> Result<Dtc, FaultError>
    ensures ok { IfOk result (λ d. (d ≡ code spn fmi 1) × IsKeptCode d) }
    ensures in_range { IfOk result (λ _. (outcome : Result MemoryValue FaultError) → if_in_range spn fmi outcome ≡ outcome) }
    ensures not_in_range { IfErr result (λ e. (outcome : Result MemoryValue FaultError) → if_in_range spn fmi outcome ≡ Err e) }
{
    match Dtc::new(spn, fmi, 1) {
        Ok(code) => Ok(code),
        Err(DtcError::SpnTooLarge) => Err(FaultError::SpnTooLarge),
        Err(DtcError::FmiTooLarge) => Err(FaultError::FmiTooLarge),
        Err(_) => unreachable!(),
    }
}

/// Whether these are the same codes in the same order.
fn same_codes(one: &[Dtc], other: &[Dtc]) -> bool
    ensures { IsTrue result ↔ (one.now ≡ other.now) }
{
    one == other
}

/// Whether a code of the list has the SPN and FMI of this one.
#[tactic(auto, using(crate::proofs::Places::any_from_position))]
fn has_fault(codes: &[Dtc], fault: Dtc) -> bool
    ensures { result ≡ list_any (is_fault fault.spn fault.fmi) codes.now }
{
    place_of(codes, fault).is_some()
}

/// The place of the code with the SPN and FMI of this one.
fn place_of(codes: &[Dtc], fault: Dtc) -> Option<usize>
    ensures { result ≡ position (is_fault fault.spn fault.fmi) codes.now }
{
    codes.iter().position(|code| fault.is_same_fault(*code))
}
