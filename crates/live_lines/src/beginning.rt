//! The fault memory with which a unit begins.
ghost use Rattle.std.specs.Prelude.{◌≡◌, ◌↔◌, IsTrue, OnOk};
ghost use Rattle.live_lines.specs.Beginnings.{memory_wanted};

use fault_memory::{FaultChange, FaultError, FaultMemory};
use std::fmt;
use trouble_code::Dtc;
use unit_trait::Unit;
use vehicle::LiveLine;

/// Why a unit cannot begin with the codes of its line. `Display` writes it.
#[derive(Clone, Copy)]
pub enum Unheld {
    /// Its fault memory refused one.
    Refused(FaultError),
    /// A code stands twice, or a pending one has another count than 1.
    NoMemory,
}

impl From<FaultError> for Unheld {
    fn from(error: FaultError) -> Unheld {
        Unheld::Refused(error)
    }
}

impl fmt::Display for Unheld {
    fn fmt<W: fmt::Write>(&self, f: &mut fmt::Formatter<W>) -> fmt::Result {
        match self {
            Unheld::Refused(error) => write!(f, "refused {} {error}", error.number()),
            Unheld::NoMemory => write!(
                f,
                "a code stands twice, or a pending one has another count than 1"
            ),
        }
    }
}

/// Has a unit with an empty fault memory begin with the lamps and codes of its line.
///
/// # Errors
/// - `Refused`: the memory refused a code, as there is no room for more than 445, or for want of memory.
/// - `NoMemory`: no fault memory holds these codes together.
///
/// What the memory holds then is not said.
pub fn begin_with<U: Unit>(unit: &mut U, line: &LiveLine) -> Result<(), Unheld>
    ensures { OnOk result (U.memory_of unit.new ≡ memory_wanted line.now) }
{
    set_all(unit, line)?;
    if !is_wanted(unit.memory(), line) {
        return Err(Unheld::NoMemory);
    }
    Ok(())
}

/// Makes the changes by which the lamps and the codes of a line come about.
fn set_all<U: Unit>(unit: &mut U, line: &LiveLine) -> Result<(), FaultError> {
    for code in line.previous.iter() {
        occur(unit, *code)?;
        unit.apply(FaultChange::Heal {
            spn: code.spn(),
            fmi: code.fmi(),
        })?;
    }
    for code in line.active.iter() {
        occur(unit, *code)?;
    }
    for code in line.pending.iter() {
        unit.apply(FaultChange::Pend {
            spn: code.spn(),
            fmi: code.fmi(),
        })?;
    }
    unit.apply(FaultChange::Lamp { lamps: line.lamps })
}

/// Sets a code as often as it has occurred; it is active then.
fn occur<U: Unit>(unit: &mut U, code: Dtc) -> Result<(), FaultError> {
    let spn = code.spn();
    let fmi = code.fmi();
    unit.apply(FaultChange::Set { spn, fmi })?;
    for _ in 1..code.count() {
        unit.apply(FaultChange::Heal { spn, fmi })?;
        unit.apply(FaultChange::Set { spn, fmi })?;
    }
    Ok(())
}

/// Whether a memory is the one that a line describes.
fn is_wanted(memory: &FaultMemory, line: &LiveLine) -> bool
    ensures { IsTrue result ↔ (memory.now ≡ memory_wanted line.now) }
{
    memory.lamps() == line.lamps
        && same_codes(memory.active(), line.active.as_slice())
        && same_codes(memory.previous(), line.previous.as_slice())
        && same_codes(memory.pending(), line.pending.as_slice())
}

/// Whether these are the same codes in the same order.
fn same_codes(one: &[Dtc], other: &[Dtc]) -> bool
    ensures { IsTrue result ↔ (one.now ≡ other.now) }
{
    one == other
}
