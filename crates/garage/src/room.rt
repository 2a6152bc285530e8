ghost use Rattle.std.specs.Prelude.{◌≡◌, ◌+◌, ◌<◌, ◌≤◌, ◌↔◌, length, OnOk, IfErr, IsErrOf, IsTrue};
ghost use Rattle.bus_ledger.specs.BusValue.{IsLive, spare_at};
ghost use Rattle.garage.specs.Calls.{IsNoMemoryOrFull};

use crate::error::GarageError;
use bus_ledger::Bus;
use journal::Journal;

/// The most frames that a unit puts at once: the announcement and 255 packets.
const MOST_OUTS: usize = 256;

/// Whether the limit allows `count` more events.
#[inline]
pub fn has_room(journal: &Journal, count: u32, limit: u32) -> bool
    ensures { IsTrue result ↔ (length journal.now + count ≤ limit) }
{
    match limit.checked_sub(journal.len()) {
        Some(left) => count <= left,
        None => false,
    }
}

/// Refused with `BookFull` if the limit does not allow `count` more events.
#[inline]
pub fn check_room(journal: &Journal, count: u32, limit: u32) -> Result<(), GarageError>
    ensures ok { OnOk result (length journal.now + count ≤ limit) }
    ensures full { IsErrOf result GarageError.BookFull ↔ (limit < length journal.now + count) }
    ensures only { IfErr result (λ e. e ≡ GarageError.BookFull) }
{
    if has_room(journal, count, limit) {
        Ok(())
    } else {
        Err(GarageError::BookFull)
    }
}

/// Looks whether the limit allows `count` more events, and reserves places in a unit's queue for the most frames that it puts.
///
/// Refused: `BookFull`, then `OutOfMemory`. Then the traffic is as it was.
pub fn make_ready(
    journal: &Journal,
    bus: &mut Bus,
    count: u32,
    limit: u32,
    seat: u32,
) -> Result<(), GarageError>
    requires { IsLive bus.old.traffic seat }
    ensures traffic { bus.new.traffic ≡ bus.old.traffic }
    ensures room { OnOk result (length journal.now + count ≤ limit) }
    ensures spare { OnOk result (MOST_OUTS ≤ spare_at bus.new seat) }
    ensures full { IsErrOf result GarageError.BookFull ↔ (limit < length journal.now + count) }
    ensures only { IfErr result IsNoMemoryOrFull }
{
    check_room(journal, count, limit)?;
    bus.reserve(seat, MOST_OUTS)?;
    Ok(())
}
