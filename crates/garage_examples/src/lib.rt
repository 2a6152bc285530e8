//! That the public calls can be used: what one can conclude of a garage that was handed over, a unit of one's own and its seat, and
//! calls that need something of what they are given.
//!
//! No function here knows how its garage came about. That no subtraction goes below 0 follows from the clauses of its calls.
#![tactic(auto)]

ghost use Rattle.std.specs.Prelude.{◌≡◌, ◌+◌, length, option_map, slice_get, OnErr, IfOk, IfSome};
ghost use Rattle.journal.specs.Journal.{listed_of, shown_of, state_of};

use dm_messages::Kind;
use garage::{Garage, GarageError};
use name_field::Name;
use std::alloc::Global;

mod packets;
mod seated;
#[cfg(test)]
mod tests;
mod told;

pub use packets::whole_with;
pub use seated::last_turn;
pub use told::WillingUnit;

/// How many frames of a seat were queued and came neither on the wire nor wait for it: those withdrawn. Nothing where the seat
/// was never given.
///
/// By the frame ledger of `Garage::counts`.
pub fn lost(garage: &Garage, seat: u32) -> Option<u32>
    ensures { result ≡ option_map (λ s. s.withdrawn) (slice_get (state_of garage.now).traffic.seats seat) }
{
    let counts = garage.counts(seat)?;
    Some(counts.queued - counts.carried - counts.waiting)
}

/// How many messages of a kind that the units of a NAME began came to the station on a clear path; nothing where frames came
/// from outside, since the list then says what was heard and no more.
///
/// By the headline of `Garage::shown`, under its premise.
pub fn came_clear(garage: &Garage, name: Name, kind: Kind) -> Option<usize>
    ensures { IfSome result (λ n. n ≡ length (shown_of garage.now name kind)) }
{
    if garage.injected() > 0 {
        return None;
    }
    Some(garage.shown(name, kind).len())
}

/// Has the station take its next reading, and tells how many entries came to a NAME's list by it.
///
/// By the lists that only grow at `Garage::read`. Refused as `read` is; then nothing changed.
pub fn read_new(
    alloc: Global,
    garage: &mut Garage,
    name: Name,
    kind: Kind,
) -> Result<usize, GarageError>
    ensures ok { IfOk result (λ n. length (listed_of garage.new name kind) ≡ length (listed_of garage.old name kind) + n) }
    ensures err { OnErr result (garage.new ≡ garage.old) }
{
    let before = garage.shown(name, kind).len();
    garage.read(alloc)?;
    let after = garage.shown(name, kind).len();
    Ok(after - before)
}
