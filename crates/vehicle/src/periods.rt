//! Whether what a unit sends again and again in packets leaves room on the bus.
ghost use Rattle.std.specs.Prelude.{◌≡◌, ◌≤◌, ◌*◌, ◌^◌, ◌-◌, IfOk, None, min, true, ℕ};
ghost use Rattle.std.specs.List.{All};
ghost use Rattle.vehicle.specs.Frames.{LastsFor, LeavesHalf, packets_in};
ghost use Rattle.vehicle.specs.Frames as frames;

use crate::key_error::{KeyFault, KeyPlace, ReadError};
use crate::live::LiveLine;
use crate::long_line::CyclicLine;

/// Looks at what units send in packets, so many milliseconds apart: of each unit all of it takes half of each period at most.
pub(crate) fn look_at_periods<'a>(gap: u32, units: &[LiveLine]) -> Result<(), ReadError<'a>>
    ensures { IfOk result (λ _. All (λ u. LeavesHalf gap u.sends.items) units.now) }
{
    match first_full(gap, units) {
        Some(place) => Err(refused(gap, place, units)),
        None => Ok(()),
    }
}

/// What is told of the unit at this place.
fn refused<'a>(gap: u32, place: usize, units: &[LiveLine]) -> ReadError<'a> {
    let sends = match units.get(place) {
        Some(unit) => unit.sends.as_slice(),
        None => &[],
    };
    let place = KeyPlace::Send {
        unit: place,
        number: place_of_short(gap, sends).unwrap_or(0),
    };
    let least = least_period(gap, sends);
    ReadError::at(place, "period", KeyFault::TooShort(least))
}

/// The place of the first unit with a period that is too short.
fn first_full(gap: u32, units: &[LiveLine]) -> Option<usize>
    ensures { result ≡ None → All (λ u. LeavesHalf gap u.sends.items) units.now }
{
    units.iter().position(|unit| place_of_short(gap, unit.sends.as_slice()).is_some())
}

/// The place of the first period that is too short.
fn place_of_short(gap: u32, sends: &[CyclicLine]) -> Option<usize>
    ensures { result ≡ None → LeavesHalf gap sends.now }
{
    let least = least_period(gap, sends);
    sends.iter().position(|one| !one.lasts_for(least))
}

/// Twice the time that the packets take, in milliseconds, as far as the number goes.
#[tactic(auto, using(crate::proofs::PeriodLemmas::one_more_of))]
fn least_period(gap: u32, sends: &[CyclicLine]) -> u64
    ensures { result ≡ min (frames.least_period gap sends.now) (2 ^ 64 - 1) }
{
    let mut least = 0u64;
    for one in sends {
        least = least.saturating_add(2 * (u64::from(gap) * u64::from(one.packets())));
    }
    least
}

impl CyclicLine {
    /// How many packets it has.
    fn packets(&self) -> u8
        ensures { result ≡ packets_in self.now }
    {
        match self {
            CyclicLine::One(_) => 0,
            CyclicLine::Long(long) => long.line.last(),
        }
    }

    /// Whether its period is so long, in milliseconds, where it goes in packets.
    fn lasts_for(&self, least: u64) -> bool
        ensures { result ≡ true → (n : ℕ) → least ≡ min n (2 ^ 64 - 1) → LastsFor n self.now }
    {
        match self {
            CyclicLine::One(_) => true,
            CyclicLine::Long(long) => u64::from(long.period) >= least,
        }
    }
}
