ghost use Rattle.std.specs.Prelude.{◌≡◌, ◌≢◌, ◌≤◌, ◌↔◌, false, true, Some, None, length, vec_len};
ghost use Rattle.garage.specs.declared.error.GarageError.{GarageError as AnyError};
ghost use Rattle.std.specs.List.{All};
ghost use Rattle.garage.specs.Calls.{IsNoMemoryOrFull};
ghost use Rattle.unit_threads.specs.Ends.{counts_told, Agrees, AgreesAt, HaveOwnSeats, IsCounted, IsCutShort, IsMountRefusal, IsSeatless, IsStrangerAt, IsUnseated, IsWhole, StaySeatless};

use crate::ended::{EndReason, Ended};
use garage::{Garage, GarageError};
use journal::Tally;

/// The ends, each compared with the journal. One that does not agree with it, or that names the seat of an earlier one, is
/// refused as a stranger's.
#[tactic(auto, using(crate::proofs::Comparing::all_agree, crate::proofs::Comparing::all_apart))]
pub(crate) fn compared_ends(garage: &Garage, turns: u32, mut ended: Vec<Ended>) -> Vec<Ended>
    ensures len { vec_len result ≡ vec_len ended }
    ensures agree { All (Agrees turns garage.now) result.items }
    ensures apart { HaveOwnSeats result.items }
    ensures seatless { StaySeatless ended.items result.items }
{
    check_all(garage, turns, ended.as_mut_slice());
    ended
}

/// Compares each end in its place.
fn check_all(garage: &Garage, turns: u32, ended: &mut [Ended])
    ensures len { length ended.new ≡ length ended.old }
    ensures agree { All (Agrees turns garage.now) ended.new }
    ensures apart { HaveOwnSeats ended.new }
    ensures seatless { StaySeatless ended.old ended.new }
{
    for i in 0..ended.len() {
        let end = ended[i];
        ended[i] = checked_behind(garage, turns, &ended[..i], end);
    }
}

/// What is told of an end behind these: that of a seat which one of them names is a stranger's.
fn checked_behind(garage: &Garage, turns: u32, before: &[Ended], end: Ended) -> Ended
    ensures agrees { Agrees turns garage.now result }
    ensures seatless { IsSeatless end → IsSeatless result }
    ensures apart { IsCounted result → All (λ e. e.seat ≢ result.seat) before.now }
{
    let end = checked(garage, turns, end);
    match end.seat {
        Some(seat) if is_named(before, seat) => stranger(garage, turns, seat),
        _ => end,
    }
}

/// What is told of an end, once its seat is compared with the journal.
#[tactic(auto, using(crate::proofs::Comparing::agrees_seated, crate::proofs::Comparing::agrees_unseated))]
fn checked(garage: &Garage, turns: u32, end: Ended) -> Ended
    ensures agrees { Agrees turns garage.now result }
    ensures seatless { IsSeatless end → IsSeatless result }
{
    let Some(seat) = end.seat else {
        return Ended {
            seat: None,
            events: 0,
            refusal: Some(unseated(end.refusal)),
        };
    };
    let tally = counts_of(garage, seat);
    Ended {
        seat: Some(seat),
        events: tally.events,
        refusal: compared(turns, tally, end),
    }
}

/// The end of a seat that does not agree with the journal.
#[tactic(auto, using(crate::proofs::Comparing::agrees_stranger))]
fn stranger(garage: &Garage, turns: u32, seat: u32) -> Ended
    ensures agree { Agrees turns garage.now result }
    ensures told { IsStrangerAt seat result }
{
    Ended {
        seat: Some(seat),
        events: counts_of(garage, seat).events,
        refusal: Some(EndReason::Garage(GarageError::Stranger)),
    }
}

/// The counts of a seat; none where no unit got that number.
#[tactic(auto, using(crate::proofs::Comparing::counted_so))]
pub(crate) fn counts_of(garage: &Garage, seat: u32) -> Tally
    ensures { result ≡ counts_told seat garage.now }
{
    garage.tally(seat)
}

/// Why a unit never joined.
fn unseated(refusal: Option<EndReason>) -> EndReason
    ensures unseated { IsUnseated (Some result) }
    ensures told { (e : AnyError) → refusal ≡ Some (EndReason.Garage e) → IsMountRefusal e → result ≡ EndReason.Garage e }
{
    match refusal {
        Some(EndReason::Garage(error)) if is_mount_refusal(error) => EndReason::Garage(error),
        _ => EndReason::NoThread,
    }
}

/// Whether a mount can be refused with this.
fn is_mount_refusal(error: GarageError) -> bool
    ensures { (result ≡ true) ↔ IsMountRefusal error }
{
    matches!(
        error,
        GarageError::NotAnAddress
            | GarageError::NameInUse
            | GarageError::TooManySeats
            | GarageError::BookFull
            | GarageError::OutOfMemory
    )
}

/// The refusal of an end with a seat, where that agrees with the seat's counts; else it is a stranger's.
fn compared(turns: u32, tally: Tally, end: Ended) -> Option<EndReason>
    ensures agrees { AgreesAt turns tally tally.events result }
    ensures whole { end.refusal ≡ None → IsWhole turns tally end.events → result ≡ None }
    ensures cut { (e : AnyError) → end.refusal ≡ Some (EndReason.Garage e) → IsNoMemoryOrFull e → IsCutShort turns tally tally.events
        → result ≡ end.refusal }
{
    let left = tally.joined == 1 && tally.left == 1;
    match end.refusal {
        None if left && tally.turned == turns && tally.events == end.events => None,
        Some(EndReason::Garage(error)) if left && tally.turned <= turns && is_want(error) => {
            Some(EndReason::Garage(error))
        }
        _ => Some(EndReason::Garage(GarageError::Stranger)),
    }
}

/// Whether a step of a seated unit can be refused with this.
fn is_want(error: GarageError) -> bool
    ensures { (result ≡ true) ↔ IsNoMemoryOrFull error }
{
    matches!(error, GarageError::BookFull | GarageError::OutOfMemory)
}

/// Whether one of these ends names the seat.
fn is_named(ended: &[Ended], seat: u32) -> bool
    ensures { result ≡ false → All (λ e. e.seat ≢ Some seat) ended.now }
{
    for end in ended {
        if end.seat == Some(seat) {
            return true;
        }
    }
    false
}
