ghost use Rattle.std.specs.Prelude.{◌≡◌, ◌≢◌, ℕ, ◌<◌, ◌≤◌, ◌+◌, ◌^◌, [], false, length, slice_index, IfNone, IfSome};
ghost use Rattle.std.specs.Bool.{MatchBool};
ghost use Rattle.bus_ledger.specs.BusValue.{book_at};
ghost use Rattle.bus_ledger.specs.Carrying.{offered};
ghost use Rattle.bus_ledger.specs.Offers.{IsBestOfAll, IsBestSeatSoFar, IsBestSoFar, IsInOrder, NoneBelow, OffersBelow};

use crate::queued::NO_FRONT;
use crate::seat::Seat;
use crate::traffic::QueuedFrame;
use name_field::Name;

/// The seat that carries next and its frame: the lowest identifier wins, among equal ones the lowest seat.
pub(crate) fn best_offer(seats: &[Seat], live: &[u32], wire_len: u32) -> Option<(u32, QueuedFrame)>
    requires order { IsInOrder seats.now live.now }
    requires few { length seats.now < 2 ^ 32 }
    ensures { IsBestSoFar wire_len seats.now live.now (length live.now) result }
{
    let number = best_seat(seats, live, wire_len)?;
    let queued = seats[number as usize].offered(wire_len)?;
    Some((number, queued))
}

/// From how many seats on more than one is passed over at a time.
const MANY_SEATS: usize = 16;

/// The seat that carries next. No frame is made for it.
pub(crate) fn best_seat(seats: &[Seat], live: &[u32], wire_len: u32) -> Option<u32>
    requires order { IsInOrder seats.now live.now }
    requires few { length seats.now < 2 ^ 32 }
    ensures { (lowest : ℕ) × IsBestSeatSoFar wire_len seats.now live.now (length live.now) lowest result }
{
    if seats.len() < MANY_SEATS {
        best_of_few(seats, wire_len)
    } else {
        best_of_many(seats, live, wire_len)
    }
}

/// The best offer's seat.
///
/// As long as most seats are live all are looked at in order, which is faster than to look each live one up.
#[inline(never)]
fn best_of_many(seats: &[Seat], live: &[u32], wire_len: u32) -> Option<u32>
    requires order { IsInOrder seats.now live.now }
    requires few { length seats.now < 2 ^ 32 }
    ensures { (lowest : ℕ) × IsBestSeatSoFar wire_len seats.now live.now (length live.now) lowest result }
{
    if seats.len() / 2 <= live.len() {
        best_of_all(seats, wire_len)
    } else {
        best_of_live(seats, live, wire_len)
    }
}

/// The best offer's seat, by a look at one seat after another.
#[inline(always)]
fn best_of_few(seats: &[Seat], wire_len: u32) -> Option<u32>
    requires { length seats.now < 2 ^ 32 }
    ensures { (lowest : ℕ) × IsBestOfAll wire_len seats.now (length seats.now) lowest result }
{
    let mut best = None;
    let mut lowest = NO_FRONT;
    let mut from = 0;
    while from < seats.len() {
        if seats[from].offers_below(lowest, wire_len) {
            best = Some(from as u32);
            lowest = seats[from].front();
        }
        from += 1;
    }
    best
}

/// The best offer's seat, by a look at the live seats alone.
fn best_of_live(seats: &[Seat], live: &[u32], wire_len: u32) -> Option<u32>
    requires { IsInOrder seats.now live.now }
    ensures { (lowest : ℕ) × IsBestSeatSoFar wire_len seats.now live.now (length live.now) lowest result }
{
    let mut best = None;
    let mut lowest = NO_FRONT;
    for number in live {
        let seat = &seats[*number as usize];
        if seat.offers_below(lowest, wire_len) {
            best = Some(*number);
            lowest = seat.front();
        }
    }
    best
}

/// The best offer's seat, by a look at all seats.
fn best_of_all(seats: &[Seat], wire_len: u32) -> Option<u32>
    requires { length seats.now < 2 ^ 32 }
    ensures { (lowest : ℕ) × IsBestOfAll wire_len seats.now (length seats.now) lowest result }
{
    let mut best = None;
    let mut lowest = NO_FRONT;
    let mut from = 0;
    while let Some(number) = next_below(seats, from, lowest, wire_len) {
        best = Some(number as u32);
        lowest = seats[number].front();
        from = number + 1;
    }
    best
}

/// The next seat, from this one on, that offers a frame whose identifier's number is lower than this one.
fn next_below(seats: &[Seat], from: usize, lowest: u32, wire_len: u32) -> Option<usize>
    requires { from ≤ length seats.now }
    ensures none { IfNone result (NoneBelow lowest wire_len seats.now from (length seats.now)) }
    ensures within { IfSome result (λ k. (from ≤ k) × (k < length seats.now)) }
    ensures before { IfSome result (λ k. NoneBelow lowest wire_len seats.now from k) }
    ensures below { IfSome result (λ k. OffersBelow lowest (offered wire_len (book_at seats.now k).seat)) }
{
    let last = seats.len().saturating_sub(1);
    let mut k = from;
    if seats.len() - from >= 8 {
        k = pass_eights(seats, from, lowest, wire_len);
    }
    // two seats a turn, since this is run for each frame that is carried
    while k < last {
        if seats[k].offers_below(lowest, wire_len) {
            return Some(k);
        }
        if seats[k + 1].offers_below(lowest, wire_len) {
            return Some(k + 1);
        }
        k += 2;
    }
    if k < seats.len() && seats[k].offers_below(lowest, wire_len) {
        return Some(k);
    }
    None
}

/// Passes over seats that offer no such frame, eight at a time, and answers how far it came.
fn pass_eights(seats: &[Seat], from: usize, lowest: u32, wire_len: u32) -> usize
    requires { from ≤ length seats.now }
    ensures within { (from ≤ result) × (result ≤ length seats.now) }
    ensures before { NoneBelow lowest wire_len seats.now from result }
{
    let len = seats.len();
    let mut k = from;
    while len - k >= 8 {
        if is_one_of_eight_below(seats, k, lowest, wire_len) {
            return k;
        }
        k += 8;
    }
    k
}

/// Whether one of the eight seats from this one on offers such a frame.
#[inline(always)]
fn is_one_of_eight_below(seats: &[Seat], from: usize, lowest: u32, wire_len: u32) -> bool
    requires { from + 8 ≤ length seats.now }
    ensures { result ≡ false → NoneBelow lowest wire_len seats.now from (from + 8) }
{
    is_one_of_four_below(seats, from, lowest, wire_len)
        || is_one_of_four_below(seats, from + 4, lowest, wire_len)
}

/// The same of four seats.
#[inline(always)]
fn is_one_of_four_below(seats: &[Seat], from: usize, lowest: u32, wire_len: u32) -> bool
    requires { from + 4 ≤ length seats.now }
    ensures { result ≡ false → NoneBelow lowest wire_len seats.now from (from + 4) }
{
    is_one_of_two_below(seats, from, lowest, wire_len)
        || is_one_of_two_below(seats, from + 2, lowest, wire_len)
}

/// The same of two seats.
#[inline(always)]
fn is_one_of_two_below(seats: &[Seat], from: usize, lowest: u32, wire_len: u32) -> bool
    requires { from + 2 ≤ length seats.now }
    ensures { result ≡ false → NoneBelow lowest wire_len seats.now from (from + 2) }
{
    seats[from].offers_below(lowest, wire_len) || seats[from + 1].offers_below(lowest, wire_len)
}

/// Whether a live seat has a frame in its queue.
pub(crate) fn is_any_waiting(seats: &[Seat], live: &[u32]) -> bool
    requires { IsInOrder seats.now live.now }
    ensures { MatchBool result ((k : ℕ) × (0 < length (book_at seats.now k).seat.queue))
        ((i : ℕ) → i < length live.now → (book_at seats.now (slice_index live.now i)).seat.queue ≡ []) }
{
    for number in live {
        if seats[*number as usize].is_waiting() {
            return true;
        }
    }
    false
}

/// Whether a live seat has this NAME.
pub(crate) fn is_name_among(seats: &[Seat], live: &[u32], name: Name) -> bool
    requires { IsInOrder seats.now live.now }
    ensures { MatchBool result ((i : ℕ) × (i < length live.now) × ((book_at seats.now (slice_index live.now i)).seat.name ≡ name))
        ((i : ℕ) → i < length live.now → (book_at seats.now (slice_index live.now i)).seat.name ≢ name) }
{
    for number in live {
        if seats[*number as usize].name() == name {
            return true;
        }
    }
    false
}
