//! What a C program says of a live station, and is told of its orders, in C's layout. `c/hidzgula_station.h` has the same structs.
ghost use Rattle.std.specs.Prelude.{◌≡◌, is_some};
ghost use Rattle.std.specs.Option.{unwrap_or};
ghost use Rattle.live_station.specs.OpenOrders as orders;
ghost use Rattle.station_c.specs.LiveRecords.{address_commanded, doubt_number, finding_detail, finding_number, no_verdict, order_record, verdict_record, verdict_told};
ghost use Rattle.station_c.specs.LiveRecords as spec;
ghost use Rattle.station_c.specs.Records.{flag};

use live_station::{Doubt, Finding, Order, StationTimes, Verdict};

/// What a live station keeps to.
#[repr(C)]
#[derive(Clone, Copy)]
pub struct LiveSettingsRecord {
    /// How long it is at least from a frame of a command to the next, in microseconds: 10,000 to 200,000. (50 to 200 ms by SAE
    /// J1939-21, 10 to 200 ms by ISO 11783-3 and later editions, from memory.)
    pub gap: u64,
    /// How long it is from the claim of a new address to anything but a claim, in microseconds: up to 1,000,000 (SAE J1939-81:
    /// 250,000).
    pub settle: u64,
    /// Of each list it keeps the newest so many entries, none where it is 0.
    pub keep: u32,
    /// How many packets it grants at most at once, at least one.
    pub grant: u8,
}

/// The open order, or what came of the newest one. A field that is not named is 0.
#[repr(C)]
#[derive(Clone, Copy)]
pub struct VerdictRecord {
    /// The NAME of the unit that it is for, where `has_name` is 1.
    pub name: u64,
    /// Where `has_after` is 1, microseconds since it was written, the last time.
    pub after: u64,
    /// The parameter group that is asked for; of a command 65240.
    pub pgn: u32,
    /// 0 no order was given, 1 it is open, 2 answered, 3 unread, 4 positive, 5 refused, 6 busy, 7 obeyed, 8 no such unit, 9 silent,
    /// 10 in doubt, 11 lost address, 12 cut off.
    pub what: u8,
    /// The control byte of a refusal (5); why there is doubt (10): 1 the address changed hands, 2 frames were missed, 3 the own
    /// address, 4 a stranger at it; 1 where it was written and cut off (12).
    pub detail: u8,
    /// Of a clear that was written, what came of asking what is left, numbered as `what`.
    pub left: u8,
    /// The detail of `left`.
    pub left_detail: u8,
    /// How often it was written: 0 to 3; 0 while it is open.
    pub tries: u8,
    /// 1 where it is for one unit, else 0.
    pub has_name: u8,
    /// 1 where it was written to one address, else 0.
    pub has_address: u8,
    /// That address.
    pub address: u8,
    /// 1 where it was written, else 0.
    pub has_after: u8,
    /// Of a command the address to hold.
    pub commanded: u8,
}

const _: () = prove!(size_of::<LiveSettingsRecord>() == 24);

const _: () = prove!(size_of::<VerdictRecord>() == 32);

const _: () = prove!(align_of::<LiveSettingsRecord>() == 8);

const _: () = prove!(align_of::<VerdictRecord>() == 8);

impl LiveSettingsRecord {
    /// Whether each is within its range.
    pub fn are_in_range(&self) -> bool
        ensures { result ≡ spec.are_in_range self.now }
    {
        self.grant > 0 && self.gap >= 10_000 && self.gap <= 200_000 && self.settle <= 1_000_000
    }

    /// The times that the station keeps to.
    pub fn times(&self) -> StationTimes
        ensures { result ≡ spec.times_told self.now }
    {
        StationTimes {
            gap: self.gap,
            settle: self.settle,
        }
    }
}

impl VerdictRecord {
    /// No order was given.
    fn none() -> VerdictRecord
        ensures { result ≡ no_verdict }
    {
        VerdictRecord {
            name: 0,
            after: 0,
            pgn: 0,
            what: 0,
            detail: 0,
            left: 0,
            left_detail: 0,
            tries: 0,
            has_name: 0,
            has_address: 0,
            address: 0,
            has_after: 0,
            commanded: 0,
        }
    }

    /// The record of an order.
    fn of_order(order: &Order) -> VerdictRecord
        ensures { result ≡ order_record order.now }
    {
        let (has_name, name) = name_of(order);
        VerdictRecord {
            name,
            has_name,
            pgn: group_of(order),
            commanded: commanded_by(order),
            ..VerdictRecord::none()
        }
    }

    /// The record of a verdict.
    fn of_verdict(verdict: &Verdict) -> VerdictRecord
        ensures { result ≡ verdict_record verdict.now }
    {
        let (left, left_detail) = left_of(verdict.left);
        let (has_address, address) = address_of(verdict.address);
        let (has_after, after) = time_of(verdict.after);
        VerdictRecord {
            after,
            what: number_of_finding(verdict.finding),
            detail: detail_of(verdict.finding),
            left,
            left_detail,
            tries: verdict.tries,
            has_address,
            address,
            has_after,
            ..VerdictRecord::of_order(&verdict.order)
        }
    }

    /// The record of the open order, or of the verdict of the newest one.
    pub fn of(order: Option<Order>, last: Option<Verdict>) -> VerdictRecord
        ensures { result ≡ verdict_told order last }
    {
        match (order, last) {
            (Some(order), _) => VerdictRecord {
                what: 1,
                ..VerdictRecord::of_order(&order)
            },
            (None, Some(verdict)) => VerdictRecord::of_verdict(&verdict),
            (None, None) => VerdictRecord::none(),
        }
    }
}

/// The NAME of an order with its flag.
fn name_of(order: &Order) -> (u8, u64)
    ensures name { result.1 ≡ unwrap_or (orders.unit_named order.now) 0 }
    ensures has { result.0 ≡ flag (is_some (orders.unit_named order.now)) }
{
    let order = *order;
    match order.name() {
        Some(name) => (1, name.number()),
        None => (0, 0),
    }
}

/// The group of an order.
fn group_of(order: &Order) -> u32
    ensures { result ≡ orders.group_wanted order.now }
{
    let order = *order;
    order.pgn().number()
}

/// The address that an order commands.
fn commanded_by(order: &Order) -> u8
    ensures { result ≡ address_commanded order.now }
{
    match *order {
        Order::Command { address, .. } => address,
        _ => 0,
    }
}

/// An address with its flag.
fn address_of(address: Option<u8>) -> (u8, u8)
    ensures has { result.0 ≡ flag (is_some address) }
    ensures address { result.1 ≡ unwrap_or address 0 }
{
    match address {
        Some(address) => (1, address),
        None => (0, 0),
    }
}

/// A time with its flag.
fn time_of(time: Option<u64>) -> (u8, u64)
    ensures has { result.0 ≡ flag (is_some time) }
    ensures time { result.1 ≡ unwrap_or time 0 }
{
    match time {
        Some(time) => (1, time),
        None => (0, 0),
    }
}

/// What was found of what is left.
fn left_of(left: Option<Finding>) -> (u8, u8)
    ensures number { result.0 ≡ spec.left_number left }
    ensures detail { result.1 ≡ spec.left_detail left }
{
    match left {
        Some(finding) => (number_of_finding(finding), detail_of(finding)),
        None => (0, 0),
    }
}

/// The number of a finding.
fn number_of_finding(finding: Finding) -> u8
    ensures { result ≡ finding_number finding }
{
    match finding {
        Finding::Answered => 2,
        Finding::Unread => 3,
        Finding::Positive => 4,
        Finding::Refused(_) => 5,
        Finding::Busy => 6,
        Finding::Obeyed => 7,
        Finding::NoSuchUnit => 8,
        Finding::Silent => 9,
        Finding::InDoubt(_) => 10,
        Finding::LostAddress => 11,
        Finding::CutOff { .. } => 12,
    }
}

/// What a finding says more.
fn detail_of(finding: Finding) -> u8
    ensures { result ≡ finding_detail finding }
{
    match finding {
        Finding::Refused(control) => control,
        Finding::InDoubt(doubt) => number_of_doubt(doubt),
        Finding::CutOff { was_sent } => u8::from(was_sent),
        _ => 0,
    }
}

/// The number of a reason for doubt.
fn number_of_doubt(doubt: Doubt) -> u8
    ensures { result ≡ doubt_number doubt }
{
    match doubt {
        Doubt::AddressChangedHands => 1,
        Doubt::FramesMissed => 2,
        Doubt::OwnAddress => 3,
        Doubt::Stranger => 4,
    }
}
