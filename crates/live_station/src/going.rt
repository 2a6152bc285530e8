//! How far the open order is, and from where the station sends.
ghost use Rattle.std.specs.Prelude.{◌≡◌, false};
ghost use Rattle.address_claim.specs.Frames.{claim_source};
ghost use Rattle.parameter_group.specs.Said.{said};
ghost use Rattle.live_station.specs.OpenOrders.{unit_named};
ghost use Rattle.live_station.specs.Signs.{sign_for};
ghost use Rattle.live_station.specs.Working.{address_of_name, deed_turn, hearing_on, missing_on, order_waits_on, still_open, verdict_of};
ghost use Rattle.live_station.specs.Working as spec;
ghost use Rattle.live_unit.specs.declared.clock.UnitClock.{UnitClock};

use crate::open::{ANSWER_WAIT, OpenOrder, Progress, Sight};
use crate::order::Order;
use crate::sign::{Sign, sign_to};
use crate::turn::{Deed, Turn};
use crate::verdict::{Finding, Verdict};
use bus_model::Change;
use can_frame::NULL_ADDRESS;
use entry_lists::Row;
use live_unit::Lane;
use parameter_group::ParameterGroup;
use station_table::Station;

/// What a station does by its open order.
pub fn turn_of(going: OpenOrder, deed: Deed) -> Turn
    ensures { result ≡ deed_turn going deed }
{
    match deed {
        Deed::Nothing => Turn::Rests,
        deed => Turn::Does(going, deed),
    }
}

/// From when on a clear goes behind a frame of a lane: the first claim of an address puts it off.
pub fn clear_from_claim(lane: Lane, claimed: bool, now: u64, from: u64) -> u64
    ensures { (c : UnitClock) → c.claimed ≡ claimed → result ≡ spec.clear_from_claim lane c now from }
{
    match lane {
        Lane::Claims if !claimed => now.saturating_add(ANSWER_WAIT),
        _ => from,
    }
}

/// From when on a clear goes behind an order that ended: a clear that nobody answered puts it off.
pub fn clear_from_end(order: Order, finding: Finding, now: u64, from: u64) -> u64
    ensures { result ≡ spec.clear_from_end order finding now from }
{
    match (order, finding) {
        (Order::Clear { .. }, Finding::Silent) => now.saturating_add(ANSWER_WAIT),
        _ => from,
    }
}

/// What becomes of the open order where frames were missed.
pub fn miss_on(order: Option<OpenOrder>, now: u64) -> Option<Progress>
    ensures { result ≡ missing_on now order }
{
    let going = order?;
    Some(going.miss(now))
}

/// What becomes of the open order by what a frame says.
pub fn hear_on(
    order: Option<OpenOrder>,
    station: &Station,
    sign: Sign,
    contested: bool,
    stranger: bool,
    now: u64,
) -> Option<Progress>
    ensures { result ≡ hearing_on station.now sign contested stranger now order }
{
    let going = order?;
    let sight = Sight {
        held: station.held(),
        address: address_of(station, going.order),
        contested,
        stranger,
    };
    Some(going.hear(sign, sight, now))
}

/// The open order, if one is open, looks at what a frame says and changed. Its verdict, where it ended.
pub fn look_on(
    order: &mut Option<OpenOrder>,
    station: &Station,
    group: &ParameterGroup<'_>,
    change: &Change,
    contested: bool,
    now: u64,
) -> Option<Verdict>
    ensures going { order.new ≡ still_open (hearing_on station.now (sign_for order.old (said group.now) change.now) contested false now order.old) }
    ensures verdict { result ≡ verdict_of (hearing_on station.now (sign_for order.old (said group.now) change.now) contested false now order.old) }
{
    if order.is_none() {
        return None;
    }
    let sign = sign_to(*order, group, change);
    let progress = hear_on(*order, station, sign, contested, false, now);
    go_on(order, progress)
}

/// The open order is so far now, if one is open. Its verdict, where it ended.
pub fn go_on(order: &mut Option<OpenOrder>, progress: Option<Progress>) -> Option<Verdict>
    ensures going { order.new ≡ still_open progress }
    ensures verdict { result ≡ verdict_of progress }
{
    match progress {
        Some(Progress::Goes(open)) => {
            *order = Some(open);
            None
        }
        Some(Progress::Ends(verdict)) => {
            *order = None;
            Some(verdict)
        }
        None => {
            *order = None;
            None
        }
    }
}

/// The open order, where packets of a session from this address were asked for again.
pub fn wait_on(order: Option<OpenOrder>, source: u8, now: u64) -> Option<OpenOrder>
    ensures { result ≡ order_waits_on source now order }
{
    let going = order?;
    Some(going.wait_on(source, now))
}

/// The address of the unit that an order is for.
pub fn address_of(station: &Station, order: Order) -> Option<u8>
    ensures { result ≡ address_of_name station.now (unit_named order) }
{
    let Some(name) = order.name() else {
        return None;
    };
    match station.row(name) {
        Some(Row { address, .. }) => address,
        None => None,
    }
}

/// The address from which a station sends: the one that it holds, or 254.
pub fn source_of(held: Option<u8>) -> u8
    ensures { result ≡ claim_source held }
{
    match held {
        Some(address) => address,
        None => NULL_ADDRESS,
    }
}
