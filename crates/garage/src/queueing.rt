ghost use Rattle.std.specs.Prelude.{◌≡◌, ◌+◌, ◌<◌, ◌≤◌, ◌^◌, map, length, if◌then◌else◌};
ghost use Rattle.bus_ledger.specs.BusValue.{IsLive, IsUnit, seat_at, spare_at};
ghost use Rattle.bus_ledger.specs.Changes.{heard_more, queued, withdrawn};
ghost use Rattle.bus_ledger.specs.declared.traffic.Which.TheVariants.{All};
ghost use Rattle.node_core.specs.Pieces.{outs_of};
ghost use Rattle.journal.specs.Steps as steps;
ghost use Rattle.journal.specs.Steps.{begins_session, put_all, reacted, session_message_after, tagged, untagged, withdrawn_by};
ghost use Rattle.garage.specs.Answers.{count_with_begun};

use bus_ledger::{Bus, Tag, Which};
use can_frame::{Frame, GLOBAL_ADDRESS};
use node_core::{Begun, Heard, Outs, Part, Piece, Withdraw};
use station_table::Reaction;
use transport::Run;

/// To which messages the frames belong that a unit puts.
#[derive(Clone, Copy, PartialEq, Eq)]
pub struct MessageNumbers {
    /// The number of the message that begins with them.
    pub begun: u32,
    /// Whether that message is a session.
    pub is_session: bool,
    /// The number of the message of the last session.
    pub session: u32,
}

/// Queues what a unit puts, in order. The room is there.
#[inline(always)]
pub fn queue_outs(bus: &mut Bus, seat: u32, mut put: Outs, numbering: MessageNumbers)
    requires live { IsLive bus.old.traffic seat }
    requires spare { length put ≤ spare_at bus.old seat }
    requires few { (seat_at bus.old.traffic seat).queued + length put < 2 ^ 32 }
    ensures { bus.new.traffic ≡ put_all seat (map (tagged numbering.begun numbering.is_session numbering.session) put)
        bus.old.traffic }
{
    while let Some(piece) = put.take_piece() {
        queue_piece(bus, seat, piece, numbering);
    }
}

/// Queues one frame that a unit puts, or the parts of a run. The room for it is there.
#[inline(always)]
#[tactic(auto, using(crate::proofs::Pieces::put_begun, crate::proofs::Pieces::put_session))]
pub fn queue_piece(bus: &mut Bus, seat: u32, piece: Piece, numbering: MessageNumbers)
    requires live { IsLive bus.old.traffic seat }
    requires spare { 0 < spare_at bus.old seat }
    requires few { (seat_at bus.old.traffic seat).queued + length (outs_of piece) < 2 ^ 32 }
    ensures traffic { bus.new.traffic ≡ put_all seat
        (map (tagged numbering.begun numbering.is_session numbering.session) (outs_of piece)) bus.old.traffic }
    ensures spare { spare_at bus.old seat ≤ spare_at bus.new seat + 1 }
{
    match piece {
        Piece::One(out) => {
            let tag = tag_of(numbering, out.part);
            bus.queue_reserved(seat, out.frame, tag);
        }
        Piece::Many { run, part } => match part {
            Part::Begun(_) => bus.queue_run_reserved(
                seat,
                run,
                numbering.begun,
                numbering.is_session,
            ),
            Part::Session(_) => bus.queue_run_reserved(seat, run, numbering.session, true),
        },
    }
}

/// Queues frames that are no parts of a message, in order. The room is there.
#[inline(always)]
pub fn queue_frames(bus: &mut Bus, seat: u32, frames: &[Frame])
    requires live { IsLive bus.old.traffic seat }
    requires spare { length frames.now ≤ spare_at bus.old seat }
    requires few { (seat_at bus.old.traffic seat).queued + length frames.now < 2 ^ 32 }
    ensures { bus.new.traffic ≡ put_all seat (map untagged frames.now) bus.old.traffic }
{
    for frame in frames {
        bus.queue_reserved(seat, *frame, None);
    }
}

/// Which message and part a frame is.
pub fn tag_of(numbering: MessageNumbers, part: Option<Part>) -> Option<Tag>
    ensures { result ≡ steps.tag_of numbering.begun numbering.is_session numbering.session part }
{
    match part {
        None => None,
        Some(Part::Begun(part)) => Some(Tag {
            message: numbering.begun,
            part,
            session: numbering.is_session,
        }),
        Some(Part::Session(part)) => Some(Tag {
            message: numbering.session,
            part,
            session: true,
        }),
    }
}

/// Withdraws what a unit withdraws.
pub fn withdraw_by(bus: &mut Bus, seat: u32, withdraw: Withdraw)
    requires { IsLive bus.old.traffic seat }
    ensures traffic { bus.new.traffic ≡ withdrawn_by seat withdraw bus.old.traffic }
    ensures spare { spare_at bus.old seat ≤ spare_at bus.new seat }
{
    match withdraw {
        Withdraw::Keep => {}
        Withdraw::Session => {
            let _ = bus.withdraw(seat, Which::Session);
        }
        Withdraw::All => {
            let _ = bus.withdraw(seat, Which::All);
        }
    }
}

/// Withdraws and queues what a station withdraws and queues. The room is there.
pub fn react(bus: &mut Bus, station: u32, reaction: &Reaction)
    requires live { IsLive bus.old.traffic station }
    requires spare { length reaction.now.put ≤ spare_at bus.old station }
    requires few { (seat_at bus.old.traffic station).queued + length reaction.now.put < 2 ^ 32 }
    ensures { bus.new.traffic ≡ reacted station reaction.now bus.old.traffic }
{
    withdraw_if(bus, station, reaction.withdraw);
    queue_frames(bus, station, reaction.put.as_slice());
}

/// Withdraws a station's queue, or not.
pub fn withdraw_if(bus: &mut Bus, station: u32, withdraw: bool)
    requires { IsLive bus.old.traffic station }
    ensures traffic { bus.new.traffic ≡ (if withdraw then withdrawn station All bus.old.traffic else bus.old.traffic) }
    ensures spare { spare_at bus.old station ≤ spare_at bus.new station }
{
    if withdraw {
        let _ = bus.withdraw(station, Which::All);
    }
}

/// Marks a unit's next frame as heard, and withdraws and queues what the unit does.
///
/// The room is there.
pub fn do_heard(bus: &mut Bus, seat: u32, heard: Heard, numbering: MessageNumbers)
    requires unit { IsUnit bus.old.traffic seat }
    requires next { (seat_at bus.old.traffic seat).heard < length bus.old.traffic.wire }
    requires spare { length heard.put ≤ spare_at bus.old seat }
    requires few { (seat_at bus.old.traffic seat).queued + length heard.put < 2 ^ 32 }
    ensures { bus.new.traffic ≡ put_all seat (map (tagged numbering.begun numbering.is_session numbering.session) heard.put)
        (withdrawn_by seat heard.withdraw (heard_more seat 1 bus.old.traffic)) }
{
    let Heard { withdraw, put, .. } = heard;
    bus.mark_heard(seat);
    withdraw_by(bus, seat, withdraw);
    queue_outs(bus, seat, put, numbering);
}

/// Whether a message begins that goes to one address.
pub fn begins_session(begun: Option<Begun>) -> bool
    ensures { result ≡ begins_session begun }
{
    match begun {
        Some(begun) => begun.dest != GLOBAL_ADDRESS,
        None => false,
    }
}

/// The number of the message of the last session, once this one has begun.
pub fn last_session(before: u32, number: u32, begun: Option<Begun>) -> u32
    ensures { result ≡ session_message_after before number begun }
{
    if begins_session(begun) {
        number
    } else {
        before
    }
}

/// How many messages have begun, with this one.
pub fn begun_count(before: u32, begun: Option<Begun>) -> u32
    requires { before + 1 < 2 ^ 32 }
    ensures { result ≡ count_with_begun before begun }
{
    match begun {
        Some(_) => before + 1,
        None => before,
    }
}
