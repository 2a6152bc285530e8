ghost use Rattle.std.specs.Prelude.{◌≡◌};
ghost use Rattle.parameter_group.specs.Said.{said};
ghost use Rattle.live_station.specs.OpenOrders.{kind_wanted};
ghost use Rattle.live_station.specs.Signs.{ack_sign, announced_sign, began_sign, claim_sign, ended_sign, is_asked_at, is_group_wanted, is_told_to, is_wanted, packet_sign, sign_by, sign_for};
ghost use Rattle.live_station.specs.Signs as signs;

use crate::open::{Asked, OpenOrder, Stage};
use crate::order::Order;
use bus_model::Change;
use can_frame::{GLOBAL_ADDRESS, Pgn};
use dm_messages::Kind;
use name_field::Name;
use parameter_group::ParameterGroup;
use requests::Ack;
use transport::Control;

/// What a frame says of a request that is out.
#[derive(Clone, Copy)]
pub enum Sign {
    /// Nothing.
    Nothing,
    /// The unit acknowledges the group that is asked for, to the station.
    Acknowledged(u8),
    /// What is asked for begins, to all or to the station.
    Began { to_all: bool },
    /// Another message of the unit's begins in its place, to all or to the station.
    Replaced { to_all: bool },
    /// A packet of what is asked for.
    Packet,
    /// What is asked for ended, and began behind the request; whether it can be read.
    Ended { is_read: bool },
    /// The claim that is asked for.
    Claimed,
}

/// What a frame, and what it changed, says of the open order: nothing while that is not out.
pub fn sign_to(going: Option<OpenOrder>, group: &ParameterGroup<'_>, change: &Change) -> Sign
    ensures { result ≡ sign_for going (said group.now) change.now }
{
    let Some(going) = going else {
        return Sign::Nothing;
    };
    match going.stage {
        Stage::Asked(asked) => sign_of(going.order, asked, group, change),
        _ => Sign::Nothing,
    }
}

/// What a frame, and what it changed, says of a request that is out.
fn sign_of(order: Order, asked: Asked, group: &ParameterGroup<'_>, change: &Change) -> Sign
    ensures { result ≡ sign_by order asked (said group.now) change.now }
{
    match *group {
        ParameterGroup::AddressClaimed { name, .. } => sign_of_claim(order, name),
        ParameterGroup::Acknowledgment(ack) => sign_of_ack(order, asked, ack),
        ParameterGroup::Diagnostic { .. } => sign_of_ended(order, asked, change),
        ParameterGroup::ConnectionManagement {
            source,
            dest,
            control,
        } if asked.is_from(source) => sign_of_control(order, asked, dest, control),
        ParameterGroup::DataTransfer { source, dest, .. }
            if asked.is_from(source) && asked.is_told(dest) => {
            sign_of_packet(
                order,
                asked,
                asked.is_marked(dest == GLOBAL_ADDRESS),
                change,
            )
        }
        _ => Sign::Nothing,
    }
}

/// A claim.
fn sign_of_claim(order: Order, by: Name) -> Sign
    ensures { result ≡ claim_sign order by }
{
    match order {
        Order::AskClaim { name } => {
            if name == by {
                Sign::Claimed
            } else {
                Sign::Nothing
            }
        }
        Order::AskAllClaims => Sign::Claimed,
        _ => Sign::Nothing,
    }
}

/// An acknowledgment, of the group that is asked for, from the address that is asked, to the station.
fn sign_of_ack(order: Order, asked: Asked, ack: Ack) -> Sign
    ensures { result ≡ ack_sign order asked ack.control ack.requester ack.pgn ack.dest ack.source }
{
    let to_it = ack.requester == asked.own || ack.dest == asked.own;
    if ack.source == asked.to && ack.pgn == order.pgn() && to_it {
        Sign::Acknowledged(ack.control)
    } else {
        Sign::Nothing
    }
}

/// An announcement of what is asked for, by who is asked.
fn sign_of_control(order: Order, asked: Asked, dest: u8, control: Control) -> Sign
    ensures { result ≡ announced_sign order asked dest control }
{
    match control {
        Control::Bam { pgn, .. } if dest == GLOBAL_ADDRESS => sign_of_beginning(
            order, asked, true, pgn,
        ),
        Control::Rts { pgn, .. } if dest == asked.own => sign_of_beginning(
            order, asked, false, pgn,
        ),
        _ => Sign::Nothing,
    }
}

/// A message of this group begins.
fn sign_of_beginning(order: Order, asked: Asked, to_all: bool, pgn: Pgn) -> Sign
    ensures { result ≡ began_sign order asked to_all pgn }
{
    if is_asked(order, pgn) {
        Sign::Began { to_all }
    } else if asked.to == GLOBAL_ADDRESS {
        Sign::Nothing
    } else {
        Sign::Replaced { to_all }
    }
}

/// Whether a group is that of the message that is asked for.
fn is_asked(order: Order, pgn: Pgn) -> bool
    ensures { result ≡ is_group_wanted (kind_wanted order) pgn }
{
    match order.kind() {
        Some(kind) => kind.pgn() == pgn,
        None => false,
    }
}

/// A packet; `marked` is whether a message was announced behind the request that it may be of.
fn sign_of_packet(order: Order, asked: Asked, marked: bool, change: &Change) -> Sign
    ensures { result ≡ packet_sign marked order asked change.now }
{
    if marked {
        return or_packet(sign_of_ended(order, asked, change));
    }
    if asked.to == GLOBAL_ADDRESS {
        sign_of_ended(order, asked, change)
    } else {
        Sign::Nothing
    }
}

/// A packet, where no message ends with it.
fn or_packet(sign: Sign) -> Sign
    ensures { result ≡ signs.or_packet sign }
{
    match sign {
        Sign::Nothing => Sign::Packet,
        ended => ended,
    }
}

/// A message ended, if one did.
fn sign_of_ended(order: Order, asked: Asked, change: &Change) -> Sign
    ensures { result ≡ ended_sign order asked change.now }
{
    match *change {
        Change::Listed { name, kind, source } if is_answer(order, asked, name, kind, source) => {
            Sign::Ended { is_read: true }
        }
        Change::Unreadable { name, kind, source } if is_answer(order, asked, name, kind, source) =>
            { Sign::Ended { is_read: false } }
        _ => Sign::Nothing,
    }
}

/// Whether a message of this NAME and kind from this address is what is asked for.
fn is_answer(order: Order, asked: Asked, by: Name, of: Kind, source: u8) -> bool
    ensures { result ≡ is_wanted order asked by of source }
{
    match order {
        Order::Ask { name, kind } => name == by && kind == of && asked.is_from(source),
        Order::AskAll { kind } => kind == of,
        _ => false,
    }
}

impl Asked {
    /// Whether who sends from this address is asked.
    pub fn is_from(self, source: u8) -> bool
        ensures { result ≡ is_asked_at self source }
    {
        self.to == GLOBAL_ADDRESS || self.to == source
    }

    /// Whether a packet to this address is one to all or to the station.
    fn is_told(self, dest: u8) -> bool
        ensures { result ≡ is_told_to self dest }
    {
        dest == GLOBAL_ADDRESS || dest == self.own
    }

    /// Whether the message that is asked for was announced behind the request, to all or to the station.
    fn is_marked(self, to_all: bool) -> bool
        ensures { result ≡ signs.is_marked self to_all }
    {
        if to_all { self.broadcast } else { self.session }
    }
}
