ghost use Rattle.std.specs.Prelude.{◌≡◌, Some};
ghost use Rattle.can_frame.specs.Fields.{destination_of, pgn_of};
ghost use Rattle.can_frame.specs.declared.group_numbers.TheConstants.{ADDRESS_CLAIMED, CONNECTION_MANAGEMENT, DATA_TRANSFER};
ghost use Rattle.node_core.specs.Passing.{IsAcceptance};
ghost use Rattle.parameter_group.specs.Group.{ConnectionManagement, group_of};

use crate::commanding::{PartialCommand, is_broadcast};
use can_frame::{Frame, GLOBAL_ADDRESS, Pgn};
use name_field::Name;
use parameter_group::ParameterGroup;
use transport::Control;

/// What a frame tells the units that it asks nothing of, found once for all.
///
/// It is the acceptance filter of CAN, as far as it is the same for all. By it a unit finds whether the frame asks nothing of it
/// and makes it do nothing. It absorbs such a frame (`Node::absorb`), and hears any other in full.
#[derive(Clone, Copy, PartialEq, Eq)]
pub enum Acceptance {
    /// Nothing: each unit passes it over.
    Ignored,
    /// Nothing, but to the units that a frame to this address concerns. Each other one passes it over.
    Addressed(u8),
    /// An address, 0 to 253, is claimed under a NAME (SAE J1939-81).
    Claim { source: u8, name: Name },
    /// A source, 0 to 253, announces a broadcast (SAE J1939-21, TP.CM_BAM).
    ///
    /// It may start a commanded address (SAE J1939-81).
    Announcement { source: u8, starts: bool },
    /// A packet of a broadcast from a source, 0 to 253 (SAE J1939-21, TP.DT).
    Packet { source: u8, frame: Frame },
}

impl Acceptance {
    /// What the frame tells those units. Most frames are told by their identifier alone.
    #[inline(always)]
    pub fn of(frame: &Frame) -> Acceptance
        ensures { IsAcceptance result frame.now }
    {
        let id = frame.id();
        let Some(dest) = id.dest() else {
            return Acceptance::Ignored;
        };
        match id.pgn() {
            Pgn::ADDRESS_CLAIMED => of_claim(frame),
            Pgn::REQUEST => Acceptance::Addressed(dest),
            Pgn::CONNECTION_MANAGEMENT => of_message(frame, dest),
            Pgn::DATA_TRANSFER => of_packet(frame, dest),
            _ => Acceptance::Ignored,
        }
    }
}

/// What a claim tells.
fn of_claim(frame: &Frame) -> Acceptance
    requires { pgn_of frame.now.id ≡ ADDRESS_CLAIMED }
    ensures { IsAcceptance result frame.now }
{
    match ParameterGroup::read(frame) {
        ParameterGroup::AddressClaimed { source, name } => Acceptance::Claim { source, name },
        ParameterGroup::CannotClaim { .. } | ParameterGroup::Other => Acceptance::Ignored,
        _ => Acceptance::Addressed(GLOBAL_ADDRESS),
    }
}

/// What a message of connection management tells.
fn of_message(frame: &Frame, dest: u8) -> Acceptance
    requires group { pgn_of frame.now.id ≡ CONNECTION_MANAGEMENT }
    requires dest { destination_of frame.now.id ≡ Some dest }
    ensures { IsAcceptance result frame.now }
{
    if dest != GLOBAL_ADDRESS {
        return Acceptance::Addressed(dest);
    }
    match ParameterGroup::read(frame) {
        ParameterGroup::ConnectionManagement {
            source,
            dest,
            control,
        } => of_control(frame, source, dest, control),
        _ => Acceptance::Addressed(dest),
    }
}

/// What a message of connection management to all tells, by what it says.
fn of_control(frame: &Frame, source: u8, dest: u8, control: Control) -> Acceptance
    requires { group_of frame.now ≡ ConnectionManagement source dest control }
    ensures { IsAcceptance result frame.now }
{
    let Control::Bam { size, pgn, .. } = control else {
        return Acceptance::Addressed(GLOBAL_ADDRESS);
    };
    if !is_broadcast(dest, source) {
        return Acceptance::Addressed(GLOBAL_ADDRESS);
    }
    Acceptance::Announcement {
        source,
        starts: PartialCommand::started(size, pgn).is_partial(),
    }
}

/// What a packet tells.
fn of_packet(frame: &Frame, dest: u8) -> Acceptance
    requires group { pgn_of frame.now.id ≡ DATA_TRANSFER }
    requires dest { destination_of frame.now.id ≡ Some dest }
    ensures { IsAcceptance result frame.now }
{
    let source = frame.id().source();
    if is_broadcast(dest, source) {
        Acceptance::Packet {
            source,
            frame: *frame,
        }
    } else {
        Acceptance::Ignored
    }
}
