//! What one frame says, by its parameter group (SAE J1939-21, -73 and -81): classified once, for units and station alike.
#![tactic(auto)]

ghost use Rattle.std.specs.Prelude.{◌≡◌};
ghost use Rattle.can_frame.specs.Fields.{pgn_of};
ghost use Rattle.can_frame.specs.declared.group_numbers.TheConstants.{ACKNOWLEDGMENT, ADDRESS_CLAIMED, REQUEST};
ghost use Rattle.parameter_group.specs.Group.{group_of};
ghost use Rattle.parameter_group.specs.Said.{IsLawfulGroup, said};
ghost use Rattle.parameter_group.specs.Written.{ReadsBack};

use address_claim::{Claim, read_claim};
use can_frame::{Frame, GLOBAL_ADDRESS, NULL_ADDRESS, Pgn};
use dm_messages::Kind;
use name_field::Name;
use requests::{Ack, Request};
use transport::Control;

/// What one frame says.
#[derive(Clone, Copy, Debug, PartialEq, Eq)]
pub enum ParameterGroup<'a> {
    /// An address from 0 to 253 is claimed under a NAME.
    AddressClaimed {
        source: u8,
        name: Name,
    },
    /// A NAME holds no address.
    CannotClaim {
        name: Name,
    },
    /// A parameter group is asked for.
    Request(Request),
    /// A request is answered.
    Acknowledgment(Ack),
    /// A diagnostic message in one frame.
    Diagnostic {
        kind: Kind,
        source: u8,
        bytes: &'a [u8],
    },
    /// A connection management message of the transport protocol that can be read.
    ConnectionManagement {
        source: u8,
        dest: u8,
        control: Control,
    },
    /// A packet of the transport protocol.
    DataTransfer {
        source: u8,
        dest: u8,
        bytes: &'a [u8],
    },
    /// Anything else: another parameter group, or bytes that do not fit it.
    Other,
}

impl<'a> ParameterGroup<'a> {
    /// What the frame says. The priority is not looked at; each parameter group number is compared in all
    /// its bits, the data pages included.
    #[inline(always)]
    #[tactic(auto, using(crate::proofs::Cases::of_active_codes, crate::proofs::Cases::of_previous_codes, crate::proofs::Cases::of_pending_codes, crate::proofs::Cases::of_control, crate::proofs::Cases::of_packet, crate::proofs::Cases::of_other, crate::specs::Laws::reads_back, crate::proofs::Cases::to_one))]
    pub fn read(frame: &'a Frame) -> ParameterGroup<'a>
        ensures value { said result ≡ group_of frame.entry.now }
        ensures lawful { IsLawfulGroup result }
        ensures reads_back { ReadsBack frame.entry.now (said result) }
    {
        let id = frame.id();
        let source = id.source();
        let bytes = frame.bytes();
        let dest = id.dest().unwrap_or(GLOBAL_ADDRESS);
        match id.pgn() {
            Pgn::ADDRESS_CLAIMED => claimed(frame),
            Pgn::REQUEST => requested(frame),
            Pgn::ACKNOWLEDGMENT => acknowledged(frame),
            Pgn::DM1 => ParameterGroup::Diagnostic {
                kind: Kind::Dm1,
                source,
                bytes,
            },
            Pgn::DM2 => ParameterGroup::Diagnostic {
                kind: Kind::Dm2,
                source,
                bytes,
            },
            Pgn::DM6 => ParameterGroup::Diagnostic {
                kind: Kind::Dm6,
                source,
                bytes,
            },
            Pgn::CONNECTION_MANAGEMENT => match Control::read(bytes) {
                Ok(control) => ParameterGroup::ConnectionManagement {
                    source,
                    dest,
                    control,
                },
                Err(_) => ParameterGroup::Other,
            },
            Pgn::DATA_TRANSFER => ParameterGroup::DataTransfer {
                source,
                dest,
                bytes,
            },
            _ => ParameterGroup::Other,
        }
    }
}

/// A claim or a cannot claim.
#[tactic(auto, using(crate::proofs::Cases::of_claim, crate::proofs::Cases::to_one))]
fn claimed(frame: &Frame) -> ParameterGroup<'static>
    requires { pgn_of frame.now.id ≡ ADDRESS_CLAIMED }
    ensures value { said result ≡ group_of frame.now }
    ensures lawful { IsLawfulGroup result }
{
    match read_claim(frame) {
        Ok(
            Claim {
                source: NULL_ADDRESS,
                name,
            },
        ) => ParameterGroup::CannotClaim { name },
        Ok(Claim { source, name }) => ParameterGroup::AddressClaimed { source, name },
        Err(_) => ParameterGroup::Other,
    }
}

#[tactic(auto, using(crate::proofs::Cases::of_request, crate::proofs::Cases::to_one))]
fn requested(frame: &Frame) -> ParameterGroup<'static>
    requires { pgn_of frame.now.id ≡ REQUEST }
    ensures value { said result ≡ group_of frame.now }
    ensures lawful { IsLawfulGroup result }
{
    match Request::read(frame) {
        Ok(request) => ParameterGroup::Request(request),
        Err(_) => ParameterGroup::Other,
    }
}

#[tactic(auto, using(crate::proofs::Cases::of_acknowledgment, crate::proofs::Cases::to_one))]
fn acknowledged(frame: &Frame) -> ParameterGroup<'static>
    requires { pgn_of frame.now.id ≡ ACKNOWLEDGMENT }
    ensures value { said result ≡ group_of frame.now }
    ensures lawful { IsLawfulGroup result }
{
    match Ack::read(frame) {
        Ok(ack) => ParameterGroup::Acknowledgment(ack),
        Err(_) => ParameterGroup::Other,
    }
}
