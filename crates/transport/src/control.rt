ghost use Rattle.std.specs.Prelude.{◌≡◌, ◌↔◌, ℕ, ◌+◌, ◌*◌, ◌/◌, ◌%◌, ◌∷◌, ◌++◌, Ok, Some, IfOk, IsErrOf, IsErr};
ghost use Rattle.can_frame.specs.Fields.{pgn_bytes};
ghost use Rattle.transport.specs.Pieces.{IsMessageSize};

use crate::pieces::packets;
use can_frame::{FILLER, Pgn};
use thiserror::Error;

/// The first byte of a request to send.
pub const REQUEST_TO_SEND: u8 = 16;

/// The first byte of a clear to send.
pub const CLEAR_TO_SEND: u8 = 17;

/// The first byte of an end of message acknowledgment.
pub const END_OF_MESSAGE: u8 = 19;

/// The first byte of a broadcast announcement.
pub const BROADCAST_ANNOUNCEMENT: u8 = 32;

/// The first byte of a connection abort.
pub const CONNECTION_ABORT: u8 = 255;

/// Why bytes were not read as a connection management message.
#[derive(Clone, Copy, Debug, PartialEq, Eq, Error)]
pub enum ControlError {
    /// There are not eight bytes, or the first is none of 16, 17, 19, 32 and 255.
    #[error("BadControl")]
    BadControl,
    /// The size is not 9 to 1,785, or the number of packets is not the size divided by 7 rounded up.
    #[error("BadSize")]
    BadSize,
}

impl ControlError {
    ghost use Rattle.transport.specs.Refusals.{control_error_number};

    /// The refusal's number: 5 or 6.
    pub fn number(self) -> u8
        ensures { result ≡ control_error_number self }
    {
        match self {
            ControlError::BadControl => 5,
            ControlError::BadSize => 6,
        }
    }
}

/// A connection management message (SAE J1939-21, TP.CM).
#[derive(Clone, Copy, Debug, PartialEq, Eq)]
pub enum Control {
    /// A request to send: the size in bytes, 9 to 1,785, its number of packets, and the most packets that one clear to
    /// send may grant (0 and 255: no limit).
    Rts {
        size: u16,
        packets: u8,
        most: u8,
        pgn: Pgn,
    },
    /// A clear to send: how many packets are granted (0 holds the session open), and the number of the next one.
    Cts {
        granted: u8,
        next: u8,
        pgn: Pgn,
    },
    /// An end of message acknowledgment.
    EndAck {
        size: u16,
        packets: u8,
        pgn: Pgn,
    },
    /// A broadcast announcement.
    Bam {
        size: u16,
        packets: u8,
        pgn: Pgn,
    },
    /// A connection abort: reason 1 already in a session, 2 resources needed elsewhere, 3 timeout, or another.
    Abort {
        reason: u8,
        pgn: Pgn,
    },
}

impl Control {
    ghost use Rattle.transport.specs.ControlMessage.{control_bytes, control_of, CarriesControl, HasLawfulSize, IsKnown, HasBadSize};
    ghost use Rattle.std.specs.Result.{result_ok};
    ghost use Rattle.transport.specs.declared.control.Control.{Control as AnyControl};

    /// The reason of an abort for want of resources, which another task needs.
    pub const RESOURCES_NEEDED: u8 = 2;

    /// What a request to send says where it sets no limit to the packets of a clear to send; 0 says the same.
    pub const NO_LIMIT: u8 = 255;

    /// The message that these bytes carry; fillers are not looked at.
    ///
    /// Refused BadControl where there are not eight bytes or the first is none of 16, 17, 19, 32 and 255; then BadSize
    /// where the size is not 9 to 1,785, or the number of packets not the size divided by 7 rounded up.
    pub fn read(bytes: &[u8]) -> Result<Control, ControlError>
        ensures ok { IfOk result (CarriesControl bytes.now) }
        ensures read { (c : AnyControl) → CarriesControl bytes.now c → result ≡ Ok c }
        ensures value { result_ok result ≡ control_of bytes.now }
        ensures bad_control { IsErrOf result ControlError.BadControl ↔ (¬ IsKnown bytes.now) }
        ensures bad_size { IsErrOf result ControlError.BadSize ↔ HasBadSize bytes.now }
    {
        let &[kind, a, b, c, d, low, middle, high] = bytes else {
            return Err(ControlError::BadControl);
        };
        let pgn = Pgn::from_bytes([low, middle, high]);
        match kind {
            REQUEST_TO_SEND => Ok(Control::Rts {
                size: read_size(a, b, c)?,
                packets: c,
                most: d,
                pgn,
            }),
            CLEAR_TO_SEND => Ok(Control::Cts {
                granted: a,
                next: b,
                pgn,
            }),
            END_OF_MESSAGE => Ok(Control::EndAck {
                size: read_size(a, b, c)?,
                packets: c,
                pgn,
            }),
            BROADCAST_ANNOUNCEMENT => Ok(Control::Bam {
                size: read_size(a, b, c)?,
                packets: c,
                pgn,
            }),
            CONNECTION_ABORT => Ok(Control::Abort { reason: a, pgn }),
            _ => Err(ControlError::BadControl),
        }
    }

    /// The eight bytes that carry this message, with fillers FF.
    pub fn to_bytes(self) -> [u8; 8]
        ensures value { result ≡ control_bytes self }
        ensures read_back { HasLawfulSize self → control_of result ≡ Some self }
    {
        match self {
            Control::Rts {
                size,
                packets,
                most,
                pgn,
            } => sized_bytes(REQUEST_TO_SEND, size, packets, most, pgn),
            Control::Cts { granted, next, pgn } => all_bytes(
                CLEAR_TO_SEND,
                [granted, next, FILLER, FILLER],
                pgn,
            ),
            Control::EndAck { size, packets, pgn } => sized_bytes(
                END_OF_MESSAGE,
                size,
                packets,
                FILLER,
                pgn,
            ),
            Control::Bam { size, packets, pgn } => sized_bytes(
                BROADCAST_ANNOUNCEMENT,
                size,
                packets,
                FILLER,
                pgn,
            ),
            Control::Abort { reason, pgn } => all_bytes(
                CONNECTION_ABORT,
                [reason, FILLER, FILLER, FILLER],
                pgn,
            ),
        }
    }
}

fn read_size(low: u8, high: u8, count: u8) -> Result<u16, ControlError>
    ensures ok { IfOk result (λ size. (size ≡ low + 256 * high) × IsMessageSize size count) }
    ensures bad { IsErr result ↔ (¬ IsMessageSize (low + 256 * high) count) }
    ensures only { ¬ IsErrOf result ControlError.BadControl }
{
    let size = u16::from_le_bytes([low, high]);
    if !(9..=1785).contains(&size) || packets(size) != count {
        return Err(ControlError::BadSize);
    }
    Ok(size)
}

fn sized_bytes(kind: u8, size: u16, count: u8, last: u8, pgn: Pgn) -> [u8; 8]
    ensures { result ≡ kind ∷ size % 256 ∷ size / 256 ∷ count ∷ last ∷ pgn_bytes pgn }
{
    let [low, high] = size.to_le_bytes();
    all_bytes(kind, [low, high, count, last], pgn)
}

fn all_bytes(kind: u8, middle: [u8; 4], pgn: Pgn) -> [u8; 8]
    ensures { result ≡ kind ∷ (middle ++ pgn_bytes pgn) }
{
    let [a, b, c, d] = middle;
    let [x, y, z] = pgn.to_bytes();
    [kind, a, b, c, d, x, y, z]
}
