ghost use Rattle.std.specs.Prelude.{◌≡◌, ◌≤◌, ◌<◌, ◌^◌, length};
ghost use Rattle.can_frame.specs.Fields.{pdu_format_of_pgn};
ghost use Rattle.transport.specs.Messages.{part_of_message, last_part};
ghost use Rattle.transport.specs.Messages as message;
ghost use Rattle.transport.specs.Pieces.{packet_count};

use crate::control::Control;
use crate::pieces::{packets, part};
use can_frame::{Frame, GLOBAL_ADDRESS, Id, Pgn};

/// The frame of a connection management message: priority 7, group 60416.
pub fn control_frame(control: Control, source: u8, dest: u8) -> Frame
    ensures { result ≡ message.control_frame control source dest }
{
    Frame::full(control_id(source, dest), control.to_bytes())
}

/// The identifier of a connection management message.
pub(crate) fn control_id(source: u8, dest: u8) -> Id
    ensures { result ≡ message.control_id source dest }
{
    Id::pdu1(7, Pgn::CONNECTION_MANAGEMENT, dest, source)
}

/// The frame of a data transfer packet: priority 7, group 60160.
pub fn packet_frame(bytes: [u8; 8], source: u8, dest: u8) -> Frame
    ensures { result ≡ message.packet_frame bytes source dest }
{
    Frame::full(packet_id(source, dest), bytes)
}

/// The identifier of a data transfer packet.
pub(crate) fn packet_id(source: u8, dest: u8) -> Id
    ensures { result ≡ message.packet_id source dest }
{
    Id::pdu1(7, Pgn::DATA_TRANSFER, dest, source)
}

/// The number of a message's last part: 0 for the one frame of eight bytes, else its number of packets.
pub fn last(payload: &[u8]) -> u8
    requires least { 8 ≤ length payload.now }
    requires most { length payload.now ≤ 1785 }
    ensures { result ≡ last_part payload.now }
{
    if payload.len() == 8 {
        0
    } else {
        packets(payload.len() as u16)
    }
}

/// One part of a message of 8 to 1,785 bytes of a group that goes to all (PDU2).
///
/// Part 0 is the one frame if there are eight bytes, else the broadcast announcement (`dest` 255) or the request to send
/// with no limit; the others are the packets, up to their number.
pub fn message_part(payload: &[u8], pgn: Pgn, source: u8, dest: u8, j: u8) -> Frame
    requires least { 8 ≤ length payload.now }
    requires most { length payload.now ≤ 1785 }
    requires pgn_fits { pgn < 2 ^ 18 }
    requires to_all { 240 ≤ pdu_format_of_pgn pgn }
    requires within { j ≤ last_part payload.now }
    ensures { result ≡ part_of_message payload.now pgn source dest j }
{
    if payload.len() == 8 {
        return Frame::of(Id::pdu2(6, pgn, source), payload);
    }
    long_message_part(payload, pgn, source, dest, j)
}

/// One part of a message of 9 to 1,785 bytes: the announcement, or the packet of that number.
pub(crate) fn long_message_part(payload: &[u8], pgn: Pgn, source: u8, dest: u8, j: u8) -> Frame
    requires least { 9 ≤ length payload.now }
    requires most { length payload.now ≤ 1785 }
    requires within { j ≤ packet_count (length payload.now) }
    ensures { result ≡ part_of_message payload.now pgn source dest j }
{
    if j > 0 {
        packet_frame(part(payload, j), source, dest)
    } else {
        control_frame(announcement(payload.len() as u16, pgn, dest), source, dest)
    }
}

fn announcement(size: u16, pgn: Pgn, dest: u8) -> Control
    requires least { 9 ≤ size }
    requires most { size ≤ 1785 }
    ensures { result ≡ message.announcement size pgn dest }
{
    let packets = packets(size);
    if dest == GLOBAL_ADDRESS {
        Control::Bam { size, packets, pgn }
    } else {
        Control::Rts {
            size,
            packets,
            most: Control::NO_LIMIT,
            pgn,
        }
    }
}
