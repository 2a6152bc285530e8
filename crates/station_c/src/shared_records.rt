//! A message of a group that a program shares, for C, in C's layout, and what came of one that it sent. `c/hidzgula_station.h` has the same
//! struct and numbers.
ghost use Rattle.std.specs.Prelude.{◌≡◌, ◌≤◌, length, take};
ghost use Rattle.station_c.specs.SharedRecords.{TellsMessage, name_under, sent_number, sent_reason};
ghost use Rattle.station_c.specs.declared.shared_records.TheConstants.{MOST_BYTES};

use name_field::Name;
use shared_groups::{Sent, SharedMessage};

/// The most bytes that a message has (SAE J1939-21).
pub const MOST_BYTES: usize = 1785;

/// A message of a group that a program shares.
#[repr(C)]
#[derive(Clone, Copy)]
pub struct MessageRecord {
    /// The NAME that held its source from its first to its last frame, where `has_name` is 1.
    pub name: u64,
    /// Its group.
    pub pgn: u32,
    /// How many bytes it has, 0 to 1,785.
    pub size: u16,
    /// The address that sent it.
    pub source: u8,
    /// 0 where nobody claimed that address.
    pub has_name: u8,
    /// The bytes, and behind them 0.
    pub bytes: [u8; 1785],
}

const _: () = prove!(size_of::<MessageRecord>() == 1808);

const _: () = prove!(align_of::<MessageRecord>() == 8);

impl MessageRecord {
    /// The record of a message.
    pub fn of(message: &SharedMessage) -> MessageRecord
        ensures { TellsMessage result message.now }
    {
        let from = message.bytes();
        let (size, bytes) = filled(from);
        let (has_name, name) = flagged_name(message.owner);
        MessageRecord {
            name,
            pgn: message.pgn.number(),
            size,
            source: message.source,
            has_name,
            bytes,
        }
    }
}

/// These bytes, behind which there is room, and how many they are; none where there is too little room.
fn filled(from: &[u8]) -> (u16, [u8; 1785])
    ensures { length from.now ≤ MOST_BYTES → (result.0 ≡ length from.now) × (take result.0 result.1 ≡ from.now) }
{
    let mut bytes = [0; 1785];
    if from.len() > MOST_BYTES {
        return (0, bytes);
    }
    bytes[..from.len()].copy_from_slice(from);
    (from.len() as u16, bytes)
}

/// A NAME with its flag.
fn flagged_name(name: Option<Name>) -> (u8, u64)
    ensures { name_under result.0 result.1 ≡ name }
{
    match name {
        Some(name) => (1, name.number()),
        None => (0, 0),
    }
}

/// The number of what came of a message that was sent, and the reason for which its receiver aborted it, else 0.
pub fn numbers_of(sent: Sent) -> (u8, u8)
    ensures number { result.0 ≡ sent_number sent }
    ensures reason { result.1 ≡ sent_reason sent }
{
    match sent {
        Sent::Nothing => (0, 0),
        Sent::Open => (1, 0),
        Sent::Written => (2, 0),
        Sent::Acknowledged => (3, 0),
        Sent::Aborted { reason } => (4, reason),
        Sent::Silent => (5, 0),
        Sent::AskedTooOften => (6, 0),
        Sent::CutOff => (7, 0),
    }
}
