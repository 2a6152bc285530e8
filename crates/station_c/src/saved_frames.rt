//! What a station knows, written as frames that another one reads.
ghost use Rattle.std.specs.Prelude.{◌≤◌};

use crate::records::FrameRecord;
use address_claim::claim_frame;
use can_frame::{FILLER, Frame, GLOBAL_ADDRESS};
use dm_messages::{Kind, Shown};
use entry_lists::NewestEntries;
use name_field::Name;
use requests::Ack;
use station_table::{AckSeen, Row, Station};
use std::alloc::{AllocError, Global};
use transport::{last, message_part};

/// Frames, all from one address, as a station at another one reads them.
#[derive(Drop)]
pub struct SavedFrames {
    alloc: Global,
    /// The station's own address.
    own: u8,
    frames: Vec<FrameRecord>,
}

impl SavedFrames {
    /// What a station that holds an address knows: of each NAME in the order of the rows a claim, its last acknowledgment to the
    /// station, and the messages that are kept of its lists, the oldest first.
    pub fn of(
        alloc: Global,
        own: u8,
        station: &Station,
        lists: &NewestEntries,
    ) -> Result<Vec<FrameRecord>, AllocError> {
        let mut saved = SavedFrames {
            alloc,
            own,
            frames: Vec::new(alloc),
        };
        for place in 0..station.names() {
            if let Some(name) = station.name_at(place) {
                saved.put_name(name, station.row(name), lists)?;
            }
        }
        let SavedFrames { frames, .. } = saved;
        Ok(frames)
    }

    /// Where all frames come from: address 0, or 1 where the station holds 0.
    fn source(&self) -> u8
        ensures { result ≤ 1 }
    {
        if self.own == 0 { 1 } else { 0 }
    }

    /// What is known of a NAME.
    fn put_name(
        &mut self,
        name: Name,
        row: Option<Row>,
        lists: &NewestEntries,
    ) -> Result<(), AllocError> {
        self.put(claim_frame(name, Some(self.source())))?;
        if let Some(Row { ack: Some(ack), .. }) = row {
            self.put(self.ack(ack))?;
        }
        self.put_list(lists, name, Kind::Dm1)?;
        self.put_list(lists, name, Kind::Dm2)?;
        self.put_list(lists, name, Kind::Dm6)
    }

    /// The acknowledgment, to the station.
    fn ack(&self, ack: AckSeen) -> Frame {
        let ack = Ack {
            control: ack.control,
            requester: self.own,
            pgn: ack.pgn,
            dest: GLOBAL_ADDRESS,
            source: self.source(),
        };
        ack.frame()
    }

    /// The messages of a kind that are kept, the oldest first.
    fn put_list(
        &mut self,
        lists: &NewestEntries,
        name: Name,
        kind: Kind,
    ) -> Result<(), AllocError> {
        for place in 0..lists.kept(name, kind) {
            if let Some(shown) = lists.shown(name, kind, place) {
                self.put_message(kind, shown)?;
            }
        }
        Ok(())
    }

    /// A message, in one frame or by a broadcast. One that is too long for both is left out.
    fn put_message(&mut self, kind: Kind, shown: &Shown) -> Result<(), AllocError> {
        let payload = payload(self.alloc, shown)?;
        let payload = payload.as_slice();
        if payload.len() < 8 || payload.len() > 1785 {
            return Ok(());
        }
        let last = last(payload);
        for part in 0..=last {
            self.put(message_part(payload, kind.pgn(), self.source(), GLOBAL_ADDRESS, part))?;
        }
        Ok(())
    }

    fn put(&mut self, frame: Frame) -> Result<(), AllocError> {
        self.frames.push(FrameRecord::of(&frame))?;
        Ok(())
    }
}

/// The bytes of a message: two of lamps, four for each code; without a code four that stand for none. Fewer than two codes are filled
/// to eight bytes (SAE J1939-73).
fn payload(alloc: Global, shown: &Shown) -> Result<Vec<u8>, AllocError> {
    let codes = shown.codes.as_slice();
    let mut bytes = Vec::new(alloc);
    bytes.extend_from_slice(&shown.lamps.to_bytes())?;
    for code in codes {
        bytes.extend_from_slice(&code.to_bytes())?;
    }
    if codes.is_empty() {
        bytes.extend_from_slice(&[0x00; 4])?;
    }
    if codes.len() < 2 {
        bytes.extend_from_slice(&[FILLER; 2])?;
    }
    Ok(bytes)
}
