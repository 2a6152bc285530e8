//! An answer that goes to all in packets.
ghost use Rattle.std.specs.Prelude.{◌≡◌};
ghost use Rattle.live_lines.specs.Own.{broadcast_behind};

/// An answer that goes to all in packets: which of a unit's it is, and what goes next.
#[derive(Clone, Copy)]
pub(crate) struct OwnBroadcast {
    /// Its place among those that the unit answers.
    pub(crate) place: usize,
    /// The number of its next packet.
    pub(crate) next: u8,
    /// From when on that goes.
    pub(crate) from: u64,
}

impl OwnBroadcast {
    /// What goes behind a frame of an answer, of which this is the last number, from this time on: nothing behind the last.
    pub(crate) fn behind(place: usize, number: u8, last: u8, from: u64) -> Option<OwnBroadcast>
        ensures { result ≡ broadcast_behind place number last from }
    {
        if number < last {
            Some(OwnBroadcast {
                place,
                next: number + 1,
                from,
            })
        } else {
            None
        }
    }
}
