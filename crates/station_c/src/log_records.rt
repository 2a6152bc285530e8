//! What is told for C of lines of a log, in C's layout. `c/hidzgula_station.h` has the same structs.
ghost use Rattle.std.specs.Prelude.{◌≡◌};
ghost use Rattle.station_c.specs.Lines.{read_frames};

/// When a frame of a log was seen, and in which line it stands.
#[repr(C)]
#[derive(Clone, Copy)]
pub struct LoggedRecord {
    /// The time of the line in microseconds, below 10^16; the greatest 64-bit number where it has none.
    pub time: u64,
    /// The number of the line among those that the call read, from 1.
    pub line: u64,
}

/// How far lines were read, and what the last of them told beside frames. A field that `what` does not name is 0.
#[repr(C)]
#[derive(Clone, Copy)]
pub struct ReadRecord {
    /// How many bytes were read: whole lines, with their ends.
    pub bytes: usize,
    /// How many frames they have.
    pub frames: usize,
    /// How many lines those are.
    pub lines: u64,
    /// How many frames were missed (1).
    pub missed: u32,
    /// What the last line told: 0 nothing more, 1 that frames were missed, 2 that it is bad.
    pub what: u8,
    /// The number of the reason why it is bad, 1 to 13 (2).
    pub why: u8,
}

const _: () = prove!(size_of::<LoggedRecord>() == 16);

const _: () = prove!(align_of::<LoggedRecord>() == 8);

const _: () = prove!(size_of::<ReadRecord>() == 32);

const _: () = prove!(align_of::<ReadRecord>() == 8);

impl ReadRecord {
    /// So many bytes were read, of so many lines with so many frames, and the last line told nothing beside.
    pub(crate) fn frames(bytes: usize, lines: u64, frames: usize) -> ReadRecord
        ensures { result ≡ read_frames bytes lines frames }
    {
        ReadRecord {
            bytes,
            frames,
            lines,
            missed: 0,
            what: 0,
            why: 0,
        }
    }
}
