//! A vehicle as a TOML text describes it: its station, a second one where there is one, and its units in the order of the text.
//!
//! ```toml
//! [station]
//! name = "0000000000000001"   # sixteen hexadecimal digits
//! address = 249               # 0 to 253
//! window = 64                 # 1 to 4096 frames
//! grant = 16                  # 1 to 255 packets
//! limit = 100000              # 1 to 16777216 events
//!
//! [second]                    # may be left out
//! name = "0000000000000002"   # another NAME than the station's
//! address = 250               # 0 to 253
//! window = 64                 # 1 to 4096 frames
//! grant = 16                  # 1 to 255 packets
//!
//! [[unit]]
//! name = "00000000000000A0"
//! address = 0                 # 0 to 253
//! kind = "plain"              # or "guarded"
//!
//! [[unit]]
//! name = "00000000000000B0"
//! address = 1
//! kind = "flicker"
//! spn = 100                   # 0 to 524287
//! fmi = 1                     # 0 to 31
//! ```
//!
//! As its units take part in a real bus, a unit may have keys more, and no station has to be there:
//!
//! ```toml
//! [[unit]]
//! name = "00000000000000C0"
//! address = 2
//! kind = "plain"
//! lamps = "04FF"              # the lamps' byte and the flash codes' byte
//! active = ["110/0", "190/2/3"]   # SPN/FMI, or SPN/FMI/COUNT
//! previous = ["94/1"]
//! pending = []
//! vin = "1FUJA6CK57LX12345"   # how it tells what it is
//! component = "MAKE*MODEL*SERIAL*UNIT"
//! software = "BOOT 1.2*APP 3.4"
//! ecu = "PART*SERIAL*PLACE*TYPE*MAKER"
//! answers_violations = true   # it claims again where another sends from its address; false where it is left out
//!
//! [[unit.answers]]            # a group that it sends where it is asked for it
//! pgn = 65253                 # one that goes to all
//! bytes = "10270000FFFFFFFF"  # 1 to 1785; or text = ".."
//! priority = 6                # 0 to 7; 6 where it is left out
//!
//! [[unit.sends]]              # a group that it sends again and again
//! pgn = 61444                 # one that goes to all
//! bytes = "F07D84A61F00F07D"  # 1 to 1785; of more than 8 none moves
//! period = 100                # 10 to 60000 ms
//! priority = 3                # 0 to 7; 6 where it is left out
//! checksum = { start = 60, length = 4 }   # where each frame bears its checksum
//!
//! [[unit.sends.fields]]       # a field of it that moves from frame to frame
//! kind = "counter"            # or "ramp", "toggle", "values"
//! start = 56                  # its start bit, as a DBC file has it
//! length = 4                  # 1 to 32 bits
//! order = "intel"             # or "motorola"; "intel" where it is left out
//! least = 0
//! most = 7
//!
//! [[unit.fails]]              # what it does wrong on purpose
//! kind = "drop"               # or "delay", "twice", "number", "short", "zeros", "old", "babble", "steal"
//! after = 2000                # ms; 0 where it is left out
//! count = 3                   # how often; once, where "time", in ms, is left out too
//! group = 65226               # of which frames; of all where it is left out
//! share = 10                  # of 100 of these, as numbers from a seed choose them; 100 where it is left out
//! seed = 7
//! ```
#![tactic(auto)]

mod answer_frames;
mod answer_line;
mod answers;
mod checksum;
mod codes;
mod fail_line;
mod fails;
mod fault;
mod field_bits;
mod fields;
mod identification;
mod key_error;
mod lines;
mod live;
mod long_line;
mod motion;
mod moving_field;
mod moving_value;
mod periods;
mod putting;
mod read;
mod room;
mod send_line;
mod sending;
mod sends;
mod violations;

pub use answer_line::AnswerLine;
pub use fail_line::{Deviation, FailLine};
pub use fails::read_fail;
pub use fault::VehicleFault;
pub use field_bits::{ByteOrder, FieldBits};
pub use identification::Identification;
pub use live::{LiveLine, read_live_units};
pub use long_line::{CyclicLine, LongLine};
pub use motion::{Counter, Motion, Ramp, ValueList};
pub use moving_field::MovingField;
use name_field::Name;
pub use read::{GREATEST_LIMIT, GREATEST_WINDOW, read_vehicle};
pub use send_line::SendLine;
pub use unit_trait::UnitKind;

/// The station of a vehicle, and the settings of its bus.
#[derive(Clone, Copy, PartialEq, Eq)]
pub struct StationTable {
    /// Its NAME.
    pub name: Name,
    /// The address that it claims, 0 to 253.
    pub address: u8,
    /// How many frames it may leave unread before it misses one, 1 to 4,096.
    pub window: u32,
    /// How many packets of a session it asks for at once, 1 to 255.
    pub grant: u8,
    /// How many events the journal may hold, 1 to 16,777,216.
    pub limit: u32,
}

/// How a second station of a vehicle is opened. The limit of the journal is that of its bus, so that it has none of its own.
#[derive(Clone, Copy, PartialEq, Eq)]
pub struct StationSettings {
    /// Its NAME, which is not the first station's.
    pub name: Name,
    /// The address that it claims, 0 to 253.
    pub address: u8,
    /// How many frames it may leave unread before it misses one, 1 to 4,096.
    pub window: u32,
    /// How many packets of a session it asks for at once, 1 to 255.
    pub grant: u8,
}

/// A unit of a vehicle.
#[derive(Clone, Copy, PartialEq, Eq)]
pub struct UnitLine {
    /// Its NAME.
    pub name: Name,
    /// The address that it claims, 0 to 253.
    pub address: u8,
    /// What it is like. A flicker's SPN is 0 to 524,287, its FMI 0 to 31.
    pub kind: UnitKind,
}

/// A vehicle.
#[derive(Drop)]
pub struct Vehicle {
    /// Its station.
    pub station: StationTable,
    /// Its second station, where it has one.
    pub second: Option<StationSettings>,
    /// Its units, in the order of the text.
    pub units: Vec<UnitLine>,
}
