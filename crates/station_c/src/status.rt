ghost use Rattle.std.specs.Prelude.{◌≡◌};

use can_frame::FrameError;
use fault_memory::FaultError;
use live_station::{HearError, OrderError};
use live_unit::LiveError;
use shared_groups::SharedError;
use station_table::StationError;

/// What a call from C answers.
#[derive(Clone, Copy, PartialEq, Eq)]
pub enum Status {
    /// It was done.
    Done,
    /// The identifier is 2^29 or more.
    IdTooLarge,
    /// There are more than eight bytes; or, of a message, more than 1,785.
    TooLong,
    /// 254 and 255 are no addresses to hold; no message of that group and size goes to that address.
    NotAnAddress,
    /// The station knows no address of that NAME.
    NoAddress,
    /// The station, or the unit, holds no address.
    NotHeld,
    /// An address above 253, a grant of 0, or a setting of a unit that is out of its range.
    BadSetting,
    /// The parameter group number is 2^24 or more.
    PgnTooLarge,
    /// The handle has no station.
    NoStation,
    /// The handle has a station already.
    HasStation,
    /// There is no row at that place; no such entry came, or it has no such code.
    NoPlace,
    /// The kind is none of 1 (DM1), 2 (DM2) and 6 (DM6).
    NoKind,
    /// Memory was refused.
    OutOfMemory,
    /// The entry at that place is none of the newest, and is kept no longer.
    NotKept,
    /// The SPN is above 524,287.
    SpnTooLarge,
    /// The FMI is above 31.
    FmiTooLarge,
    /// A fault memory holds 445 codes, and no more.
    MemoryFull,
    /// The code that is to be healed is not active.
    NotActive,
    /// The handle has no unit.
    NoUnit,
    /// The handle has a unit already.
    HasUnit,
    /// As much waits to be written as there is room for.
    QueueFull,
    /// A session of that kind is open; another message of the program's, or a command, is under way.
    SessionOpen,
    /// The code that is to go away is not pending.
    NotPending,
    /// The handle has no listener.
    NoListener,
    /// The handle has a listener already.
    HasListener,
    /// Another order is open; or, for a command, a message of the program's in packets to all is under way.
    OrderOpen,
    /// The parameter group is none that an order asks for, or by which one clears; none that may be shared, or is; none that an identifier carries.
    NoGroup,
    /// The array is too short for what is saved.
    NoRoom,
    /// What is saved would not show the same.
    NotSaved,
}

impl Status {
    ghost use Rattle.station_c.specs.Statuses.{status_number, status_of_fault, status_of_frame, status_of_hearing, status_of_live, status_of_order, status_of_shared, status_of_station};

    /// The number that C sees: 0 where it was done; of a refusal that other crates give too, theirs, but for `NotPending`, whose
    /// number there is that of `NoStation` here; 33 where memory was refused.
    pub fn number(self) -> u32
        ensures { result ≡ status_number self }
    {
        match self {
            Status::Done => 0,
            Status::IdTooLarge => 1,
            Status::TooLong => 2,
            Status::NotAnAddress => 7,
            Status::NoAddress => 22,
            Status::NotHeld => 23,
            Status::BadSetting => 24,
            Status::PgnTooLarge => 28,
            Status::NoStation => 29,
            Status::HasStation => 30,
            Status::NoPlace => 31,
            Status::NoKind => 32,
            Status::OutOfMemory => 33,
            Status::NotKept => 34,
            Status::SpnTooLarge => 9,
            Status::FmiTooLarge => 10,
            Status::MemoryFull => 13,
            Status::NotActive => 14,
            Status::NoUnit => 35,
            Status::HasUnit => 36,
            Status::QueueFull => 37,
            Status::SessionOpen => 38,
            Status::NotPending => 39,
            Status::NoListener => 40,
            Status::HasListener => 41,
            Status::OrderOpen => 42,
            Status::NoGroup => 43,
            Status::NoRoom => 44,
            Status::NotSaved => 45,
        }
    }

    /// What stands for the refusal of a frame.
    pub fn of_frame(refusal: FrameError) -> Status
        ensures { result ≡ status_of_frame refusal }
    {
        match refusal {
            FrameError::IdTooLarge => Status::IdTooLarge,
            FrameError::TooLong => Status::TooLong,
        }
    }

    /// What stands for a refusal of the station.
    pub fn of_station(refusal: StationError) -> Status
        ensures { result ≡ status_of_station refusal }
    {
        match refusal {
            StationError::OutOfMemory => Status::OutOfMemory,
            StationError::NotAnAddress => Status::NotAnAddress,
            StationError::NoAddress => Status::NoAddress,
            StationError::NotHeld => Status::NotHeld,
        }
    }

    /// What stands for the refusal of a change by a fault memory.
    pub fn of_fault(refusal: FaultError) -> Status
        ensures { result ≡ status_of_fault refusal }
    {
        match refusal {
            FaultError::OutOfMemory => Status::OutOfMemory,
            FaultError::SpnTooLarge => Status::SpnTooLarge,
            FaultError::FmiTooLarge => Status::FmiTooLarge,
            FaultError::Full => Status::MemoryFull,
            FaultError::NotActive => Status::NotActive,
            FaultError::NotPending => Status::NotPending,
        }
    }

    /// What stands for a refusal of a unit that takes part in a bus.
    pub fn of_live(refusal: LiveError) -> Status
        ensures { result ≡ status_of_live refusal }
    {
        match refusal {
            LiveError::OutOfMemory => Status::OutOfMemory,
            LiveError::Unclaimed => Status::NotHeld,
            LiveError::Full => Status::QueueFull,
        }
    }

    /// What stands for the refusal of a frame by a live station.
    pub fn of_hearing(refusal: HearError) -> Status
        ensures { result ≡ status_of_hearing refusal }
    {
        match refusal {
            HearError::OutOfMemory => Status::OutOfMemory,
            HearError::Full => Status::QueueFull,
        }
    }

    /// What stands for the refusal of an order.
    pub fn of_order(refusal: OrderError) -> Status
        ensures { result ≡ status_of_order refusal }
    {
        match refusal {
            OrderError::Open => Status::OrderOpen,
            OrderError::NotAnAddress => Status::NotAnAddress,
        }
    }

    /// What stands for a refusal of groups that a program shares.
    pub fn of_shared(refusal: SharedError) -> Status
        ensures { result ≡ status_of_shared refusal }
    {
        match refusal {
            SharedError::OutOfMemory => Status::OutOfMemory,
            SharedError::Full => Status::QueueFull,
            SharedError::NoGroup => Status::NoGroup,
            SharedError::NotHeld => Status::NotHeld,
            SharedError::TooLong => Status::TooLong,
            SharedError::NotAnAddress => Status::NotAnAddress,
            SharedError::SessionOpen => Status::SessionOpen,
        }
    }
}
