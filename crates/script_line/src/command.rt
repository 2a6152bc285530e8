ghost use Rattle.std.specs.Prelude.{◌≡◌};
ghost use Rattle.script_line.specs.Station.{is_of_station};

use can_frame::{Frame, FrameError, Pgn, PgnTooLarge};
use dm_messages::Kind;
use name_field::{Name, NameError};
use trouble_code::Lamps;
use unit_trait::UnitKind;

/// A NAME as a word spells it: sixteen hexadecimal digits of either case, or none.
pub type NameWord = Result<Name, NameError>;

/// A frame as words spell it: an identifier of eight hexadecimal digits and bytes of two digits each, or why there is none such.
pub type FrameWords = Result<Frame, FrameError>;

/// What a unit's fault memory is told of a trouble code.
#[derive(Clone, Copy)]
pub enum CodeChange {
    /// `set`: it becomes active.
    Set,
    /// `heal`: it becomes previously active.
    Heal,
    /// `pend`: it becomes pending.
    Pend,
    /// `unpend`: it is no longer pending.
    Unpend,
}

/// Who is asked.
#[derive(Clone, Copy)]
pub enum Receiver {
    /// `all`.
    All,
    /// The unit of a NAME.
    Unit { name: NameWord },
}

/// What is asked for.
#[derive(Clone, Copy)]
pub enum Asked {
    /// `dm1`: active codes.
    Dm1,
    /// `dm2`: previously active codes.
    Dm2,
    /// `dm3`: that the previously active codes be cleared.
    Dm3,
    /// `dm6`: pending codes.
    Dm6,
    /// `dm11`: that the active and the pending codes be cleared.
    Dm11,
    /// `claim`: the address claim.
    Claim,
    /// The number of a parameter group, or one too large to be any's.
    Other { pgn: Result<Pgn, PgnTooLarge> },
}

/// What words tell of one of two stations: `NAME ADDRESS WINDOW GRANT`.
#[derive(Clone, Copy)]
pub struct StationWords {
    /// Its NAME.
    pub name: NameWord,
    /// How many frames it may leave unread before it misses one.
    pub window: u32,
    /// The address that it claims.
    pub address: u8,
    /// How many packets of a session it asks for at once.
    pub grant: u8,
}

/// A line of a script that has an answer: a command, and the station that it is of.
#[derive(Clone, Copy)]
pub struct ScriptLine {
    /// The number of the station, from 0: `at S` before the command names it; 0 where the line does not. Whether there is a
    /// station of that number is not known here.
    pub station: u32,
    /// The command.
    pub command: Command,
}

/// A command of a script.
#[derive(Clone, Copy)]
pub enum Command {
    /// `garage NAME ADDRESS WINDOW GRANT LIMIT`
    Garage {
        name: NameWord,
        address: u8,
        window: u32,
        grant: u8,
        limit: u32,
    },
    /// `garage2 NAME ADDRESS WINDOW GRANT NAME ADDRESS WINDOW GRANT LIMIT`: two stations, and the limit of their garage.
    Garage2 {
        limit: u32,
        first: StationWords,
        second: StationWords,
    },
    /// `join NAME ADDRESS KIND`
    Join {
        name: NameWord,
        address: u8,
        kind: UnitKind,
    },
    /// `set SEAT SPN FMI [N]`, and `heal`, `pend` and `unpend` likewise: the N codes from SPN on.
    Change {
        seat: u32,
        change: CodeChange,
        spn: u32,
        fmi: u8,
        count: u32,
    },
    /// `lamps SEAT HHHH`: the lamps' byte and the flash codes' byte.
    Lamps {
        seat: u32,
        lamps: Lamps,
    },
    /// `think SEAT`
    Think {
        seat: u32,
    },
    /// `turn SEAT`
    Turn {
        seat: u32,
    },
    /// `leave SEAT`
    Leave {
        seat: u32,
    },
    /// `hear SEAT [N]`: at most N frames.
    Hear {
        seat: u32,
        most: u32,
    },
    /// `dm1 SEAT`
    Dm1 {
        seat: u32,
    },
    /// `carry [N]`: at most N frames.
    Carry {
        most: u32,
    },
    /// `read [N]`: at most N readings.
    Read {
        most: u32,
    },
    /// `round N`
    Round {
        count: u32,
    },
    /// `ask NAME WHAT`, `ask all WHAT`
    Ask {
        receiver: Receiver,
        asked: Asked,
    },
    /// `command NAME ADDRESS`
    Command {
        name: NameWord,
        address: u8,
    },
    /// `shown NAME dm1`, `shown NAME dm2`, `shown NAME dm6`
    Shown {
        name: NameWord,
        kind: Kind,
    },
    /// `row NAME`
    Row {
        name: NameWord,
    },
    /// `counts SEAT`
    Counts {
        seat: u32,
    },
    /// `stats`
    Stats,
    /// `frame I`: the frame of that number on the wire, from 0.
    Frame {
        index: u32,
    },
    /// `inject IIIIIIII [BB ..]`: a frame from outside.
    Inject {
        frame: FrameWords,
    },
    /// `injected`
    Injected,
    /// `report`
    Report,
}

impl Command {
    /// Whether it is a command of a station, so that a line may name the station before it: `read`, `ask`, `command`, `shown`,
    /// `row`, `stats` and `report`.
    pub fn is_of_station(&self) -> bool
        ensures { result ≡ is_of_station self.now }
    {
        match self {
            Command::Read { .. } | Command::Ask { .. } | Command::Command { .. } => true,
            Command::Shown { .. } | Command::Row { .. } => true,
            Command::Stats | Command::Report => true,
            _ => false,
        }
    }
}
