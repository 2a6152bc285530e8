ghost use Rattle.std.specs.Prelude.{◌≡◌, ◌≤◌, length};
ghost use Rattle.script_answer.specs.Refused as refused;
ghost use Rattle.script_answer.specs.Refused.{refusal_number, refusal_word};

use can_frame::{FrameError, PgnTooLarge};
use fault_memory::FaultError;
use garage::GarageError;
use name_field::NameError;
use std::fmt;

/// Why a command was not carried out. `Display` writes the answer.
#[derive(Clone, Copy)]
pub enum Refusal {
    /// The line is no command, or none that can be given now.
    BadLine,
    /// The seat has no unit at the bench, or was never given.
    NoSeat,
    /// A word is no NAME.
    Name(NameError),
    /// A number is no parameter group's.
    Pgn(PgnTooLarge),
    /// Words are no frame.
    Frame(FrameError),
    /// A fault memory refused a change.
    Fault(FaultError),
    /// The garage refused.
    Garage(GarageError),
}

impl Refusal {
    ghost use Rattle.std.specs.Prelude.{◌↔◌, IsTrue};
    ghost use Rattle.script_answer.specs.Wants.{WantsMemory};

    /// Whether memory was refused to the command. That says nothing of its line.
    pub fn wants_memory(self) -> bool
        ensures { IsTrue result ↔ WantsMemory self }
    {
        match self {
            Refusal::Fault(error) => error == FaultError::OutOfMemory,
            Refusal::Garage(error) => error == GarageError::OutOfMemory,
            Refusal::BadLine
            | Refusal::NoSeat
            | Refusal::Name(_)
            | Refusal::Pgn(_)
            | Refusal::Frame(_) => false,
        }
    }

    /// The number of the refusal; none of a line that is no command, or whose seat has no unit.
    pub fn number(self) -> Option<u8>
        ensures { result ≡ refusal_number self }
    {
        match self {
            Refusal::BadLine | Refusal::NoSeat => None,
            Refusal::Name(error) => Some(error.number()),
            Refusal::Pgn(error) => Some(error.number()),
            Refusal::Frame(error) => Some(error.number()),
            Refusal::Fault(error) => Some(error.number()),
            Refusal::Garage(error) => Some(error.number()),
        }
    }

    /// Its name, or words for one without a number.
    pub fn word(self) -> &'static str
        ensures word { result.now ≡ refusal_word self }
        ensures len { length result.now ≤ 14 }
    {
        match self {
            Refusal::BadLine => "bad line",
            Refusal::NoSeat => "no seat",
            Refusal::Name(error) => name_word(error),
            Refusal::Pgn(_) => "PgnTooLarge",
            Refusal::Frame(error) => frame_word(error),
            Refusal::Fault(error) => fault_word(error),
            Refusal::Garage(error) => garage_word(error),
        }
    }
}

fn name_word(error: NameError) -> &'static str
    ensures word { result.now ≡ refused.name_word error }
    ensures len { length result.now ≤ 14 }
{
    match error {
        NameError::FieldTooLarge => "FieldTooLarge",
        NameError::BadName => "BadName",
    }
}

fn frame_word(error: FrameError) -> &'static str
    ensures word { result.now ≡ refused.frame_word error }
    ensures len { length result.now ≤ 14 }
{
    match error {
        FrameError::IdTooLarge => "IdTooLarge",
        FrameError::TooLong => "TooLong",
    }
}

fn fault_word(error: FaultError) -> &'static str
    ensures word { result.now ≡ refused.fault_word error }
    ensures len { length result.now ≤ 14 }
{
    match error {
        FaultError::OutOfMemory => "OutOfMemory",
        FaultError::SpnTooLarge => "SpnTooLarge",
        FaultError::FmiTooLarge => "FmiTooLarge",
        FaultError::Full => "Full",
        FaultError::NotActive => "NotActive",
        FaultError::NotPending => "NotPending",
    }
}

fn garage_word(error: GarageError) -> &'static str
    ensures word { result.now ≡ refused.garage_word error }
    ensures len { length result.now ≤ 14 }
{
    match error {
        GarageError::OutOfMemory => "OutOfMemory",
        GarageError::NotAnAddress => "NotAnAddress",
        GarageError::NoAddress => "NoAddress",
        GarageError::NotHeld => "NotHeld",
        GarageError::NameInUse => "NameInUse",
        GarageError::TooManySeats => "TooManySeats",
        GarageError::BookFull => "BookFull",
        GarageError::BadSetting => "BadSetting",
        GarageError::Stranger => "Stranger",
        GarageError::Unclaimed => "Unclaimed",
    }
}

/// The words of its line.
impl fmt::Display for Refusal {
    ghost use Rattle.std.specs.Prelude.{Some};
    ghost use Rattle.script_answer.specs.Refused.{refusal_words};

    ghost output = { λ r. Some (refusal_words r) };

    fn fmt<W: fmt::Write>(&self, f: &mut fmt::Formatter<W>) -> fmt::Result {
        let word = self.word();
        match self.number() {
            Some(number) => write!(f, "refused {number} {word}"),
            None => write!(f, "{word}"),
        }
    }
}

impl From<NameError> for Refusal {
    ghost use Rattle.script_answer.specs.declared.refusal.Refusal.TheVariants.{Name};

    ghost from_gives = { λ error refusal. refusal ≡ Name error };

    fn from(error: NameError) -> Refusal {
        Refusal::Name(error)
    }
}

impl From<PgnTooLarge> for Refusal {
    ghost use Rattle.script_answer.specs.declared.refusal.Refusal.TheVariants.{Pgn};

    ghost from_gives = { λ error refusal. refusal ≡ Pgn error };

    fn from(error: PgnTooLarge) -> Refusal {
        Refusal::Pgn(error)
    }
}

impl From<FrameError> for Refusal {
    ghost use Rattle.script_answer.specs.declared.refusal.Refusal.TheVariants.{Frame};

    ghost from_gives = { λ error refusal. refusal ≡ Frame error };

    fn from(error: FrameError) -> Refusal {
        Refusal::Frame(error)
    }
}

impl From<FaultError> for Refusal {
    ghost use Rattle.script_answer.specs.declared.refusal.Refusal.TheVariants.{Fault};

    ghost from_gives = { λ error refusal. refusal ≡ Fault error };

    fn from(error: FaultError) -> Refusal {
        Refusal::Fault(error)
    }
}

impl From<GarageError> for Refusal {
    ghost use Rattle.script_answer.specs.declared.refusal.Refusal.TheVariants.{Garage};

    ghost from_gives = { λ error refusal. refusal ≡ Garage error };

    fn from(error: GarageError) -> Refusal {
        Refusal::Garage(error)
    }
}
