ghost use Rattle.std.specs.Prelude.{◌≡◌};

use garage::GarageError;
use script_answer::Refusal;
use std::fmt;

/// Why a unit's thread ended early. `Display` writes the refusal's name.
#[derive(Clone, Copy, Debug, PartialEq, Eq)]
pub enum EndReason {
    /// A call of the garage was refused. `Stranger` also stands for an end that does not agree with the journal.
    Garage(GarageError),
    /// The thread was not started, and the unit never joined.
    NoThread,
}

impl EndReason {
    ghost use Rattle.unit_threads.specs.Ends.{number_of_end, word_of_end};

    /// The refusal's number.
    pub fn number(self) -> u8
        ensures { result ≡ number_of_end self }
    {
        match self {
            EndReason::Garage(error) => error.number(),
            EndReason::NoThread => 27,
        }
    }

    /// The refusal's name.
    fn word(self) -> &'static str
        ensures { result.now ≡ word_of_end self }
    {
        match self {
            EndReason::Garage(error) => Refusal::Garage(error).word(),
            EndReason::NoThread => "NoThread",
        }
    }
}

impl fmt::Display for EndReason {
    ghost use Rattle.std.specs.Prelude.{Some};
    ghost use Rattle.unit_threads.specs.Ends.{word_of_end};

    ghost output = { λ r. Some (word_of_end r) };

    fn fmt<W: fmt::Write>(&self, f: &mut fmt::Formatter<W>) -> fmt::Result {
        let word = self.word();
        write!(f, "{word}")
    }
}

/// How a unit's thread ended.
#[derive(Clone, Copy, Debug, PartialEq, Eq)]
pub struct Ended {
    /// The unit's seat; none where it never joined.
    pub seat: Option<u32>,
    /// How many events of its own the unit had, its leave included.
    pub events: u32,
    /// Why it ended before all its turns were over; none where they were.
    pub refusal: Option<EndReason>,
}
