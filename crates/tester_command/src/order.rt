//! What a tester is told to do.
ghost use Rattle.std.specs.Prelude.{◌≡◌};
ghost use Rattle.tester_command.specs.Orders.{clearing_text, kind_text, question_text};

use dm_messages::Kind;
use live_station::Clearing;
use name_field::Name;
use std::fmt;

/// Whom an order is for.
#[derive(Clone, Copy)]
pub(crate) enum Whom {
    /// The unit of this NAME.
    Named(Name),
    /// The unit whose NAME holds this address, 0 to 253.
    At(u8),
    /// All units.
    All,
}

/// What is asked for.
#[derive(Clone, Copy)]
pub(crate) enum Question {
    /// A diagnostic message.
    Message(Kind),
    /// The claim of an address.
    Claim,
}

/// What a tester is told to do. `Display` writes its words.
#[derive(Clone, Copy)]
pub(crate) enum TestOrder {
    /// It asks.
    Ask { whom: Whom, what: Question },
    /// It has codes cleared.
    Clear { whom: Whom, what: Clearing },
    /// It has the unit of a NAME move to an address, 0 to 253.
    Command { name: Name, address: u8 },
    /// It waits so many milliseconds.
    Wait { milliseconds: u32 },
    /// It ends the run.
    End,
}

impl TestOrder {
    /// Whether it clears all units.
    pub(crate) fn clears_all(&self) -> bool {
        matches!(
            self,
            TestOrder::Clear {
                whom: Whom::All,
                ..
            }
        )
    }

    /// Whether it is for all units.
    pub(crate) fn is_for_all(&self) -> bool {
        matches!(
            self,
            TestOrder::Ask {
                whom: Whom::All,
                ..
            } | TestOrder::Clear {
                whom: Whom::All,
                ..
            }
        )
    }
}

impl fmt::Display for Whom {
    fn fmt<W: fmt::Write>(&self, f: &mut fmt::Formatter<W>) -> fmt::Result {
        match self {
            Whom::Named(name) => write!(f, "{name}"),
            Whom::At(address) => write!(f, "{address}"),
            Whom::All => write!(f, "all"),
        }
    }
}

/// The word of a kind of message.
fn kind_word(kind: Kind) -> &'static str
    ensures { result.now ≡ kind_text kind }
{
    match kind {
        Kind::Dm1 => "dm1",
        Kind::Dm2 => "dm2",
        Kind::Dm6 => "dm6",
    }
}

/// The word of what is asked for.
fn question_word(what: Question) -> &'static str
    ensures { result.now ≡ question_text what }
{
    match what {
        Question::Message(kind) => kind_word(kind),
        Question::Claim => "claim",
    }
}

/// The word of what is cleared.
fn clearing_word(what: Clearing) -> &'static str
    ensures { result.now ≡ clearing_text what }
{
    match what {
        Clearing::Dm3 => "dm3",
        Clearing::Dm11 => "dm11",
    }
}

impl fmt::Display for TestOrder {
    fn fmt<W: fmt::Write>(&self, f: &mut fmt::Formatter<W>) -> fmt::Result {
        match self {
            TestOrder::Ask { whom, what } => {
                let what = question_word(*what);
                write!(f, "ask {whom} {what}")
            }
            TestOrder::Clear { whom, what } => {
                let what = clearing_word(*what);
                write!(f, "clear {whom} {what}")
            }
            TestOrder::Command { name, address } => write!(f, "command {name} {address}"),
            TestOrder::Wait { milliseconds } => write!(f, "wait {milliseconds}"),
            TestOrder::End => write!(f, "end"),
        }
    }
}
