ghost use Rattle.std.specs.Prelude.{◌≡◌};
ghost use Rattle.live_station.specs.OpenOrders.{clearing_group, group_wanted, kind_wanted, unit_named};
ghost use Rattle.live_station.specs.OpenOrders as orders;

use can_frame::{GREATEST_ADDRESS, Pgn};
use dm_messages::Kind;
use name_field::Name;

/// What a unit is asked to clear (SAE J1939-73).
#[derive(Clone, Copy, PartialEq, Eq)]
pub enum Clearing {
    /// The previously active codes, by a request for group 65228.
    Dm3,
    /// The active codes, by a request for group 65235.
    Dm11,
}

impl Clearing {
    /// The kind of message that shows what is left: DM2 behind DM3, DM1 behind DM11.
    pub fn kind_left(self) -> Kind
        ensures { result ≡ orders.kind_left self }
    {
        match self {
            Clearing::Dm3 => Kind::Dm2,
            Clearing::Dm11 => Kind::Dm1,
        }
    }

    /// The group that is asked for: 65228 or 65235.
    pub fn pgn(self) -> Pgn
        ensures { result ≡ clearing_group self }
    {
        match self {
            Clearing::Dm3 => Pgn::DM3,
            Clearing::Dm11 => Pgn::DM11,
        }
    }
}

/// What a station is to do.
#[derive(Clone, Copy, PartialEq, Eq)]
pub enum Order {
    /// Asks the unit of a NAME for a diagnostic message.
    Ask { name: Name, kind: Kind },
    /// Asks the unit of a NAME for its claim.
    AskClaim { name: Name },
    /// Asks all units for a diagnostic message.
    AskAll { kind: Kind },
    /// Asks all units for their claims.
    AskAllClaims,
    /// Asks the unit of a NAME to clear, and then what is left.
    Clear { name: Name, what: Clearing },
    /// Commands the unit of a NAME to hold an address, 0 to 253 (SAE J1939-81).
    Command { name: Name, address: u8 },
}

impl Order {
    /// The NAME of the unit that it is for; none where it is for all.
    pub fn name(self) -> Option<Name>
        ensures { result ≡ unit_named self }
    {
        match self {
            Order::Ask { name, .. }
            | Order::AskClaim { name }
            | Order::Clear { name, .. }
            | Order::Command { name, .. } => Some(name),
            Order::AskAll { .. } | Order::AskAllClaims => None,
        }
    }

    /// The kind of message that is asked for, if it is one.
    pub fn kind(self) -> Option<Kind>
        ensures { result ≡ kind_wanted self }
    {
        match self {
            Order::Ask { kind, .. } | Order::AskAll { kind } => Some(kind),
            _ => None,
        }
    }

    /// The group that is asked for; of a command its own, 65240.
    pub fn pgn(self) -> Pgn
        ensures { result ≡ group_wanted self }
    {
        match self {
            Order::Ask { kind, .. } | Order::AskAll { kind } => kind.pgn(),
            Order::AskClaim { .. } | Order::AskAllClaims => Pgn::ADDRESS_CLAIMED,
            Order::Clear { what, .. } => what.pgn(),
            Order::Command { .. } => Pgn::COMMANDED_ADDRESS,
        }
    }

    /// Whether it commands an address that nobody can hold, 254 or 255.
    pub fn commands_too_far(&self) -> bool
        ensures { result ≡ orders.commands_too_far self.now }
    {
        match *self {
            Order::Command { address, .. } => address > GREATEST_ADDRESS,
            _ => false,
        }
    }
}
