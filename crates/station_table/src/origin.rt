ghost use Rattle.std.specs.Prelude.{◌≡◌, slice_set};
ghost use Rattle.bus_model.specs.Heard.{kept_by_owner, without_kind};
ghost use Rattle.bus_model.specs.Heard as heard;
ghost use Rattle.reassembly.specs.Tables.{at};

use dm_messages::Kind;
use name_field::Name;
use reassembly::Partials;
use std::marker::Model;

/// Whose a message is, and of which kind.
#[derive(Clone, Copy)]
pub struct Origin {
    owner: Name,
    kind: Kind,
}

impl Model for Origin {
    ghost use Rattle.bus_model.specs.Heard as heard;

    ghost Value = { heard.Origin };

    ghost view = { λ o. record { owner = o.owner; kind = o.kind } };

    ghost inverse = { λ o. record { owner = o.owner; kind = o.kind } };
}

impl Origin {
    /// A message of this owner and kind.
    pub fn new(owner: Name, kind: Kind) -> Origin
        ensures { result ≡ record { owner = owner; kind = kind } }
    {
        Origin { owner, kind }
    }

    /// Whose it is.
    pub fn owner(self) -> Name
        ensures { result ≡ self.owner }
    {
        self.owner
    }

    /// Of which kind it is.
    pub fn kind(self) -> Kind
        ensures { result ≡ self.kind }
    {
        self.kind
    }
}

/// A claim of an address keeps what is half joined from there under its owner alone.
#[tactic(auto, using(crate::proofs::Joinings::kept_as_it_was))]
pub fn keep_under(messages: &mut Partials<Origin>, source: u8, name: Name)
    ensures { messages.new ≡ slice_set messages.old source (kept_by_owner name (at messages.old source)) }
{
    let is_other = match messages.get(source) {
        Some(partial) => partial.tag().owner() != name,
        None => false,
    };
    if is_other {
        messages.forget(source);
    }
}

/// An abort drops what is half joined from an address, where it is of this kind.
#[tactic(auto, using(crate::proofs::Joinings::left_as_it_was))]
pub fn drop_kind(messages: &mut Partials<Origin>, source: u8, kind: Option<Kind>)
    ensures { messages.new ≡ slice_set messages.old source (without_kind kind (at messages.old source)) }
{
    let is_it = match messages.get(source) {
        Some(partial) => Some(partial.tag().kind()) == kind,
        None => false,
    };
    if is_it {
        messages.forget(source);
    }
}
