ghost use Rattle.std.specs.Prelude.{◌≡◌, OnOk, OnErr};
ghost use Rattle.bus_model.specs.Heard as heard;

use can_frame::Pgn;
use dm_messages::{Kind, Shown};
use std::alloc::{AllocError, Global};
use std::marker::Model;

/// The entries of each kind under a NAME, oldest first.
#[derive(Drop)]
pub(crate) struct KindEntries {
    dm1: Vec<Shown>,
    dm2: Vec<Shown>,
    dm6: Vec<Shown>,
}

impl Model for KindEntries {
    ghost use Rattle.entry_lists.specs.Entries.{KindsValue};

    ghost Value = { KindsValue };

    ghost view = { λ k. record { dm1 = k.dm1.items; dm2 = k.dm2.items; dm6 = k.dm6.items } };
}

impl KindEntries {
    ghost use Rattle.entry_lists.specs.Entries.{no_entries, entries_of, with_entry};

    /// None yet.
    pub(crate) fn new(alloc: Global) -> KindEntries
        ensures { result ≡ no_entries }
    {
        KindEntries {
            dm1: Vec::new(alloc),
            dm2: Vec::new(alloc),
            dm6: Vec::new(alloc),
        }
    }

    /// Puts an entry at the end of the list of its kind. Where memory is refused, nothing changes.
    pub(crate) fn push(&mut self, kind: Kind, shown: Shown) -> Result<(), AllocError>
        ensures ok { OnOk result (self.new ≡ with_entry kind shown self.old) }
        ensures err { OnErr result (self.new ≡ self.old) }
    {
        match kind {
            Kind::Dm1 => self.dm1.push(shown)?,
            Kind::Dm2 => self.dm2.push(shown)?,
            Kind::Dm6 => self.dm6.push(shown)?,
        }
        Ok(())
    }

    /// The entries of a kind.
    pub(crate) fn shown(&self, kind: Kind) -> &[Shown]
        ensures { result.now ≡ entries_of self.now kind }
    {
        match kind {
            Kind::Dm1 => self.dm1.as_slice(),
            Kind::Dm2 => self.dm2.as_slice(),
            Kind::Dm6 => self.dm6.as_slice(),
        }
    }
}

/// The kind of diagnostic message that a parameter group stands for.
pub fn kind_of(pgn: Pgn) -> Option<Kind>
    ensures { result ≡ heard.kind_of pgn }
{
    match pgn {
        Pgn::DM1 => Some(Kind::Dm1),
        Pgn::DM2 => Some(Kind::Dm2),
        Pgn::DM6 => Some(Kind::Dm6),
        _ => None,
    }
}
