ghost use Rattle.std.specs.Prelude.{◌≡◌, false, slice_index_or};
ghost use Rattle.bus_watch.specs.Tellings.{none_told, told_after, told_of_source, told_with};

use listener::{Overheard, Who};
use std::marker::Model;

/// Of which addresses it was told that a message came from there without an owner: once, until somebody claims the address or
/// frames are missed.
#[derive(Drop)]
pub(crate) struct Unowned {
    told: [bool; 256],
}

impl Model for Unowned {
    ghost use Rattle.std.specs.Prelude.{Bool, List};

    ghost Value = { List Bool };

    ghost view = { λ u. u.told };
}

impl Unowned {
    /// Of none.
    pub(crate) fn new() -> Unowned
        ensures { result ≡ none_told }
    {
        Unowned { told: none_told() }
    }

    /// Whether it was told of this address.
    pub(crate) fn is_told(&self, address: u8) -> bool
        ensures { result ≡ slice_index_or self.now address false }
    {
        self.told[usize::from(address)]
    }

    /// Follows what the listener heard, of which it is told or not.
    pub(crate) fn follow(&mut self, heard: &Overheard, is_told: bool)
        ensures { self.new ≡ told_after is_told heard.now self.old }
    {
        match *heard {
            Overheard::Claimed { address, .. } => self.told[usize::from(address)] = false,
            Overheard::Missed { .. } => self.told = none_told(),
            _ if is_told => self.follow_told(heard),
            _ => {}
        }
    }

    /// Follows what the listener heard, of which it is told.
    fn follow_told(&mut self, heard: &Overheard)
        ensures { self.new ≡ told_with heard.now self.old }
    {
        match *heard {
            Overheard::Unowned { source, .. } => self.told[usize::from(source)] = true,
            Overheard::Listed { who, source, .. } | Overheard::ListedInPart { who, source, .. } =>
                self.follow_entry(who, source),
            _ => {}
        }
    }

    /// Follows a message from an address.
    fn follow_entry(&mut self, who: Who, source: u8)
        ensures { self.new ≡ told_of_source who source self.old }
    {
        if let Who::Unclaimed { .. } = who {
            self.told[usize::from(source)] = true;
        }
    }
}

#[tactic(auto, unfolding(crate::specs::Tellings::none_told))]
fn none_told() -> [bool; 256]
    ensures { result ≡ none_told }
{
    [false; 256]
}
