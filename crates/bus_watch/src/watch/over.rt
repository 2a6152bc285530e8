ghost use Rattle.std.specs.Prelude.{◌≡◌, ◌≤◌, ◌==◌, ◌+◌, ℕ, List, OnOk, OnErr, IfOk, IfSome, if◌then◌else◌};
ghost use Rattle.bus_model.specs.Heard.{counted, missed_count};
ghost use Rattle.bus_model.specs.Overheard.{unread_overheard};
ghost use Rattle.bus_watch.specs.Over.{HasOwnersAlone, HasOwnersBelow};
ghost use Rattle.bus_watch.specs.Told.{Beginning, StandsForAll, Told, readings_said};
ghost use Rattle.bus_watch.specs.Identified.{identified_anew};
ghost use Rattle.bus_watch.specs.WatchValue.{missed_by, unread_by};
ghost use Rattle.can_frame.specs.declared.address.TheConstants.{GREATEST_ADDRESS};
ghost use Rattle.listener.specs.ListenerSteps.{address_in_tables};

use crate::broken::Broken;
use crate::watch::{Watch, WatchSettings};
use can_frame::GREATEST_ADDRESS;
use name_field::Name;
use std::alloc::{AllocError, Global};

/// What was heard before a watch started over.
#[derive(Clone, Copy, Default)]
pub(crate) struct Before {
    pub(crate) missed: u64,
    pub(crate) unread: u64,
}

impl Watch {
    /// How many frames were missed, also before it started over, up to the greatest 64-bit number.
    #[tactic(auto, using(crate::proofs::Queries::all_missed_as_heard))]
    pub fn missed_in_all(&self) -> u64
        ensures value { result ≡ missed_by self.now }
        ensures heard { (b : Beginning) (ts : List Told) → StandsForAll b ts self.entry.now
            → result ≡ counted (b.before.missed + missed_count (readings_said b ts)) }
    {
        self.before.missed.saturating_add(self.missed())
    }

    /// How many messages could not be read whole, also before it started over, up to the greatest 64-bit number.
    #[tactic(auto, using(crate::proofs::Queries::all_unread_as_heard))]
    pub fn unread_in_all(&self) -> u64
        ensures value { result ≡ unread_by self.now }
        ensures heard { (b : Beginning) (ts : List Told) → StandsForAll b ts self.entry.now
            → result ≡ counted (b.before.unread + unread_overheard (readings_said b ts)) }
    {
        self.before.unread.saturating_add(self.unread())
    }

    /// Starts over: all that was heard is let go, but for who owns which address, and holds it or has left it.
    ///
    /// It stands then as a watch that began so, of which these owners were assumed, and that has heard nothing else. So what stands
    /// in it is still exactly what was heard, since then. What is half joined is let go too. Gaps are numbered on, counts go on, and each
    /// unit's identification stays.
    ///
    /// # Errors
    /// Memory was refused. The watch is as it was.
    #[inline(never)]
    #[tactic(auto, using(crate::proofs::IdentifiedRead::over_aside))]
    pub fn start_over(&mut self, alloc: Global) -> Result<(), AllocError>
        ensures anew { OnOk result (HasOwnersAlone self.old self.new) }
        ensures identified { OnOk result (self.new.identified ≡ identified_anew self.old.identified) }
        ensures err { OnErr result (self.new ≡ self.old) }
    {
        let mut fresh = self.with_owners(alloc)?;
        std::mem::swap(&mut self.identified, &mut fresh.identified);
        fresh.identified.start_over();
        *self = fresh;
        Ok(())
    }

    /// A watch that is told of the owners alone: first of NAMEs that hold addresses, in their order.
    #[tactic(auto, using(crate::proofs::Over::all_owners))]
    fn with_owners(&self, alloc: Global) -> Result<Watch, AllocError>
        ensures { IfOk result (λ w. HasOwnersAlone self.now w) }
    {
        let mut fresh = self.anew(alloc)?;
        fresh.take_holders(alloc, self)?;
        fresh.take_owners(alloc, self)?;
        Ok(fresh)
    }

    /// Is told of the NAMEs that hold addresses, in the order of their rows.
    fn take_holders(&mut self, alloc: Global, other: &Watch) -> Result<(), AllocError>
        requires { HasOwnersBelow other.now 0 self.old }
        ensures { OnOk result (HasOwnersBelow other.now 0 self.new) }
    {
        for place in 0..other.ear.listener().names() {
            if let Some(address) = other.address_at(place) {
                self.hand_over(alloc, other, address)?;
            }
        }
        Ok(())
    }

    /// Is told of the owner of each address.
    fn take_owners(&mut self, alloc: Global, other: &Watch) -> Result<(), AllocError>
        requires { HasOwnersBelow other.now 0 self.old }
        ensures { OnOk result (HasOwnersBelow other.now 254 self.new) }
    {
        for address in 0..GREATEST_ADDRESS + 1 {
            self.hand_over(alloc, other, address)?;
        }
        Ok(())
    }

    /// Is told who owns an address, and then which one that NAME holds, if it holds one.
    fn hand_over(&mut self, alloc: Global, other: &Watch, address: u8) -> Result<(), AllocError>
        requires { address ≤ GREATEST_ADDRESS }
        ensures { OnOk result ((bound : ℕ) → HasOwnersBelow other.now bound self.old
            → HasOwnersBelow other.now (if bound == address then bound + 1 else bound) self.new) }
    {
        let Some(name) = other.ear.listener().owner(address) else {
            return Ok(());
        };
        self.take_over(alloc, name, address)?;
        match other.address_of(name) {
            Some(held) if held <= GREATEST_ADDRESS => self.take_over(alloc, name, held),
            _ => self.take_away(alloc, name),
        }
    }

    /// A watch that has read nothing, of the same bus. It goes on to count, and knows which addresses are contested.
    fn anew(&self, alloc: Global) -> Result<Watch, AllocError>
        ensures { IfOk result (λ w. HasOwnersBelow self.now 0 w) }
    {
        let settings = WatchSettings {
            selection: self.lists.selection(),
            silence: self.ear.silence(),
            ..self.settings
        };
        let bus = match &self.bus {
            Some(bus) => Some(bus.as_str()),
            None => None,
        };
        let mut fresh = Watch::after_gaps(alloc, settings, bus, self.ear.listener().gaps())?;
        fresh.counts = self.counts;
        fresh.before = Before {
            missed: self.missed_in_all(),
            unread: self.unread_in_all(),
        };
        fresh.broken = Broken::new(alloc, self.broken.count());
        fresh.lists.keep_contests(&self.lists);
        Ok(fresh)
    }

    /// The address that the NAME of the row at this place holds, if it holds one.
    fn address_at(&self, place: usize) -> Option<u8>
        ensures { IfSome result (λ address. address ≤ GREATEST_ADDRESS) }
    {
        let name = self.ear.listener().name_at(place)?;
        match self.address_of(name) {
            Some(address) if address <= GREATEST_ADDRESS => Some(address),
            _ => None,
        }
    }

    /// The address that a NAME holds.
    fn address_of(&self, name: Name) -> Option<u8>
        ensures { result ≡ address_in_tables self.now.listener name }
    {
        match self.ear.listener().row(name) {
            Some(row) => row.address,
            None => None,
        }
    }
}
