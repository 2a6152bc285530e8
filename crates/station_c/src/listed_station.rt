ghost use Rattle.std.specs.Prelude.{◌≡◌, ◌∷◌, ◌≤◌, ◌<◌, ◌⊎◌, ◌↔◌, ℕ, List, [], length, IfErr, IfOk, IfSome, IsErrOf, IsNone, OnOk, OnErr, IsOkUnless};
ghost use Rattle.bus_model.specs.Changed.{change_heard};
ghost use Rattle.bus_model.specs.Heard.{StationSettings};
ghost use Rattle.can_frame.specs.declared.address.TheConstants.{GREATEST_ADDRESS as GREATEST};
ghost use Rattle.can_frame.specs.declared.reading.Reading.{Reading as AnyReading};
ghost use Rattle.entry_lists.specs.Newest.{KeepsNewest};
ghost use Rattle.station_c.specs.Anew.{IsClaimBeside, IsOwners, KeepsOwners, MakesRoom, StandsAnew, StandsListed, but, claim_told, claims_beside, holds, with_frame};
ghost use Rattle.station_table.specs.Listing.{lists_heard};
ghost use Rattle.station_table.specs.Reactions.{station_reaction};
ghost use Rattle.station_table.specs.StandsFor.{StandsFor};

use crate::claims_told::claim_beside;
use crate::status::Status;
use can_frame::{Frame, Reading};
use entry_lists::NewestEntries;
use name_field::Name;
use station_table::{Outcome, Station, StationError};
use std::alloc::Global;
use std::marker::Model;

/// A station, and the lists that it fills; with its NAME and grant, so that it can be begun anew.
#[derive(Drop)]
pub struct ListedStation {
    name: Name,
    grant: u8,
    station: Station,
    lists: NewestEntries,
}

impl Model for ListedStation {
    ghost use Rattle.station_c.specs.Anew.{IsOf};
    ghost use Rattle.station_c.specs.ListedStations.{ListedStationValue};

    ghost Value = { ListedStationValue };

    ghost view = { λ s. record { station = s.station; lists = s.lists } };

    ghost invariant = { λ s. IsOf s.name s.grant s.station };
}

impl ListedStation {
    /// A station of this NAME that holds this address, 0 to 253, and grants at most this many packets at once, at least one. It has
    /// read nothing; of each list this many entries are kept, or none where it is 0.
    pub fn new(alloc: Global, name: Name, address: u8, grant: u8, keep: u32) -> ListedStation
        requires address_fits { address ≤ GREATEST }
        requires grants { 0 < grant }
        ensures stands { StandsFor (record { name = name; address = address }) grant result.station [] }
        ensures newest { KeepsNewest result.lists (λ n k. []) }
        ensures keep { result.lists.keep ≡ keep }
    {
        ListedStation {
            name,
            grant,
            station: Station::new(alloc, name, address, grant),
            lists: NewestEntries::new(alloc, keep),
        }
    }

    /// The station.
    pub fn station(&self) -> &Station
        ensures { result.now ≡ self.now.station }
    {
        &self.station
    }

    /// The lists.
    pub fn lists(&self) -> &NewestEntries
        ensures { result.now ≡ self.now.lists }
    {
        &self.lists
    }

    /// Takes one reading; an entry that it lists is put into the lists. `OutOfMemory` leaves all as it was.
    #[tactic(auto, using(crate::proofs::Begun::is_of_by_call))]
    pub fn take(&mut self, alloc: Global, reading: Reading) -> Result<Outcome, StationError>
        ensures stands { OnOk result ((r : StationSettings) (grant : ℕ) (h : List AnyReading) → StandsFor r grant self.old.station h
            → StandsFor r grant self.new.station (reading ∷ h)) }
        ensures lists { OnOk result ((r : StationSettings) (grant : ℕ) (h : List AnyReading) → StandsFor r grant self.old.station h
            → KeepsNewest self.old.lists (lists_heard r h) → KeepsNewest self.new.lists (lists_heard r (reading ∷ h))) }
        ensures keep { OnOk result (self.new.lists.keep ≡ self.old.lists.keep) }
        ensures answer { IfOk result (λ x. x.reaction ≡ station_reaction self.old.station reading) }
        ensures change { IfOk result (λ x. (r : StationSettings) (grant : ℕ) (h : List AnyReading) → StandsFor r grant self.old.station h
            → x.change ≡ change_heard r reading h) }
        ensures few { IfOk result (λ x. length x.reaction.put ≤ 2) }
        ensures err { OnErr result (self.new ≡ self.old) }
        ensures only_memory { IsOkUnless result StationError.OutOfMemory }
    {
        self.station.take(alloc, reading, &mut self.lists)
    }

    /// Makes room for one more NAME, of which there are to be this many at most, and at least one: where there are as many, the
    /// station is begun anew at its address, with the claims of the NAMEs that hold others, if there are fewer. Answers whether it
    /// was.
    ///
    /// Refused, in this order: `NotHeld` where it is to begin anew and holds no address, `OutOfMemory`; then nothing changed.
    #[tactic(auto, using(crate::proofs::Begun::room_there, crate::proofs::Begun::room_made))]
    pub fn make_room(&mut self, alloc: Global, most: usize) -> Result<bool, Status>
        requires { 0 < most }
        ensures made { IfOk result (λ anew. MakesRoom most self.old self.new anew) }
        ensures not_held { IsErrOf result Status.NotHeld ↔ ((most ≤ length self.old.station.rows) × IsNone self.old.station.claimer.held) }
        ensures only { IfErr result (λ e. (e ≡ Status.NotHeld) ⊎ (e ≡ Status.OutOfMemory)) }
        ensures err { OnErr result (self.new ≡ self.old) }
    {
        if self.station.names() < most {
            return Ok(false);
        }
        let Some(address) = self.station.held() else {
            return Err(Status::NotHeld);
        };
        let Ok(fresh) = self.anew(alloc, address, most) else {
            return Err(Status::OutOfMemory);
        };
        *self = fresh;
        Ok(true)
    }

    /// A station at this address that is told of the owners of addresses alone, or of nothing where these are too many.
    #[tactic(auto, using(crate::proofs::Begun::anew_with, crate::proofs::Begun::anew_without, crate::proofs::Begun::room_without))]
    fn anew(&self, alloc: Global, address: u8, most: usize) -> Result<ListedStation, StationError>
        requires address_fits { address ≤ GREATEST }
        requires some { 0 < most }
        ensures anew { IfOk result (λ s. StandsAnew address most self.now s) }
        ensures room { IfOk result (λ s. length s.station.rows < most) }
    {
        let fresh = self.with_owners(alloc, address)?;
        if fresh.station.names() < most {
            return Ok(fresh);
        }
        Ok(self.with_nobody(alloc, address))
    }

    /// A station at this address that has read nothing.
    #[tactic(auto, using(crate::proofs::Begun::nobody_listed))]
    fn with_nobody(&self, alloc: Global, address: u8) -> ListedStation
        requires { address ≤ GREATEST }
        ensures { StandsListed (record { name = self.now.station.claimer.name; address = address }) self.now.station.grant self.now.lists.keep result [] }
    {
        ListedStation::new(alloc, self.name, address, self.grant, self.lists.keep())
    }

    /// A station at this address that is told of each NAME that holds another one.
    fn with_owners(&self, alloc: Global, address: u8) -> Result<ListedStation, StationError>
        requires { address ≤ GREATEST }
        ensures stands { IfOk result (λ s. StandsListed (record { name = self.now.station.claimer.name; address = address }) self.now.station.grant self.now.lists.keep s
            (claims_beside address self.now.station.owners self.now.station.rows)) }
        ensures owners { OnOk result (KeepsOwners self.now.station.owners (claims_beside address self.now.station.owners self.now.station.rows)) }
    {
        let mut fresh = self.with_nobody(alloc, address);
        for place in 0..self.station.names() {
            if let Some(name) = self.station.name_at(place) {
                let claim = self.claim_beside(name, address);
                fresh.tell(alloc, claim)?;
            }
        }
        Ok(fresh)
    }

    /// The claim of a NAME that holds another address than this.
    fn claim_beside(&self, name: Name, own: u8) -> Option<Frame>
        ensures told { result ≡ claim_told name (but own (holds self.now.station.owners self.now.station.rows name)) }
        ensures beside { IfSome result (λ f. IsClaimBeside own f) }
        ensures owned { IfSome result (λ f. IsOwners self.now.station.owners f) }
    {
        claim_beside(&self.station, name, own)
    }

    /// Is told a claim, if there is one, of another address than it holds.
    #[tactic(auto, using(crate::proofs::Begun::told_none))]
    fn tell(&mut self, alloc: Global, claim: Option<Frame>) -> Result<(), StationError>
        ensures { OnOk result ((r : StationSettings) (grant keep : ℕ) (h : List AnyReading) → IfSome claim (λ f. IsClaimBeside r.address f)
            → StandsListed r grant keep self.old h → StandsListed r grant keep self.new (with_frame claim h)) }
    {
        match claim {
            Some(claim) => {
                let _outcome = self.take(alloc, Reading::Frame(claim))?;
                Ok(())
            }
            None => Ok(()),
        }
    }
}
