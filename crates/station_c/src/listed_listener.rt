ghost use Rattle.std.specs.Prelude.{◌≡◌, ◌⊎◌, ◌≤◌, ◌<◌, ◌∷◌, List, [], IfOk, IfSome, OnOk, OnErr, length, true, false};
ghost use Rattle.can_frame.specs.declared.reading.Reading.{Reading as AnyReading};
ghost use Rattle.can_frame.specs.declared.reading.Reading.TheVariants.{Frame as FrameRead};
ghost use Rattle.listener.specs.ListenerValue.{gaps_alone};
ghost use Rattle.station_c.specs.Anew.{BeginsAnewListening, HasFewer, IsOwners, IsQuietAs, KeepsOwners, MakesRoomListening, claim_told, claims_held, gaps_anew, holds, with_frame};
ghost use Rattle.station_c.specs.HeardSeries.{OverhearsFrame, HearsGap, time_handed};
ghost use Rattle.station_c.specs.ListedListeners.{HasHeard, KnowsOfNone, ListedListenerValue, TakesFrame, TakesGap};

use crate::claims_told::claim_held;
use crate::heard_records::HeardRecord;
use crate::status::Status;
use crate::told::NO_TIME;
use can_frame::{Frame, Reading};
use listener::{
    BrokenMessage, BrokenMessages, Listener, NewestSent, Overheard, PacedListener, Silence,
    was_whole,
};
use name_field::Name;
use parameter_group::ParameterGroup;
use std::alloc::{AllocError, Global};
use std::marker::Model;

/// A listener that looks at times, the lists that it fills, and the messages that it heard break.
#[derive(Drop)]
pub struct ListedListener {
    ear: PacedListener,
    lists: NewestSent,
    broken: BrokenMessages,
}

impl Model for ListedListener {
    ghost use Rattle.station_c.specs.ListedListeners.{ListedListenerValue};

    ghost Value = { ListedListenerValue };

    ghost view = { λ l. record { ear = l.ear; lists = l.lists; broken = l.broken.newest; broken_count = l.broken.count } };
}

impl ListedListener {
    /// A listener that has heard nothing, to which messages may be silent as long as the standard lets them (SAE J1939-21, 5.10.3). Of
    /// each list this many entries are kept, or none where it is 0.
    pub fn new(alloc: Global, keep: u32) -> Result<ListedListener, AllocError>
        ensures heard { IfOk result (λ l. HasHeard l []) }
        ensures none { IfOk result (λ l. KnowsOfNone l) }
        ensures keep { IfOk result (λ l. l.lists.keep ≡ keep) }
    {
        let ear = PacedListener::new(alloc, Silence::Standard)?;
        Ok(ListedListener {
            ear,
            lists: NewestSent::new(alloc, keep),
            broken: BrokenMessages::new(alloc, 0),
        })
    }

    /// The listener.
    pub fn listener(&self) -> &Listener
        ensures { result.now ≡ self.now.ear.listener }
    {
        self.ear.listener()
    }

    /// The lists.
    pub fn lists(&self) -> &NewestSent
        ensures { result.now ≡ self.now.lists }
    {
        &self.lists
    }

    /// The messages that the newest frame broke.
    pub fn broken(&self) -> &[BrokenMessage]
        ensures { result.now ≡ self.now.broken }
    {
        self.broken.newest()
    }

    /// Takes a frame that comes now, in microseconds where the time is known, and says what changed; an entry that it lists is put
    /// into the lists. Where memory is refused, all is as it was.
    fn take_frame(
        &mut self,
        alloc: Global,
        now: Option<u64>,
        frame: &Frame,
    ) -> Result<Overheard, AllocError>
        ensures ok { IfOk result (λ c. TakesFrame self.old now frame.now c self.new) }
        ensures err { OnErr result (self.new ≡ self.old) }
    {
        let group = ParameterGroup::read(frame);
        let fate = self.ear.fate(now, &group);
        self.broken.expect(&self.ear, &group, fate)?;
        let change = self.ear.take_group_at(alloc, now, &group, &mut self.lists)?;
        self.broken.settle(&self.ear, was_whole(&change));
        Ok(change)
    }

    /// Takes it that so many frames were missed. Where memory is refused, all is as it was.
    fn take_gap(&mut self, alloc: Global, missed: u32) -> Result<Overheard, AllocError>
        ensures ok { IfOk result (λ c. TakesGap self.old missed c self.new) }
        ensures err { OnErr result (self.new ≡ self.old) }
    {
        let change = self.ear.take(alloc, Reading::Gap(missed), &mut self.lists)?;
        self.broken.clear();
        Ok(change)
    }

    /// Takes a frame at this time, and writes what it changed and broke; `OutOfMemory` leaves all as it was.
    #[tactic(auto, using(crate::proofs::Hearing::hears_frame))]
    pub fn hear_frame(
        &mut self,
        alloc: Global,
        now: u64,
        frame: &Frame,
        heard: &mut HeardRecord,
    ) -> Status
        ensures heard { result ≡ Status.Done → OverhearsFrame self.old (time_handed now) frame.now heard.new self.new }
        ensures kept { ¬ (result ≡ Status.Done) → (self.new ≡ self.old) × (heard.new ≡ heard.old) }
        ensures only { (result ≡ Status.Done) ⊎ (result ≡ Status.OutOfMemory) }
    {
        let Ok(change) = self.take_frame(alloc, time_handed(now), frame) else {
            return Status::OutOfMemory;
        };
        *heard = HeardRecord::of(&change, self.broken());
        Status::Done
    }

    /// Takes it that so many frames were missed, and writes that; `OutOfMemory` leaves all as it was.
    #[tactic(auto, using(crate::proofs::Hearing::hears_gap))]
    pub fn hear_gap(&mut self, alloc: Global, missed: u32, heard: &mut HeardRecord) -> Status
        ensures heard { result ≡ Status.Done → HearsGap self.old missed heard.new self.new }
        ensures kept { ¬ (result ≡ Status.Done) → (self.new ≡ self.old) × (heard.new ≡ heard.old) }
        ensures only { (result ≡ Status.Done) ⊎ (result ≡ Status.OutOfMemory) }
    {
        let Ok(change) = self.take_gap(alloc, missed) else {
            return Status::OutOfMemory;
        };
        *heard = HeardRecord::of(&change, self.broken());
        Status::Done
    }

    /// Makes room for one more NAME and one more unit, of which there are to be this many at most, and at least one: where there are
    /// as many, the listener is begun anew with the claims of the NAMEs that hold addresses, if there are fewer. Answers whether it
    /// was.
    ///
    /// Refused: `OutOfMemory`; then nothing changed.
    #[tactic(auto, using(crate::proofs::BegunListening::room_there, crate::proofs::BegunListening::room_made))]
    pub fn make_room(&mut self, alloc: Global, most: usize) -> Result<bool, AllocError>
        requires { 0 < most }
        ensures made { IfOk result (λ anew. MakesRoomListening most self.old self.new anew) }
        ensures err { OnErr result (self.new ≡ self.old) }
    {
        if self.has_room(most) {
            return Ok(false);
        }
        let fresh = self.anew(alloc, most)?;
        *self = fresh;
        Ok(true)
    }

    /// Whether it has fewer NAMEs than that, and fewer units that have lists.
    fn has_room(&self, most: usize) -> bool
        ensures yes { result ≡ true → HasFewer most self.now }
        ensures no { result ≡ false → (most ≤ length self.now.ear.listener.rows) ⊎ (most ≤ length self.now.lists.order) }
    {
        self.ear.listener().names() < most && self.lists.units() < most
    }

    /// A listener that is told of the owners of addresses alone, or of nothing where these are too many.
    #[tactic(auto, using(crate::proofs::BegunListening::anew_with, crate::proofs::BegunListening::anew_without, crate::proofs::BegunListening::room_without))]
    fn anew(&self, alloc: Global, most: usize) -> Result<ListedListener, AllocError>
        requires { 0 < most }
        ensures anew { IfOk result (λ l. BeginsAnewListening most self.now l) }
        ensures room { IfOk result (λ l. HasFewer most l) }
    {
        let fresh = self.with_owners(alloc)?;
        if fresh.has_room(most) {
            return Ok(fresh);
        }
        self.with_nobody(alloc)
    }

    /// A listener that has heard nothing but one gap more; messages that break are numbered on.
    #[tactic(auto, using(crate::proofs::BegunListening::nobody_heard))]
    fn with_nobody(&self, alloc: Global) -> Result<ListedListener, AllocError>
        ensures heard { IfOk result (λ l. HasHeard l (gaps_alone (gaps_anew self.now))) }
        ensures quiet { IfOk result (λ l. IsQuietAs self.now l) }
        ensures few { IfOk result (λ l. (l.ear.listener.rows ≡ []) × (l.lists.order ≡ [])) }
    {
        let gaps = self.ear.listener().gaps().saturating_add(1);
        let ear = PacedListener::after_gaps(alloc, self.ear.silence(), gaps)?;
        let lists = NewestSent::new(alloc, self.lists.keep());
        let broken = BrokenMessages::new(alloc, self.broken.count());
        Ok(ListedListener { ear, lists, broken })
    }

    /// A listener that is told of each NAME that holds an address.
    fn with_owners(&self, alloc: Global) -> Result<ListedListener, AllocError>
        ensures heard { IfOk result (λ l. HasHeard l (claims_held self.now.ear.listener.owners self.now.ear.listener.rows (gaps_alone (gaps_anew self.now)))) }
        ensures owners { OnOk result (KeepsOwners self.now.ear.listener.owners (claims_held self.now.ear.listener.owners self.now.ear.listener.rows (gaps_alone (gaps_anew self.now)))) }
        ensures quiet { IfOk result (λ l. IsQuietAs self.now l) }
    {
        let mut fresh = self.with_nobody(alloc)?;
        for place in 0..self.ear.listener().names() {
            if let Some(name) = self.ear.listener().name_at(place) {
                let claim = self.claim_held(name);
                fresh.tell(alloc, claim)?;
            }
        }
        Ok(fresh)
    }

    /// The claim of a NAME that holds an address.
    fn claim_held(&self, name: Name) -> Option<Frame>
        ensures told { result ≡ claim_told name (holds self.now.ear.listener.owners self.now.ear.listener.rows name) }
        ensures owned { IfSome result (λ f. IsOwners self.now.ear.listener.owners f) }
    {
        claim_held(self.ear.listener(), name)
    }

    /// Is told a claim, if there is one, whatever is under way.
    #[tactic(auto, using(crate::proofs::BegunListening::heard_some, crate::proofs::BegunListening::heard_none))]
    fn tell(&mut self, alloc: Global, claim: Option<Frame>) -> Result<(), AllocError>
        ensures heard { OnOk result ((h : List AnyReading) → HasHeard self.old h → HasHeard self.new (with_frame claim h)) }
        ensures quiet { OnOk result ((old : ListedListenerValue) → IsQuietAs old self.old → IsQuietAs old self.new) }
    {
        match claim {
            Some(claim) => match self.take_claim(alloc, claim) {
                Ok(_) => Ok(()),
                Err(refused) => Err(refused),
            },
            None => Ok(()),
        }
    }

    /// Takes a claim, whatever is under way.
    fn take_claim(&mut self, alloc: Global, claim: Frame) -> Result<Overheard, AllocError>
        ensures heard { OnOk result ((h : List AnyReading) → HasHeard self.old h → HasHeard self.new (FrameRead claim ∷ h)) }
        ensures quiet { OnOk result ((old : ListedListenerValue) → IsQuietAs old self.old → IsQuietAs old self.new) }
    {
        self.ear.take(alloc, Reading::Frame(claim), &mut self.lists)
    }
}

/// The time that is handed over, if one is.
fn time_handed(now: u64) -> Option<u64>
    ensures { result ≡ time_handed now }
{
    if now == NO_TIME { None } else { Some(now) }
}
