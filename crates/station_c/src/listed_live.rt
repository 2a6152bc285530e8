ghost use Rattle.std.specs.Prelude.{◌≡◌, ◌↔◌, ◌⊎◌, ◌≤◌, ◌<◌, ◌∷◌, ℕ, List, [], None, Some, IfErr, IfOk, IfSome, IsErrOf, IsNone, IsSome, OnErr, OnOk, false, is_some, length, true};
ghost use Rattle.can_frame.specs.declared.address.TheConstants.{GREATEST_ADDRESS as GREATEST};
ghost use Rattle.can_frame.specs.declared.reading.Reading.{Reading as AnyReading};
ghost use Rattle.can_frame.specs.declared.reading.Reading.TheVariants.{Frame as FrameRead, Gap as GapRead};
ghost use Rattle.bus_model.specs.Heard.{StationSettings};
ghost use Rattle.live_station.specs.Ear.{frames_told};
ghost use Rattle.live_station.specs.OpenOrders.{commands_too_far};
ghost use Rattle.live_station.specs.Working.{DoesTurn, HearsOnBus, IsSentFromOwn, LacksRoomToHear, MissesFrames, begun_station, turn_at};
ghost use Rattle.live_unit.specs.declared.queue.TheConstants.{MOST_PUT as MOST};
ghost use Rattle.can_frame.specs.Fields.{source_of};
ghost use Rattle.live_station.specs.Turns.{has_come};
ghost use Rattle.shared_groups.specs.Sending.{after_due, frame_due, sending_begun};
ghost use Rattle.shared_groups.specs.Sharing.{followed, is_sharable, is_shared, none_shared, sharing_also, with_waiting};
ghost use Rattle.shared_groups.specs.declared.waiting.Waiting.TheVariants.{Request as RequestWaiting};
ghost use Rattle.station_c.specs.Anew.{IsClaimBeside, IsOwners, KeepsOwners, MakesRoomLive, StandsAfter, StandsAnewLive, but, claim_told, claims_beside, holds, with_frame};
ghost use Rattle.station_c.specs.ListedLives as spec;
ghost use Rattle.station_c.specs.ListedLives.{ListedLiveValue, SharesFrame, StandsLive, is_barred, is_commanding_by, newer_verdict, shared_goes, verdict_pulled, why_not_sent, with_order, with_order_ended};

use crate::claims_told::claim_beside;
use crate::status::Status;
use can_frame::{Frame, GLOBAL_ADDRESS, Pgn};
use entry_lists::NewestEntries;
use live_station::{
    HearError, LiveStation, Order, OrderError, Pulled, StationTimes, Told, Verdict,
};
use name_field::Name;
use parameter_group::ParameterGroup;
use shared_groups::{SharedError, SharedGroups};
use std::alloc::{AllocError, Global};
use std::marker::Model;

/// What groups that are shared heard of a frame.
#[derive(Clone, Copy)]
pub struct SharedHeard {
    /// Whether it is the program's alone.
    pub is_withheld: bool,
    /// Whether a message is whole with it.
    pub is_whole: bool,
}

/// A live station, the lists that it fills, and the verdict of the newest order that ended; with its NAME, its grant and its times, so
/// that it can be begun anew.
#[derive(Drop)]
pub struct ListedLive {
    name: Name,
    grant: u8,
    times: StationTimes,
    live: LiveStation,
    lists: NewestEntries,
    last: Option<Verdict>,
    shared: SharedGroups,
}

impl Model for ListedLive {
    ghost use Rattle.station_c.specs.Anew.{IsLiveOf};
    ghost use Rattle.station_c.specs.ListedLives.{ListedLiveValue};

    ghost Value = { ListedLiveValue };

    ghost view = { λ s. record { live = s.live; lists = s.lists; last = s.last; shared = s.shared } };

    ghost invariant = { λ s. IsLiveOf s.name s.grant s.times s.live };
}

impl ListedLive {
    /// A station of this NAME that holds the address that it wants, 0 to 253, and grants at most so many packets at once, at least one.
    /// It has heard nothing, and no order was given; of each list this many entries are kept, or none where it is 0.
    #[tactic(auto, using(crate::proofs::LiveKeeping::stands_at_first, crate::proofs::BegunLive::begins_so))]
    pub fn new(
        alloc: Global,
        name: Name,
        want: u8,
        grant: u8,
        keep: u32,
        times: StationTimes,
    ) -> Result<ListedLive, AllocError>
        requires address_fits { want ≤ GREATEST }
        requires grants { 0 < grant }
        ensures value { IfOk result (λ s. s ≡ record { live = begun_station name want grant times; lists = record { keep = keep; rows = [] }; last = None; shared = none_shared (Some want) grant times.gap }) }
        ensures stands { IfOk result (λ s. StandsLive (record { name = name; address = want }) grant keep s []) }
    {
        let live = LiveStation::new(alloc, name, want, grant, times)?;
        let lists = NewestEntries::new(alloc, keep);
        let shared = SharedGroups::new(alloc, Some(want), grant, times.gap)?;
        Ok(ListedLive {
            name,
            grant,
            times,
            live,
            lists,
            last: None,
            shared,
        })
    }

    /// The station.
    pub fn live(&self) -> &LiveStation
        ensures { result.now ≡ self.now.live }
    {
        &self.live
    }

    /// The lists.
    pub fn lists(&self) -> &NewestEntries
        ensures { result.now ≡ self.now.lists }
    {
        &self.lists
    }

    /// The verdict of the newest order, once it ended.
    pub fn last(&self) -> Option<Verdict>
        ensures { result ≡ self.now.last }
    {
        self.last
    }

    /// Hears a frame; an entry that it lists is put into the lists, and a verdict is kept. `Full` and `OutOfMemory` leave all as it was.
    #[tactic(auto, using(crate::proofs::LiveKeeping::stands_heard))]
    pub fn hear(&mut self, alloc: Global, frame: &Frame, now: u64) -> Result<Told, HearError>
        ensures heard { IfOk result (λ t. HearsOnBus frame.now now t self.old.live self.new.live) }
        ensures verdict { IfOk result (λ t. self.new.last ≡ newer_verdict t.verdict self.old.last) }
        ensures stands { OnOk result ((r : StationSettings) (grant keep : ℕ) (h : List AnyReading) → StandsLive r grant keep self.old h
            → StandsLive r grant keep self.new (FrameRead frame.now ∷ h)) }
        ensures full { IsErrOf result HearError.Full ↔ LacksRoomToHear frame.now self.old.live }
        ensures only { IfErr result (λ e. (e ≡ HearError.Full) ⊎ (e ≡ HearError.OutOfMemory)) }
        ensures err { OnErr result (self.new ≡ self.old) }
    {
        match self.live.hear(alloc, frame, now, &mut self.lists) {
            Ok(told) => {
                self.last = newer(told.verdict, self.last);
                self.shared.follow(self.live.held());
                Ok(told)
            }
            Err(refusal) => Err(refusal),
        }
    }

    /// Hears that so many frames were missed; a verdict is kept. `Full` and `OutOfMemory` leave all as it was.
    #[tactic(auto, using(crate::proofs::LiveKeeping::stands_missed))]
    pub fn missed(&mut self, alloc: Global, count: u32, now: u64) -> Result<Told, HearError>
        ensures missed { IfOk result (λ t. MissesFrames count now t self.old.live self.new.live) }
        ensures verdict { IfOk result (λ t. self.new.last ≡ newer_verdict t.verdict self.old.last) }
        ensures stands { OnOk result ((r : StationSettings) (grant keep : ℕ) (h : List AnyReading) → StandsLive r grant keep self.old h
            → StandsLive r grant keep self.new (GapRead count ∷ h)) }
        ensures full { IsErrOf result HearError.Full ↔ (MOST ≤ self.old.live.queue.put) }
        ensures only { IfErr result (λ e. (e ≡ HearError.Full) ⊎ (e ≡ HearError.OutOfMemory)) }
        ensures err { OnErr result (self.new ≡ self.old) }
    {
        match self.live.missed(alloc, count, now, &mut self.lists) {
            Ok(told) => {
                self.last = newer(told.verdict, self.last);
                self.shared.miss();
                Ok(told)
            }
            Err(refusal) => Err(refusal),
        }
    }

    /// What goes at this time; a verdict is kept.
    #[tactic(auto, using(crate::proofs::LiveKeeping::stands_pulled))]
    pub fn pull(&mut self, now: u64) -> Pulled
        ensures turn { DoesTurn (turn_at now self.old.live) now result self.old.live self.new.live }
        ensures source { IsSentFromOwn result self.old.live.station }
        ensures verdict { self.new.last ≡ newer_verdict (verdict_pulled result) self.old.last }
        ensures stands { (r : StationSettings) (grant keep : ℕ) (h : List AnyReading) → StandsLive r grant keep self.old h
            → StandsLive r grant keep self.new h }
    {
        let pulled = self.live.pull(now);
        let verdict = verdict_of(&pulled);
        self.last = newer(verdict, self.last);
        pulled
    }

    /// Opens an order; the verdict of the one before is forgotten.
    ///
    /// Refused, in this order: `Open` while another one is open, or, for a command, a message of the program's in packets to all is under
    /// way; `NotAnAddress` for a command to hold 254 or 255. Then nothing changed.
    pub fn order(&mut self, order: Order) -> Result<(), OrderError>
        ensures ok { OnOk result (self.new ≡ with_order order self.old) }
        ensures busy { IsErrOf result OrderError.Open ↔ (is_barred order self.old ≡ true) }
        ensures not_an_address { IsErrOf result OrderError.NotAnAddress ↔ ((is_barred order self.old ≡ false) × (commands_too_far order ≡ true)) }
        ensures err { OnErr result (self.new ≡ self.old) }
    {
        if is_command(&order) && self.shared.is_broadcasting() {
            return Err(OrderError::Open);
        }
        match self.live.order(order) {
            Ok(()) => {
                self.last = None;
                Ok(())
            }
            Err(refusal) => Err(refusal),
        }
    }

    /// The open order, if one is open, is cut off, and its verdict is kept.
    pub fn end_order(&mut self, now: u64)
        ensures { self.new ≡ with_order_ended now self.old }
    {
        let verdict = self.live.close(now);
        self.last = newer(verdict, self.last);
    }

    /// Makes room for one more NAME, of which there are to be this many at most, and at least one: where there are as many, the
    /// station is begun anew at its address, with the claims of the NAMEs that hold others, if there are fewer. Answers whether it
    /// was; what waited is let go then.
    ///
    /// Refused, in this order, where it is to begin anew: `OrderOpen` while an order is open, `NotHeld` where it holds no address,
    /// `OutOfMemory`; then nothing changed.
    #[tactic(auto, using(crate::proofs::BegunLive::begins_live, crate::proofs::BegunLive::room_there))]
    pub fn make_room(&mut self, alloc: Global, most: usize) -> Result<bool, Status>
        requires { 0 < most }
        ensures made { IfOk result (λ anew. MakesRoomLive most self.old self.new anew) }
        ensures order_open { IsErrOf result Status.OrderOpen ↔ ((most ≤ length self.old.live.station.rows) × IsSome self.old.live.order) }
        ensures not_held { IsErrOf result Status.NotHeld
            ↔ ((most ≤ length self.old.live.station.rows) × IsNone self.old.live.order × IsNone self.old.live.station.claimer.held) }
        ensures only { IfErr result (λ e. (e ≡ Status.OrderOpen) ⊎ ((e ≡ Status.NotHeld) ⊎ (e ≡ Status.OutOfMemory))) }
        ensures err { OnErr result (self.new ≡ self.old) }
    {
        if self.names() < most {
            return Ok(false);
        }
        if self.has_order() {
            return Err(Status::OrderOpen);
        }
        let Some(address) = self.held() else {
            return Err(Status::NotHeld);
        };
        let Ok(fresh) = self.anew(alloc, address, most) else {
            return Err(Status::OutOfMemory);
        };
        self.go_on_as(fresh, address);
        Ok(true)
    }

    /// How many NAMEs have a row.
    fn names(&self) -> usize
        ensures { result ≡ length self.now.live.station.rows }
    {
        self.live.station().names()
    }

    /// The address that it holds, 0 to 253.
    fn held(&self) -> Option<u8>
        ensures value { result ≡ self.now.live.station.claimer.held }
        ensures bound { IfSome result (λ a. a ≤ GREATEST) }
    {
        self.live.station().held()
    }

    /// Whether an order is open.
    #[tactic(auto, using(crate::proofs::BegunLive::open_is))]
    fn has_order(&self) -> bool
        ensures { result ≡ is_some self.now.live.order }
    {
        self.live.open().is_some()
    }

    /// Goes on as another one that holds this address, with its own newest verdict, and the groups that are shared with it.
    fn go_on_as(&mut self, mut fresh: ListedLive, address: u8)
        ensures { self.new ≡ record { live = fresh.live; lists = fresh.lists; last = self.old.last; shared = followed (Some address) self.old.shared } }
    {
        fresh.last = self.last;
        std::mem::swap(&mut self.shared, &mut fresh.shared);
        fresh.shared.follow(Some(address));
        *self = fresh;
    }

    /// A station at this address that is told of the owners of others alone, or of nothing where these are too many.
    #[tactic(auto, using(crate::proofs::BegunLive::anew_with, crate::proofs::BegunLive::anew_without, crate::proofs::BegunLive::room_without))]
    fn anew(&self, alloc: Global, address: u8, most: usize) -> Result<ListedLive, HearError>
        requires address_fits { address ≤ GREATEST }
        requires some { 0 < most }
        ensures anew { IfOk result (λ s. StandsAnewLive address most self.now s) }
        ensures room { IfOk result (λ s. length s.live.station.rows < most) }
    {
        let fresh = self.with_owners(alloc, address)?;
        if fresh.names() < most {
            return Ok(fresh);
        }
        self.with_nobody(alloc, address)
    }

    /// A station at this address that has heard nothing.
    #[tactic(auto, using(crate::proofs::BegunLive::nobody_heard))]
    fn with_nobody(&self, alloc: Global, address: u8) -> Result<ListedLive, HearError>
        requires { address ≤ GREATEST }
        ensures { IfOk result (λ s. StandsAfter address self.now s []) }
    {
        let keep = self.lists.keep();
        match ListedLive::new(alloc, self.name, address, self.grant, keep, self.times) {
            Ok(fresh) => Ok(fresh),
            Err(_) => Err(HearError::OutOfMemory),
        }
    }

    /// A station at this address that is told of each NAME that holds another one.
    fn with_owners(&self, alloc: Global, address: u8) -> Result<ListedLive, HearError>
        requires { address ≤ GREATEST }
        ensures stands { IfOk result (λ s. StandsAfter address self.now s (claims_beside address self.now.live.station.owners self.now.live.station.rows)) }
        ensures owners { OnOk result (KeepsOwners self.now.live.station.owners (frames_told (record { name = self.now.live.station.claimer.name; address = address })
            (claims_beside address self.now.live.station.owners self.now.live.station.rows))) }
    {
        let mut fresh = self.with_nobody(alloc, address)?;
        for place in 0..self.names() {
            if let Some(name) = self.live.station().name_at(place) {
                let claim = self.claim_beside(name, address);
                fresh.tell(alloc, claim)?;
            }
        }
        Ok(fresh)
    }

    /// The claim of a NAME that holds another address than this.
    fn claim_beside(&self, name: Name, own: u8) -> Option<Frame>
        ensures told { result ≡ claim_told name (but own (holds self.now.live.station.owners self.now.live.station.rows name)) }
        ensures beside { IfSome result (λ f. IsClaimBeside own f) }
        ensures owned { IfSome result (λ f. IsOwners self.now.live.station.owners f) }
    {
        claim_beside(self.live.station(), name, own)
    }

    /// Is told a claim, if there is one, of another address than it holds.
    #[tactic(auto, using(crate::proofs::BegunLive::heard_some, crate::proofs::BegunLive::heard_none))]
    fn tell(&mut self, alloc: Global, claim: Option<Frame>) -> Result<(), HearError>
        ensures { OnOk result ((address : ℕ) (old : ListedLiveValue) (h : List AnyReading) → IfSome claim (λ f. IsClaimBeside address f)
            → StandsAfter address old self.old h → StandsAfter address old self.new (with_frame claim h)) }
    {
        match claim {
            Some(claim) => match self.hear_claim(alloc, claim) {
                Ok(_) => Ok(()),
                Err(refusal) => Err(refusal),
            },
            None => Ok(()),
        }
    }

    /// Hears a claim of another address than it holds: at any time, since no order is open.
    fn hear_claim(&mut self, alloc: Global, claim: Frame) -> Result<Told, HearError>
        ensures { OnOk result ((address : ℕ) (old : ListedLiveValue) (h : List AnyReading) → IsClaimBeside address claim
            → StandsAfter address old self.old h → StandsAfter address old self.new (FrameRead claim ∷ h)) }
    {
        self.hear(alloc, &claim, 0)
    }

    /// The groups that the program shares with the station.
    pub fn shared(&self) -> &SharedGroups
        ensures { result.now ≡ self.now.shared }
    {
        &self.shared
    }

    /// Shares a group from now on.
    ///
    /// Refused, in this order: `NoGroup` for a group of the protocol or of diagnostics, `OutOfMemory`; then nothing changed.
    pub fn share(&mut self, pgn: Pgn) -> Result<(), SharedError>
        ensures ok { OnOk result (self.new ≡ record self.old { shared = sharing_also pgn self.old.shared }) }
        ensures err { OnErr result (self.new ≡ self.old) }
        ensures no_group { IsErrOf result SharedError.NoGroup ↔ (is_sharable pgn ≡ false) }
        ensures only { IfErr result (λ e. (e ≡ SharedError.NoGroup) ⊎ (e ≡ SharedError.OutOfMemory)) }
    {
        self.shared.share(pgn)
    }

    /// Puts a request for a group that is shared, to an address or to all (255).
    ///
    /// Refused, in this order: `NoGroup` for a group that is not shared, `NotHeld` where no address is held, `Full`; then nothing
    /// changed.
    pub fn request(&mut self, pgn: Pgn, to: u8) -> Result<(), SharedError>
        ensures ok { OnOk result (self.new ≡ record self.old { shared = with_waiting (RequestWaiting pgn to) self.old.shared }) }
        ensures err { OnErr result (self.new ≡ self.old) }
        ensures no_group { IsErrOf result SharedError.NoGroup ↔ (is_shared self.old.shared.groups pgn ≡ false) }
        ensures not_held { IsErrOf result SharedError.NotHeld ↔ ((is_shared self.old.shared.groups pgn ≡ true) × IsNone self.old.shared.held) }
        ensures only { IfErr result (λ e. (e ≡ SharedError.NoGroup) ⊎ ((e ≡ SharedError.NotHeld) ⊎ (e ≡ SharedError.Full))) }
    {
        self.shared.request(pgn, to)
    }

    /// Gives a message of a group that is shared to be sent, to an address or to all (255).
    ///
    /// Refused, in this order: `NoGroup` for a group that is not shared, or that no identifier carries; `NotHeld` where no address is held;
    /// `TooLong` for more than 1,785 bytes; `NotAnAddress` where none of that group and size goes; `SessionOpen` while another is under
    /// way, and, for one in packets to all, while a command is; `OutOfMemory`. Then nothing changed.
    pub fn send(&mut self, alloc: Global, pgn: Pgn, to: u8, bytes: &[u8]) -> Result<(), SharedError>
        ensures ok { OnOk result ((self.new ≡ record self.old { shared = sending_begun pgn to bytes.now self.old.shared })
            × (why_not_sent self.old pgn (length bytes.now) to ≡ None)) }
        ensures err { OnErr result (self.new ≡ self.old) }
        ensures why { IfErr result (λ e. (why_not_sent self.old pgn (length bytes.now) to ≡ Some e)
            ⊎ ((why_not_sent self.old pgn (length bytes.now) to ≡ None) × (e ≡ SharedError.OutOfMemory))) }
    {
        if self.is_commanding() && bytes.len() > 8 && to == GLOBAL_ADDRESS {
            let refusal = self.shared.why_unsent(pgn, bytes.len(), to);
            return Err(refusal.unwrap_or(SharedError::SessionOpen));
        }
        self.shared.send(alloc, pgn, to, bytes)
    }

    /// Whether a command is under way.
    fn is_commanding(&self) -> bool
        ensures { result ≡ is_commanding_by self.now.live.order }
    {
        match self.live.open() {
            Some(order) => is_command(&order),
            None => false,
        }
    }

    /// The groups that are shared hear a frame, before the station does. Answers whether it is the program's alone, and then the
    /// station is not to hear it; and whether a message is whole with it.
    ///
    /// Refused, where it is: `Full`, `OutOfMemory`; then nothing changed. Where memory is refused for any other frame, what is half
    /// joined from its source is dropped.
    pub fn hear_shared(&mut self, alloc: Global, frame: &Frame) -> Result<SharedHeard, SharedError>
        ensures ok { IfOk result (λ t. SharesFrame frame.now t.is_withheld t.is_whole self.old self.new) }
        ensures err { OnErr result (self.new ≡ self.old) }
        ensures only { IfErr result (λ e. (e ≡ SharedError.Full) ⊎ (e ≡ SharedError.OutOfMemory)) }
    {
        let group = ParameterGroup::read(frame);
        if self.shared.withholds(frame, &group) {
            let is_whole = self.shared.hear(alloc, frame, &group)?;
            return Ok(SharedHeard {
                is_withheld: true,
                is_whole,
            });
        }
        let is_whole = self.shared.hear_beside(alloc, frame, &group);
        Ok(SharedHeard {
            is_withheld: false,
            is_whole,
        })
    }

    /// The frame that goes at this time for the groups that are shared, once the station has settled.
    pub fn pull_shared(&mut self, now: u64) -> Option<Frame>
        ensures none { shared_goes now self.old ≡ false → (result ≡ None) × (self.new ≡ self.old) }
        ensures some { shared_goes now self.old ≡ true → (result ≡ frame_due now self.old.shared)
            × (self.new ≡ record self.old { shared = after_due now self.old.shared }) }
        ensures source { IfSome result (λ f. Some (source_of f.id) ≡ self.old.shared.held) }
    {
        if !self.shared_goes(now) {
            return None;
        }
        self.shared.pull(now)
    }

    /// Whether something is to be done for the groups that are shared, and the station has settled.
    fn shared_goes(&self, now: u64) -> bool
        ensures { result ≡ shared_goes now self.now }
    {
        self.shared.has_to_do(now) && has_come(self.live.free_from(), now)
    }

    /// When to look again for the groups that are shared, at this time or later: the greatest number where nothing is to be done.
    pub fn next_shared(&self, now: u64) -> u64
        ensures idle { (t : ℕ) → now ≤ t → t < result → shared_goes t self.now ≡ false }
        ensures ahead { now ≤ result }
    {
        match self.live.free_from() {
            Some(from) => self.shared.next(from.max(now)),
            None => u64::MAX,
        }
    }
}

/// Whether an order is a command.
fn is_command(order: &Order) -> bool
    ensures { result ≡ spec.is_command order.now }
{
    matches!(*order, Order::Command { .. })
}

/// Whether a time has come, if there is one.
fn has_come(from: Option<u64>, now: u64) -> bool
    ensures { result ≡ has_come from now }
{
    match from {
        Some(from) => from <= now,
        None => false,
    }
}

/// Of two verdicts the newer one, if there is one.
fn newer(verdict: Option<Verdict>, before: Option<Verdict>) -> Option<Verdict>
    ensures { result ≡ newer_verdict verdict before }
{
    match verdict {
        Some(verdict) => Some(verdict),
        None => before,
    }
}

/// The verdict that was pulled, if it was one.
fn verdict_of(pulled: &Pulled) -> Option<Verdict>
    ensures { result ≡ verdict_pulled pulled.now }
{
    match *pulled {
        Pulled::Verdict(verdict) => Some(verdict),
        _ => None,
    }
}
