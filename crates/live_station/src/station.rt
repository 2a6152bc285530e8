ghost use Rattle.std.specs.Prelude.{ℕ, ◌≡◌, ◌↔◌, ◌⊎◌, ◌≤◌, ◌<◌, ◌+◌, ◌∷◌, [], IfErr, IfOk, IsErrOf, IsNone, IsSome, List, None, OnErr, OnOk, Some, false, option_map, true};
ghost use Rattle.can_frame.specs.declared.address.TheConstants.{GREATEST_ADDRESS as GREATEST};
ghost use Rattle.can_frame.specs.declared.reading.Reading.{Reading as AnyReading};
ghost use Rattle.can_frame.specs.declared.reading.Reading.TheVariants.{Frame as FrameRead, Gap as GapRead};
ghost use Rattle.bus_model.specs.Heard.{StationSettings};
ghost use Rattle.entry_lists.specs.Entries.{HasPut};
ghost use Rattle.live_unit.specs.Queue.{frames_waiting};
ghost use Rattle.live_unit.specs.declared.queue.TheConstants.{MOST_PUT as MOST};
ghost use Rattle.station_table.specs.StandsFor.{StandsFor};
ghost use Rattle.live_station.specs.Ear.{entry_of_told, frames_told};
ghost use Rattle.live_station.specs.OpenOrders.{begun_order, commands_too_far, order_cut_off};
ghost use Rattle.live_station.specs.Turns.{order_due};
ghost use Rattle.live_station.specs.Working.{DoesTurn, HearsOnBus, HearsOwnFrame, IsSentFromOwn, IsUnordered, MissesFrames, LacksRoomToHear, after_passing, after_told, after_stranger, begun_station, outlook_of, progress_by_stranger, settled_since, told_in_passing, told_of_it, turn_at, verdict_of};
ghost use Rattle.live_station.specs.Ear as ear;
ghost use Rattle.live_station.specs.Working as spec;
ghost use Rattle.live_unit.specs.Queue.{HasFreeLanes};
ghost use Rattle.live_unit.specs.Times.{lane_due};
ghost use Rattle.parameter_group.specs.Group.{group_of};
ghost use Rattle.parameter_group.specs.Said.{IsLawfulGroup, said};
ghost use Rattle.can_frame.specs.FrameValue.{FrameValue};
ghost use Rattle.station_table.specs.Listing.{entry_heard};
ghost use Rattle.station_table.specs.Reactions.{request_for_claims};

use crate::error::{HearError, OrderError};
use crate::going::{
    address_of, clear_from_claim, clear_from_end, go_on, hear_on, look_on, miss_on, source_of,
    turn_of,
};
use crate::hearing::{is_out_of_turn, is_own, may_be_answered};
use crate::loss::Losses;
use crate::open::{ANSWER_WAIT, OpenOrder, Part};
use crate::order::Order;
use crate::pulled::{Pulled, Told};
use crate::sign::Sign;
use crate::times::{StationTimes, behind};
use crate::turn::{Deed, Outlook, Turn};
use crate::verdict::{Finding, Verdict};
use crate::waiting::{queue_of, take_in};
use bus_model::Change;
use can_frame::{Frame, GLOBAL_ADDRESS, Pgn, Reading};
use entry_lists::Lists;
use live_unit::{Echo, Lane, Queue, QueueCounts, UnitClock, UnitSettings, lane_due};
use name_field::Name;
use parameter_group::ParameterGroup;
use requests::{Commanded, Request};
use station_table::{Outcome, Station};
use std::alloc::{AllocError, Global};
use std::marker::Model;

mod doing;

/// A diagnostic station that takes part in a bus that others are on.
#[derive(Drop)]
pub struct LiveStation {
    name: Name,
    station: Station,
    queue: Queue,
    clock: UnitClock,
    settings: UnitSettings,
    echo: Echo,
    asks_claims: bool,
    claims_by: u64,
    clear_from: u64,
    losses: Losses,
    order: Option<OpenOrder>,
}

impl Model for LiveStation {
    ghost use Rattle.std.specs.Prelude.{◌≡◌};
    ghost use Rattle.address_claim.specs.Frames.{claim_source};
    ghost use Rattle.live_station.specs.Working.{OwesAll, WorkingValue};

    ghost Value = { WorkingValue };

    ghost view = { λ s. record {
      station = s.station;
      queue = s.queue;
      clock = s.clock;
      settings = s.settings;
      echo = s.echo;
      asks_claims = s.asks_claims;
      claims_by = s.claims_by;
      clear_from = s.clear_from;
      losses = s.losses;
      order = s.order;
    } };

    ghost invariant = { λ s. (s.queue.source ≡ claim_source s.station.claimer.held) × (s.name ≡ s.station.claimer.name) × OwesAll s.queue };
}

impl LiveStation {
    /// A station of this NAME that holds the address that it wants, 0 to 253, and grants at most so many packets at once, at least
    /// one. Its claim waits, and behind that a request for the claims of all; it has heard nothing.
    #[tactic(auto, using(crate::proofs::Sources::owed_claim))]
    pub fn new(
        alloc: Global,
        name: Name,
        want: u8,
        grant: u8,
        times: StationTimes,
    ) -> Result<LiveStation, AllocError>
        requires address_fits { want ≤ GREATEST }
        requires grants { 0 < grant }
        ensures value { IfOk result (λ s. s ≡ begun_station name want grant times) }
        ensures stands { IfOk result (λ s. StandsFor (record { name = name; address = want }) grant s.station (frames_told (record { name = name; address = want }) [])) }
    {
        let station = Station::new(alloc, name, want, grant);
        let queue = queue_of(alloc, want, station.start())?;
        Ok(LiveStation {
            name,
            station,
            queue,
            clock: UnitClock::at_start(alloc),
            settings: UnitSettings {
                gap: times.gap,
                settle: times.settle,
                always: false,
            },
            echo: Echo::new(alloc)?,
            asks_claims: true,
            claims_by: 0,
            clear_from: 0,
            losses: Losses::new(alloc)?,
            order: None,
        })
    }

    /// The address that the station holds, 0 to 253.
    pub fn held(&self) -> Option<u8>
        ensures { result ≡ self.now.station.claimer.held }
    {
        self.station.held()
    }

    /// What the station knows: units by NAME, their addresses and acknowledgments, and counts.
    pub fn station(&self) -> &Station
        ensures { result.now ≡ self.now.station }
    {
        &self.station
    }

    /// What became of its claims and its answers; requests, commands and what asks for packets again are not among them.
    pub fn counts(&self) -> QueueCounts
        ensures put { result.put ≡ self.now.queue.put }
        ensures written { result.written ≡ self.now.queue.written }
        ensures withdrawn { result.withdrawn ≡ self.now.queue.withdrawn }
        ensures waiting { result.waiting ≡ frames_waiting self.now.queue }
        ensures balanced { result.put ≡ result.written + result.withdrawn + result.waiting }
    {
        self.queue.counts()
    }

    /// From when on frames may go in the station's name beside what waits: none while it holds no address, or a claim of it waits.
    pub fn free_from(&self) -> Option<u64>
        ensures { result ≡ settled_since self.now }
    {
        if self.station.held().is_some() && !self.queue.waits(Lane::Claims) {
            Some(self.clock.settled_from)
        } else {
            None
        }
    }

    /// From when on a NAME without an address counts as unknown: claims were asked for, and are waited for until then. None while they
    /// are to be asked for.
    pub fn known_from(&self) -> Option<u64>
        ensures { result ≡ spec.known_from self.now }
    {
        if self.asks_claims {
            None
        } else {
            Some(self.claims_by)
        }
    }

    /// What is asked now, if an order is open.
    pub fn open(&self) -> Option<Order>
        ensures { result ≡ option_map (λ o. o.order) self.now.order }
    {
        match self.order {
            Some(open) => Some(open.order),
            None => None,
        }
    }

    /// Hears a frame of the bus. What the station owes for it is withdrawn and put; a message that ends goes to the lists; the open
    /// order looks at it.
    ///
    /// A frame of its own, which the bus told it of, changes nothing. One from its own address that it did not write is somebody
    /// else's: it is told, and an order that is out is in doubt. A packet of a session that came already, or behind one that is
    /// missing, is passed over; what is missing is asked for again in its time, twice at most for the same packet, and else the
    /// session is given up (SAE J1939-21, 5.10.3, from memory).
    ///
    /// Refused: `Full`, where as much waits as there is room for and the frame is a request or one of a session; `OutOfMemory`. Then
    /// nothing changed.
    #[tactic(auto, using(crate::proofs::Ears::stands_own, crate::proofs::Ears::entry_own, crate::proofs::Ears::stands_passed, crate::proofs::Ears::entry_passed))]
    pub fn hear<L: Lists>(
        &mut self,
        alloc: Global,
        frame: &Frame,
        now: u64,
        lists: &mut L,
    ) -> Result<Told, HearError>
        ensures heard { IfOk result (λ t. HearsOnBus frame.now now t self.old self.new) }
        ensures stands { OnOk result ((r : StationSettings) (grant : ℕ) (h : List AnyReading) → StandsFor r grant self.old.station (frames_told r h)
            → StandsFor r grant self.new.station (frames_told r (FrameRead frame.now ∷ h))) }
        ensures listed { OnOk result ((r : StationSettings) (grant : ℕ) (h : List AnyReading) → StandsFor r grant self.old.station (frames_told r h)
            → HasPut L.Takes lists.old (entry_of_told r frame.now h) lists.new) }
        ensures full { IsErrOf result HearError.Full ↔ LacksRoomToHear frame.now self.old }
        ensures only { IfErr result (λ e. (e ≡ HearError.Full) ⊎ (e ≡ HearError.OutOfMemory)) }
        ensures err { OnErr result (self.new ≡ self.old) }
        ensures err_lists { OnErr result (lists.new ≡ lists.old) }
    {
        let group = ParameterGroup::read(frame);
        if self.is_own(frame, &group) {
            return Ok(self.hear_own(frame, now));
        }
        if !self.queue.may_put() || may_be_answered(&group) && !self.queue.has_room() {
            return Err(HearError::Full);
        }
        if is_out_of_turn(&self.station, &group, frame.id().source()) {
            return Ok(self.pass_over(&group, now));
        }
        self.hear_told(alloc, &group, now, lists)
    }

    /// Whether a frame, which says this, is the station's own.
    fn is_own(&self, frame: &Frame, group: &ParameterGroup<'_>) -> bool
        requires { said group.now ≡ group_of frame.now }
        ensures { result ≡ ear.is_own self.now.station.claimer frame.now }
    {
        is_own(self.name, self.station.held(), group, frame.id().source())
    }

    /// Passes over a packet out of turn.
    fn pass_over(&mut self, group: &ParameterGroup<'_>, now: u64) -> Told
        ensures is { self.new ≡ after_passing (said group.now) now self.old }
        ensures told { result ≡ told_in_passing (said group.now) now self.old }
    {
        self.losses.pass(group, now);
        let change = Change::Nothing;
        let verdict = look_on(&mut self.order, &self.station, group, &change, false, now);
        Told {
            change,
            verdict,
            stranger: false,
        }
    }

    /// Hears what a frame says that the station is told of.
    ///
    /// Refused: `OutOfMemory`; then nothing changed.
    #[tactic(auto, using(crate::proofs::Claimers::named_as_before, crate::proofs::Sources::reacts_with_room))]
    fn hear_told<L: Lists>(
        &mut self,
        alloc: Global,
        group: &ParameterGroup<'_>,
        now: u64,
        lists: &mut L,
    ) -> Result<Told, HearError>
        requires lawful { IsLawfulGroup group.now }
        requires few { self.old.queue.put < MOST }
        requires room { (spec.may_be_answered (said group.now) ≡ false) ⊎ HasFreeLanes self.old.queue }
        ensures heard { IfOk result (λ t. (self.new ≡ after_told (said group.now) now self.old)
            × (t ≡ told_of_it (said group.now) now self.old)) }
        ensures stands { OnOk result ((f : FrameValue) → group_of f ≡ said group.now → (r : StationSettings) (grant : ℕ) (h : List AnyReading)
            → StandsFor r grant self.old.station h → StandsFor r grant self.new.station (FrameRead f ∷ h)) }
        ensures listed { OnOk result ((f : FrameValue) → group_of f ≡ said group.now → (r : StationSettings) (grant : ℕ) (h : List AnyReading)
            → StandsFor r grant self.old.station h → HasPut L.Takes lists.old (entry_heard r (FrameRead f) h) lists.new) }
        ensures only { IfErr result (λ e. e ≡ HearError.OutOfMemory) }
        ensures err { OnErr result (self.new ≡ self.old) }
        ensures err_lists { OnErr result (lists.new ≡ lists.old) }
    {
        let before = self.station.held();
        let Outcome { reaction, change } = self.station.take_group(alloc, group, lists)?;
        let contested = reaction.withdraw;
        let after = self.station.held();
        take_in(&mut self.queue, reaction, after);
        self.clock.hear(false, before, after, now, self.name);
        self.losses.follow(&self.station, group, now);
        let verdict = look_on(
            &mut self.order,
            &self.station,
            group,
            &change,
            contested,
            now,
        );
        Ok(Told {
            change,
            verdict,
            stranger: false,
        })
    }

    /// Hears that so many frames were missed: owners and all that is half joined are forgotten, the address is claimed again, and
    /// the claims of all are asked for.
    ///
    /// Refused: `Full`, `OutOfMemory`; then nothing changed.
    pub fn missed<L: Lists>(
        &mut self,
        alloc: Global,
        count: u32,
        now: u64,
        lists: &mut L,
    ) -> Result<Told, HearError>
        ensures missed { IfOk result (λ t. MissesFrames count now t self.old self.new) }
        ensures stands { OnOk result ((r : StationSettings) (grant : ℕ) (h : List AnyReading) → StandsFor r grant self.old.station (frames_told r h)
            → StandsFor r grant self.new.station (frames_told r (GapRead count ∷ h))) }
        ensures lists { OnOk result (lists.new ≡ lists.old) }
        ensures full { IsErrOf result HearError.Full ↔ (MOST ≤ self.old.queue.put) }
        ensures only { IfErr result (λ e. (e ≡ HearError.Full) ⊎ (e ≡ HearError.OutOfMemory)) }
        ensures err { OnErr result (self.new ≡ self.old) }
        ensures err_lists { OnErr result (lists.new ≡ lists.old) }
    {
        if !self.queue.may_put() {
            return Err(HearError::Full);
        }
        let before = self.station.held();
        let Outcome { reaction, change } = self.station.take(alloc, Reading::Gap(count), lists)?;
        let after = self.station.held();
        take_in(&mut self.queue, reaction, after);
        self.clock.hear(false, before, after, now, self.name);
        self.asks_claims = true;
        self.losses.clear();
        let progress = miss_on(self.order, now);
        let verdict = go_on(&mut self.order, progress);
        Ok(Told {
            change,
            verdict,
            stranger: false,
        })
    }

    /// A frame of the station's own, or somebody else's from its address.
    fn hear_own(&mut self, frame: &Frame, now: u64) -> Told
        ensures own { HearsOwnFrame frame.now now result self.old self.new }
        ensures station { self.new.station ≡ self.old.station }
    {
        let stranger = self.echo.hear(frame);
        let verdict = if stranger {
            self.hear_stranger(now)
        } else {
            None
        };
        Told {
            change: Change::Nothing,
            verdict,
            stranger,
        }
    }

    /// Somebody else sends from the station's own address.
    fn hear_stranger(&mut self, now: u64) -> Option<Verdict>
        ensures is { self.new ≡ after_stranger now self.old }
        ensures verdict { result ≡ verdict_of (progress_by_stranger now self.old) }
    {
        self.clear_from = now.saturating_add(ANSWER_WAIT);
        let progress = hear_on(self.order, &self.station, Sign::Nothing, false, true, now);
        go_on(&mut self.order, progress)
    }

    /// Opens an order; it is carried out by `pull`, in its time.
    ///
    /// Refused, in this order: `Open` while another one is open, `NotAnAddress` for a command to hold 254 or 255. Then nothing
    /// changed.
    pub fn order(&mut self, order: Order) -> Result<(), OrderError>
        ensures ok { OnOk result (self.new ≡ record self.old { order = Some (begun_order order) }) }
        ensures busy { IsErrOf result OrderError.Open ↔ IsSome self.old.order }
        ensures not_an_address { IsErrOf result OrderError.NotAnAddress ↔ (IsNone self.old.order × commands_too_far order ≡ true) }
        ensures err { OnErr result (self.new ≡ self.old) }
    {
        if self.order.is_some() {
            return Err(OrderError::Open);
        }
        if order.commands_too_far() {
            return Err(OrderError::NotAnAddress);
        }
        self.order = Some(OpenOrder::new(order));
        Ok(())
    }

    /// What goes at this time: a frame that waits; else what asks for packets that are missing, or gives their session up; else a
    /// request for claims, where one is due; else what the open order does. Where nothing goes, `next` says when to look again, which may be at once.
    #[tactic(auto, using(crate::proofs::Turning::rests_always))]
    pub fn pull(&mut self, now: u64) -> Pulled
        ensures turn { DoesTurn (turn_at now self.old) now result self.old self.new }
        ensures source { IsSentFromOwn result self.old.station }
        ensures unordered { IsUnordered result self.old.station }
    {
        if self.is_at_rest() {
            return Pulled::Nothing;
        }
        match self.turn(now) {
            Turn::Rests => Pulled::Nothing,
            Turn::Writes(lane) => self.write_waiting(lane, now),
            Turn::AsksAgain(watch) => self.ask_again(watch, now),
            Turn::AsksClaims => self.ask_claims(now),
            Turn::Does(open, deed) => self.carry_out(open, deed, now),
        }
    }

    /// The input ended: the verdict of the open order, which is cut off.
    pub fn close(&mut self, now: u64) -> Option<Verdict>
        ensures verdict { result ≡ option_map (order_cut_off now) self.old.order }
        ensures closed { self.new ≡ record self.old { order = None } }
    {
        let open = self.order.take()?;
        Some(open.cut_off(now))
    }

    /// When to look again, at this time or later: before that nothing goes, unless a frame is heard or an order is given. The
    /// greatest number where nothing waits for its time.
    #[tactic(auto, using(crate::proofs::Turning::rests_always))]
    pub fn next(&self, now: u64) -> u64
        ensures idle { (t : ℕ) → now ≤ t → t < result → turn_at t self.now ≡ Turn.Rests }
        ensures ahead { now ≤ result }
    {
        if self.is_at_rest() {
            return u64::MAX;
        }
        match self.turn(now) {
            Turn::Rests => self.rests_until(now),
            _ => now,
        }
    }

    /// Whether nothing waits, no order is open, no session is watched, and claims are not to be asked for: then it does nothing,
    /// whenever that is.
    fn is_at_rest(&self) -> bool
        ensures { result ≡ spec.is_at_rest self.now }
    {
        self.order.is_none()
            && !self.asks_claims
            && !self.losses.is_some()
            && !self.queue.waits(Lane::Claims)
            && !self.queue.waits(Lane::Singles)
            && !self.queue.waits(Lane::Session)
            && !self.queue.waits(Lane::Messages)
    }

    /// Until when what a station does stays the same.
    #[tactic(auto, using(crate::proofs::Turning::turn_alike))]
    fn rests_until(&self, now: u64) -> u64
        ensures same { (t : ℕ) → now ≤ t → t < result → turn_at t self.now ≡ turn_at now self.now }
        ensures ahead { now ≤ result }
    {
        behind(now, self.clock.claim_from)
            .min(behind(now, self.clock.settled_from))
            .min(behind(now, self.clock.packet_from))
            .min(behind(now, self.claims_by))
            .min(self.losses.next(now))
            .min(self.order_rests_until(now))
    }

    /// Until when what the open order does stays the same.
    fn order_rests_until(&self, now: u64) -> u64
        ensures same { (t : ℕ) → now ≤ t → t < result → (o : OpenOrder) → self.now.order ≡ Some o
            → order_due o (outlook_of self.now o.order) t ≡ order_due o (outlook_of self.now o.order) now }
        ensures ahead { now ≤ result }
    {
        let Some(going) = self.order else {
            return u64::MAX;
        };
        let outlook = self.outlook(going.order);
        going.next(outlook, now)
    }

    /// What it does at a time.
    fn turn(&self, now: u64) -> Turn
        ensures { result ≡ turn_at now self.now }
    {
        match lane_due(&self.clock, now, &self.queue) {
            Some(lane) => Turn::Writes(lane),
            None if self.is_settled(now) => self.free_turn(now),
            None => Turn::Rests,
        }
    }

    /// Whether no claim waits and the station has settled.
    fn is_settled(&self, now: u64) -> bool
        ensures { result ≡ spec.is_settled now self.now }
    {
        !self.queue.waits(Lane::Claims) && self.clock.settled_from <= now
    }

    /// What it does where nothing waits that goes.
    fn free_turn(&self, now: u64) -> Turn
        ensures { result ≡ spec.free_turn now self.now }
    {
        match self.losses.due(&self.station, now) {
            Some(watch) => Turn::AsksAgain(watch),
            None if self.is_to_ask_claims(now) => Turn::AsksClaims,
            None => self.order_turn(now),
        }
    }

    /// What its open order does.
    fn order_turn(&self, now: u64) -> Turn
        ensures { result ≡ spec.order_turn now self.now self.now.order }
    {
        let Some(going) = self.order else {
            return Turn::Rests;
        };
        let outlook = self.outlook(going.order);
        let deed = going.due(outlook, now);
        turn_of(going, deed)
    }

    /// Whether claims are to be asked for at this time.
    fn is_to_ask_claims(&self, now: u64) -> bool
        ensures { result ≡ spec.is_to_ask_claims now self.now }
    {
        self.asks_claims && self.claims_by <= now && self.station.held().is_some()
    }

    /// What an order sees.
    fn outlook(&self, order: Order) -> Outlook
        ensures { result ≡ outlook_of self.now order }
    {
        Outlook {
            held: self.station.held(),
            address: address_of(&self.station, order),
            known_from: self.known_from(),
            clear_from: self.clear_from,
            packet_from: self.clock.packet_from,
        }
    }
}
