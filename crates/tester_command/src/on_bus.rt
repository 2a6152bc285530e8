//! A station on a bus, which carries out orders one after the other.

ghost use Rattle.std.specs.Prelude.{◌≤◌, ◌≡◌, ◌≢◌, None};
ghost use Rattle.can_frame.specs.declared.address.TheConstants.{GREATEST_ADDRESS as GREATEST};

use crate::lines::VerdictLine;
use crate::part::{Clears, Outcome, Seen, UnitOutcome};
use crate::queue::{LineOrder, NumberedOrder, OrderQueue};
use crate::teller::Teller;
use crate::words::TesterWays;
use can_frame::{Frame, GREATEST_ADDRESS, Pgn};
use entry_lists::{NewestEntries, Row};
use live_lines::{HeardFrame, OnBus, ended_short};
use live_station::{HearError, LiveStation, Pulled, StationTimes, Told, Verdict};
use log_lines::LinesEnd;
use name_field::Name;
use std::alloc::{AllocError, Global};
use std::io::Write;

/// The most that is done for orders at one time before a frame is asked for again.
const MOST_STEPS: u32 = 100_000;

/// How far the first of the orders that have no verdict is.
#[derive(Clone, Copy)]
pub(crate) enum Doing {
    /// There is none.
    Nothing,
    /// It waits until it is known who holds which address.
    Looks(NumberedOrder),
    /// The station has it; whether its request was written.
    Open {
        order: NumberedOrder,
        was_asked: bool,
    },
    /// It waits until this time.
    Waits {
        order: NumberedOrder,
        until: u64,
    },
    /// It clears all units: the next is the one at this place of those that it is for.
    Clears {
        order: NumberedOrder,
        place: usize,
    },
}

/// How long it is at least until it begins anew again, in microseconds: as long as until it asks for claims again.
const ANEW: u64 = 1_250_000;

/// A station on a bus, its orders, and what was told.
#[derive(Drop)]
pub(crate) struct Tester {
    pub(crate) name: Name,
    pub(crate) station: LiveStation,
    pub(crate) lists: NewestEntries,
    pub(crate) queue: OrderQueue,
    pub(crate) teller: Teller,
    pub(crate) doing: Doing,
    /// Of an order for all: its units, and what came of it there.
    pub(crate) units: Vec<UnitOutcome>,
    pub(crate) clears: Clears,
    /// How many frames were not heard, of which the station does not know.
    missed: u32,
    /// Whether it may clear all units, and command one to an address that is held.
    pub(crate) yes: bool,
    /// Whether the run ends behind the last order.
    ends: bool,
    /// Whether the run ends now.
    pub(crate) is_done: bool,
    /// Whether an order did not get what it asked for.
    has_failed: bool,
    /// Whether memory was refused.
    pub(crate) is_short: bool,
    /// How it takes part, where it begins anew.
    part: TakesPart,
    /// From when on it may begin anew.
    anew_from: u64,
}

/// How a station takes part in its bus, and of how many NAMEs it knows at once.
#[derive(Clone, Copy)]
struct TakesPart {
    grant: u8,
    times: StationTimes,
    most: usize,
}

impl Tester {
    /// One that has heard nothing, with the orders that these words spell. `ends` is whether the run ends behind the last of them.
    ///
    /// Refused: where memory is.
    pub(crate) fn new(
        alloc: Global,
        ways: &TesterWays<'_>,
        orders: &[&str],
        ends: bool,
    ) -> Result<Tester, AllocError> {
        Ok(Tester {
            name: ways.name,
            station: LiveStation::new(alloc, ways.name, ways.address, ways.grant, ways.times)?,
            lists: NewestEntries::new(alloc, 1),
            queue: OrderQueue::of_words(alloc, orders)?,
            teller: Teller::new(alloc, ways.json),
            doing: Doing::Nothing,
            units: Vec::new(alloc),
            clears: Clears::none(),
            missed: 0,
            yes: ways.yes,
            ends,
            is_done: false,
            has_failed: false,
            is_short: false,
            part: TakesPart {
                grant: ways.grant,
                times: ways.times,
                most: ways.most,
            },
            anew_from: 0,
        })
    }

    /// Ends the first of the orders that have no verdict.
    pub(crate) fn end_order<N: Write>(
        &mut self,
        notes: &mut N,
        order: &NumberedOrder,
        outcome: Outcome,
    ) {
        self.doing = Doing::Nothing;
        self.has_failed = self.has_failed || !outcome.is_content();
        let address = match &outcome {
            Outcome::Found(verdict) => self.address_of(verdict),
            _ => None,
        };
        let seen = Seen::of_outcome(&self.lists, &outcome, address);
        let line = VerdictLine {
            number: order.number,
            order: &order.order,
            outcome: &outcome,
            seen: &seen,
            units: self.units.as_slice(),
        };
        self.teller.outcome(notes, &line);
        self.units.clear();
        self.is_done = self.is_done || self.ends && self.queue.is_empty();
    }

    /// Ends an order that never was the first.
    fn refuse<N: Write>(&mut self, notes: &mut N, order: &NumberedOrder, outcome: Outcome) {
        self.has_failed = true;
        let line = VerdictLine {
            number: order.number,
            order: &order.order,
            outcome: &outcome,
            seen: &Seen::nothing(),
            units: &[],
        };
        self.teller.outcome(notes, &line);
    }

    /// Tells of the line of a file of orders, where it is none or does not wait.
    fn tell_line<N: Write>(&mut self, taken: &LineOrder, notes: &mut N) {
        match taken {
            LineOrder::Silent | LineOrder::Waits(_) => {}
            LineOrder::Bad(number) => {
                self.has_failed = true;
                self.teller.bad_line(notes, *number);
            }
            LineOrder::Full(order) => self.refuse(notes, order, Outcome::Full),
            LineOrder::Withheld(order) => self.refuse(notes, order, Outcome::Withheld),
        }
    }

    /// The address of a NAME, as far as it is known.
    pub(crate) fn claimed(&self, name: Name) -> Option<u8> {
        match self.station.station().row(name) {
            Some(Row { address, .. }) => address,
            None => None,
        }
    }

    /// That of the unit that a verdict is of.
    pub(crate) fn address_of(&self, verdict: &Verdict) -> Option<u8> {
        self.claimed(verdict.order.name()?)
    }

    /// Whether it knows as many NAMEs as it may.
    fn is_full(&self) -> bool {
        self.station.station().names() >= self.part.most
    }

    /// Where it knows as many NAMEs as it may, holds an address, and no order is open, it begins anew: it claims that address again,
    /// and asks for the claims of all. It does so at most each 1,250 ms.
    fn make_room<N: Write>(&mut self, alloc: Global, now: u64, notes: &mut N)
        ensures open { self.old.station.order ≢ None → self.new.station ≡ self.old.station }
    {
        if now < self.anew_from || !self.is_full() || self.station.open().is_some() {
            return;
        }
        if let Some(held) = self.station.held() {
            self.anew_from = now.saturating_add(ANEW);
            self.begin_anew(alloc, held.min(GREATEST_ADDRESS), notes);
        }
    }

    /// Begins anew at this address, 0 to 253.
    fn begin_anew<N: Write>(&mut self, alloc: Global, address: u8, notes: &mut N)
        requires { address ≤ GREATEST }
    {
        let grant = self.part.grant.max(1);
        match LiveStation::new(alloc, self.name, address, grant, self.part.times) {
            Ok(station) => {
                self.station = station;
                self.lists = NewestEntries::new(alloc, 1);
                self.teller.forgot(notes, self.part.most);
            }
            Err(_) => self.is_short = true,
        }
    }

    /// Whether a frame tells it nothing that it needs: it knows as many NAMEs as it may, and without an address it sends nothing to
    /// any, so that it passes over claims.
    fn is_of_no_use(&self, frame: &Frame) -> bool {
        frame.id().pgn() == Pgn::ADDRESS_CLAIMED && self.station.held().is_none() && self.is_full()
    }

    /// Hears a frame. One that cannot be heard for want of memory counts as one that was not read.
    fn hear_frame<N: Write>(&mut self, alloc: Global, frame: &Frame, now: u64, notes: &mut N) {
        self.hear_missed(alloc, now, notes);
        if self.missed > 0 {
            self.missed = self.missed.saturating_add(1);
            return;
        }
        match self.station.hear(alloc, frame, now, &mut self.lists) {
            Ok(told) => self.take_told(told, frame, notes),
            Err(HearError::Full) => {}
            Err(HearError::OutOfMemory) => {
                self.is_short = true;
                self.missed = 1;
            }
        }
    }

    /// Tells the station of frames that were not heard, where there are any.
    fn hear_missed<N: Write>(&mut self, alloc: Global, now: u64, notes: &mut N) {
        if self.missed == 0 {
            return;
        }
        match self
            .station
            .missed(alloc, self.missed, now, &mut self.lists)
        {
            Ok(told) => {
                self.missed = 0;
                self.take_verdict(told.verdict, notes);
                self.note_loss(notes);
            }
            Err(HearError::Full) => {}
            Err(HearError::OutOfMemory) => self.is_short = true,
        }
    }

    /// Takes what came of a frame.
    fn take_told<N: Write>(&mut self, told: Told, frame: &Frame, notes: &mut N) {
        if told.stranger {
            if let Some(address) = self.station.held() {
                self.teller.contested(notes, address);
            }
        }
        self.note_answer(&told.change, frame, notes);
        self.take_verdict(told.verdict, notes);
        self.note_loss(notes);
    }

    /// Tells that no address is held, where none is.
    fn note_loss<N: Write>(&mut self, notes: &mut N) {
        if self.station.held().is_none() {
            self.teller.lost(notes);
        }
    }

    /// Tells of a frame that goes.
    fn note_frame<N: Write>(&mut self, frame: &Frame, of_order: bool, notes: &mut N) {
        let number = if of_order { self.number() } else { None };
        self.teller.sent(notes, frame, number);
        let source = frame.id().source();
        if frame.id().pgn() == Pgn::ADDRESS_CLAIMED && self.station.held() == Some(source) {
            self.teller.claims(notes, source);
        }
        if let Doing::Open { order, .. } = self.doing {
            if of_order {
                self.doing = Doing::Open {
                    order,
                    was_asked: true,
                };
            }
        }
    }

    /// The number of the first of the orders that have no verdict.
    fn number(&self) -> Option<u64> {
        match self.doing {
            Doing::Nothing => None,
            Doing::Looks(order)
            | Doing::Open { order, .. }
            | Doing::Waits { order, .. }
            | Doing::Clears { order, .. } => Some(order.number),
        }
    }

    /// Cuts off the first of the orders that have no verdict.
    fn cut_off<N: Write>(&mut self, now: u64, notes: &mut N) {
        let verdict = self.station.close(now);
        self.take_verdict(verdict, notes);
        match self.doing {
            Doing::Nothing | Doing::Open { .. } => {}
            Doing::Looks(order) | Doing::Waits { order, .. } => {
                self.end_order(notes, &order, Outcome::CutOff);
            }
            Doing::Clears { order, .. } => self.end_clears(notes, &order, true),
        }
    }
}

impl OnBus for Tester {
    fn hear<N: Write>(&mut self, alloc: Global, heard: &HeardFrame, now: u64, notes: &mut N) {
        self.teller.mark.line = heard.line;
        self.teller.mark.time = heard.time;
        self.make_room(alloc, now, notes);
        if !self.is_of_no_use(&heard.frame) {
            self.hear_frame(alloc, &heard.frame, now, notes);
        }
    }

    fn miss<N: Write>(&mut self, alloc: Global, count: u32, now: u64, notes: &mut N) {
        self.missed = self.missed.saturating_add(count);
        self.hear_missed(alloc, now, notes);
    }

    fn echo<N: Write>(
        &mut self,
        _alloc: Global,
        _written: &HeardFrame,
        _now: u64,
        _notes: &mut N,
    ) {}

    fn step<N: Write>(&mut self, _alloc: Global, now: u64, notes: &mut N) -> Option<Frame> {
        for _ in 0..MOST_STEPS {
            match self.station.pull(now) {
                Pulled::Frame { frame, of_order } => {
                    self.note_frame(&frame, of_order, notes);
                    return Some(frame);
                }
                Pulled::Verdict(verdict) => self.take_verdict(Some(verdict), notes),
                Pulled::Nothing if self.station.next(now) <= now => {}
                Pulled::Nothing => {
                    if !self.advance(now, notes) {
                        return None;
                    }
                }
            }
        }
        None
    }

    fn next(&self, now: u64) -> u64 {
        self.station.next(now).min(self.next_of_orders(now))
    }

    fn is_done(&self) -> bool {
        self.is_done
    }

    fn order(
        &mut self,
        _alloc: Global,
        line: &[u8],
        _now: u64,
        notes: &mut Vec<u8>,
    ) -> Result<(), AllocError> {
        match self.queue.take_line(line, self.yes) {
            Ok(taken) => {
                self.tell_line(&taken, notes);
                Ok(())
            }
            Err(error) => Err(error),
        }
    }

    fn close<N: Write>(&mut self, now: u64, notes: &mut N) {
        self.cut_off(now, notes);
        for _ in 0..u64::MAX {
            let Some(order) = self.queue.next() else {
                break;
            };
            self.refuse(notes, &order, Outcome::CutOff);
        }
        self.is_done = true;
    }

    fn ended<E: Write>(&self, _errors: &mut E, lines: LinesEnd) -> LinesEnd {
        ended_short(lines, self.is_short || self.teller.is_short)
    }

    fn is_content(&self) -> bool {
        !self.has_failed
    }
}
