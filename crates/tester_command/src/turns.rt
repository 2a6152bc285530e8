//! Which order is next, and what comes of those that are for all units.

use crate::lines::{Part, PartLine};
use crate::on_bus::{Doing, Tester};
use crate::order::{Question, TestOrder, Whom};
use crate::part::{Outcome, Seen, UnitOutcome, UnitVerdict, is_cleared, newest};
use crate::queue::NumberedOrder;
use crate::wanted::wanted_of;
use bus_model::Change;
use can_frame::Frame;
use dm_messages::Kind;
use live_station::{Finding, Order, Verdict};
use name_field::Name;
use parameter_group::ParameterGroup;
use std::io::Write;

impl Tester {
    /// Does what is next for orders at this time. Answers whether anything was.
    pub(crate) fn advance<N: Write>(&mut self, now: u64, notes: &mut N) -> bool {
        match self.doing {
            Doing::Nothing => self.begin_next(now, notes),
            Doing::Looks(order) => self.look(&order, now, notes),
            Doing::Waits { order, until } if until <= now => {
                self.end_order(notes, &order, Outcome::Done);
                true
            }
            Doing::Clears { order, place } if self.station.open().is_none() => {
                self.clear_next(&order, place, notes);
                true
            }
            Doing::Open { .. } | Doing::Waits { .. } | Doing::Clears { .. } => false,
        }
    }

    /// When something is next for orders, at this time or later.
    pub(crate) fn next_of_orders(&self, now: u64) -> u64 {
        match self.doing {
            Doing::Nothing if !self.is_done && !self.queue.is_empty() => now,
            Doing::Nothing | Doing::Open { .. } => u64::MAX,
            Doing::Looks(_) => self.station.known_from().unwrap_or(u64::MAX).max(now),
            Doing::Waits { until, .. } => until.max(now),
            Doing::Clears { .. } if self.station.open().is_none() => now,
            Doing::Clears { .. } => u64::MAX,
        }
    }

    /// Begins the next order, where one waits and the run has not ended.
    fn begin_next<N: Write>(&mut self, now: u64, notes: &mut N) -> bool {
        if self.is_done {
            return false;
        }
        let Some(order) = self.queue.next() else {
            return false;
        };
        self.teller.begun(notes, &order);
        self.begin(&order, now, notes);
        true
    }

    /// Begins an order.
    fn begin<N: Write>(&mut self, order: &NumberedOrder, now: u64, notes: &mut N) {
        match &order.order {
            TestOrder::Ask {
                whom: Whom::Named(name),
                ..
            }
            | TestOrder::Clear {
                whom: Whom::Named(name),
                ..
            } => self.open_for(order, *name, notes),
            TestOrder::Ask {
                whom: Whom::All,
                what,
            } => self.open(order, asked_of_all(*what), notes),
            TestOrder::Ask {
                whom: Whom::At(_),
                ..
            }
            | TestOrder::Clear { .. }
            | TestOrder::Command { .. } => self.doing = Doing::Looks(*order),
            TestOrder::Wait { milliseconds } => {
                self.doing = Doing::Waits {
                    order: *order,
                    until: now.saturating_add(1000 * u64::from(*milliseconds)),
                };
            }
            TestOrder::End => {
                self.is_done = true;
                self.end_order(notes, order, Outcome::Done);
            }
        }
    }

    /// Gives an order to the station, which has none.
    fn open<N: Write>(&mut self, order: &NumberedOrder, wanted: Order, notes: &mut N) {
        match self.station.order(wanted) {
            Ok(()) => {
                self.doing = Doing::Open {
                    order: *order,
                    was_asked: false,
                };
            }
            Err(_) => self.end_order(notes, order, Outcome::CutOff),
        }
    }

    /// Looks whether it is known for whom an order is. Answers whether it is.
    fn look<N: Write>(&mut self, order: &NumberedOrder, now: u64, notes: &mut N) -> bool {
        if self.station.held().is_none() {
            self.end_order(notes, order, Outcome::LostAddress);
            return true;
        }
        let is_known = match self.station.known_from() {
            Some(from) => from <= now,
            None => false,
        };
        match &order.order {
            TestOrder::Ask {
                whom: Whom::At(address),
                ..
            }
            | TestOrder::Clear {
                whom: Whom::At(address),
                ..
            } => self.look_at(order, *address, is_known, notes),
            _ if !is_known => false,
            TestOrder::Command { name, address } => {
                self.open_command(order, *name, *address, notes);
                true
            }
            _ => {
                self.begin_clears(order);
                true
            }
        }
    }

    /// Gives an order to the station, for the unit at this address, or ends it where all claims are known and it is none's. Answers
    /// whether it did.
    fn look_at<N: Write>(
        &mut self,
        order: &NumberedOrder,
        address: u8,
        is_known: bool,
        notes: &mut N,
    ) -> bool {
        match self.owner_of(address) {
            Some(name) => {
                self.open_for(order, name, notes);
                true
            }
            None if is_known => {
                self.end_order(notes, order, Outcome::NobodyClaims(address));
                true
            }
            None => false,
        }
    }

    /// Gives an order to the station, for the unit of this NAME.
    fn open_for<N: Write>(&mut self, order: &NumberedOrder, name: Name, notes: &mut N) {
        match wanted_of(&order.order, name) {
            Some(wanted) => self.open(order, wanted, notes),
            None => self.end_order(notes, order, Outcome::CutOff),
        }
    }

    /// Gives a command to the station; one to an address that is held only where that is allowed.
    fn open_command<N: Write>(
        &mut self,
        order: &NumberedOrder,
        name: Name,
        address: u8,
        notes: &mut N,
    ) {
        let is_free = match self.owner_of(address) {
            Some(owner) => owner == name,
            None => self.station.held() != Some(address),
        };
        if is_free || self.yes {
            self.open_for(order, name, notes);
        } else {
            self.end_order(notes, order, Outcome::Withheld);
        }
    }

    /// The NAME that holds an address, as far as it is known.
    fn owner_of(&self, address: u8) -> Option<Name> {
        let known = self.station.station();
        for place in 0..known.names() {
            if let Some(name) = known.name_at(place) {
                if self.claimed(name) == Some(address) {
                    return Some(name);
                }
            }
        }
        None
    }

    /// Begins to clear all units that have an address, the lowest NAME first.
    fn begin_clears(&mut self, order: &NumberedOrder) {
        self.units.clear();
        self.clears = crate::part::Clears::none();
        self.add_others(UnitVerdict::CutOff);
        if self.units.sort_by_key(|unit| unit.name).is_err() {
            self.is_short = true;
        }
        self.doing = Doing::Clears {
            order: *order,
            place: 0,
        };
    }

    /// Adds the units that have an address and are not among the units yet.
    fn add_others(&mut self, verdict: UnitVerdict) {
        let count = self.station.station().names();
        for place in 0..count {
            let Some(name) = self.station.station().name_at(place) else {
                continue;
            };
            if self.claimed(name).is_some() {
                self.add_unit(name, verdict);
            }
        }
    }

    /// Adds a unit, where it is not there yet. Answers whether it was not.
    fn add_unit(&mut self, name: Name, verdict: UnitVerdict) -> bool {
        for unit in self.units.as_slice() {
            if unit.name == name {
                return false;
            }
        }
        if self.units.push(UnitOutcome { name, verdict }).is_err() {
            self.is_short = true;
        }
        true
    }

    /// Has the unit at a place cleared, or ends the order behind the last.
    fn clear_next<N: Write>(&mut self, order: &NumberedOrder, place: usize, notes: &mut N) {
        let wanted = match self.units.as_slice().get(place) {
            Some(unit) => wanted_of(&order.order, unit.name),
            None => None,
        };
        let is_open = match wanted {
            Some(wanted) => self.station.order(wanted).is_ok(),
            None => false,
        };
        if !is_open {
            self.end_clears(notes, order, false);
        }
    }

    /// Ends an order that clears all units, behind the last or before it.
    pub(crate) fn end_clears<N: Write>(
        &mut self,
        notes: &mut N,
        order: &NumberedOrder,
        is_cut: bool,
    ) {
        if is_cut {
            self.clears.units = self.units.len() as u64;
        }
        let clears = self.clears;
        self.end_order(notes, order, Outcome::Cleared(clears));
    }

    /// Takes a verdict of the station, where there is one.
    pub(crate) fn take_verdict<N: Write>(&mut self, verdict: Option<Verdict>, notes: &mut N) {
        let Some(verdict) = verdict else {
            return;
        };
        match self.doing {
            Doing::Open { order, .. } => self.take_open(&order, verdict, notes),
            Doing::Clears { order, place } => self.take_cleared(&order, place, verdict, notes),
            Doing::Nothing | Doing::Looks(_) | Doing::Waits { .. } => {}
        }
    }

    /// Takes the verdict of an order that the station had by itself.
    fn take_open<N: Write>(&mut self, order: &NumberedOrder, verdict: Verdict, notes: &mut N) {
        let answers = self.answers();
        if let Order::AskAll { .. } | Order::AskAllClaims = verdict.order {
            self.add_others(UnitVerdict::Silent);
        }
        let outcome = match verdict.finding {
            Finding::Answered | Finding::Silent if answers > 0 => Outcome::Answered(answers),
            _ => Outcome::Found(verdict),
        };
        self.end_order(notes, order, outcome);
    }

    /// How many units answered what was asked of all.
    fn answers(&self) -> usize {
        let mut answers: usize = 0;
        for unit in self.units.iter() {
            if let UnitVerdict::Answered = unit.verdict {
                answers = answers.saturating_add(1);
            }
        }
        answers
    }

    /// Takes the verdict of the clear of one of all units.
    fn take_cleared<N: Write>(
        &mut self,
        order: &NumberedOrder,
        place: usize,
        verdict: Verdict,
        notes: &mut N,
    ) {
        let address = self.address_of(&verdict);
        let seen = Seen::of(&self.lists, &verdict, address);
        self.clears.count(&verdict, &seen);
        let word = if is_cleared(&verdict, &seen) {
            UnitVerdict::Cleared
        } else {
            UnitVerdict::Found(verdict.finding)
        };
        if let Some(unit) = self.units.as_mut_slice().get_mut(place) {
            unit.verdict = word;
            let name = unit.name;
            let part = Part::Clear(&verdict, &seen);
            let line = part_line(order, name, part);
            self.teller.part(notes, &line);
        }
        self.doing = Doing::Clears {
            order: *order,
            place: place.saturating_add(1),
        };
    }

    /// Notes who answered what was asked of all.
    pub(crate) fn note_answer<N: Write>(&mut self, change: &Change, frame: &Frame, notes: &mut N) {
        let Doing::Open {
            order,
            was_asked: true,
        } = self.doing
        else {
            return;
        };
        match &order.order {
            TestOrder::Ask {
                whom: Whom::All,
                what: Question::Message(kind),
            } => self.note_message(&order, *kind, change, notes),
            TestOrder::Ask {
                whom: Whom::All,
                what: Question::Claim,
            } => self.note_claim(&order, frame, notes),
            _ => {}
        }
    }

    /// A message that may answer what was asked of all.
    fn note_message<N: Write>(
        &mut self,
        order: &NumberedOrder,
        asked: Kind,
        change: &Change,
        notes: &mut N,
    ) {
        match change {
            Change::Listed { name, kind, .. } => {
                if *kind == asked {
                    self.note_listed(order, *name, asked, notes);
                }
            }
            Change::Unreadable { name, kind, .. } => {
                if *kind == asked && self.add_unit(*name, UnitVerdict::Unread) {
                    let line = part_line(order, *name, Part::Unread);
                    self.teller.part(notes, &line);
                }
            }
            _ => {}
        }
    }

    /// A message that answers what was asked of all, which is in the lists.
    fn note_listed<N: Write>(
        &mut self,
        order: &NumberedOrder,
        name: Name,
        kind: Kind,
        notes: &mut N,
    ) {
        if !self.add_unit(name, UnitVerdict::Answered) {
            return;
        }
        if let Some(shown) = newest(&self.lists, name, kind) {
            let line = part_line(order, name, Part::Shown(shown));
            self.teller.part(notes, &line);
        }
    }

    /// A claim that answers what was asked of all.
    fn note_claim<N: Write>(&mut self, order: &NumberedOrder, frame: &Frame, notes: &mut N) {
        if let ParameterGroup::AddressClaimed { name, source } = ParameterGroup::read(frame) {
            if name != self.name && self.add_unit(name, UnitVerdict::Answered) {
                let line = part_line(order, name, Part::Holds(source));
                self.teller.part(notes, &line);
            }
        }
    }
}

fn part_line<'a>(order: &'a NumberedOrder, name: Name, part: Part<'a>) -> PartLine<'a> {
    PartLine {
        number: order.number,
        order: &order.order,
        name,
        part,
    }
}

/// What the station is to ask all units.
fn asked_of_all(what: Question) -> Order {
    match what {
        Question::Message(kind) => Order::AskAll { kind },
        Question::Claim => Order::AskAllClaims,
    }
}
