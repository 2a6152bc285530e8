ghost use Rattle.std.specs.Prelude.{◌≡◌, ◌≤◌, Some};
ghost use Rattle.live_station.specs.OpenOrders.{asking_again, begun_order, command_goes_on, doubt_of, doubted, finding_read, order_acknowledged, order_answered, order_cut_off, order_ended, order_heard, order_missed, order_signed, part_number, signed_or_doubted, verdict_now, waiting_on, with_mark, without_mark};
ghost use Rattle.live_station.specs.OpenOrders as orders;
ghost use Rattle.live_station.specs.Working.{waiting_from};

use crate::order::Order;
use crate::sign::Sign;
use crate::verdict::{Doubt, Finding, Verdict};
use can_frame::GLOBAL_ADDRESS;

/// How long an answer is waited for, and claims that were asked for, in microseconds: 1,250 ms (SAE J1939-21, T3).
pub const ANSWER_WAIT: u64 = 1_250_000;

/// How long a request waits that the unit could not answer, in microseconds.
pub const BUSY_WAIT: u64 = 500_000;

/// How long an answer may take in all, in microseconds.
pub const LONGEST_ANSWER: u64 = 60_000_000;

/// How often a request is written at most.
pub const MOST_TRIES: u8 = 3;

/// A request that was written.
#[derive(Clone, Copy)]
pub struct Asked {
    /// The address from which it was written.
    pub own: u8,
    /// That to which it was written, 255 where to all.
    pub to: u8,
    /// When it was written.
    pub at: u64,
    /// Until when an answer is waited for.
    pub until: u64,
    /// Whether a broadcast of what is asked for was announced since.
    pub broadcast: bool,
    /// Whether a session of what is asked for was announced since.
    pub session: bool,
    /// Whether somebody answered a request to all.
    pub answered: bool,
}

/// A frame of a command.
#[derive(Clone, Copy)]
pub enum Part {
    /// The announcement of the broadcast.
    Announcement,
    /// Its first packet.
    First,
    /// Its second packet.
    Second,
}

impl Part {
    /// Its place in the message, from 0.
    pub fn number(self) -> u8
        ensures value { result ≡ part_number self }
        ensures few { result ≤ 2 }
    {
        match self {
            Part::Announcement => 0,
            Part::First => 1,
            Part::Second => 2,
        }
    }
}

/// How far an open order is.
#[derive(Clone, Copy)]
pub enum Stage {
    /// Its request is to be written, not before a time. A NAME without an address is waited for until another one.
    Waits { from: u64, known_by: u64 },
    /// A frame of a command was written from this address; the next one is to be.
    Commands { own: u8, next: Part },
    /// It was written.
    Asked(Asked),
}

/// The open order. A clear that was written becomes an order to ask what is left, with what was found of the clear.
#[derive(Clone, Copy)]
pub struct OpenOrder {
    /// What is asked now.
    pub order: Order,
    /// Of a clear that was written: its verdict, but for what is left.
    pub found: Option<Verdict>,
    /// How often it was written.
    pub tries: u8,
    /// How far it is.
    pub stage: Stage,
}

/// What becomes of an open order.
#[derive(Clone, Copy)]
pub enum Progress {
    /// It is open.
    Goes(OpenOrder),
    /// It ended.
    Ends(Verdict),
}

/// How the station and the unit stand that an order is for, after something was heard.
#[derive(Clone, Copy)]
pub struct Sight {
    /// The station's own address.
    pub held: Option<u8>,
    /// The address of the unit, where the order is for one.
    pub address: Option<u8>,
    /// Whether another NAME claimed the station's own address.
    pub contested: bool,
    /// Whether somebody else sends from it.
    pub stranger: bool,
}

impl OpenOrder {
    /// An order that begins.
    pub fn new(order: Order) -> OpenOrder
        ensures { result ≡ begun_order order }
    {
        OpenOrder {
            order,
            found: None,
            tries: 0,
            stage: Stage::Waits {
                from: 0,
                known_by: 0,
            },
        }
    }

    /// The request is to be written again, not before this time.
    fn again(self, from: u64, now: u64) -> OpenOrder
        ensures { result ≡ asking_again from now self }
    {
        OpenOrder {
            stage: Stage::Waits {
                from,
                known_by: now.saturating_add(ANSWER_WAIT),
            },
            ..self
        }
    }

    /// The verdict of what is asked now.
    fn verdict(self, finding: Finding, now: u64) -> Verdict
        ensures { result ≡ verdict_now finding now self }
    {
        let (address, after) = match self.stage {
            Stage::Asked(asked) => (asked.one(), Some(now.saturating_sub(asked.at))),
            _ => (None, None),
        };
        Verdict {
            order: self.order,
            finding,
            tries: self.tries,
            address,
            after,
            left: None,
        }
    }

    /// It came to this. A clear that was written goes on to ask what is left.
    pub fn end(self, finding: Finding, now: u64) -> Progress
        ensures { result ≡ order_ended finding now self }
    {
        if let Some(found) = self.found {
            return Progress::Ends(with_left(found, finding));
        }
        let order = self.order;
        let verdict = self.verdict(finding, now);
        match order {
            Order::Clear { name, what } if asks_what_is_left(finding) => {
                Progress::Goes(OpenOrder {
                    order: Order::Ask {
                        name,
                        kind: what.kind_left(),
                    },
                    found: Some(verdict),
                    tries: 0,
                    stage: Stage::Waits {
                        from: 0,
                        known_by: now.saturating_add(ANSWER_WAIT),
                    },
                })
            }
            _ => Progress::Ends(verdict),
        }
    }

    /// The input ended.
    pub fn cut_off(self, now: u64) -> Verdict
        ensures { result ≡ order_cut_off now self }
    {
        let finding = Finding::CutOff {
            was_sent: self.tries > 0,
        };
        match self.found {
            Some(found) => with_left(found, finding),
            None => self.verdict(finding, now),
        }
    }

    /// Frames were missed. A command goes on; a clear is in doubt; anything else is asked again.
    pub fn miss(self, now: u64) -> Progress
        ensures { result ≡ order_missed now self }
    {
        match (self.order, self.stage) {
            (Order::Command { .. }, _) => Progress::Goes(self),
            (_, Stage::Asked(_)) => self.upset(Doubt::FramesMissed, now),
            _ => Progress::Goes(self),
        }
    }

    /// A frame was heard.
    pub fn hear(self, sign: Sign, sight: Sight, now: u64) -> Progress
        ensures { result ≡ order_heard sign sight now self }
    {
        match (self.order, self.stage) {
            (Order::Command { address, .. }, _) => self.hear_as_command(address, sight, now),
            (_, Stage::Asked(asked)) => self.hear_asked(asked, sign, sight, now),
            _ => Progress::Goes(self),
        }
    }

    /// A frame was heard while a command is open.
    fn hear_as_command(self, address: u8, sight: Sight, now: u64) -> Progress
        ensures { result ≡ command_goes_on address sight now self }
    {
        if sight.address == Some(address) {
            self.end(Finding::Obeyed, now)
        } else if is_still_own(self.stage, sight) {
            Progress::Goes(self)
        } else {
            self.end(Finding::LostAddress, now)
        }
    }

    /// A frame was heard while a request is out.
    fn hear_asked(self, asked: Asked, sign: Sign, sight: Sight, now: u64) -> Progress
        ensures { result ≡ signed_or_doubted (doubt_of self.order asked sight) sign asked now self }
    {
        match (asked.doubt(self.order, sight), sign) {
            (Some(_), Sign::Claimed) if asked.to != GLOBAL_ADDRESS => {
                self.end(Finding::Answered, now)
            }
            (Some(doubt), _) => self.upset(doubt, now),
            (None, sign) => self.hear_sign(asked, sign, now),
        }
    }

    /// What is out can no longer be told by its answer.
    fn upset(self, doubt: Doubt, now: u64) -> Progress
        ensures { result ≡ doubted self.order doubt now self }
    {
        match self.order {
            Order::Clear { .. } => self.end(Finding::InDoubt(doubt), now),
            _ => Progress::Goes(self.again(now, now)),
        }
    }

    /// What the unit says to a request that is out.
    fn hear_sign(self, asked: Asked, sign: Sign, now: u64) -> Progress
        ensures { result ≡ order_signed sign asked now self }
    {
        match sign {
            Sign::Nothing => Progress::Goes(self),
            Sign::Acknowledged(control) => self.hear_acknowledgment(control, now),
            Sign::Began { to_all } => Progress::Goes(self.waiting_on(asked.marked(to_all), now)),
            Sign::Replaced { to_all } => Progress::Goes(OpenOrder {
                stage: Stage::Asked(asked.unmarked(to_all)),
                ..self
            }),
            Sign::Packet => Progress::Goes(self.waiting_on(asked, now)),
            Sign::Ended { is_read } => self.answered(is_read, asked, now),
            Sign::Claimed => self.answered(true, asked, now),
        }
    }

    /// What was asked for came: of one unit that is the answer, of all it is one more, where it can be read.
    fn answered(self, is_read: bool, asked: Asked, now: u64) -> Progress
        ensures { result ≡ order_answered is_read asked now self }
    {
        if asked.to != GLOBAL_ADDRESS {
            return self.end(finding_of(is_read), now);
        }
        let answered = Asked {
            answered: asked.answered || is_read,
            ..asked
        };
        Progress::Goes(self.waiting_on(answered, now))
    }

    /// Packets of a session from this address were asked for again: where the answer is one, it is waited for on.
    pub fn wait_on(self, source: u8, now: u64) -> OpenOrder
        ensures { result ≡ waiting_from self.stage source now self }
    {
        match self.stage {
            Stage::Asked(asked) if asked.is_from(source) && asked.session => {
                self.waiting_on(asked, now)
            }
            _ => self,
        }
    }

    /// The answer is waited for from now on, but not longer than it may take in all.
    fn waiting_on(self, asked: Asked, now: u64) -> OpenOrder
        ensures { result ≡ waiting_on asked now self }
    {
        let last = asked.at.saturating_add(LONGEST_ANSWER);
        OpenOrder {
            stage: Stage::Asked(Asked {
                until: now.saturating_add(ANSWER_WAIT).min(last),
                ..asked
            }),
            ..self
        }
    }

    /// The unit acknowledges the group that is asked for.
    fn hear_acknowledgment(self, control: u8, now: u64) -> Progress
        ensures { result ≡ order_acknowledged control now self }
    {
        match (control, self.order) {
            (0, Order::Clear { .. }) => self.end(Finding::Positive, now),
            (0, _) => Progress::Goes(self),
            (3, _) if self.tries < MOST_TRIES => {
                Progress::Goes(self.again(now.saturating_add(BUSY_WAIT), now))
            }
            (3, _) => self.end(Finding::Busy, now),
            (_, _) => self.end(Finding::Refused(control), now),
        }
    }
}

impl Asked {
    /// The one address to which it was written.
    fn one(self) -> Option<u8>
        ensures { result ≡ orders.one_asked self }
    {
        if self.to == GLOBAL_ADDRESS {
            None
        } else {
            Some(self.to)
        }
    }

    /// With the mark that a message to all, or to the station, was announced.
    fn marked(self, to_all: bool) -> Asked
        ensures { result ≡ with_mark to_all self }
    {
        Asked {
            broadcast: self.broadcast || to_all,
            session: self.session || !to_all,
            ..self
        }
    }

    /// Without it: another message took the place of that.
    fn unmarked(self, to_all: bool) -> Asked
        ensures { result ≡ without_mark to_all self }
    {
        Asked {
            broadcast: self.broadcast && !to_all,
            session: self.session && to_all,
            ..self
        }
    }

    /// Why an answer that comes from now on says nothing of what is out of this order, if it does not.
    fn doubt(self, order: Order, sight: Sight) -> Option<Doubt>
        ensures { result ≡ doubt_of order self sight }
    {
        if order.name().is_some() && sight.address != Some(self.to) {
            Some(Doubt::AddressChangedHands)
        } else if sight.contested || sight.held != Some(self.own) {
            Some(Doubt::OwnAddress)
        } else if sight.stranger {
            Some(Doubt::Stranger)
        } else {
            None
        }
    }
}

/// The verdict of a clear, and what came of asking what is left.
fn with_left(found: Verdict, left: Finding) -> Verdict
    ensures { result ≡ record found { left = Some left } }
{
    Verdict {
        left: Some(left),
        ..found
    }
}

/// Whether the address from which a frame was written, if one was, is the station's own and nobody else's.
fn is_still_own(stage: Stage, sight: Sight) -> bool
    ensures { result ≡ orders.is_still_own stage sight }
{
    match stage {
        Stage::Waits { .. } => true,
        Stage::Commands { own, .. } => sight.held == Some(own) && !sight.stranger,
        Stage::Asked(asked) => sight.held == Some(asked.own) && !sight.stranger,
    }
}

/// What a message that was asked for is as an answer.
fn finding_of(is_read: bool) -> Finding
    ensures { result ≡ finding_read is_read }
{
    if is_read {
        Finding::Answered
    } else {
        Finding::Unread
    }
}

/// Whether a clear that came to this was written, so that it is asked what is left.
fn asks_what_is_left(finding: Finding) -> bool
    ensures { result ≡ orders.asks_what_is_left finding }
{
    match finding {
        Finding::Positive | Finding::Silent | Finding::InDoubt(_) => true,
        _ => false,
    }
}
