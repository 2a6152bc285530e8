ghost use Rattle.std.specs.Prelude.{◌≡◌, ◌≤◌, ◌<◌, ℕ, if◌then◌else◌};
ghost use Rattle.live_station.specs.Turns.{StagesAlike, out_since, has_come, order_due, to_command, to_go_by, to_one, unanswered, with_part_written, with_request_written};
ghost use Rattle.live_station.specs.Turns as turns;

use crate::loss::Watch;
use crate::open::{ANSWER_WAIT, Asked, MOST_TRIES, OpenOrder, Part, Stage};
use crate::order::Order;
use crate::times::behind;
use crate::verdict::Finding;
use can_frame::GLOBAL_ADDRESS;
use live_unit::Lane;
use name_field::Name;

/// What an open order does at a time.
#[derive(Clone, Copy)]
pub enum Deed {
    /// Nothing.
    Nothing,
    /// Its request goes to this address.
    Request { to: u8 },
    /// A frame of a command to this NAME to hold this address goes.
    Command { name: Name, address: u8, part: Part },
    /// It came to this.
    Ends(Finding),
}

/// What a station does at a time.
#[derive(Clone, Copy)]
pub enum Turn {
    /// Nothing.
    Rests,
    /// The first frame of a lane goes.
    Writes(Lane),
    /// Packets that are missing are asked for, or their session is given up.
    AsksAgain(Watch),
    /// The claims of all are asked for.
    AsksClaims,
    /// The open order does this.
    Does(OpenOrder, Deed),
}

/// What an open order looks at.
#[derive(Clone, Copy)]
pub struct Outlook {
    /// The station's own address.
    pub held: Option<u8>,
    /// The address of the unit, where the order is for one.
    pub address: Option<u8>,
    /// From when on a NAME without an address counts as unknown; none while claims are to be asked for.
    pub known_from: Option<u64>,
    /// From when on a clear goes.
    pub clear_from: u64,
    /// From when on a further frame of a command goes.
    pub packet_from: u64,
}

impl OpenOrder {
    /// What it does at this time.
    pub fn due(&self, outlook: Outlook, now: u64) -> Deed
        ensures { result ≡ order_due self.now outlook now }
    {
        match self.stage {
            Stage::Waits { from, known_by } if from <= now => self.due_to_go(
                outlook, known_by, now,
            ),
            Stage::Waits { .. } => Deed::Nothing,
            Stage::Commands { next, .. } if outlook.packet_from <= now => part_of(self.order, next),
            Stage::Commands { .. } => Deed::Nothing,
            Stage::Asked(asked) if asked.until <= now => self.due_unanswered(asked, outlook, now),
            Stage::Asked(_) => Deed::Nothing,
        }
    }

    /// What it does where nothing came in time: it is written again, or ends.
    fn due_unanswered(&self, asked: Asked, outlook: Outlook, now: u64) -> Deed
        ensures { result ≡ (if asked.answered then Deed.Ends Finding.Answered else unanswered self.now.order self.now outlook asked.until now) }
    {
        if asked.answered {
            return Deed::Ends(Finding::Answered);
        }
        match self.order {
            Order::Clear { .. } | Order::Command { .. } => Deed::Ends(Finding::Silent),
            _ => self.due_to_go(outlook, asked.until, now),
        }
    }

    /// What it does where it is to be written.
    fn due_to_go(&self, outlook: Outlook, known_by: u64, now: u64) -> Deed
        ensures { result ≡ turns.due_to_go self.now outlook known_by now }
    {
        if outlook.held.is_none() {
            return Deed::Ends(Finding::LostAddress);
        }
        if self.tries >= MOST_TRIES {
            return Deed::Ends(Finding::Silent);
        }
        due_by(self.order, outlook, known_by, now)
    }

    /// It after its request was written.
    pub fn write_request(self, own: u8, to: u8, now: u64) -> OpenOrder
        ensures { result ≡ with_request_written own to now self }
    {
        OpenOrder {
            tries: self.tries.saturating_add(1),
            stage: asked(own, to, now),
            ..self
        }
    }

    /// It after this frame of its command was written.
    pub fn write_part(self, own: u8, part: Part, now: u64) -> OpenOrder
        ensures { result ≡ with_part_written own part now self }
    {
        OpenOrder {
            tries: 1,
            stage: behind_part(own, part, now),
            ..self
        }
    }

    /// The next time behind this one at which it may do something else.
    pub fn next(self, outlook: Outlook, now: u64) -> u64
        ensures same { (t : ℕ) → now ≤ t → t < result → order_due self outlook t ≡ order_due self outlook now }
        ensures ahead { now ≤ result }
    {
        next_known(outlook.known_from, now)
            .min(next_of_stage(self.stage, outlook, now))
            .min(behind(now, outlook.clear_from))
    }
}

/// What an order does where it is to be written, and may be.
fn due_by(order: Order, outlook: Outlook, known_by: u64, now: u64) -> Deed
    ensures { result ≡ to_go_by order outlook known_by now }
{
    match order {
        Order::Command { name, address } => due_to_command(name, address, outlook, now),
        Order::AskAll { .. } | Order::AskAllClaims => Deed::Request { to: GLOBAL_ADDRESS },
        Order::Clear { .. } if outlook.clear_from > now => Deed::Nothing,
        _ => due_to_one(outlook, known_by, now),
    }
}

/// What a command does: it is at its end where the unit holds the address; it goes once the unit is known, or was waited for.
fn due_to_command(name: Name, address: u8, outlook: Outlook, now: u64) -> Deed
    ensures { result ≡ to_command name address outlook.address outlook.known_from now }
{
    match (outlook.address, outlook.known_from) {
        (Some(at), _) if at == address => Deed::Ends(Finding::Obeyed),
        (None, None) => Deed::Nothing,
        (None, Some(from)) if from > now => Deed::Nothing,
        _ => Deed::Command {
            name,
            address,
            part: Part::Announcement,
        },
    }
}

/// What a request to one unit does: it goes to the unit's address, or waits for that, or there is no such unit.
fn due_to_one(outlook: Outlook, known_by: u64, now: u64) -> Deed
    ensures { result ≡ to_one outlook.address outlook.known_from known_by now }
{
    match (outlook.address, outlook.known_from) {
        (Some(to), _) => Deed::Request { to },
        (None, Some(from)) if from <= now && known_by <= now => Deed::Ends(Finding::NoSuchUnit),
        _ => Deed::Nothing,
    }
}

/// A request that was written at this time.
fn asked(own: u8, to: u8, now: u64) -> Stage
    ensures { result ≡ out_since own to now }
{
    Stage::Asked(Asked {
        own,
        to,
        at: now,
        until: now.saturating_add(ANSWER_WAIT),
        broadcast: false,
        session: false,
        answered: false,
    })
}

/// How far a command is behind a frame of it.
fn behind_part(own: u8, part: Part, now: u64) -> Stage
    ensures { result ≡ turns.behind_part own part now }
{
    match part {
        Part::Announcement => Stage::Commands {
            own,
            next: Part::First,
        },
        Part::First => Stage::Commands {
            own,
            next: Part::Second,
        },
        Part::Second => asked(own, GLOBAL_ADDRESS, now),
    }
}

/// The frame of a command that goes.
fn part_of(order: Order, part: Part) -> Deed
    ensures { result ≡ turns.part_due order part }
{
    match order {
        Order::Command { name, address } => Deed::Command {
            name,
            address,
            part,
        },
        _ => Deed::Nothing,
    }
}

/// The next time that a stage waits for.
fn next_of_stage(stage: Stage, outlook: Outlook, now: u64) -> u64
    ensures same { (t : ℕ) → now ≤ t → t < result → StagesAlike stage outlook t now }
    ensures ahead { now ≤ result }
{
    match stage {
        Stage::Waits { from, known_by } => behind(now, from).min(behind(now, known_by)),
        Stage::Commands { .. } => behind(now, outlook.packet_from),
        Stage::Asked(asked) => behind(now, asked.until),
    }
}

/// The time from which on a NAME counts as unknown, where it lies behind this one.
fn next_known(from: Option<u64>, now: u64) -> u64
    ensures same { (t : ℕ) → now ≤ t → t < result → has_come from t ≡ has_come from now }
    ensures ahead { now ≤ result }
{
    match from {
        Some(from) => behind(now, from),
        None => u64::MAX,
    }
}
