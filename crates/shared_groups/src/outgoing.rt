//! A message of a shared group that a program sends, in one frame, by a broadcast or by a session (SAE J1939-21).
ghost use Rattle.std.specs.Prelude.{◌≡◌, ℕ, ◌+◌, ◌<◌, ◌≤◌, IfSome, None, false, length, nat_le, true};
ghost use Rattle.shared_groups.specs.Outgoing as spec;
ghost use Rattle.shared_groups.specs.Outgoing.{held_open, is_carried, nothing_sent, outgoing_after, outgoing_begun, outgoing_cut, outgoing_due, packets_to_send, when_spoken_of, with_abort, with_clear_to_send, with_end_acknowledged, with_packets_granted};
ghost use Rattle.shared_groups.specs.Sharing.{outgoing_claimed};
ghost use Rattle.transport.specs.Messages as messages;
ghost use Rattle.transport.specs.Messages.{part_of_message};
ghost use Rattle.transport.specs.declared.control.Control.TheVariants.{Abort};
ghost use Rattle.transport.specs.Pieces.{packet_count};

use can_frame::{Frame, GLOBAL_ADDRESS, Id, NULL_ADDRESS, Pgn};
use name_field::Name;
use std::alloc::Global;
use std::marker::Model;
use transport::{Control, Payload, control_frame, packet_frame, packets, part};

/// How long a session waits for its receiver, in microseconds: 1,250 ms (SAE J1939-21, T3).
pub const ANSWERED_WITHIN: u64 = 1_250_000;

/// How long a session that its receiver holds open waits for more, in microseconds: 1,050 ms (SAE J1939-21, T4).
pub const HELD_WITHIN: u64 = 1_050_000;

/// How often a packet goes again at most, where none behind it is asked for meanwhile (SAE J1939-21, from memory).
pub const MOST_REPEATS: u8 = 2;

/// The reason of an abort where nothing came in time (SAE J1939-21, from memory).
pub const TIMED_OUT: u8 = 3;

/// The reason of an abort where the same packet was asked for too often (SAE J1939-21, from memory).
pub const ASKED_TOO_OFTEN: u8 = 5;

/// The priority of a message in one frame (SAE J1939-21, the default, from memory).
pub const SINGLE_PRIORITY: u8 = 6;

/// What came of the newest message that was given to be sent.
#[derive(Clone, Copy, Debug, PartialEq, Eq)]
pub enum Sent {
    /// None was given.
    Nothing,
    /// It is under way.
    Open,
    /// Its one frame, or all of a broadcast, was written.
    Written,
    /// Its receiver acknowledged all of it.
    Acknowledged,
    /// Its receiver aborted it, for this reason.
    Aborted { reason: u8 },
    /// Its receiver said nothing in time: it was aborted, for reason 3.
    Silent,
    /// Its receiver asked for the same packet a third time: it was aborted, for reason 5.
    AskedTooOften,
    /// Another NAME claimed the address that it goes to, or the station left its own.
    CutOff,
}

/// What a message does at a time.
#[derive(Clone, Copy, PartialEq, Eq)]
pub enum Due {
    /// Nothing.
    Nothing,
    /// Its receiver is waited for from now on.
    Waits,
    /// Its next part goes.
    Part,
    /// It is given up: its receiver said nothing in time.
    Silence,
    /// It is given up: its receiver asked for the same packet too often.
    TooOften,
}

/// The newest message that was given to be sent.
#[derive(Drop)]
pub struct Outgoing {
    payload: Payload,
    pgn: Pgn,
    to: u8,
    owner: Option<Name>,
    next: u16,
    last: u8,
    gone: u8,
    asked: u8,
    times: u8,
    since: Option<u64>,
    holds: bool,
    sent: Sent,
}

impl Model for Outgoing {
    ghost use Rattle.shared_groups.specs.Outgoing.{OutgoingValue};
    ghost use Rattle.shared_groups.specs.Parts.{HasParts};

    ghost Value = { OutgoingValue };

    ghost view = { λ o. record {
      payload = o.payload;
      pgn = o.pgn;
      to = o.to;
      owner = o.owner;
      next = o.next;
      last = o.last;
      gone = o.gone;
      asked = o.asked;
      times = o.times;
      since = o.since;
      holds = o.holds;
      sent = o.sent;
    } };

    ghost invariant = { HasParts };
}

impl Outgoing {
    /// None was given.
    pub fn nothing(alloc: Global) -> Outgoing
        ensures { result ≡ nothing_sent }
    {
        let pgn = Pgn::from_bytes([0; 3]);
        begun(
            Payload::new(alloc),
            pgn,
            GLOBAL_ADDRESS,
            None,
            Sent::Nothing,
        )
    }

    /// A message of at most 1,785 bytes that begins, to an address that this NAME holds, if one does, or to all (255).
    pub fn new(payload: Payload, pgn: Pgn, to: u8, owner: Option<Name>) -> Outgoing
        requires few { length payload ≤ 1785 }
        requires carried { is_carried pgn ≡ true }
        ensures { result ≡ outgoing_begun pgn to owner payload Sent.Open }
    {
        begun(payload, pgn, to, owner, Sent::Open)
    }

    /// What came of it.
    pub fn sent(&self) -> Sent
        ensures { result ≡ self.now.sent }
    {
        self.sent
    }

    /// Whether it is under way.
    pub fn is_under_way(&self) -> bool
        ensures { result ≡ spec.is_under_way self.now }
    {
        self.sent == Sent::Open
    }

    /// Whether packets to this address are its own.
    pub fn has_packets_to(&self, dest: u8) -> bool
        ensures { result ≡ spec.has_packets_to dest self.now }
    {
        is_several(&self.payload) && self.to == dest
    }

    /// Whether it is under way to all, in packets.
    pub fn is_broadcasting(&self) -> bool
        ensures { result ≡ spec.is_broadcasting self.now }
    {
        self.is_under_way() && self.has_packets_to(GLOBAL_ADDRESS)
    }

    /// Whether it asks one address whether it may be sent.
    fn goes_by_session(&self) -> bool
        ensures { result ≡ spec.goes_by_session self.now }
    {
        is_several(&self.payload) && self.to != GLOBAL_ADDRESS
    }

    /// Whether its packets were asked for again too often.
    fn is_asked_too_often(&self) -> bool
        ensures { result ≡ spec.is_asked_too_often self.now }
    {
        self.times > MOST_REPEATS
    }

    /// What it does at this time, where packets of a broadcast keep this gap; in microseconds.
    pub fn due(&self, gap: u64, now: u64) -> Due
        ensures { result ≡ outgoing_due gap now self.now }
    {
        if !self.is_under_way() {
            return Due::Nothing;
        }
        if self.is_asked_too_often() {
            return Due::TooOften;
        }
        if self.next <= u16::from(self.last) {
            return self.due_part(gap, now);
        }
        self.due_waiting(now)
    }

    /// What it does at this time, where a part of it may go.
    fn due_part(&self, gap: u64, now: u64) -> Due
        ensures { result ≡ spec.due_part gap now self.now }
    {
        if self.to == GLOBAL_ADDRESS && !is_past(gap, now, self.since) {
            Due::Nothing
        } else {
            Due::Part
        }
    }

    /// What it does at this time, where its receiver is waited for.
    fn due_waiting(&self, now: u64) -> Due
        ensures { result ≡ spec.due_waiting now self.now.holds self.now.since }
    {
        match self.since {
            None => Due::Waits,
            Some(since) if is_reached(since, patience(self.holds), now) => Due::Silence,
            Some(_) => Due::Nothing,
        }
    }

    /// When to look again, at this time or later: before, it does nothing. The greatest number where it is over.
    pub fn next(&self, gap: u64, now: u64) -> u64
        ensures idle { (t : ℕ) → now ≤ t → t < result → outgoing_due gap t self.now ≡ Due.Nothing }
        ensures ahead { now ≤ result }
    {
        if !self.is_under_way() {
            return u64::MAX;
        }
        if self.is_asked_too_often() {
            return now;
        }
        if self.next > u16::from(self.last) {
            return later(now, self.since, patience(self.holds));
        }
        if self.to == GLOBAL_ADDRESS {
            later(now, self.since, gap)
        } else {
            now
        }
    }

    /// The frame of what it does, from this address.
    pub fn frame(&self, own: u8, due: Due) -> Option<Frame>
        requires { due ≡ Due.Part → self.now.next ≤ self.now.last }
        ensures { result ≡ spec.frame_of_due own self.now due }
    {
        match due {
            Due::Nothing | Due::Waits => None,
            Due::Part => Some(self.part_frame(own)),
            Due::Silence => Some(self.abort(TIMED_OUT, own)),
            Due::TooOften => Some(self.abort(ASKED_TOO_OFTEN, own)),
        }
    }

    /// An abort of it.
    fn abort(&self, reason: u8, own: u8) -> Frame
        ensures { result ≡ messages.control_frame (Abort reason self.now.pgn) own self.now.to }
    {
        let abort = Control::Abort {
            reason,
            pgn: self.pgn,
        };
        control_frame(abort, own, self.to)
    }

    /// The frame of the part that goes next.
    fn part_frame(&self, own: u8) -> Frame
        requires { self.now.next ≤ self.now.last }
        ensures { result ≡ spec.frame_of_next_part own self.now }
    {
        let bytes = self.payload.as_slice();
        if bytes.len() > 8 {
            several_part(bytes, self.pgn, own, self.to, self.next as u8)
        } else {
            Frame::of(single_id(self.pgn, self.to, own), bytes)
        }
    }

    /// It does this at this time.
    pub fn go(&mut self, due: Due, now: u64)
        requires { due ≡ Due.Part → self.old.next ≤ self.old.last }
        ensures { self.new ≡ outgoing_after now self.old due }
    {
        match due {
            Due::Nothing => {}
            Due::Waits => self.since = Some(now),
            Due::Part => self.go_part(now),
            Due::Silence => self.sent = Sent::Silent,
            Due::TooOften => self.sent = Sent::AskedTooOften,
        }
    }

    /// The part that goes next went.
    fn go_part(&mut self, now: u64)
        requires { self.old.next ≤ self.old.last }
        ensures { self.new ≡ spec.with_part_gone now self.old }
    {
        let is_last = !self.goes_by_session() && self.next >= u16::from(self.last);
        let number = self.next as u8;
        self.next += 1;
        self.gone = self.gone.max(number);
        self.since = Some(now);
        self.sent = if is_last { Sent::Written } else { Sent::Open };
    }

    /// Whether an address speaks of it with this group, to whom it goes, once its request to send went.
    fn is_spoken_of(&self, source: u8, pgn: Pgn) -> bool
        ensures { result ≡ spec.is_spoken_of source pgn self.now }
    {
        self.is_under_way()
            && self.goes_by_session()
            && self.next > 0
            && !self.is_asked_too_often()
            && self.to == source
            && self.pgn == pgn
    }

    /// An address clears so many packets of a group to be sent, from this one on.
    pub fn clear(&mut self, source: u8, pgn: Pgn, granted: u8, next: u8)
        ensures { self.new ≡ when_spoken_of source pgn (with_clear_to_send granted next) self.old }
    {
        if !self.is_spoken_of(source, pgn) {
            return;
        }
        if granted == 0 {
            self.hold();
        } else if 0 < next && next <= self.gone {
            let times = if next <= self.asked { self.times } else { 0 };
            self.grant(granted, next);
            self.asked = self.asked.max(next);
            self.times = times + 1;
        } else if u16::from(next) == u16::from(self.gone) + 1
            && self.gone < packets_to_send(&self.payload)
        {
            self.grant(granted, next);
        }
    }

    /// Nothing more may go yet.
    fn hold(&mut self)
        requires { 0 < self.old.next }
        ensures { self.new ≡ held_open self.old }
    {
        self.last = (self.next - 1) as u8;
        self.since = None;
        self.holds = true;
    }

    /// So many packets may go, from this one on.
    fn grant(&mut self, granted: u8, next: u8)
        requires some { 0 < granted }
        requires from_one { 0 < next }
        requires within { next ≤ packets_to_send self.old.payload }
        ensures { self.new ≡ with_packets_granted granted next self.old }
    {
        let behind = packets_to_send(&self.payload) - next;
        self.next = u16::from(next);
        self.last = next + (granted - 1).min(behind);
        self.since = None;
        self.holds = false;
    }

    /// An address acknowledges the end of a message of this size and group.
    pub fn acknowledge(&mut self, source: u8, pgn: Pgn, size: u16)
        ensures { self.new ≡ when_spoken_of source pgn (with_end_acknowledged size) self.old }
    {
        let is_whole = self.gone == packets_to_send(&self.payload)
            && usize::from(size) == self.payload.len();
        if self.is_spoken_of(source, pgn) && is_whole {
            self.sent = Sent::Acknowledged;
        }
    }

    /// An address aborts a session of this group.
    pub fn break_off(&mut self, source: u8, pgn: Pgn, reason: u8)
        ensures { self.new ≡ when_spoken_of source pgn (with_abort reason) self.old }
    {
        if self.is_spoken_of(source, pgn) {
            self.sent = Sent::Aborted { reason };
        }
    }

    /// This NAME claims an address: it goes no further where it goes there to another one.
    pub fn claim(&mut self, source: u8, name: Name)
        ensures { self.new ≡ outgoing_claimed source name self.old }
    {
        if self.to == source && self.owner != Some(name) {
            self.cut();
        }
    }

    /// It goes no further.
    pub fn cut(&mut self)
        ensures { self.new ≡ outgoing_cut self.old }
    {
        if self.is_under_way() {
            self.sent = Sent::CutOff;
        }
    }
}

/// A message that begins, of which this came.
fn begun(payload: Payload, pgn: Pgn, to: u8, owner: Option<Name>, sent: Sent) -> Outgoing
    requires few { length payload ≤ 1785 }
    requires carried { is_carried pgn ≡ true }
    ensures { result ≡ outgoing_begun pgn to owner payload sent }
{
    let last = if to == GLOBAL_ADDRESS {
        packets_to_send(&payload)
    } else {
        0
    };
    Outgoing {
        payload,
        pgn,
        to,
        owner,
        next: 0,
        last,
        gone: 0,
        asked: 0,
        times: 0,
        since: None,
        holds: false,
        sent,
    }
}

/// Whether there are more bytes than one frame has.
fn is_several(payload: &Payload) -> bool
    ensures { result ≡ spec.is_several payload.now }
{
    payload.len() > 8
}

/// How many packets they have; none where one frame has them.
fn packets_to_send(payload: &Payload) -> u8
    requires { length payload.now ≤ 1785 }
    ensures { result ≡ packets_to_send payload.now }
{
    if payload.len() > 8 {
        packets(payload.len() as u16)
    } else {
        0
    }
}

/// How long a receiver is waited for, in microseconds.
fn patience(holds: bool) -> u64
    ensures { result ≡ spec.patience holds }
{
    if holds { HELD_WITHIN } else { ANSWERED_WITHIN }
}

/// Whether it is so long ago, if it is known.
fn is_past(wait: u64, now: u64, since: Option<u64>) -> bool
    ensures { result ≡ spec.is_past wait now since }
{
    match since {
        Some(since) => is_reached(since, wait, now),
        None => true,
    }
}

/// Whether the end of a wait since a time has come.
fn is_reached(since: u64, wait: u64, now: u64) -> bool
    ensures { result ≡ nat_le (since + wait) now }
{
    since <= now && now - since >= wait
}

/// When the end of a wait since a time comes, at this time or later; now where that time is not known.
fn later(now: u64, since: Option<u64>, wait: u64) -> u64
    ensures unknown { since ≡ None → result ≡ now }
    ensures idle { IfSome since (λ s. (t : ℕ) → now ≤ t → t < result → nat_le (s + wait) t ≡ false) }
    ensures ahead { now ≤ result }
{
    match since {
        Some(since) => end_of(since, wait, now),
        None => now,
    }
}

/// When the end of a wait since a time comes, at this time or later.
fn end_of(since: u64, wait: u64, now: u64) -> u64
    ensures idle { (t : ℕ) → now ≤ t → t < result → nat_le (since + wait) t ≡ false }
    ensures ahead { now ≤ result }
{
    since.saturating_add(wait).max(now)
}

/// The identifier of a message in one frame.
fn single_id(pgn: Pgn, to: u8, own: u8) -> Id
    requires { is_carried pgn ≡ true }
    ensures { result ≡ spec.single_id pgn to own }
{
    if is_to_each(pgn) {
        Id::pdu2(SINGLE_PRIORITY, pgn, own)
    } else {
        Id::pdu1(SINGLE_PRIORITY, pgn, to, own)
    }
}

/// Whether a group goes to all (PDU2).
fn is_to_each(pgn: Pgn) -> bool
    ensures { result ≡ spec.is_to_each pgn }
{
    pgn.number() / 256 % 256 >= 240
}

/// A part of a message in several packets: its announcement, or the packet of this number.
fn several_part(bytes: &[u8], pgn: Pgn, own: u8, to: u8, number: u8) -> Frame
    requires least { 9 ≤ length bytes.now }
    requires most { length bytes.now ≤ 1785 }
    requires within { number ≤ packet_count (length bytes.now) }
    ensures { result ≡ part_of_message bytes.now pgn own to number }
{
    if number > 0 {
        return packet_frame(part(bytes, number), own, to);
    }
    let size = bytes.len() as u16;
    let packets = packets(size);
    let announcement = if to == GLOBAL_ADDRESS {
        Control::Bam { size, packets, pgn }
    } else {
        Control::Rts {
            size,
            packets,
            most: Control::NO_LIMIT,
            pgn,
        }
    };
    control_frame(announcement, own, to)
}

/// Whether an identifier carries a group.
pub fn is_carried(pgn: Pgn) -> bool
    ensures { result ≡ spec.is_carried pgn }
{
    pgn.number() < 1 << 18 && (is_to_each(pgn) || pgn.number() % 256 == 0)
}

/// Whether a message of this group and size can go to an address from the one that is held.
pub fn can_go_to(held: Option<u8>, pgn: Pgn, size: usize, to: u8) -> bool
    ensures { result ≡ spec.can_go_to held pgn size to }
{
    to == GLOBAL_ADDRESS || to != NULL_ADDRESS && held != Some(to) && (size > 8 || !is_to_each(pgn))
}
