//! Packets of sessions with the station that are missing (SAE J1939-21, 5.10.3; times, counts and reasons from memory).
ghost use Rattle.std.specs.Prelude.{◌≡◌, ◌≤◌, ◌<◌, ◌+◌, ℕ, [], List, IfOk, IfSome, nat_le, nat_lt, length, slice_index_or};
ghost use Rattle.std.specs.List.{All, position};
ghost use Rattle.std.specs.Vec.{vec_capacity, vec_len};
ghost use Rattle.parameter_group.specs.Said.{said};
ghost use Rattle.station_table.specs.Sessions.{session_of};
ghost use Rattle.live_station.specs.Losses.{begun_watch, control_again, is_from_source, missing_asked, next_packet, or_begun, still_watched, times_again, watch_asked, watch_due, watch_granted, watch_joined, watch_of, watch_passed, watches_asked, watches_begun, watches_controlled, watches_joined, watches_passed, watches_told, window_end, with_watch, without_watch};
ghost use Rattle.live_station.specs.Losses as losses;

use crate::times::behind;
use can_frame::Pgn;
use live_unit::ASKED_TOO_OFTEN;
use parameter_group::ParameterGroup;
use station_table::{Session, Station};
use std::alloc::{AllocError, Global};
use std::marker::Model;
use transport::Control;

/// How long a packet is waited for behind another one, in microseconds: 750 ms (SAE J1939-21, T1).
pub const PACKET_WAIT: u64 = 750_000;

/// How long a packet is waited for behind a clear to send, in microseconds: 1,250 ms (SAE J1939-21, T2).
pub const GRANT_WAIT: u64 = 1_250_000;

/// How often a packet is asked for again at most.
pub const MOST_AGAIN: u8 = 2;

/// How many packets are asked for again at once at most.
pub const MOST_ASKED: u8 = 16;

/// How many sessions are watched at most.
pub const MOST_WATCHED: usize = 64;

/// The reason of an abort of a session in which nothing came any more (SAE J1939-21, from memory).
pub const LEFT_ALONE: u8 = 3;

/// What is waited for of a session.
#[derive(Clone, Copy)]
pub struct Watch {
    /// From where it is.
    pub source: u8,
    /// The last packet that was granted or asked for.
    pub last: u8,
    /// The packet that was asked for again last, 0 where none was.
    pub packet: u8,
    /// How often it was.
    pub times: u8,
    /// Until when a packet is waited for.
    pub until: u64,
    /// Whether the last one was heard while one before it is missing.
    pub ended: bool,
}

impl Watch {
    /// Of a session of which nothing is known.
    fn new(source: u8, session: Session) -> Watch
        requires { 0 < session.at_once }
        ensures { result ≡ begun_watch source session }
    {
        Watch {
            source,
            last: end_of_window(session),
            packet: 0,
            times: 0,
            until: 0,
            ended: false,
        }
    }

    /// A window was granted.
    fn grant(self, session: Session, now: u64) -> Watch
        requires { 0 < session.at_once }
        ensures { result ≡ watch_granted session now self }
    {
        Watch {
            last: end_of_window(session),
            until: now.saturating_add(GRANT_WAIT),
            ended: false,
            ..self
        }
    }

    /// The next packet was joined.
    fn join(self, session: Session, now: u64) -> Watch
        requires { 0 < session.at_once }
        ensures { result ≡ watch_joined session now self }
    {
        if session.taken % session.at_once == 0 {
            return self.grant(session, now);
        }
        Watch {
            until: now.saturating_add(PACKET_WAIT),
            ended: self.last <= session.taken,
            ..self
        }
    }

    /// A packet of this number was passed over.
    fn pass(self, number: u8, now: u64) -> Watch
        ensures { result ≡ watch_passed number now self }
    {
        Watch {
            until: now.saturating_add(PACKET_WAIT),
            ended: self.ended || self.last <= number,
            ..self
        }
    }

    /// How often the first packet that is missing was asked for again.
    fn times_again(self, session: Session) -> u8
        ensures { result ≡ times_again session self }
    {
        if self.packet == next_of(session) {
            self.times
        } else {
            0
        }
    }

    /// Whether it is not asked for once more.
    pub fn is_asked_enough(self, session: Session) -> bool
        ensures { result ≡ losses.is_asked_enough session self }
    {
        self.times_again(session) >= MOST_AGAIN
    }

    /// It is asked for again.
    fn ask(self, session: Session, now: u64) -> Watch
        requires { 0 < session.at_once }
        ensures { result ≡ watch_asked session now self }
    {
        Watch {
            last: session.taken + asked_of(session),
            packet: next_of(session),
            times: self.times_again(session).saturating_add(1),
            until: now.saturating_add(GRANT_WAIT),
            ended: false,
            ..self
        }
    }

    /// What is said to the sender: what is missing is asked for, or the session given up.
    pub fn control(self, session: Session) -> Control
        requires { 0 < session.at_once }
        ensures { result ≡ control_again session self }
    {
        let pgn = session.kind.pgn();
        if !self.is_asked_enough(session) {
            return Control::Cts {
                granted: asked_of(session),
                next: next_of(session),
                pgn,
            };
        }
        let reason = if self.ended {
            ASKED_TOO_OFTEN
        } else {
            LEFT_ALONE
        };
        Control::Abort { reason, pgn }
    }

    /// Whether its packet is to be asked for.
    fn is_due(&self, station: &Station, now: u64) -> bool
        ensures { result ≡ losses.is_due station.now now self.now }
    {
        station.session(self.source).is_some() && (self.ended || self.until <= now)
    }
}

/// The first packet that is missing.
fn next_of(session: Session) -> u8
    ensures { result ≡ next_packet session }
{
    session.taken.saturating_add(1)
}

/// The last packet of the window that it is in.
#[tactic(auto, unfolding(crate::specs::Losses::window_end))]
fn end_of_window(session: Session) -> u8
    requires { 0 < session.at_once }
    ensures { result ≡ window_end session }
{
    let whole = session.taken - session.taken % session.at_once;
    let end = u16::from(whole) + u16::from(session.at_once);
    end.min(u16::from(session.packets)) as u8
}

/// How many are asked for at once.
fn asked_of(session: Session) -> u8
    requires { 0 < session.at_once }
    ensures value { result ≡ missing_asked session }
    ensures fits { session.taken + result < 256 }
{
    end_of_window(session)
        .saturating_sub(session.taken)
        .min(MOST_ASKED)
}

/// The sessions that are watched, the newest 64.
#[derive(Drop)]
pub struct Losses {
    watches: Vec<Watch>,
}

impl Model for Losses {
    ghost use Rattle.std.specs.Prelude.{◌≤◌, List};
    ghost use Rattle.std.specs.Vec.{vec_capacity, vec_len};
    ghost use Rattle.live_station.specs.declared.loss.Watch.{Watch as AnyWatch};
    ghost use Rattle.live_station.specs.declared.loss.TheConstants.{MOST_WATCHED};

    ghost Value = { List AnyWatch };

    ghost view = { λ l. l.watches.items };

    ghost invariant = { λ l. (MOST_WATCHED ≤ vec_capacity l.watches) × (vec_len l.watches ≤ MOST_WATCHED) };
}

impl Losses {
    /// None is watched.
    pub fn new(alloc: Global) -> Result<Losses, AllocError>
        ensures { IfOk result (λ l. l ≡ []) }
    {
        Ok(Losses {
            watches: Vec::with_capacity(alloc, MOST_WATCHED)?,
        })
    }

    /// Whether one is watched.
    pub fn is_some(&self) -> bool
        ensures { result ≡ nat_lt 0 (length self.now) }
    {
        !self.watches.is_empty()
    }

    /// The watch of the session from this source.
    fn get(&self, source: u8) -> Option<Watch>
        ensures { result ≡ watch_of source self.now }
    {
        watch_at(&self.watches, place_from(&self.watches, source))
    }

    /// Puts a watch in the place of that from its source.
    fn put(&mut self, watch: Watch)
        ensures { self.new ≡ with_watch watch self.old }
    {
        self.forget(watch.source);
        if self.watches.len() >= MOST_WATCHED {
            let _ = self.watches.remove(0);
        }
        self.watches.push_reserved(watch);
    }

    /// The session from this source is not watched any more.
    fn forget(&mut self, source: u8)
        ensures { self.new ≡ without_watch source self.old }
    {
        drop_from(&mut self.watches, source);
    }

    /// No session is.
    pub fn clear(&mut self)
        ensures { self.new ≡ [] }
    {
        self.watches.clear();
    }

    /// The station was told what a frame says.
    pub fn follow(&mut self, station: &Station, group: &ParameterGroup<'_>, now: u64)
        ensures { self.new ≡ watches_told (said group.now) station.now now self.old }
    {
        match *group {
            ParameterGroup::AddressClaimed { .. } => keep_open(&mut self.watches, station),
            ParameterGroup::ConnectionManagement {
                source,
                dest,
                control,
            } if station.held() == Some(dest) => self.follow_control(station, source, control, now),
            ParameterGroup::DataTransfer { source, dest, .. } if station.held() == Some(dest) => {
                self.follow_packet(station, source, now)
            }
            _ => {}
        }
    }

    /// It was told a connection management message to it.
    fn follow_control(&mut self, station: &Station, source: u8, control: Control, now: u64)
        ensures { self.new ≡ watches_controlled source control station.now now self.old }
    {
        match control {
            Control::Rts { pgn, .. } => self.begin(source, pgn, station.session(source), now),
            Control::Abort { .. } => keep_open(&mut self.watches, station),
            _ => {}
        }
    }

    /// A request to send of this group was heard, and this session is open: it may have begun just now.
    fn begin(&mut self, source: u8, pgn: Pgn, session: Option<Session>, now: u64)
        requires { IfSome session (λ j. 0 < j.at_once) }
        ensures { self.new ≡ watches_begun source pgn session now self.old }
    {
        if let Some(session) = session {
            if session.kind.pgn() == pgn && session.taken == 0 {
                self.put(Watch::new(source, session).grant(session, now));
            }
        }
    }

    /// It was told a packet to it.
    fn follow_packet(&mut self, station: &Station, source: u8, now: u64)
        ensures { self.new ≡ watches_joined source (session_of station.now source) station.now now self.old }
    {
        let Some(session) = station.session(source) else {
            return keep_open(&mut self.watches, station);
        };
        let watch = match self.get(source) {
            Some(watch) => watch,
            None => Watch::new(source, session),
        };
        self.put(watch.join(session, now));
    }

    /// It was not told a packet.
    pub fn pass(&mut self, group: &ParameterGroup<'_>, now: u64)
        ensures { self.new ≡ watches_passed (said group.now) now self.old }
    {
        if let ParameterGroup::DataTransfer { source, bytes, .. } = *group {
            if let Some(watch) = self.get(source) {
                self.put(watch.pass(number_of(bytes), now));
            }
        }
    }

    /// What is missing of the session of a watch was asked for, or that was given up.
    pub fn ask(&mut self, watch: Watch, session: Session, now: u64)
        requires { 0 < session.at_once }
        ensures { self.new ≡ watches_asked session now watch self.old }
    {
        if watch.is_asked_enough(session) {
            self.forget(watch.source);
        } else {
            self.put(watch.ask(session, now));
        }
    }

    /// The first watch whose packet is to be asked for.
    pub fn due(&self, station: &Station, now: u64) -> Option<Watch>
        ensures { result ≡ watch_due station.now now self.now }
    {
        watch_at(&self.watches, place_due(&self.watches, station, now))
    }

    /// The next time behind this one until which a packet is waited for.
    pub fn next(&self, now: u64) -> u64
        ensures same { (t : ℕ) → now ≤ t → t < result → All (λ w. nat_le w.until t ≡ nat_le w.until now) self.now }
        ensures ahead { now ≤ result }
    {
        next_of_all(&self.watches, now)
    }
}

/// Where the watch of the session from this source stands.
fn place_from(watches: &[Watch], source: u8) -> Option<usize>
    ensures { result ≡ position (is_from_source source) watches.now }
{
    watches.iter().position(|watch| watch.source == source)
}

/// Where the first one stands whose packet is to be asked for.
fn place_due(watches: &[Watch], station: &Station, now: u64) -> Option<usize>
    ensures { result ≡ position (losses.is_due station.now now) watches.now }
{
    watches.iter().position(|watch| watch.is_due(station, now))
}

/// The watch at a place.
fn watch_at(watches: &[Watch], place: Option<usize>) -> Option<Watch>
    ensures { result ≡ losses.watch_at watches.now place }
{
    watches.get(place?).copied()
}

/// Drops the watch of the session from this source.
fn drop_from(watches: &mut Vec<Watch>, source: u8)
    ensures items { watches.new.items ≡ without_watch source watches.old.items }
    ensures fewer { vec_len watches.new ≤ vec_len watches.old }
    ensures capacity { vec_capacity watches.new ≡ vec_capacity watches.old }
{
    watches.retain(|watch| watch.source != source);
}

/// Keeps the watches whose session is open.
fn keep_open(watches: &mut Vec<Watch>, station: &Station)
    ensures items { watches.new.items ≡ still_watched station.now watches.old.items }
    ensures fewer { vec_len watches.new ≤ vec_len watches.old }
    ensures capacity { vec_capacity watches.new ≡ vec_capacity watches.old }
{
    watches.retain(|watch| station.session(watch.source).is_some());
}

/// The number of a packet.
fn number_of(packet: &[u8]) -> u8
    ensures { result ≡ slice_index_or packet.now 0 0 }
{
    match packet.first() {
        Some(number) => *number,
        None => 0,
    }
}

/// The next time behind this one until which a packet is waited for.
fn next_of_all(watches: &[Watch], now: u64) -> u64
    ensures same { (t : ℕ) → now ≤ t → t < result → All (λ w. nat_le w.until t ≡ nat_le w.until now) watches.now }
    ensures ahead { now ≤ result }
{
    let mut next = u64::MAX;
    let mut rest = watches;
    while let Some((watch, others)) = rest.split_first() {
        next = next.min(behind(now, watch.until));
        rest = others;
    }
    next
}
