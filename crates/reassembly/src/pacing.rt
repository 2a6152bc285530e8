ghost use Rattle.std.specs.Prelude.{◌≡◌, ◌+◌, ℕ, Some};
ghost use Rattle.reassembly.specs.Pacing as pacing;

/// T1: how many microseconds a packet may come after the one before it (SAE J1939-21, 5.10.3).
const PACKET_AFTER_PACKET: u64 = 750_000;

/// T2: a packet after the clear to send that lets it come.
const PACKET_AFTER_CTS: u64 = 1_250_000;

/// T3: a clear to send after a request to send, or after the last packet that it let come.
const CTS_AFTER_FRAME: u64 = 1_250_000;

/// T4: a clear to send after one that holds the session.
const CTS_AFTER_HOLD: u64 = 1_050_000;

/// How long a message under way may be silent.
#[derive(Clone, Copy, PartialEq, Eq)]
pub enum Silence {
    /// As long as the standard lets it (SAE J1939-21, 5.10.3).
    Standard,
    /// So many microseconds, whatever is awaited.
    UpTo(u64),
    /// For ever.
    Any,
}

/// What comes next of a message under way.
#[derive(Clone, Copy)]
pub enum Awaited {
    /// A packet of a broadcast.
    Broadcast,
    /// A clear to send: none was read yet.
    FirstCts,
    /// The first packet that a clear to send lets come.
    Granted,
    /// A further one of those.
    Packet,
    /// A clear to send: the last of those was read.
    NextCts,
    /// A clear to send: the receiver holds the session.
    EndOfHold,
}

/// What the newest clear to send lets come.
#[derive(Clone, Copy)]
pub struct Grant {
    /// The number of its first packet.
    pub from: u8,
    /// The number behind its last one.
    pub behind: u16,
}

/// A frame that moves a message on.
#[derive(Clone, Copy)]
pub enum Step {
    /// A clear to send of the receiver: so many packets from this number on, or none, which holds the session.
    Cts { granted: u8, next: u8 },
    /// The packet of this number.
    Packet { number: u8 },
}

/// How a message under way stands that packets between two addresses belong to.
#[derive(Clone, Copy)]
pub enum Pace {
    /// Its newest frame came at this time, in microseconds, where that is known.
    UnderWay {
        since: Option<u64>,
        awaited: Awaited,
        granted: Option<Grant>,
    },
    /// A frame of it came too late: it may be of another message, whose announcement was lost.
    Over,
}

impl Pace {
    /// A message was announced now, to all or to one address.
    pub(crate) fn announced(to_all: bool, now: Option<u64>) -> Pace
        ensures { result ≡ pacing.pace_announced to_all now }
    {
        let awaited = if to_all {
            Awaited::Broadcast
        } else {
            Awaited::FirstCts
        };
        Pace::UnderWay {
            since: now,
            awaited,
            granted: None,
        }
    }

    /// Whether a frame of the message came too late.
    pub fn is_over(self) -> bool
        ensures { result ≡ pacing.is_over self }
    {
        match self {
            Pace::Over => true,
            Pace::UnderWay { .. } => false,
        }
    }

    /// Whether the newest clear to send lets the packet of this number come, be it again.
    pub fn lets_come(self, number: u8) -> bool
        ensures { result ≡ pacing.lets_come self number }
    {
        match self {
            Pace::UnderWay {
                granted: Some(grant),
                ..
            } => grant.from <= number,
            _ => false,
        }
    }

    /// The message after a frame that comes now.
    pub(crate) fn after(self, silence: Silence, now: Option<u64>, step: Step) -> Pace
        ensures { result ≡ pacing.pace_after silence now step self }
    {
        match self {
            Pace::Over => Pace::Over,
            Pace::UnderWay {
                since,
                awaited,
                granted,
            } => {
                if is_late(longest(silence, step, awaited), since, now) {
                    return Pace::Over;
                }
                Pace::UnderWay {
                    since: newer(now, since),
                    awaited: awaited_after(step, awaited, granted),
                    granted: granted_after(step, granted),
                }
            }
        }
    }
}

/// How long a frame may be awaited; none: for ever.
fn longest(silence: Silence, step: Step, awaited: Awaited) -> Option<u64>
    ensures { result ≡ pacing.longest silence step awaited }
{
    match silence {
        Silence::Any => None,
        Silence::UpTo(most) => Some(most),
        Silence::Standard => Some(match step {
            Step::Cts { .. } => longest_to_cts(awaited),
            Step::Packet { .. } => longest_to_packet(awaited),
        }),
    }
}

/// How long a clear to send may be awaited.
fn longest_to_cts(awaited: Awaited) -> u64
    ensures { result ≡ pacing.longest_to_cts awaited }
{
    match awaited {
        Awaited::EndOfHold => CTS_AFTER_HOLD,
        _ => CTS_AFTER_FRAME,
    }
}

/// How long a packet may be awaited.
fn longest_to_packet(awaited: Awaited) -> u64
    ensures { result ≡ pacing.longest_to_packet awaited }
{
    match awaited {
        Awaited::Broadcast | Awaited::Packet => PACKET_AFTER_PACKET,
        Awaited::Granted => PACKET_AFTER_CTS,
        Awaited::FirstCts | Awaited::NextCts => CTS_AFTER_FRAME + PACKET_AFTER_CTS,
        Awaited::EndOfHold => CTS_AFTER_HOLD + PACKET_AFTER_CTS,
    }
}

/// Whether more than so many microseconds lie between two times that are known. A time before the other one is not late.
fn is_late(most: Option<u64>, since: Option<u64>, now: Option<u64>) -> bool
    ensures { result ≡ pacing.is_late most since now }
{
    match (most, since, now) {
        (Some(most), Some(since), Some(now)) => now.saturating_sub(since) > most,
        _ => false,
    }
}

/// The time of the newest frame: its own, or where that is not known that of the one before.
fn newer(now: Option<u64>, since: Option<u64>) -> Option<u64>
    ensures { result ≡ pacing.newer now since }
{
    match now {
        Some(now) => Some(now),
        None => since,
    }
}

/// What comes behind a frame.
fn awaited_after(step: Step, awaited: Awaited, granted: Option<Grant>) -> Awaited
    ensures { result ≡ pacing.awaited_after step awaited granted }
{
    match (step, awaited, granted) {
        (Step::Cts { granted: 0, .. }, _, _) => Awaited::EndOfHold,
        (Step::Cts { .. }, _, _) => Awaited::Granted,
        (Step::Packet { .. }, Awaited::Broadcast, _) => Awaited::Broadcast,
        (Step::Packet { .. }, _, None) => Awaited::FirstCts,
        (Step::Packet { number }, _, Some(grant)) if u16::from(number) + 1 < grant.behind => {
            Awaited::Packet
        }
        (Step::Packet { .. }, _, Some(_)) => Awaited::NextCts,
    }
}

/// What may come behind a frame: a hold and a packet leave that as it is.
fn granted_after(step: Step, before: Option<Grant>) -> Option<Grant>
    ensures { result ≡ pacing.granted_after step before }
{
    match step {
        Step::Cts { granted: 0, .. } | Step::Packet { .. } => before,
        Step::Cts { granted, next } => Some(Grant {
            from: next,
            behind: u16::from(next) + u16::from(granted),
        }),
    }
}
