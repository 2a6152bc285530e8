//! One fault of a unit.
ghost use Rattle.std.specs.Prelude.{◌≡◌, ◌≤◌, IfSome, length, true};
ghost use Rattle.live_lines.specs.Faults.{IsAdded, behind_frame, goes, hits};
ghost use Rattle.live_lines.specs.Faults as faults;

use address_claim::claim_frame;
use can_frame::{Frame, GREATEST_ADDRESS, Id, Pgn};
use name_field::Name;
use vehicle::{Deviation, FailLine};

/// A fault, and how far it is.
#[derive(Clone, Copy)]
pub(crate) struct Failing {
    deviation: Deviation,
    /// From when on, and for how long where that ends it, in milliseconds.
    after: u32,
    time: Option<u32>,
    /// Of which frames it is, and of how many of 100 such.
    group: Option<u32>,
    share: u8,
    /// Whether it was told the time; and from when on, and before when it is.
    begun: bool,
    from: u64,
    until: u64,
    /// How often it may still happen.
    left: u64,
    /// The last number from its seed.
    number: u64,
    /// When the next frame goes that it adds.
    next: u64,
}

/// A frame that goes after so many microseconds.
#[derive(Clone, Copy)]
pub(crate) struct Delayed {
    pub(crate) wait: u64,
    pub(crate) frame: Frame,
}

/// What goes of a frame at once, and what later.
#[derive(Clone, Copy)]
pub(crate) struct Carried {
    pub(crate) at_once: Option<Frame>,
    pub(crate) later: Option<Delayed>,
}

impl Failing {
    /// One that was not told the time yet.
    pub(crate) fn new(deviation: Deviation, line: &FailLine) -> Failing
        ensures deviation { result.deviation ≡ deviation }
        ensures frames { (result.group ≡ line.now.group) × (result.share ≡ line.now.share) }
    {
        Failing {
            deviation,
            after: line.after,
            time: line.time,
            group: line.group,
            share: line.share,
            begun: false,
            from: 0,
            until: 0,
            left: match line.count {
                Some(count) => u64::from(count),
                None => u64::MAX,
            },
            number: u64::from(line.seed) + 1,
            next: 0,
        }
    }

    /// What it does.
    pub(crate) fn deviation(&self) -> Deviation
        ensures { result ≡ self.now.deviation }
    {
        self.deviation
    }

    /// Counts its times from now on, where it was not told the time yet.
    pub(crate) fn begin(&mut self, now: u64) {
        if self.begun {
            return;
        }
        self.begun = true;
        self.from = now.saturating_add(1000 * u64::from(self.after));
        self.until = match self.time {
            Some(time) => self.from.saturating_add(1000 * u64::from(time)),
            None => u64::MAX,
        };
        self.next = self.from;
    }

    /// Whether a frame that goes at this time meets it.
    pub(crate) fn hits(&self, frame: &Frame, now: u64) -> bool
        ensures { result ≡ hits now frame.now self.now }
    {
        self.touches(frame, now) && self.is_chosen()
    }

    /// Whether the next number from its seed chooses a frame.
    fn is_chosen(&self) -> bool
        ensures { result ≡ faults.is_chosen self.now }
    {
        next_number(self.number) % 100 < u64::from(self.share)
    }

    /// Goes on behind a frame: where it met it, it has happened once more.
    pub(crate) fn see(&mut self, frame: &Frame, now: u64)
        ensures { self.new ≡ behind_frame now frame.now self.old }
    {
        if !self.touches(frame, now) {
            return;
        }
        if self.is_chosen() {
            self.left -= 1;
        }
        self.number = next_number(self.number);
    }

    /// Whether it may change a frame that goes at this time.
    fn touches(&self, frame: &Frame, now: u64) -> bool
        ensures { result ≡ faults.touches now frame.now self.now }
    {
        self.is_on(now) && is_of(self.group, frame) && fits(&self.deviation, frame)
    }

    /// Whether it may happen at this time.
    fn is_on(&self, now: u64) -> bool
        ensures { result ≡ faults.is_failing now self.now }
    {
        self.begun && self.from <= now && now < self.until && self.left > 0
    }

    /// The frame that it adds at this time, for a unit of this NAME that holds this address.
    pub(crate) fn added(&mut self, name: Name, held: Option<u8>, now: u64) -> Option<Frame>
        ensures { IfSome result (λ f. (faults.is_failing now self.old ≡ true) × IsAdded self.old.deviation name held f) }
    {
        if !self.is_on(now) || now < self.next {
            return None;
        }
        let (frame, period) = extra(&self.deviation, name, held)?;
        self.left -= 1;
        self.next = now.saturating_add(1000 * u64::from(period));
        Some(frame)
    }

    /// When it adds a frame next, for a unit that holds this address: never, where at this time it is over.
    pub(crate) fn next(&self, held: Option<u8>, now: u64) -> u64 {
        let adds = match self.deviation {
            Deviation::Babble { .. } => held.is_some(),
            Deviation::Steal { .. } => true,
            _ => false,
        };
        if adds && self.left > 0 && self.next.max(now) < self.until {
            self.next
        } else {
            u64::MAX
        }
    }
}

/// The number that follows one (the minimal standard generator of Park and Miller).
fn next_number(number: u64) -> u64
    ensures { result ≡ faults.next_number number }
{
    number % 2_147_483_647 * 48_271 % 2_147_483_647
}

/// Whether a frame is of a group, where one is wanted.
fn is_of(group: Option<u32>, frame: &Frame) -> bool
    ensures { result ≡ faults.is_of group frame.now }
{
    match group {
        Some(group) => frame.id().pgn().number() == group,
        None => true,
    }
}

/// Whether a fault can change a frame.
fn fits(deviation: &Deviation, frame: &Frame) -> bool
    ensures { result ≡ faults.can_change deviation.now frame.now }
{
    let length = frame.bytes().len();
    match *deviation {
        Deviation::Drop | Deviation::Delay(_) | Deviation::Twice => true,
        Deviation::Number => frame.id().pgn() == Pgn::DATA_TRANSFER && length == 8,
        Deviation::Short => length >= 1,
        Deviation::Zeros | Deviation::Old => frame.id().pgn() == Pgn::DM1 && length == 8,
        Deviation::Babble { .. } | Deviation::Steal { .. } => false,
    }
}

/// What goes of a frame that a fault changes.
pub(crate) fn changes(deviation: &Deviation, frame: &Frame) -> Carried
    ensures { goes result.at_once result.later ≡ faults.carried deviation.now frame.now }
{
    let (at_once, later) = match *deviation {
        Deviation::Drop => (None, None),
        Deviation::Delay(wait) => (None, Some(put_off(1000 * u64::from(wait), frame))),
        Deviation::Twice => (Some(*frame), Some(put_off(0, frame))),
        _ => (Some(changed(deviation, frame)), None),
    };
    Carried { at_once, later }
}

/// A frame that goes after so many microseconds.
fn put_off(wait: u64, frame: &Frame) -> Delayed
    ensures { (result.wait ≡ wait) × (result.frame ≡ frame.now) }
{
    Delayed {
        wait,
        frame: *frame,
    }
}

/// The frame that goes in the place of one: the same where the fault cannot change it.
fn changed(deviation: &Deviation, frame: &Frame) -> Frame
    ensures { result ≡ faults.changed_by deviation.now frame.now }
{
    if fits(deviation, frame) {
        altered(deviation, frame)
    } else {
        *frame
    }
}

/// The frame that goes in the place of one that a fault can change.
fn altered(deviation: &Deviation, frame: &Frame) -> Frame
    requires { faults.can_change deviation.now frame.now ≡ true }
    ensures { result ≡ faults.altered deviation.now frame.now }
{
    match *deviation {
        Deviation::Number => numbered(frame),
        Deviation::Short => shortened(frame),
        Deviation::Zeros => zeroed(frame),
        Deviation::Old => aged(frame),
        _ => *frame,
    }
}

/// A packet with the number behind its own.
fn numbered(frame: &Frame) -> Frame
    requires { length frame.now.bytes ≡ 8 }
    ensures { result ≡ faults.misnumbered frame.now }
{
    let mut bytes = bytes_of(frame);
    bytes[0] = bytes[0].wrapping_add(1);
    Frame::full(frame.id(), bytes)
}

/// A frame without its last byte.
fn shortened(frame: &Frame) -> Frame
    requires { 1 ≤ length frame.now.bytes }
    ensures { result ≡ faults.shortened frame.now }
{
    let bytes = frame.bytes();
    Frame::of(frame.id(), &bytes[..bytes.len() - 1])
}

/// A DM1 in one frame that is padded with zeros.
fn zeroed(frame: &Frame) -> Frame
    requires { length frame.now.bytes ≡ 8 }
    ensures { result ≡ faults.zeroed frame.now }
{
    let mut bytes = bytes_of(frame);
    bytes[6] = 0;
    bytes[7] = 0;
    Frame::full(frame.id(), bytes)
}

/// A DM1 in one frame whose code has an older conversion method.
fn aged(frame: &Frame) -> Frame
    requires { length frame.now.bytes ≡ 8 }
    ensures { result ≡ faults.aged frame.now }
{
    let mut bytes = bytes_of(frame);
    bytes[5] = bytes[5] % 128 + 128;
    Frame::full(frame.id(), bytes)
}

/// The bytes of a frame that has eight.
fn bytes_of(frame: &Frame) -> [u8; 8]
    requires { length frame.now.bytes ≡ 8 }
    ensures { result ≡ frame.now.bytes }
{
    let mut bytes = [0; 8];
    bytes.copy_from_slice(frame.bytes());
    bytes
}

/// The frame that a fault adds, for a unit of this NAME that holds this address, and how long it is to the next, in milliseconds.
fn extra(deviation: &Deviation, name: Name, held: Option<u8>) -> Option<(Frame, u32)>
    ensures { IfSome result (λ r. IsAdded deviation.now name held r.0) }
{
    match *deviation {
        Deviation::Babble { frame, period } => Some((from_address(&frame, held?), period)),
        Deviation::Steal { address, period } if address <= GREATEST_ADDRESS => {
            Some((claim_frame(name, Some(address)), period))
        }
        _ => None,
    }
}

/// A frame from this address.
fn from_address(frame: &Frame, source: u8) -> Frame
    ensures { result ≡ faults.from_address source frame.now }
{
    let number = frame.id().number() / 256 * 256 + u32::from(source);
    match Id::new(number) {
        Ok(id) => Frame::of(id, frame.bytes()),
        Err(_) => unreachable!(),
    }
}

/// The word for a fault.
pub(crate) fn word_of(deviation: &Deviation) -> &'static str {
    match deviation {
        Deviation::Drop => "drop",
        Deviation::Delay(_) => "delay",
        Deviation::Twice => "twice",
        Deviation::Number => "number",
        Deviation::Short => "short",
        Deviation::Zeros => "zeros",
        Deviation::Old => "old",
        Deviation::Babble { .. } => "babble",
        Deviation::Steal { .. } => "steal",
    }
}
