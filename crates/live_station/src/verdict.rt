use crate::order::Order;

/// What came of an order.
#[derive(Clone, Copy)]
pub struct Verdict {
    /// The order.
    pub order: Order,
    /// What came of it.
    pub finding: Finding,
    /// How often it was written: 0 to 3.
    pub tries: u8,
    /// The address to which it was written, if it was, and to one alone.
    pub address: Option<u8>,
    /// Microseconds since it was written, the last time; none where it was not.
    pub after: Option<u64>,
    /// Of a clear that was written: what came of asking what is left. Where that is `Answered` the newest entry of its list shows it.
    pub left: Option<Finding>,
}

/// How an order ended.
#[derive(Clone, Copy, Debug, PartialEq, Eq)]
pub enum Finding {
    /// A message that began after the request ended, or a claim came: the newest entry of its list shows it.
    Answered,
    /// A message that began after the request ended, and cannot be read.
    Unread,
    /// The unit says that it cleared.
    Positive,
    /// The unit refused: 1 negative, 2 access denied, or another number (SAE J1939-21, acknowledgment).
    Refused(u8),
    /// The unit could not answer now, three times.
    Busy,
    /// The NAME holds the address that it was commanded to hold.
    Obeyed,
    /// No address of the NAME is known.
    NoSuchUnit,
    /// Nothing came.
    Silent,
    /// The clear was written, and what came then says nothing of it.
    InDoubt(Doubt),
    /// The station holds no address.
    LostAddress,
    /// The input ended first.
    CutOff { was_sent: bool },
}

/// Why nobody knows whether a clear was done.
#[derive(Clone, Copy, Debug, PartialEq, Eq)]
pub enum Doubt {
    /// The NAME moved, gave up, or another NAME claimed its address.
    AddressChangedHands,
    /// Frames were missed.
    FramesMissed,
    /// Another NAME claimed the station's own address.
    OwnAddress,
    /// Somebody else sends from the station's own address.
    Stranger,
}
