use can_frame::Pgn;

/// An acknowledgment that was kept.
#[derive(Clone, Copy, PartialEq, Eq)]
pub struct AckSeen {
    /// 0 positive, 1 negative, 2 access denied, 3 cannot respond now, or another number.
    pub control: u8,
    /// The parameter group that is acknowledged.
    pub pgn: Pgn,
}

/// What is known of a NAME.
#[derive(Clone, Copy, PartialEq, Eq)]
pub struct Row {
    /// The address of its last claim, where nothing was missed since and no other NAME has claimed it since.
    pub address: Option<u8>,
    /// The last acknowledgment (to a station; to whomever, of a listener).
    pub ack: Option<AckSeen>,
}
