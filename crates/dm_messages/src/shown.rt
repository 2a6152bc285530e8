use trouble_code::{Codes, Lamps};

/// What a diagnostic message shows: the lamps and a list of codes.
#[derive(Drop)]
pub struct Shown {
    /// The lamps, and how they flash.
    pub lamps: Lamps,
    /// The codes in the order of the message, repeats too.
    pub codes: Codes,
}

const _: () = prove!(size_of::<Shown>() == 32);
