use std::fmt;
use trouble_code::{LampName, Lamps};

/// The lamps that are on, as `mil, stop, amber, protect`, each with how it flashes, or `no lamp`; and behind them the lamps of which
/// that is not said: `no lamp, mil/protect not available`. `lamps not available` where it is said of none.
///
/// Of the two bits of a lamp 00 says off, 01 on, and 11 not available; 10 is `reserved` by the standard (SAE J1939-73, 5.7.1).
#[derive(Clone, Copy)]
pub struct LampWords(pub Lamps);

/// The two bytes of lamps in four digits.
#[derive(Clone, Copy)]
pub struct LampBytes(pub Lamps);

impl fmt::Display for LampBytes {
    fn fmt<W: fmt::Write>(&self, f: &mut fmt::Formatter<W>) -> fmt::Result {
        let [lamps, flashes] = self.0.to_bytes();
        write!(f, "{lamps:02X}{flashes:02X}")
    }
}

/// Each lamp and its word.
const LAMPS: [(LampName, &str); 4] = [
    (LampName::Malfunction, "mil"),
    (LampName::RedStop, "stop"),
    (LampName::Amber, "amber"),
    (LampName::Protect, "protect"),
];

/// What the two bits of a lamp say (SAE J1939-73, 5.7.1).
const OFF: u8 = 0;

const ON: u8 = 1;

const RESERVED: u8 = 2;

const NOT_AVAILABLE: u8 = 3;

impl fmt::Display for LampWords {
    fn fmt<W: fmt::Write>(&self, f: &mut fmt::Formatter<W>) -> fmt::Result {
        let lamps = self.0;
        let not_available = count(lamps, NOT_AVAILABLE);
        if not_available == LAMPS.len() {
            return write!(f, "lamps not available");
        }
        let mut is_first = true;
        if count(lamps, ON) == 0 && count(lamps, OFF) > 0 {
            write!(f, "no lamp")?;
            is_first = false;
        }
        for (name, word) in LAMPS {
            if lamps.lamp(name) == ON {
                let mark = mark_before(is_first, ", ");
                let flash = flash_word(lamps.flash(name));
                write!(f, "{mark}{word}{flash}")?;
                is_first = false;
            }
        }
        if not_available > 0 {
            let mark = mark_before(is_first, ", ");
            let words = StateWords(lamps, NOT_AVAILABLE);
            write!(f, "{mark}{words} not available")?;
            is_first = false;
        }
        if count(lamps, RESERVED) > 0 {
            let mark = mark_before(is_first, ", ");
            let words = StateWords(lamps, RESERVED);
            write!(f, "{mark}{words} reserved")?;
        }
        Ok(())
    }
}

/// What stands before a word: nothing before the first, and else this.
fn mark_before(is_first: bool, mark: &'static str) -> &'static str {
    if is_first { "" } else { mark }
}

/// How many lamps are in a state.
fn count(lamps: Lamps, state: u8) -> usize {
    LAMPS
        .iter()
        .filter(|lamp| lamps.lamp(lamp.0) == state)
        .count()
}

/// How a lamp that is on flashes.
fn flash_word(flash: u8) -> &'static str {
    match flash {
        0 => " flashing slowly",
        1 => " flashing fast",
        _ => "",
    }
}

/// The lamps that are in a state, with `/` between.
#[derive(Clone, Copy)]
struct StateWords(Lamps, u8);

impl fmt::Display for StateWords {
    fn fmt<W: fmt::Write>(&self, f: &mut fmt::Formatter<W>) -> fmt::Result {
        let mut is_first = true;
        for (name, word) in LAMPS {
            if self.0.lamp(name) == self.1 {
                let mark = mark_before(is_first, "/");
                write!(f, "{mark}{word}")?;
                is_first = false;
            }
        }
        Ok(())
    }
}
