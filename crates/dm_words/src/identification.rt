//! Groups whose payload is text in ASCII: fields, with a `*` behind each.
ghost use Rattle.std.specs.Prelude.{◌≡◌, reverse};
ghost use Rattle.dm_words.specs.Identification.{behind_star, behind_unused, fields_in, identification_of, identification_text};

/// A group that says which vehicle, component or unit it comes from, in fields of text (SAE J1939-71 and -73, from memory).
#[derive(Clone, Copy, PartialEq, Eq)]
pub enum Identification {
    /// Vehicle identification, 65260: the VIN.
    Vehicle,
    /// Component identification, 65259: make, model, serial number, unit number.
    Component,
    /// Software identification, 65242: versions, behind a byte with their number.
    Software,
    /// ECU identification, 64965: part number, serial number, location, type, manufacturer.
    Unit,
}

/// What stands for a byte that is not used.
const UNUSED: u8 = 255;

impl Identification {
    /// The identification that the group of this number is, where it is one.
    pub fn of(pgn: u32) -> Option<Identification>
        ensures { result ≡ identification_of pgn }
    {
        match pgn {
            65_260 => Some(Identification::Vehicle),
            65_259 => Some(Identification::Component),
            65_242 => Some(Identification::Software),
            64_965 => Some(Identification::Unit),
            _ => None,
        }
    }

    /// The fields that a payload has, with a `*` between: without the number of a software's fields, unused bytes at the end, and
    /// the last `*`. Any bytes may stand there: `AsciiText` tells them.
    pub fn text(self, payload: &[u8]) -> &[u8]
        ensures { result.now ≡ identification_text self payload.now }
    {
        let used = without_unused(self.fields(payload));
        match used.split_last() {
            Some((last, front)) if *last == b'*' => front,
            _ => used,
        }
    }

    /// What stands of a payload behind the number of its fields, where it has one.
    fn fields(self, payload: &[u8]) -> &[u8]
        ensures { result.now ≡ fields_in self payload.now }
    {
        match self {
            Identification::Software => payload.get(1..).unwrap_or(payload),
            _ => payload,
        }
    }
}

/// Bytes without those at the end that are not used.
fn without_unused(bytes: &[u8]) -> &[u8]
    ensures { reverse result.now ≡ behind_unused (reverse bytes.now) }
{
    let mut rest = bytes;
    while let Some((last, front)) = rest.split_last() {
        if *last != UNUSED {
            break;
        }
        rest = front;
    }
    rest
}
