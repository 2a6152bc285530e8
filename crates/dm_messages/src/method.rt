ghost use Rattle.std.specs.Prelude.{◌≡◌, ◌<◌, ◌^◌, slice_index};
ghost use Rattle.dm_messages.specs.Tolerant.{code_by_method, spn_by_method};

use trouble_code::Dtc;

/// How a code of an older layout has its SPN in its bytes (SAE J1939-73, from memory).
///
/// A bit of the code says that its layout is an older one, and not which: that is a matter of the unit.
#[derive(Clone, Copy, Debug, PartialEq, Eq)]
pub enum ConversionMethod {
    /// Method 1: the highest 8 bits, the next 8, then the lowest 3.
    First,
    /// Method 2: the middle 8 bits, the highest 8, then the lowest 3.
    Second,
    /// Method 3: laid out as today.
    Third,
}

impl ConversionMethod {
    /// The code that four bytes have by this method; none where its SPN, FMI and count are all 0.
    pub fn code(self, bytes: [u8; 4]) -> Option<Dtc>
        ensures { result ≡ code_by_method self (slice_index bytes 0) (slice_index bytes 1) (slice_index bytes 2) (slice_index bytes 3) }
    {
        let [first, second, third, fourth] = bytes;
        let spn = self.spn(first, second, third);
        match Dtc::new(spn, third % 32, fourth % 128) {
            Ok(code) => Some(code),
            Err(_) => None,
        }
    }

    /// The SPN in the first three bytes.
    fn spn(self, first: u8, second: u8, third: u8) -> u32
        ensures value { result ≡ spn_by_method self first second third }
        ensures range { result < 2 ^ 19 }
    {
        let high = u32::from(first);
        let low = u32::from(second);
        let rest = u32::from(third / 32);
        match self {
            ConversionMethod::First => 2048 * high + 8 * low + rest,
            ConversionMethod::Second => 2048 * low + 8 * high + rest,
            ConversionMethod::Third => high + 256 * low + 65536 * rest,
        }
    }
}
