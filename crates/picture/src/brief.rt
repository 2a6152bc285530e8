ghost use Rattle.std.specs.Prelude.{◌≡◌, ◌≢◌, ◌+◌, ◌-◌, ◌^◌, min, nat_lt, if◌then◌else◌, Some, None, IfSome, length, slice_get};
ghost use Rattle.picture.specs.Briefs.{IsBriefOf, MessageTold, StandIn, number_at_place, one_by_one};
ghost use Rattle.picture.specs.Severities.{may_show, rank, worst_shown};
ghost use Rattle.trouble_code.specs.Code.{IsCode};
ghost use Rattle.trouble_code.specs.Numbers.{code_of_number, number_of_code};

use crate::severity::Severity;
use trouble_code::{Dtc, Lamps};

/// How many codes of a message are kept.
pub const LISTED: usize = 8;

/// A diagnostic message in short: its lamps, how many codes it has, and the first of them.
#[derive(Clone, Copy)]
pub struct Brief {
    lamps: [u8; 2],
    count: u16,
    /// The number of each of the first of them: its four bytes, the lowest first.
    places: [u32; LISTED],
    contested: bool,
    partly: bool,
}

impl Brief {
    /// A message with these lamps and readable codes.
    pub fn of(lamps: Lamps, codes: &[Dtc], contested: bool, partly: bool) -> Brief
        ensures { IsBriefOf (record { lamps = lamps; codes = codes.now; contested = contested; partly = partly }) result }
    {
        Brief {
            lamps: lamps.to_bytes(),
            count: codes.len().min(usize::from(u16::MAX)) as u16,
            places: first_of(codes),
            contested,
            partly,
        }
    }

    /// Its lamps.
    pub fn lamps(&self) -> Lamps
        ensures { (m : MessageTold) → IsBriefOf m self.now → result ≡ m.lamps }
    {
        let [lamps, flashes] = self.lamps;
        Lamps::from_bytes(lamps, flashes)
    }

    /// How many codes it has, up to 65,535.
    pub fn count(&self) -> u16
        ensures { (m : MessageTold) → IsBriefOf m self.now → result ≡ min (length m.codes) (2 ^ 16 - 1) }
    {
        self.count
    }

    /// Whether its owner's claim had just displaced another NAME: it may be of that one.
    pub fn is_contested(&self) -> bool
        ensures { (m : MessageTold) → IsBriefOf m self.now → result ≡ m.contested }
    {
        self.contested
    }

    /// Whether it was read in part: it may have codes that could not be read.
    pub fn is_partly(&self) -> bool
        ensures { (m : MessageTold) → IsBriefOf m self.now → result ≡ m.partly }
    {
        self.partly
    }

    /// How many of its codes are told one by one: all, or so many that more than one are left out.
    pub fn listed(&self) -> usize
        ensures { (m : MessageTold) → IsBriefOf m self.now → result ≡ one_by_one (length m.codes) }
    {
        let count = usize::from(self.count);
        if count <= LISTED { count } else { LISTED - 1 }
    }

    /// How many of its codes are left out where those are told one by one: none, or at least two.
    pub fn left_out(&self) -> usize
        ensures rest { (m : MessageTold) → IsBriefOf m self.now → one_by_one (length m.codes) + result ≡ min (length m.codes) (2 ^ 16 - 1) }
        ensures never_one { (m : MessageTold) → IsBriefOf m self.now → result ≢ 1 }
    {
        usize::from(self.count).saturating_sub(self.listed())
    }

    /// The code at a place, of those that are told one by one.
    pub fn code(&self, place: usize) -> Option<Dtc>
        ensures { (m : MessageTold) → IsBriefOf m self.now → result ≡ (if nat_lt place (one_by_one (length m.codes)) then slice_get m.codes place else None) }
    {
        if place >= self.listed() {
            return None;
        }
        match self.places.get(place) {
            Some(number) => code_of(*number),
            None => None,
        }
    }

    /// How bad it is what it tells.
    pub fn severity(&self) -> Severity
        ensures { (m : MessageTold) → IsBriefOf m self.now → rank result ≡ worst_shown (may_show m.lamps (length m.codes) m.partly) }
    {
        Severity::of(self.lamps(), usize::from(self.count), self.partly)
    }
}

/// The numbers of the first codes, and 0 behind them.
fn first_of(codes: &[Dtc]) -> [u32; LISTED]
    ensures { StandIn result codes.now }
{
    let mut first = [0; LISTED];
    for place in 0..LISTED {
        first[place] = number_at(codes, place);
    }
    first
}

/// The number of the code at a place, 0 where there is none.
fn number_at(codes: &[Dtc], place: usize) -> u32
    ensures value { result ≡ number_at_place codes.now place }
    ensures lawful { IfSome (slice_get codes.now place) IsCode }
{
    match codes.get(place) {
        Some(code) => number_of(*code),
        None => 0,
    }
}

/// The number of a code.
fn number_of(code: Dtc) -> u32
    ensures value { result ≡ number_of_code code }
    ensures lawful { IsCode code }
{
    let _count = code.count();
    u32::from_le_bytes(code.to_bytes())
}

/// The code of a number.
fn code_of(number: u32) -> Option<Dtc>
    ensures { IsCode (code_of_number number) → result ≡ Some (code_of_number number) }
{
    Dtc::from_bytes(number.to_le_bytes()).ok()
}
