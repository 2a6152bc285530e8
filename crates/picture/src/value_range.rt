ghost use Rattle.std.specs.Prelude.{◌≡◌, ◌⊎◌, ◌∷◌, [], ◌≤ℤ◌, List};
ghost use Rattle.picture.specs.ValuesTold.{RangesOver};
ghost use Rattle.picture.specs.declared.value_range.ToldValue.{ToldValue as AToldValue};

use candump_line::Time;

/// A value that a signal had, in units of the last of its places, and the time of its line.
#[derive(Clone, Copy, Debug, PartialEq, Eq)]
pub struct ToldValue {
    pub units: i128,
    pub time: Option<Time>,
}

/// Of the values that a signal had: how many there were, the newest, and the first of the least and of the greatest ones.
#[derive(Clone, Copy, Debug, PartialEq, Eq)]
pub struct ValueRange {
    pub times: u64,
    pub newest: ToldValue,
    pub least: ToldValue,
    pub greatest: ToldValue,
}

impl ValueRange {
    /// Of one value.
    #[tactic(auto, using(crate::proofs::Ranging::one_value))]
    pub fn of(value: &ToldValue) -> ValueRange
        ensures { RangesOver (value.now ∷ []) result }
    {
        ValueRange {
            times: 1,
            newest: *value,
            least: *value,
            greatest: *value,
        }
    }

    /// Of one value more.
    #[tactic(auto, using(crate::proofs::Ranging::one_value_more))]
    pub fn hear(&mut self, value: &ToldValue)
        ensures { (heard : List AToldValue) → RangesOver heard self.old → RangesOver (value.now ∷ heard) self.new }
    {
        let least = lesser(&self.least, value);
        let greatest = greater(&self.greatest, value);
        self.times = self.times.saturating_add(1);
        self.newest = *value;
        self.least = least;
        self.greatest = greatest;
    }
}

/// The lesser of two values; of equal ones the one before.
fn lesser(before: &ToldValue, value: &ToldValue) -> ToldValue
    ensures which { (result ≡ before.now) ⊎ (result ≡ value.now) }
    ensures before { result.units ≤ℤ before.now.units }
    ensures value { result.units ≤ℤ value.now.units }
{
    if value.units < before.units {
        *value
    } else {
        *before
    }
}

/// The greater of two values; of equal ones the one before.
fn greater(before: &ToldValue, value: &ToldValue) -> ToldValue
    ensures which { (result ≡ before.now) ⊎ (result ≡ value.now) }
    ensures before { before.now.units ≤ℤ result.units }
    ensures value { value.now.units ≤ℤ result.units }
{
    if before.units < value.units {
        *value
    } else {
        *before
    }
}
