//! What a field of a frame says from frame to frame.
ghost use Rattle.std.specs.Prelude.{◌≡◌};
ghost use Rattle.vehicle.specs.Moving.{value_at};

use crate::motion::{Counter, Motion, Ramp, ValueList};

impl Motion {
    /// What a field says in the frame before which so many went.
    pub(crate) fn value(&self, count: u64) -> u32
        ensures { result ≡ value_at self.now count }
    {
        match self {
            Motion::Counter(counter) => counter.value(count),
            Motion::Ramp(ramp) => ramp.value(count),
            Motion::Toggle => (count % 2) as u32,
            Motion::Values(values) => values.value(count),
        }
    }
}

impl Counter {
    fn value(&self, count: u64) -> u32
        ensures { result ≡ value_at (Motion.Counter self.now) count }
    {
        let many = u64::from(self.most - self.least) + 1;
        self.least + (count % many) as u32
    }
}

impl Ramp {
    fn value(&self, count: u64) -> u32
        ensures { result ≡ value_at (Motion.Ramp self.now) count }
    {
        let steps = (self.most - self.least) / self.step;
        let place = count % (2 * u64::from(steps));
        let far = place.min(2 * u64::from(steps) - place) as u32;
        self.least + self.step * far
    }
}

impl ValueList {
    fn value(&self, count: u64) -> u32
        ensures { result ≡ value_at (Motion.Values self.now) count }
    {
        let place = count % self.list.len() as u64;
        self.list[place as usize]
    }
}
