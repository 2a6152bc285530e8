//! How a field of a frame moves.
ghost use Rattle.std.specs.Prelude.{◌+◌, ◌≤◌, length};

/// Counts from `least` to `most`, and then from `least` again.
#[derive(Clone, Copy, PartialEq, Eq)]
pub struct Counter {
    pub least: u32,
    pub most: u32,
    pub ghost ordered: { least ≤ most },
}

/// Goes from `least` to `most` by `step`, and back.
#[derive(Clone, Copy, PartialEq, Eq)]
pub struct Ramp {
    pub least: u32,
    pub most: u32,
    pub step: u32,
    pub ghost steps: { (1 ≤ step) × (least + step ≤ most) },
}

/// One value after another, and then from the first again.
#[derive(Drop)]
pub struct ValueList {
    pub list: Vec<u32>,
    pub ghost some: { 1 ≤ length list.items },
}

/// How a field moves.
#[derive(Drop)]
pub enum Motion {
    Counter(Counter),
    Ramp(Ramp),
    /// 0 and 1 in turn.
    Toggle,
    Values(ValueList),
}
