use std::alloc::{AllocError, Global};

/// In how many stretches of time a curve is kept, at most.
pub const MOST_POINTS: usize = 64;

/// How long the stretches of a curve are at first, in microseconds.
const FIRST_STEP: u64 = 1_000;

/// What a signal was in a stretch of time: when that began to be told, and its least and its greatest value.
#[derive(Clone, Copy, Debug)]
pub struct CurvePoint {
    /// In microseconds.
    pub at: u64,
    pub least: i128,
    pub greatest: i128,
}

impl CurvePoint {
    /// Both of two neighbours.
    fn joined(self, next: CurvePoint) -> CurvePoint {
        CurvePoint {
            at: self.at,
            least: self.least.min(next.least),
            greatest: self.greatest.max(next.greatest),
        }
    }

    /// Whether two are of the same stretch.
    fn is_with(self, next: CurvePoint, step: u64) -> bool {
        self.at / step.max(1) == next.at / step.max(1)
    }
}

/// How a signal went: of so many stretches of time the least and the greatest value. Where there are too many, each gets twice as long.
#[derive(Drop)]
pub struct Curve {
    points: Vec<CurvePoint>,
    step: u64,
}

impl Curve {
    /// Of no value.
    pub(crate) fn new(alloc: Global) -> Curve {
        Curve {
            points: Vec::new(alloc),
            step: FIRST_STEP,
        }
    }

    /// Its stretches, one after the other; those without a value are left out.
    pub fn points(&self) -> &[CurvePoint] {
        self.points.as_slice()
    }

    /// Takes a value behind all others, at this microsecond.
    ///
    /// # Errors
    /// Memory was refused: the value is left out.
    pub(crate) fn hear(&mut self, at: u64, units: i128) -> Result<(), AllocError> {
        add(
            &mut self.points,
            self.step,
            CurvePoint {
                at,
                least: units,
                greatest: units,
            },
        )?;
        for _ in 0..u64::BITS {
            if self.points.len() < MOST_POINTS {
                break;
            }
            self.widen()?;
        }
        Ok(())
    }

    /// Makes each stretch twice as long.
    fn widen(&mut self) -> Result<(), AllocError> {
        let step = self.step.saturating_mul(2);
        let mut wider = Vec::with_capacity(*self.points.allocator(), MOST_POINTS)?;
        for point in self.points.as_slice() {
            add(&mut wider, step, *point)?;
        }
        self.points = wider;
        self.step = step;
        Ok(())
    }
}

/// Puts a point behind others, or joins it with the last, where both are of one stretch.
fn add(points: &mut Vec<CurvePoint>, step: u64, point: CurvePoint) -> Result<(), AllocError> {
    if let Some(last) = points.last_mut() {
        if last.is_with(point, step) {
            *last = last.joined(point);
            return Ok(());
        }
    }
    points.push(point)?;
    Ok(())
}
