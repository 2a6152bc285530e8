use std::fmt;

/// How long something took, in microseconds, by its two largest units: `39.9 s`, `2 min 5 s`, `23 h 59 min`, `3 d 4 h`.
#[derive(Clone, Copy)]
pub struct DurationWords(pub u64);

impl fmt::Display for DurationWords {
    fn fmt<W: fmt::Write>(&self, f: &mut fmt::Formatter<W>) -> fmt::Result {
        let tenths = self.0 / 100_000;
        let seconds = tenths / 10;
        if seconds < 60 {
            let tenth = tenths % 10;
            return write!(f, "{seconds}.{tenth} s");
        }
        let (greater, unit, lesser, part) = two_units(seconds);
        write!(f, "{greater} {unit} {lesser} {part}")
    }
}

/// So many seconds in two units that follow one another.
fn two_units(seconds: u64) -> (u64, &'static str, u64, &'static str) {
    let minutes = seconds / 60;
    let hours = minutes / 60;
    if hours == 0 {
        (minutes, "min", seconds % 60, "s")
    } else if hours < 24 {
        (hours, "h", minutes % 60, "min")
    } else {
        (hours / 24, "d", hours % 24, "h")
    }
}
