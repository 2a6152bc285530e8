ghost use Rattle.std.specs.Prelude.{◌≡◌, ◌*◌, ◌/◌, min, max};

use std::fmt;

/// The bytes of a megabyte.
const MEGABYTE: u64 = 1_000_000;

/// How far an input is read, in words.
///
/// It is written as `read 384 of 1024 MB (37 %)`, or where no size is known as `read 1234567 lines in 12 s`.
#[derive(Clone, Copy, PartialEq, Eq)]
pub enum ProgressWords {
    /// So many bytes, of a file that had this size when it was opened.
    Bytes { read: u64, size: u64 },
    /// So many lines, in so many seconds.
    Lines { read: u64, seconds: u64 },
}

impl fmt::Display for ProgressWords {
    fn fmt<W: fmt::Write>(&self, f: &mut fmt::Formatter<W>) -> fmt::Result {
        match *self {
            ProgressWords::Bytes { read, size } => {
                let part = percent(read, size);
                let (read, size) = (read / MEGABYTE, size / MEGABYTE);
                write!(f, "read {read} of {size} MB ({part} %)")
            }
            ProgressWords::Lines { read, seconds } => write!(f, "read {read} lines in {seconds} s"),
        }
    }
}

/// How many whole hundredths of a file are read: at most 100, also where it has grown since it was opened.
fn percent(read: u64, size: u64) -> u64
    ensures { result ≡ min (read * 100 / max size 1) 100 }
{
    let part = u128::from(read) * 100 / u128::from(size.max(1));
    part.min(100) as u64
}
