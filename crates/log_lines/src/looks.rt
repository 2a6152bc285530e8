//! What an input is in which no line is a frame.
ghost use Rattle.std.specs.Prelude.{◌≡◌, ◌==◌};
ghost use Rattle.std.specs.List.{list_any};

use candump_line::OtherLog;
use std::fmt;

/// What an input looks like that has no frame. `Display` tells it, and what makes a log of it that is read.
#[derive(Clone, Copy, Debug, PartialEq, Eq)]
pub(crate) enum Looks {
    Gzip,
    Xz,
    Zstd,
    Zip,
    Bzip2,
    /// A text of two bytes a letter.
    Utf16,
    /// None of these, and no text.
    Binary,
    /// A log that another program wrote.
    Log(OtherLog),
}

impl Looks {
    ghost use Rattle.log_lines.specs.Looks.{looks_of, unmarked_looks};

    /// What an input looks like by one of its lines; the first ones tell it.
    pub(crate) fn of(line: &[u8]) -> Option<Looks>
        ensures { result ≡ looks_of line.now }
    {
        if line.starts_with(b"\x1F\x8B") {
            return Some(Looks::Gzip);
        }
        if line.starts_with(b"\xFD7zXZ") {
            return Some(Looks::Xz);
        }
        if line.starts_with(b"\x28\xB5\x2F\xFD") {
            return Some(Looks::Zstd);
        }
        if line.starts_with(b"PK\x03\x04") {
            return Some(Looks::Zip);
        }
        if line.starts_with(b"BZh") {
            return Some(Looks::Bzip2);
        }
        if line.starts_with(b"\xFF\xFE") || line.starts_with(b"\xFE\xFF") {
            return Some(Looks::Utf16);
        }
        Looks::of_log(line)
    }

    /// The same of a line that begins with none of these marks.
    fn of_log(line: &[u8]) -> Option<Looks>
        ensures { result ≡ unmarked_looks line.now }
    {
        if line.starts_with(b"LOGG") {
            return Some(Looks::Log(OtherLog::Blf));
        }
        if has_zero(line) {
            return Some(Looks::Binary);
        }
        match OtherLog::of(line) {
            Some(log) => Some(Looks::Log(log)),
            None => None,
        }
    }

    /// How a packed input is called, and the command that writes what is in it.
    fn packed(self) -> Option<(&'static str, &'static str)> {
        match self {
            Looks::Gzip => Some(("compressed (gzip)", "zcat FILE")),
            Looks::Xz => Some(("compressed (xz)", "xzcat FILE")),
            Looks::Zstd => Some(("compressed (zstd)", "zstdcat FILE")),
            Looks::Zip => Some(("compressed (zip)", "unzip -p FILE")),
            Looks::Bzip2 => Some(("compressed (bzip2)", "bzcat FILE")),
            Looks::Utf16 => Some(("UTF-16", "iconv -f UTF-16 -t UTF-8 FILE")),
            Looks::Binary | Looks::Log(_) => None,
        }
    }
}

/// Whether a line has a byte that no text has.
fn has_zero(line: &[u8]) -> bool
    ensures { result ≡ list_any (λ c. c == 0) line.now }
{
    line.iter().any(|byte| *byte == 0)
}

impl fmt::Display for Looks {
    fn fmt<W: fmt::Write>(&self, f: &mut fmt::Formatter<W>) -> fmt::Result {
        if let Some((what, command)) = self.packed() {
            return write!(f, "this is {what}: {command} | j1939bench watch");
        }
        match self {
            Looks::Log(log) => {
                let (name, conversion) = (log.name(), log.conversion());
                write!(
                    f,
                    "this looks like {name}, which is read once it is converted: {conversion}"
                )
            }
            _ => write!(f, "this is not a text log"),
        }
    }
}
