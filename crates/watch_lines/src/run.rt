use crate::heard::Heard;
use crate::lines::LineWatch;
use crate::options::WatchOptions;
use log_lines::{LinesEnd, LogFault, ROOM};
use std::alloc::Global;
use std::io::{BufReader, BufWriter, Read, Write};

/// How a run ended that watched lines.
#[derive(Clone, Copy)]
pub struct Watched {
    pub ended: LinesEnd,
    /// Whether it was begun anew, since as much was kept as may be.
    pub is_anew: bool,
}

impl Watched {
    /// It ended by this fault before any line.
    pub(crate) fn failed(fault: LogFault) -> Watched {
        Watched {
            ended: LinesEnd::failed(fault),
            is_anew: false,
        }
    }
}

/// Reads lines to their end, writes what each of them changes, and then the report.
///
/// What a line changed is written before the program waits for another. Of bad lines the first ten of each kind are told on
/// `errors`, with their numbers, and how many further ones there were; so are times that do not count, and that no line is a frame.
/// Where a read failed, or memory was refused, what was found until then is reported.
pub fn watch<R: Read + Drop, W: Write + Drop, E: Write>(
    alloc: Global,
    reader: R,
    writer: W,
    errors: &mut E,
    options: &WatchOptions<'_>,
) -> Watched {
    let (Ok(mut reader), Ok(mut writer)) = (
        BufReader::with_capacity(alloc, ROOM, reader),
        BufWriter::with_capacity(alloc, ROOM, writer),
    ) else {
        return Watched::failed(LogFault::Memory);
    };
    let Ok(mut heard) = Heard::new(alloc, options) else {
        return Watched::failed(LogFault::Memory);
    };
    let run = options.run();
    LineWatch::new(alloc, &mut writer, errors, &mut heard, &run).watch(&mut reader)
}
