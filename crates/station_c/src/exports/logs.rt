//! Lines of a log become frames, as a station takes them.
ghost use Rattle.std.specs.Prelude.{◌≡◌, ◌⊎◌, ◌<◌, ◌≤◌, IfSome, IsNone, drop, length, take};
ghost use Rattle.station_c.specs.Lines.{HasNoLine, ReadsLines, TellsAt, told_beside};

use crate::log_records::{LoggedRecord, ReadRecord};
use crate::records::FrameRecord;
use crate::told::LineContent;
use candump_line::read_line;

/// Reads the whole lines of a text that candump wrote, or a part of one, from its beginning: each as `watch` does. A whole line
/// ends with a line feed. The frames of SAE J1939 of this bus stand in `frames`, in their order, and in `logged` when each was seen
/// and in which line; where `bus` is empty, those of every bus, and of lines that name none. What is behind those is as it was.
/// Frames that are none of SAE J1939, notes and other buses are passed over.
///
/// It stops where `frames` or `logged` is full, where no whole line is left, and behind a line that tells of missed frames, or is
/// bad: `read` says how far it came, and which.
#[unsafe(no_mangle)]
pub extern "C" fn hidzgula_read_log(
    text: &[u8],
    bus: &[u8],
    frames: &mut [FrameRecord],
    logged: &mut [LoggedRecord],
    read: &mut ReadRecord,
)
    ensures lines { ReadsLines text.now bus.now read.new.bytes read.new.lines (take read.new.frames frames.new)
        (take read.new.frames logged.new) (told_beside read.new) }
    ensures within { (read.new.bytes ≤ length text.now) × (read.new.frames ≤ length frames.old)
        × (read.new.frames ≤ length logged.old) }
    ensures behind { (drop read.new.frames frames.new ≡ drop read.new.frames frames.old)
        × (drop read.new.frames logged.new ≡ drop read.new.frames logged.old) }
    ensures ended { told_beside read.new ≡ LineContent.Nothing
        → (read.new.frames ≡ length frames.old) ⊎ (read.new.frames ≡ length logged.old) ⊎ HasNoLine text.now read.new.bytes }
{
    *read = read_lines(text, bus, frames, logged);
}

/// Reads lines as `hidzgula_read_log` does.
fn read_lines(
    text: &[u8],
    bus: &[u8],
    frames: &mut [FrameRecord],
    logged: &mut [LoggedRecord],
) -> ReadRecord
    ensures lines { ReadsLines text.now bus.now result.bytes result.lines (take result.frames frames.new)
        (take result.frames logged.new) (told_beside result) }
    ensures within { (result.bytes ≤ length text.now) × (result.frames ≤ length frames.old) × (result.frames ≤ length logged.old) }
    ensures behind { (drop result.frames frames.new ≡ drop result.frames frames.old)
        × (drop result.frames logged.new ≡ drop result.frames logged.old) }
    ensures ended { told_beside result ≡ LineContent.Nothing
        → (result.frames ≡ length frames.old) ⊎ (result.frames ≡ length logged.old) ⊎ HasNoLine text.now result.bytes }
{
    let room = frames.len().min(logged.len());
    let mut from = 0;
    let mut count = 0;
    let mut lines = 0;
    while count < room {
        let Some((to, told)) = told_at(text, from, bus) else {
            return ReadRecord::frames(from, lines, count);
        };
        from = to;
        lines += 1;
        match told {
            LineContent::Nothing => {}
            LineContent::Frame { time, frame } => {
                frames[count] = FrameRecord::of(&frame);
                logged[count] = LoggedRecord { time, line: lines };
                count += 1;
            }
            LineContent::Missed { count: missed } => {
                return ReadRecord {
                    what: 1,
                    missed,
                    ..ReadRecord::frames(from, lines, count)
                };
            }
            LineContent::Bad { why } => {
                return ReadRecord {
                    what: 2,
                    why,
                    ..ReadRecord::frames(from, lines, count)
                };
            }
        }
    }
    ReadRecord::frames(from, lines, count)
}

/// What the line tells that begins at a place of a text, and the place behind it, where a whole one does.
fn told_at(text: &[u8], from: usize, bus: &[u8]) -> Option<(usize, LineContent)>
    requires { from ≤ length text.now }
    ensures tells { IfSome result (λ found. TellsAt text.now bus.now from found.0 found.1) }
    ensures within { IfSome result (λ found. (from < found.0) × (found.0 ≤ length text.now)) }
    ensures none { IsNone result → HasNoLine text.now from }
{
    let rest = &text[from..];
    let end = memchr::memchr(b'\n', rest)?;
    let said = read_line(&rest[..end + 1]);
    Some((from + end + 1, LineContent::of(&said, bus)))
}
