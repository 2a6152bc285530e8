ghost use Rattle.std.specs.Prelude.{◌≡◌, None, Some, IfSome, IfNone};
ghost use Rattle.frame_words.specs.Words.{abort_text};

use std::fmt;

/// Why a session was aborted, by its number, and in words where these are known.
#[derive(Clone, Copy)]
pub struct AbortWords(pub u8);

impl fmt::Display for AbortWords {
    fn fmt<W: fmt::Write>(&self, f: &mut fmt::Formatter<W>) -> fmt::Result {
        let reason = self.0;
        match abort_words(reason) {
            Some(words) => write!(f, "{reason} ({words})"),
            None => write!(f, "{reason}"),
        }
    }
}

/// Why a session was aborted, in words (SAE J1939-21, 5.10.3).
fn abort_words(reason: u8) -> Option<&'static str>
    ensures known { IfSome result (λ words. abort_text reason ≡ Some words.now) }
    ensures unknown { IfNone result (abort_text reason ≡ None) }
{
    let words = match reason {
        1 => "already in another session",
        2 => "resources needed elsewhere",
        3 => "timeout",
        4 => "CTS while sending",
        5 => "too many retransmissions",
        6 => "unexpected packet",
        7 => "bad sequence number",
        8 => "duplicate sequence number",
        9 => "message too long",
        _ => return None,
    };
    Some(words)
}
