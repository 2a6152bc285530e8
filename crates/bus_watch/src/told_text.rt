ghost use Rattle.std.specs.Prelude.{◌≡◌, ◌==◌, ◌≤◌, length};
ghost use Rattle.std.specs.List.{position};
ghost use Rattle.bus_watch.specs.Identified.{ends_vin, front_length, text_of, vin_in, whole_text};

use dm_words::Identification;
use std::marker::Model;

/// The most bytes that are told of a text.
pub(crate) const MOST_TOLD: usize = 200;

/// The most bytes that are kept of a text: one more, so that it is told of a longer one that it is cut.
const MOST_TEXT: usize = 201;

/// The text of an identification, as it was told. Any bytes may stand there.
#[derive(Drop)]
pub(crate) struct ToldText {
    room: [u8; MOST_TEXT],
    len: u8,
}

impl Model for ToldText {
    ghost use Rattle.std.specs.Prelude.{◌≡◌, ◌≤◌, ℕ, List, length, take};
    ghost use Rattle.bus_watch.specs.declared.told_text.TheConstants.{MOST_TEXT};

    ghost Value = { List ℕ };

    ghost view = { λ t. take t.len t.room };

    ghost invariant = { λ t. (t.len ≤ MOST_TEXT) × (length t.room ≡ MOST_TEXT) };
}

impl ToldText {
    /// The text that a payload has.
    pub(crate) fn of(what: Identification, payload: &[u8]) -> ToldText
        ensures { result ≡ text_of what payload.now }
    {
        ToldText::short(front(what, payload))
    }

    /// A text of at most 201 bytes.
    fn short(text: &[u8]) -> ToldText
        requires { length text.now ≤ MOST_TEXT }
        ensures { result ≡ text.now }
    {
        let len = text.len();
        let mut room = [0; MOST_TEXT];
        room[..len].copy_from_slice(text);
        ToldText {
            room,
            len: len as u8,
        }
    }

    /// Whether it has no characters.
    pub(crate) fn is_empty(&self) -> bool
        ensures { result ≡ (length self.now == 0) }
    {
        self.len == 0
    }

    /// Its bytes.
    pub(crate) fn bytes(&self) -> &[u8]
        ensures { result.now ≡ self.now }
    {
        &self.room[..usize::from(self.len)]
    }
}

/// What is kept of the text of a payload.
#[tactic(auto, using(std::proofs::lemmas::List::take_min))]
fn front(what: Identification, payload: &[u8]) -> &[u8]
    ensures value { result.now ≡ text_of what payload.now }
    ensures most { length result.now ≤ MOST_TEXT }
{
    let text = text_in(what, payload);
    let len = MOST_TEXT.min(text.len());
    &text[..len]
}

/// The text of a payload.
fn text_in(what: Identification, payload: &[u8]) -> &[u8]
    ensures { result.now ≡ whole_text what payload.now }
{
    match what {
        Identification::Vehicle => vin_in(payload),
        _ => what.text(payload),
    }
}

/// The VIN of a payload.
fn vin_in(payload: &[u8]) -> &[u8]
    ensures { result.now ≡ vin_in payload.now }
{
    &payload[..end_of(payload)]
}

/// How many bytes stand before the end of a VIN.
#[tactic(auto, using(crate::proofs::IdentifiedTables::end_within))]
fn end_of(payload: &[u8]) -> usize
    ensures value { result ≡ front_length (position ends_vin payload.now) (length payload.now) }
    ensures within { result ≤ length payload.now }
{
    match end_at(payload) {
        Some(place) => place,
        None => payload.len(),
    }
}

/// Where a VIN ends, if something ends it.
fn end_at(payload: &[u8]) -> Option<usize>
    ensures { result ≡ position ends_vin payload.now }
{
    payload.iter().position(|byte| ends_vin(*byte))
}

/// Whether a VIN ends before this byte: at a `*`, or where bytes are not used.
fn ends_vin(byte: u8) -> bool
    ensures { result ≡ ends_vin byte }
{
    byte == b'*' || byte == 255
}
