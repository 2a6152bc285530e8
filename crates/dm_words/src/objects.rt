use crate::failure_modes::failure_mode_words;
use crate::lamps::LampBytes;
use dm_messages::Trouble;
use json::Writer;
use std::alloc::{AllocError, Global};
use trouble_code::{Dtc, Lamps};

/// The occurrence count that stands for not available (SAE J1939-73).
pub const NO_COUNT: u8 = 127;

/// Writes a key and its number.
///
/// # Errors
/// Memory was refused.
pub fn put_number(json: &mut Writer, key: &str, number: u64) -> Result<(), AllocError> {
    json.key(key)?;
    json.u64(number)
}

/// Writes the key `lamps` and the two bytes of lamps in four digits.
///
/// # Errors
/// Memory was refused.
pub fn put_lamps(json: &mut Writer, alloc: Global, lamps: Lamps) -> Result<(), AllocError> {
    let text = LampBytes(lamps).to_string(alloc)?;
    json.key("lamps")?;
    json.string(text.as_str())
}

/// Writes a code as an object: its SPN, FMI and count, which is null where it is not available, its text where it has
/// one, and what its FMI says.
///
/// # Errors
/// Memory was refused.
pub fn put_code(json: &mut Writer, code: Dtc, text: Option<&str>) -> Result<(), AllocError> {
    json.begin_object()?;
    put_number(json, "spn", u64::from(code.spn()))?;
    put_number(json, "fmi", u64::from(code.fmi()))?;
    json.key("count")?;
    if code.count() == NO_COUNT {
        json.null()?;
    } else {
        json.u64(u64::from(code.count()))?;
    }
    if let Some(text) = text {
        json.key("text")?;
        json.string(text)?;
    }
    json.key("fmi_text")?;
    json.string(failure_mode_words(code.fmi()))?;
    json.end_object()
}

/// Writes the key `not_read` and what of a message that was read in part is not read, each sort with its number.
///
/// # Errors
/// Memory was refused.
pub fn put_trouble(json: &mut Writer, trouble: Trouble) -> Result<(), AllocError> {
    json.key("not_read")?;
    json.begin_object()?;
    for (key, count) in trouble_keys(trouble) {
        put_number(json, key, count)?;
    }
    json.end_object()
}

/// What is amiss with a message that was read in part, each sort with its key.
pub fn trouble_keys(trouble: Trouble) -> [(&'static str, u64); 6] {
    [
        ("padding", u64::from(trouble.padding)),
        ("zeros", u64::from(trouble.no_code)),
        ("older", u64::from(trouble.older)),
        ("converted", u64::from(trouble.converted)),
        ("bytes_behind", u64::from(trouble.behind)),
        ("bytes_missing", u64::from(trouble.missing)),
    ]
}
