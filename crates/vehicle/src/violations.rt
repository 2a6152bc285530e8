//! Whether a unit answers violations of its address.
ghost use Rattle.std.specs.Prelude.{IfOk, codes};
ghost use Rattle.toml.specs.Data.{get};
ghost use Rattle.toml.specs.View.{view};
ghost use Rattle.vehicle.specs.Live.{HoldsViolationsAt};

use crate::key_error::{KeyFault, KeyPlace, ReadError};
use toml::Value;

/// Whether a unit claims its address again where somebody else sends from it; not where it has no such key.
pub(crate) fn read_violations(place: KeyPlace, value: &Value) -> Result<bool, ReadError<'_>>
    ensures { IfOk result (HoldsViolationsAt (get (codes "answers_violations") (view value.now))) }
{
    let Some(found) = value.get("answers_violations") else {
        return Ok(false);
    };
    match found.as_bool() {
        Some(answers) => Ok(answers),
        None => Err(ReadError::at(place, "answers_violations", KeyFault::NoBool)),
    }
}
