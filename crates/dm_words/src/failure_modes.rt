ghost use Rattle.std.specs.Prelude.{◌≡◌};
ghost use Rattle.dm_words.specs.FailureModes.{failure_mode_text};

/// What a failure mode is, in words of our own (SAE J1939-73, Appendix A, from memory). It is of no SPN: `above normal` says nothing
/// of what is normal.
pub fn failure_mode_words(fmi: u8) -> &'static str
    ensures { result.now ≡ failure_mode_text fmi }
{
    match fmi {
        0 => "above normal, most severe",
        1 => "below normal, most severe",
        2 => "erratic or incorrect data",
        3 => "voltage above normal or shorted high",
        4 => "voltage below normal or shorted low",
        5 => "current below normal or open circuit",
        6 => "current above normal or grounded",
        7 => "mechanical system not responding",
        8 => "abnormal frequency or pulse width",
        9 => "abnormal update rate",
        10 => "abnormal rate of change",
        11 => "failure mode not identifiable",
        12 => "bad device",
        13 => "out of calibration",
        14 => "special instructions",
        15 => "above normal, least severe",
        16 => "above normal, moderately severe",
        17 => "below normal, least severe",
        18 => "below normal, moderately severe",
        19 => "received network data in error",
        20 => "data drifted high",
        21 => "data drifted low",
        31 => "condition exists",
        _ => "reserved failure mode",
    }
}
