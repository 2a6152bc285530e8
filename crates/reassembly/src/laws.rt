ghost use Rattle.std.specs.Prelude.{◌≡◌, ◌≢◌, ℕ, ◌∷◌, [], Bool, List, Option, Some, false, length, suc, true};
ghost use Rattle.reassembly.specs.Pacing.{fate_of, is_over_if, packet_number, paced, step_of};
ghost use Rattle.reassembly.specs.Partials.{PartialValue};
ghost use Rattle.reassembly.specs.Times.{IsLastMoment, both_read, first_read, held_once, held_on, let_come};
ghost use Rattle.reassembly.specs.declared.paces.Fate.{Fate as AnyFate};
ghost use Rattle.reassembly.specs.declared.paces.Fate.TheVariants as fate;
ghost use Rattle.reassembly.specs.declared.pacing.Pace.{Pace as AnyPace};
ghost use Rattle.reassembly.specs.declared.pacing.Silence.{Silence as AnySilence};
ghost use Rattle.reassembly.specs.declared.pacing.Step.TheVariants.{Cts, Packet};

/// The last moment of each frame, by the standard's times (SAE J1939-21, 5.10.3): T1 from packet to packet, T2 from a clear to send
/// to a packet, T3 to a clear to send, T4 to the one behind a hold; and where a clear to send was not read, its time and T2.
pub fn each_frame_has_its_last_moment()
    ensures broadcast { IsLastMoment true [] (Packet 1) 750000 }
    ensures broadcast_next { IsLastMoment true ((750000, Packet 1) ∷ []) (Packet 2) 1500000 }
    ensures first_cts { IsLastMoment false [] (Cts 2 1) 1250000 }
    ensures unread_cts { IsLastMoment false [] (Packet 1) 2500000 }
    ensures other_cts { IsLastMoment false let_come (Cts 2 1) 1260000 }
    ensures granted { IsLastMoment false let_come (Packet 1) 1260000 }
    ensures cts_between { IsLastMoment false first_read (Cts 2 1) 1270000 }
    ensures packet { IsLastMoment false first_read (Packet 2) 770000 }
    ensures next_cts { IsLastMoment false both_read (Cts 2 3) 1280000 }
    ensures unread_next_cts { IsLastMoment false both_read (Packet 3) 2530000 }
    ensures end_of_hold { IsLastMoment false held_once (Cts 2 1) 1060000 }
    ensures unread_end_of_hold { IsLastMoment false held_once (Packet 1) 2310000 }
    ensures held_on { IsLastMoment false held_on (Cts 2 1) 2550000 }
{}

/// A packet that is the next one, and not late, is read, whatever was asked for.
#[tactic(auto, using(crate::proofs::Paced::next_is_read))]
pub fn the_next_packet_is_read()
    ensures { (silence : AnySilence) (now : Option ℕ) (bytes : List ℕ) (pace : Option AnyPace) (half : PartialValue ℕ) → packet_number bytes ≡ suc (length half.pieces) → is_over_if (paced silence now (step_of bytes) pace) ≡ false
        → fate_of silence now bytes pace (Some half) ≡ fate.Read }
{}
