use fault_memory::FaultMemory;
use http_server::Log;
use std::marker::Model;

/// What a fault memory held at some time, known to proofs alone. At run time there is nothing of it.
#[derive(Drop)]
pub struct MemoryThen {
    // the memory, or nothing
    held: Log<(), FaultMemory>,
}

impl Model for MemoryThen {
    ghost use Rattle.fault_memory.specs.Memory.{MemoryValue};
    ghost use Rattle.journal.specs.Notes.{memory_held};

    ghost Value = { MemoryValue };

    ghost view = { λ m. memory_held m.held.items };
}

impl MemoryThen {
    ghost use Rattle.std.specs.Prelude.{◌≡◌};
    ghost use Rattle.fault_memory.specs.Memory.{IsLawfulMemory, new_memory};

    /// What this memory holds now.
    #[inline(always)]
    pub fn of(memory: &FaultMemory) -> MemoryThen
        ensures value { result ≡ memory.now }
        ensures lawful { IsLawfulMemory memory.now }
    {
        let _ = memory.lamps();
        MemoryThen {
            held: Log::new().and(&(), memory),
        }
    }

    /// What the memory of a new unit holds.
    #[inline(always)]
    pub(crate) fn new() -> MemoryThen
        ensures { result ≡ new_memory }
    {
        MemoryThen { held: Log::new() }
    }
}

const _: () = prove!(size_of::<MemoryThen>() == 0);
