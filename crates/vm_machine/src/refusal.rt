//! Why a machine refuses something.

use std::alloc::AllocError;

/// Why something was refused. What was refused changed nothing, but that a run which was to end is
/// gone where memory ran out.
#[derive(Clone, Copy, Debug, PartialEq, Eq)]
pub enum Refusal {
    /// More than 4,194,304 rows would wait to be written, or 4,096 batches do.
    PendingFull,
    /// 64 runs are open.
    ViewsFull,
    /// No run of this number is open.
    UnknownRun { run: u64 },
    /// A run of this number is open.
    RunTaken { run: u64 },
    /// Memory ran out.
    Memory,
}

impl From<AllocError> for Refusal {
    ghost use Rattle.std.specs.Prelude.{◌≡◌};
    ghost use Rattle.vm_machine.specs.declared.refusal.Refusal.TheVariants.{Memory};

    ghost from_gives = { λ _ refusal. refusal ≡ Memory };

    fn from(_: AllocError) -> Refusal {
        Refusal::Memory
    }
}
