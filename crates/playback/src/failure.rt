// What can go wrong on the way to a report: a fault of the trace, or want of memory.
ghost use Rattle.std.specs.Prelude.{◌≡◌};
ghost use Rattle.playback.specs.declared.failure.Failure.TheVariants.{Faulty, Memory};

use fault::Fault;
use std::alloc::AllocError;

#[derive(Clone, Copy, Debug, PartialEq, Eq)]
pub enum Failure {
    Faulty(Fault),
    Memory,
}

impl From<Fault> for Failure {
    ghost from_gives = { λ e r. r ≡ Faulty e };

    fn from(e: Fault) -> Failure {
        Failure::Faulty(e)
    }
}

impl From<AllocError> for Failure {
    ghost from_gives = { λ _ r. r ≡ Memory };

    fn from(_e: AllocError) -> Failure {
        Failure::Memory
    }
}
