ghost use Rattle.std.specs.Prelude.{◌≡◌};
ghost use Rattle.cilk_parser.specs.declared.stop.Stop.TheVariants.{OutOfMemory};

use std::alloc::{AllocError, AllocFailed};

/// Why reading stops: the next token does not fit, or want of memory.
#[derive(Clone, Copy, Debug)]
pub enum Stop {
    Unexpected,
    OutOfMemory,
}

impl From<AllocError> for Stop {
    ghost from_gives = { λ _ e. e ≡ OutOfMemory };

    fn from(_: AllocError) -> Stop {
        Stop::OutOfMemory
    }
}

impl<T: Drop> From<AllocFailed<T>> for Stop {
    ghost from_gives = { λ _ e. e ≡ OutOfMemory };

    fn from(_: AllocFailed<T>) -> Stop {
        Stop::OutOfMemory
    }
}
