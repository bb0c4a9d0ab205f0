ghost use Rattle.std.specs.Prelude.{◌≡◌};
ghost use Rattle.script.specs.declared.fault.LineFault.TheVariants.{NoMemory};

use std::alloc::{AllocError, AllocFailed};

// Why a line is not read.
#[derive(Clone, Copy)]
pub enum LineFault {
    BadLine,
    NoMemory,
}

impl From<AllocError> for LineFault {
    ghost from_gives = { λ _ f. f ≡ NoMemory };

    fn from(_e: AllocError) -> LineFault {
        LineFault::NoMemory
    }
}

impl<T: Drop> From<AllocFailed<T>> for LineFault {
    ghost from_gives = { λ _ f. f ≡ NoMemory };

    fn from(e: AllocFailed<T>) -> LineFault {
        LineFault::from(AllocError::from(e))
    }
}
