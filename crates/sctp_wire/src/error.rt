// The two ways in which reading or writing fails.
ghost use Rattle.std.specs.Prelude.{◌≡◌};
ghost use Rattle.sctp_wire.specs.declared.error.WireError.TheVariants.{NoMemory};
ghost use Rattle.sctp_wire.specs.Results.{error_of};

use sctp_wire_types::{Error, Fault};
use std::alloc::{AllocError, AllocFailed};

/// Why bytes were not read or a value was not written.
#[derive(Clone, Copy, Debug, PartialEq, Eq)]
pub(crate) enum WireError {
    NoMemory,
    Malformed(Fault),
}

impl From<WireError> for Error {
    ghost from_gives = { λ w e. e ≡ error_of w };

    fn from(error: WireError) -> Error {
        match error {
            WireError::NoMemory => Error::ErrNoMemory,
            WireError::Malformed(fault) => Error::Malformed(fault),
        }
    }
}

impl From<AllocError> for WireError {
    ghost from_gives = { λ _ e. e ≡ NoMemory };

    fn from(_: AllocError) -> WireError {
        WireError::NoMemory
    }
}

impl<T: Drop> From<AllocFailed<T>> for WireError {
    ghost from_gives = { λ _ e. e ≡ NoMemory };

    fn from(_failed: AllocFailed<T>) -> WireError {
        WireError::NoMemory
    }
}
