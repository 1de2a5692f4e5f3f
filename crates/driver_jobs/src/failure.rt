// What ends a job before it is done.
use sctp_driver::Error;
use std::alloc::{AllocError, AllocFailed};
use thiserror::Error as ThisError;

/// Why a job ends before it is done. It is small, so that the jobs' own calls cost little beside those of a driver.
#[derive(Clone, Copy, Debug, PartialEq, Eq, ThisError)]
pub enum Failure {
    #[error("memory is used up")]
    Memory,
    #[error("a call of a driver was refused: {0}")]
    Refused(Error),
    #[error("the sides did not connect")]
    NotConnected,
    #[error("the channel has no room")]
    NoRoom,
    #[error("a message was not read")]
    NotRead,
    #[error("an association did not end")]
    NotEnded,
}

impl From<Error> for Failure {
    fn from(error: Error) -> Failure {
        Failure::Refused(error)
    }
}

impl From<AllocError> for Failure {
    fn from(_: AllocError) -> Failure {
        Failure::Memory
    }
}

impl<T: Drop> From<AllocFailed<T>> for Failure {
    fn from(_: AllocFailed<T>) -> Failure {
        Failure::Memory
    }
}
