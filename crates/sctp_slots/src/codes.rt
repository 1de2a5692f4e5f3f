// What a call answers to C, as a number.
ghost use Rattle.std.specs.Prelude.{◌≡◌, ◌↔◌, IsOk};
ghost use Rattle.sctp_slots.specs.Codes.{code_of, refusal_code};

use sctp_driver::Error;

/// The call was done.
pub const DONE: u32 = 0;
/// A slot is empty.
pub const EMPTY_SLOT: u32 = 1;
/// Memory was refused.
pub const NO_MEMORY: u32 = 2;
/// No datagram is due, no event waits, no message is ready, no stream is to be accepted, or no timer runs.
pub const NOTHING: u32 = 3;
/// The buffer is shorter than what is next; the call says how long that is.
pub const NO_ROOM: u32 = 4;
/// A retransmission timeout is 0.
const BAD_TIMEOUT: u32 = 62;
/// A refusal has this and its number, 1 to 23 (`Error::number`).
const REFUSED: u32 = 5;

/// The code of an error.
pub fn refusal_code(error: Error) -> u32
    ensures { result ≡ refusal_code error }
{
    match error {
        Error::ErrNoMemory => NO_MEMORY,
        Error::ErrBadTimeout => BAD_TIMEOUT,
        refused => REFUSED + u32::from(refused.number()),
    }
}

/// The code of a call that gives nothing else.
pub fn code_of(answer: Result<(), Error>) -> u32
    ensures { result ≡ code_of answer }
{
    match answer {
        Ok(()) => DONE,
        Err(error) => refusal_code(error),
    }
}
