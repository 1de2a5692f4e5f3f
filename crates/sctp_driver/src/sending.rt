// Datagrams that wait to go out.
ghost use Rattle.std.specs.Prelude.{◌≡◌};
ghost use Rattle.sctp_assoc.specs.Gather.{packets_of, bytes_within};
ghost use Rattle.sctp_driver.specs.Messages.{put_front};
ghost use Rattle.sctp_driver.specs.Sending.{Takes};

use bytes::Bytes;
use sctp_assoc::{Payload, Transmit};
use std::alloc::Global;
use std::collections::VecDeque;

/// What `Driver::poll_transmit` gave.
#[derive(Clone, Copy, Debug, PartialEq, Eq)]
pub enum PollAnswer {
    /// One datagram stands in the first `length` bytes of the buffer, and is to be sent.
    Datagram { length: usize },
    /// None is due.
    Nothing,
    /// The next datagram has `length` bytes, more than the buffer. It waits on.
    NoRoom { length: usize },
}

/// The datagrams that an association gave out.
pub(crate) fn packets_in(alloc: Global, given: Option<Transmit>) -> VecDeque<Bytes>
    ensures { result.items ≡ packets_of given }
{
    match given {
        Some(transmit) => packets_within(alloc, transmit.payload),
        None => VecDeque::new(alloc),
    }
}

fn packets_within(alloc: Global, payload: Payload) -> VecDeque<Bytes>
    ensures { result.items ≡ bytes_within payload }
{
    match payload {
        Payload::RawEncode(packets) => VecDeque::from_vec(packets),
        Payload::PartialDecode(_) => VecDeque::new(alloc),
    }
}

/// Takes out the first datagram where the buffer has room for it.
pub(crate) fn take_first(waiting: &mut VecDeque<Bytes>, buffer: &mut [u8]) -> PollAnswer
    ensures { Takes waiting.old.items buffer.old result waiting.new.items buffer.new }
{
    let Some(first) = waiting.front() else {
        return PollAnswer::Nothing;
    };
    let length = first.len();
    if buffer.len() < length {
        return PollAnswer::NoRoom { length };
    }
    fill(buffer, first.as_slice());
    waiting.pop_front();
    PollAnswer::Datagram { length }
}

// Copies the bytes to the front of the buffer; where it is shorter nothing is copied.
fn fill(buffer: &mut [u8], bytes: &[u8])
    ensures { buffer.new ≡ put_front bytes.now buffer.old }
{
    if buffer.len() >= bytes.len() {
        buffer[..bytes.len()].copy_from_slice(bytes);
    }
}
