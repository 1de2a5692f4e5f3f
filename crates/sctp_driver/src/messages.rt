// Messages that were taken out of the association and wait for a buffer that is long enough.
ghost use Rattle.std.specs.Prelude.{◌≡◌, ◌++◌, ◌<◌, ◌≤◌, ◌∷◌, [], drop, length, IfSome};
ghost use Rattle.std.specs.VecDeque.{deque_capacity, deque_len};
ghost use Rattle.sctp_driver.specs.Messages.{Gives, GivesNew, index_of, kept_of, message_at, without_message_of};

use sctp_assoc::{Chunks, PayloadProtocolIdentifier, StreamId};
use std::collections::VecDeque;
use std::marker::Model;

/// What `Driver::read` gave.
#[derive(Clone, Copy, Debug, PartialEq, Eq)]
pub enum ReadAnswer {
    /// One message stands in the first `length` bytes of the buffer, whole.
    Message {
        payload_type: PayloadProtocolIdentifier,
        length: usize,
    },
    /// No message of the stream is ready.
    Nothing,
    /// The next message has `length` bytes, more than the buffer. It stays to be read.
    NoRoom {
        length: usize,
    },
}

/// A message that was not read yet, in the pieces that brought it.
#[derive(Drop)]
pub(crate) struct Kept {
    stream: StreamId,
    message: Chunks,
}

impl Model for Kept {
    ghost use Rattle.sctp_receive_queues.specs.Messages.{bytes_left};
    ghost use Rattle.sctp_driver.specs.Driving.{KeptMessage};

    ghost Value = { KeptMessage };

    ghost view = { λ k. record {
      stream = k.stream;
      payload_type = k.message.payload_type;
      bytes = bytes_left k.message;
    } };
}

impl Kept {
    fn new(stream: StreamId, message: Chunks) -> Kept
        ensures { result ≡ kept_of stream message }
    {
        Kept { stream, message }
    }

    fn stream(&self) -> StreamId
        ensures { result ≡ self.now.stream }
    {
        self.stream
    }

    fn payload_type(&self) -> PayloadProtocolIdentifier
        ensures { result ≡ self.now.payload_type }
    {
        self.message.payload_type()
    }

    fn size(&self) -> usize
        ensures { result ≡ length self.now.bytes }
    {
        self.message.len()
    }

    // Copies the message to the front of the buffer.
    fn copy_to(&self, buffer: &mut [u8])
        requires { length self.now.bytes ≤ length buffer.old }
        ensures { buffer.new ≡ self.now.bytes ++ drop (length self.now.bytes) buffer.old }
    {
        self.message.copy_to(buffer);
    }
}

/// Where the first message of this stream stands.
pub(crate) fn find(kept: &VecDeque<Kept>, stream: StreamId) -> Option<usize>
    ensures found { result ≡ index_of stream kept.now.items }
    ensures bound { IfSome result (λ index. index < length kept.now.items) }
{
    kept.iter().position(|message| message.stream() == stream)
}

/// Drops the message of this stream, if there is one.
pub(crate) fn forget(kept: &mut VecDeque<Kept>, stream: StreamId)
    ensures { kept.new.items ≡ without_message_of stream kept.old.items }
{
    if let Some(index) = find(kept, stream) {
        kept.remove(index);
    }
}

/// Gives the first message of this stream where the buffer has room for it; else it stays.
pub(crate) fn give(kept: &mut VecDeque<Kept>, stream: StreamId, buffer: &mut [u8]) -> ReadAnswer
    ensures { Gives stream kept.old.items buffer.old result kept.new.items buffer.new }
{
    let Some(index) = find(kept, stream) else {
        return ReadAnswer::Nothing;
    };
    let length = size_at(kept, index);
    if buffer.len() < length {
        return ReadAnswer::NoRoom { length };
    }
    copy_at(kept, index, buffer);
    let payload_type = payload_type_at(kept, index);
    kept.remove(index);
    ReadAnswer::Message {
        payload_type,
        length,
    }
}

/// Gives a message that was just read where the buffer has room for it; else it is kept. Its bytes go straight from the
/// datagrams that brought them into the buffer.
pub(crate) fn give_new(
    kept: &mut VecDeque<Kept>,
    stream: StreamId,
    message: Chunks,
    buffer: &mut [u8],
) -> ReadAnswer
    requires { deque_len kept.old < deque_capacity kept.old }
    ensures { GivesNew (kept_of stream message) kept.old.items buffer.old result kept.new.items buffer.new }
{
    let length = message.len();
    if buffer.len() < length {
        keep(kept, stream, message);
        return ReadAnswer::NoRoom { length };
    }
    message.copy_to(buffer);
    ReadAnswer::Message {
        payload_type: message.payload_type(),
        length,
    }
}

// Keeps a message behind the others. It stands apart, so that no other message pays for it.
#[cold]
#[inline(never)]
fn keep(kept: &mut VecDeque<Kept>, stream: StreamId, message: Chunks)
    requires { deque_len kept.old < deque_capacity kept.old }
    ensures { kept.new.items ≡ kept.old.items ++ kept_of stream message ∷ [] }
{
    kept.push_back_reserved(Kept::new(stream, message));
}

fn size_at(kept: &VecDeque<Kept>, index: usize) -> usize
    ensures { result ≡ length (message_at kept.now.items index).bytes }
{
    match kept.get(index) {
        Some(message) => message.size(),
        None => 0,
    }
}

fn payload_type_at(kept: &VecDeque<Kept>, index: usize) -> PayloadProtocolIdentifier
    ensures { result ≡ (message_at kept.now.items index).payload_type }
{
    match kept.get(index) {
        Some(message) => message.payload_type(),
        None => PayloadProtocolIdentifier::Unknown,
    }
}

// Copies the message at an index to the front of the buffer.
fn copy_at(kept: &VecDeque<Kept>, index: usize, buffer: &mut [u8])
    requires { length (message_at kept.now.items index).bytes ≤ length buffer.old }
    ensures { buffer.new ≡ (message_at kept.now.items index).bytes
        ++ drop (length (message_at kept.now.items index).bytes) buffer.old }
{
    if let Some(message) = kept.get(index) {
        message.copy_to(buffer);
    }
}
