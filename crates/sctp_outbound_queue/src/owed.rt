// SSNs of messages that wait, by how much they are to be lowered yet.
ghost use Rattle.std.specs.Prelude.{◌≡◌, ◌==◌, [], ◌∷◌, length, map, false, OnErr, OnOk, IfSome};
ghost use Rattle.sctp_outbound_queue.specs.Message.{moved_down};
ghost use Rattle.sctp_outbound_queue.specs.Owed.{count_of, lowered, lowered_in, owed_to};
ghost use Rattle.sctp_outbound_queue.specs.Waiting.{Waiting};

use crate::{Attributes, PendingMessage};
use sctp_wire_types::StreamId;
use std::alloc::{AllocError, Global};
use std::collections::BTreeMap;

/// Streams and generations of them, each with the number of ordered messages that were dropped: by so many the SSNs of
/// later ones are to be lowered.
#[derive(Drop)]
pub(crate) struct Owed {
    pub(crate) counts: BTreeMap<(StreamId, u64), u16>,
}

impl Owed {
    /// Nothing is owed; takes no memory.
    pub(crate) fn new(alloc: Global) -> Owed
        ensures { result.counts.entries ≡ [] }
    {
        Owed {
            counts: BTreeMap::new(alloc),
        }
    }

    pub(crate) fn is_empty(&self) -> bool
        ensures { result ≡ (length self.now.counts.entries == 0) }
    {
        self.counts.is_empty()
    }

    /// An ordered message was dropped. A number that would reach 2^16 counts as want of memory.
    pub(crate) fn add(&mut self, dropped: &Attributes) -> Result<(), AllocError>
        requires { dropped.now.unordered ≡ false }
        ensures ok { OnOk result ((m : Waiting) → lowered self.new.counts.entries m
            ≡ moved_down dropped.now (lowered self.old.counts.entries m)) }
        ensures err { OnErr result (self.new.counts.entries ≡ self.old.counts.entries) }
    {
        let key = (dropped.stream_identifier, dropped.generation);
        let count = self.count_of(&key);
        if count == u16::MAX {
            return Err(AllocError);
        }
        self.counts.insert(key, count + 1)?;
        Ok(())
    }

    /// Nothing is owed any more, and the memory is given back.
    pub(crate) fn clear(&mut self)
        ensures { self.new.counts.entries ≡ [] }
    {
        self.counts.clear();
    }

    /// Lowers each message by what is owed.
    pub(crate) fn settle(&self, messages: &mut [PendingMessage])
        ensures { messages.new ≡ map (lowered self.now.counts.entries) messages.old }
    {
        match self.only() {
            Some(((stream, generation), count)) => lower_each(messages, stream, generation, count),
            None => self.settle_each(messages),
        }
    }

    // What is owed where it is owed to one generation of one stream.
    fn only(&self) -> Option<((StreamId, u64), u16)>
        ensures { IfSome result (λ only. self.now.counts.entries ≡ only ∷ []) }
    {
        if self.counts.len() != 1 {
            return None;
        }
        let (key, count) = self.counts.first_key_value()?;
        Some((*key, *count))
    }

    fn settle_each(&self, messages: &mut [PendingMessage])
        ensures { messages.new ≡ map (lowered self.now.counts.entries) messages.old }
    {
        for message in messages.iter_mut() {
            self.settle_one(message);
        }
    }

    /// Lowers one.
    pub(crate) fn settle_one(&self, message: &mut PendingMessage)
        ensures { message.new ≡ lowered self.now.counts.entries message.old }
    {
        let count = self.owed_to(&message.message);
        message.lower_by(count);
    }

    /// By how much the SSN of a message is to be lowered.
    pub(crate) fn owed_to(&self, message: &Attributes) -> u16
        ensures { result ≡ owed_to self.now.counts.entries message.now }
    {
        if message.unordered {
            return 0;
        }
        self.count_of(&(message.stream_identifier, message.generation))
    }

    fn count_of(&self, key: &(StreamId, u64)) -> u16
        ensures { result ≡ count_of self.now.counts.entries key.now }
    {
        match self.counts.get(key) {
            Some(count) => *count,
            None => 0,
        }
    }
}

/// Lowers the SSN of each ordered message of a generation of a stream.
// A function of its own, which keeps what it compares with in registers.
#[inline(never)]
pub(crate) fn lower_each(
    messages: &mut [PendingMessage],
    stream: StreamId,
    generation: u64,
    count: u16,
)
    ensures { messages.new ≡ map (lowered_in stream generation count) messages.old }
{
    for message in messages.iter_mut() {
        message.lower_in(stream, generation, count);
    }
}
