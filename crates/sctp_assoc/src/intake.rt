// DATA that comes goes to its stream, or is kept for a later generation of it (RFC 4960 section 6.2).
ghost use Rattle.std.specs.Prelude.{◌≡◌, true, false, OnErr, OnOk, IfOk, Ok, None, if◌then◌else◌, is_some};
ghost use Rattle.sctp_inbound.specs.Receiver.{admits, is_new_to};
ghost use Rattle.sctp_streams.specs.Streams.{refusal_in, stream_at};
ghost use Rattle.sctp_assoc.specs.Memory.{makes_stream};
ghost use Rattle.sctp_assoc.specs.Chunks.{deferred, stream_found, goes_unread, handed_over, intake_refusal, is_left};
ghost use Rattle.sctp_assoc.specs.Chunks.{is_there, left_unread, nobody_reads, taken_in};
ghost use Rattle.sctp_assoc.specs.Shown.{all_waiting};

use crate::Association;
use sctp_wire_queues::{ChunkPayloadData, Error, Event, PayloadProtocolIdentifier, StreamEvent};
use std::alloc::AllocError;

/// How the stream stands to which new DATA comes.
#[derive(Clone, Copy, Debug)]
pub(crate) enum Found {
    /// It is not live.
    Absent,
    /// It is live, and what comes is delivered to it.
    Read,
    /// It is live, and by the rules of the RFCs nobody reads it any more.
    Left,
}

impl Found {
    // Whether it is live.
    pub(crate) fn is_there(self) -> bool
        ensures { result ≡ is_there self }
    {
        !matches!(self, Found::Absent)
    }

    // Whether it is live and nobody reads it any more.
    pub(crate) fn is_left(self) -> bool
        ensures { result ≡ is_left self }
    {
        matches!(self, Found::Left)
    }
}

impl Association {
    // How the stream stands, which is made where it is missing. It is absent then only where no generation is left. Each
    // new DATA comes here, so this function is put into its callers.
    #[inline(always)]
    #[tactic(auto, unfolding(crate::specs::Finding::stream_found))]
    pub(crate) fn find_stream(&mut self, id: u16) -> Result<Found, AllocError>
        ensures exact { IfOk result (λ found. stream_found self.old id ≡ (self.new, is_there found)) }
        ensures left { IfOk result (λ found. is_left found ≡ nobody_reads self.old.profile self.old.streams id) }
        ensures grows { OnErr result (makes_stream self.old id ≡ true) }
    {
        match self.found(id) {
            Found::Absent => {
                if self.make_stream(id)? {
                    Ok(Found::Read)
                } else {
                    Ok(Found::Absent)
                }
            }
            Found::Read => Ok(Found::Read),
            Found::Left => Ok(Found::Left),
        }
    }

    // How the stream of an identifier stands, as it is.
    #[tactic(auto, unfolding(crate::specs::Chunks::nobody_reads))]
    fn found(&self, id: u16) -> Found
        ensures there { is_there result ≡ is_some (stream_at self.now.streams id) }
        ensures left { is_left result ≡ nobody_reads self.now.profile self.now.streams id }
    {
        let is_by_rfcs = self.is_by_rfcs();
        let Some(stream) = self.streams.get(id) else {
            return Found::Absent;
        };
        if is_by_rfcs && !stream.is_read_half_open() {
            Found::Left
        } else {
            Found::Read
        }
    }

    // Makes the stream that is missing, for the application to accept; false where no generation is left for it.
    #[tactic(auto, unfolding(crate::specs::Finding::stream_found))]
    fn make_stream(&mut self, id: u16) -> Result<bool, AllocError>
        requires { is_some (stream_at self.old.streams id) ≡ false }
        ensures exact { IfOk result (λ made. stream_found self.old id ≡ (self.new, made)) }
        ensures grows { OnErr result (makes_stream self.old id ≡ true) }
    {
        let first_message_id = self.sender.queue.next_message_id();
        let payload_type = PayloadProtocolIdentifier::Unknown;
        match self
            .streams
            .make(self.alloc, id, first_message_id, payload_type)
        {
            Ok(()) => {}
            Err(Error::ErrStreamCreateFailed) => return Ok(false),
            Err(_) => return Err(AllocError),
        }
        self.to_accept.push_back(id)?;
        self.tell(Event::Stream(StreamEvent::Opened { id }))?;
        Ok(true)
    }

    // Keeps DATA of a generation that is not read yet; answers why that refuses it, if it does.
    pub(crate) fn defer(&mut self, piece: ChunkPayloadData) -> Result<Option<Error>, AllocError>
        requires { is_new_to self.old.receiver piece.tsn ≡ true }
        ensures { IfOk result (λ fault. deferred self.old piece ≡ (self.new, fault)) }
    {
        let limit = self.receiver.max_receive_message_size;
        if let Some(fault) = self.resets.refusal(&piece, limit)? {
            return Ok(Some(fault));
        }
        self.receiver.take(piece.tsn)?;
        self.resets.defer(piece)?;
        Ok(None)
    }

    // Takes in a new piece: it is left where nobody reads its stream, and else handed over to that; answers why the
    // stream refuses it, if it does.
    #[inline(always)]
    #[tactic(auto, unfolding(crate::specs::Chunks::taken_in))]
    pub(crate) fn take_in(
        &mut self,
        piece: ChunkPayloadData,
        left: bool,
    ) -> Result<Option<Error>, AllocError>
        requires new { is_new_to self.old.receiver piece.tsn ≡ true }
        requires left { left ≡ goes_unread self.old piece }
        ensures exact { IfOk result (λ fault. taken_in self.old piece ≡ (self.new, fault)) }
        ensures grows { OnErr result (intake_refusal self.old piece ≡ None) }
    {
        if left {
            self.leave_unread(piece)?;
            return Ok(None);
        }
        self.hand_over(piece)
    }

    // A piece of a stream that nobody reads any more is held as having come, and its bytes are dropped.
    #[cold]
    #[inline(never)]
    fn leave_unread(&mut self, piece: ChunkPayloadData) -> Result<(), AllocError>
        requires { is_new_to self.old.receiver piece.tsn ≡ true }
        ensures { OnOk result (self.new ≡ left_unread self.old piece) }
    {
        self.receiver.take(piece.tsn)?;
        self.tell(Event::DatagramReceived)?;
        Ok(())
    }

    // Hands a new piece to its stream and then moves the last TSN in order; answers why the stream refuses it, if it
    // does: a message that is longer than the limit is a refusal. What the stream refuses isn't held, and lacks no
    // memory.
    #[inline(always)]
    #[tactic(auto, using(crate::proofs::MemoryTaken::not_for_memory))]
    fn hand_over(&mut self, piece: ChunkPayloadData) -> Result<Option<Error>, AllocError>
        requires { is_new_to self.old.receiver piece.tsn ≡ true }
        ensures exact { IfOk result (λ fault. handed_over self.old piece ≡ (self.new, fault)) }
        ensures grows { OnErr result (refusal_in self.old.streams piece.stream_identifier piece
            self.old.receiver.max_receive_message_size ≡ None) }
    {
        let id = piece.stream_identifier;
        let tsn = piece.tsn;
        let limit = self.receiver.max_receive_message_size;
        let kept = match self.streams.push(id, piece, limit) {
            Ok(kept) => kept,
            Err(Error::ErrNoMemory) => return Err(AllocError),
            Err(fault) => return Ok(Some(fault)),
        };
        self.receiver.take(tsn)?;
        self.tell(Event::DatagramReceived)?;
        if kept && self.streams.is_readable(id) {
            self.tell(Event::Stream(StreamEvent::Readable { id }))?;
        }
        Ok(None)
    }

    pub(crate) fn admits(&self, tsn: u32) -> bool
        ensures { result ≡ admits self.now.receiver tsn (all_waiting self.now) }
    {
        let waiting = self.waiting_bytes();
        self.receiver.credit(waiting) > 0 || self.admits_without_credit(tsn, waiting)
    }

    // It stands apart, so that new DATA does not pay for it where credit is left.
    #[cold]
    #[inline(never)]
    fn admits_without_credit(&self, tsn: u32, waiting: u64) -> bool
        ensures { result ≡ admits self.now.receiver tsn waiting }
    {
        self.receiver.admits(tsn, waiting)
    }
}
