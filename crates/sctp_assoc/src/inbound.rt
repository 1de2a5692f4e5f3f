// One datagram, chunk by chunk.
ghost use Rattle.std.specs.Prelude.{◌≡◌, ◌≢◌, ◌⊎◌, ◌∷◌, ◌&&◌, [], true, false, is_ok, OnErr, OnOk, IfOk, Ok, None};
ghost use Rattle.std.specs.Prelude.{if◌then◌else◌};
ghost use Rattle.sctp_wire_types.specs.Config.{is_rfc};
ghost use Rattle.sctp_wire.specs.ChunkLists.{chunks_in};
ghost use Rattle.sctp_wire.specs.Packets.{checked, finished};
ghost use Rattle.sctp_inbound.specs.Receiver.{asked, is_new_to};
ghost use Rattle.sctp_assoc.specs.Inbound.{packet_read, taken_packet};
ghost use Rattle.sctp_assoc.specs.Memory.{chunk_takes_memory, chunks_take_memory, data_takes_memory};
ghost use Rattle.sctp_assoc.specs.Memory.{packet_takes_memory, taking_takes_memory, takes_memory, takes_memory_after};
ghost use Rattle.sctp_assoc.specs.Chunks.{after_chunks, after_packet, dispatched, on_chunk, on_data, asks};
ghost use Rattle.sctp_assoc.specs.Chunks.{asks_or_faults, deferred_where_admitted, goes_unread, ended, goes_on};
ghost use Rattle.sctp_assoc.specs.Chunks.{is_urgent, passed_over, taken_where_admitted, urged_if};
ghost use Rattle.sctp_assoc.specs.Resets.{settled, settling_takes_memory};
ghost use Rattle.sctp_assoc.specs.Closing.{is_exhausted};

use crate::Association;
use sctp_inbound::AckTrigger;
use sctp_wire_queues::{
    AssociationError, Chunk, ChunkPayloadData, CommonHeader, Error, Instant, Packet, PacketChunks,
    PartialDecode, check_packet,
};
use std::alloc::AllocError;

// The types of chunks that who does not know them passes over have this bit (RFC 4960 section 3.2).
const SKIPPABLE: u8 = 0x80;

/// How a packet goes on after one of its chunks.
pub enum Flow {
    /// With the next chunk; the trigger is that of the packet so far.
    Next(AckTrigger),
    /// The chunk is a fault: it ends the packet and closes an open association.
    Fault(Error),
    /// The peer closed at the end of a shutdown: that ends the packet and closes the association.
    Closed,
    /// The receive buffer is exhausted: that ends the packet and closes an open association, and the peer is told.
    Exhausted,
}

impl Association {
    // A datagram that does not decode or is refused as a packet changes nothing. After a loss none is read.
    pub(crate) fn on_datagram(
        &mut self,
        datagram: PartialDecode,
        now: Instant,
    ) -> Result<(), AllocError>
        ensures exact { OnOk result (self.new ≡ after_packet self.old (taken_packet (finished datagram)) now) }
        ensures present { OnErr result (self.old.lost ≡ false) }
    {
        if self.lost {
            return Ok(());
        }
        let read = datagram.finish(self.alloc);
        self.on_read(read, now)
    }

    // What reading a datagram gave. It lacks memory where reading did, or where the packet takes some.
    fn on_read(&mut self, read: Result<Packet, Error>, now: Instant) -> Result<(), AllocError>
        ensures exact { OnOk result (self.new ≡ after_packet self.old (packet_read read) now) }
        ensures was_read { OnOk result (read ≢ Err Error.ErrNoMemory) }
        ensures grows { OnErr result
            ((read ≡ Err Error.ErrNoMemory) ⊎ (packet_takes_memory self.old (packet_read read) now ≡ true)) }
    {
        match read {
            Ok(packet) => self.on_packet(packet, now),
            Err(Error::ErrNoMemory) => Err(AllocError),
            Err(_) => Ok(()),
        }
    }

    fn on_packet(&mut self, packet: Packet, now: Instant) -> Result<(), AllocError>
        ensures exact { OnOk result (self.new ≡ after_packet self.old (taken_packet (Ok packet)) now) }
        ensures present { OnErr result (self.old.lost ≡ false) }
        ensures passed { OnErr result (is_ok (checked packet) ≡ true) }
        ensures grows { OnErr result (packet_takes_memory self.old (taken_packet (Ok packet)) now ≡ true) }
    {
        if self.lost || check_packet(&packet).is_err() {
            return Ok(());
        }
        let Packet {
            common_header,
            chunks,
        } = packet;
        let chunks = chunks.into_chunks();
        self.on_packet_chunks(common_header, chunks, now)
    }

    fn on_packet_chunks(
        &mut self,
        header: CommonHeader,
        chunks: PacketChunks,
        now: Instant,
    ) -> Result<(), AllocError>
        ensures exact { OnOk result (self.new ≡ after_chunks header (chunks_in chunks) self.old AckTrigger.None now) }
        ensures grows { OnErr result
            (chunks_take_memory header (chunks_in chunks) self.old AckTrigger.None now ≡ true) }
    {
        match chunks {
            PacketChunks::One(only) => self.on_only(header, only, now),
            PacketChunks::Several(chunks) => self.on_chunks(header, chunks.into_vec(), now),
        }
    }

    // The chunk of a packet that has no other.
    fn on_only(
        &mut self,
        header: CommonHeader,
        only: [Chunk; 1],
        now: Instant,
    ) -> Result<(), AllocError>
        ensures exact { OnOk result (self.new ≡ after_chunks header only self.old AckTrigger.None now) }
        ensures grows { OnErr result (chunks_take_memory header only self.old AckTrigger.None now ≡ true) }
    {
        let [chunk] = only;
        self.on_only_chunk(header, chunk, now)
    }

    fn on_only_chunk(
        &mut self,
        header: CommonHeader,
        chunk: Chunk,
        now: Instant,
    ) -> Result<(), AllocError>
        ensures exact { OnOk result (self.new ≡ after_chunks header (chunk ∷ []) self.old AckTrigger.None now) }
        ensures grows { OnErr result (chunks_take_memory header (chunk ∷ []) self.old AckTrigger.None now ≡ true) }
    {
        let flow = self.on_chunk(header, chunk, AckTrigger::None, now)?;
        self.end_packet(flow, now)
    }

    // The chunks in order; a fault ends the packet and closes an open association, and so do an exhausted receive
    // buffer and the end of a shutdown.
    fn on_chunks(
        &mut self,
        header: CommonHeader,
        chunks: Vec<Chunk>,
        now: Instant,
    ) -> Result<(), AllocError>
        ensures exact { OnOk result (self.new ≡ after_chunks header chunks.items self.old AckTrigger.None now) }
        ensures grows { OnErr result (chunks_take_memory header chunks.items self.old AckTrigger.None now ≡ true) }
    {
        let mut trigger = AckTrigger::None;
        for chunk in chunks {
            match self.on_chunk(header, chunk, trigger, now)? {
                Flow::Next(next) => trigger = next,
                flow => return self.end_packet(flow, now),
            }
        }
        self.end_packet(Flow::Next(trigger), now)
    }

    // Ends a packet by what its last chunk led to, or the one by which it ends early: the acknowledgement is arranged
    // that the chunks asked for, or an open association is closed, and of an exhausted receive buffer the peer is told.
    fn end_packet(&mut self, flow: Flow, now: Instant) -> Result<(), AllocError>
        ensures exact { OnOk result (self.new ≡ goes_on (self.old, flow) (λ a trigger. ended a trigger now)) }
        ensures grows { OnErr result (takes_memory_after (self.old, flow) (λ a trigger. false) ≡ true) }
    {
        match flow {
            Flow::Next(trigger) => {
                self.receiver.end_of_packet(&mut self.timers, trigger, now);
                Ok(())
            }
            Flow::Fault(_) | Flow::Closed => self.close_with(AssociationError::AssociationClosed),
            Flow::Exhausted => self.exhaust(),
        }
    }

    #[tactic(auto, unfolding(crate::specs::Chunks::on_chunk))]
    fn on_chunk(
        &mut self,
        header: CommonHeader,
        chunk: Chunk,
        trigger: AckTrigger,
        now: Instant,
    ) -> Result<Flow, AllocError>
        ensures exact { IfOk result (λ flow. on_chunk self.old header chunk trigger now ≡ (self.new, flow)) }
        ensures grows { OnErr result (chunk_takes_memory self.old header chunk now ≡ true) }
    {
        if let Err(fault) = chunk.check() {
            return Ok(Flow::Fault(fault));
        }
        self.dispatch(header, chunk, trigger, now)
    }

    #[inline(always)]
    fn dispatch(
        &mut self,
        header: CommonHeader,
        chunk: Chunk,
        trigger: AckTrigger,
        now: Instant,
    ) -> Result<Flow, AllocError>
        ensures exact { IfOk result (λ flow. dispatched self.old header chunk trigger now ≡ (self.new, flow)) }
        ensures grows { OnErr result (takes_memory self.old header chunk now ≡ true) }
    {
        match chunk {
            Chunk::Data(piece) => {
                let urged = self.urged(piece.tsn, trigger);
                self.on_data(piece, urged)
            }
            Chunk::SelectiveAck(sack) => self.on_sack(
                sack.cumulative_tsn_ack,
                &sack.gap_ack_blocks,
                sack.advertised_receiver_window_credit,
                trigger,
                now,
            ),
            Chunk::Init(init) => self.on_init(header, init, trigger),
            Chunk::InitAck(init) => self.on_init_ack(header, init, trigger, now),
            Chunk::CookieEcho(cookie) => self.on_cookie_echo(cookie, trigger),
            Chunk::CookieAck => self.on_cookie_ack(trigger),
            Chunk::Heartbeat(heartbeat) => self.on_heartbeat(heartbeat, trigger),
            Chunk::ForwardTsn(forward) => self.on_forward_tsn(forward, trigger, now),
            Chunk::IForwardTsn(forward) => self.on_i_forward_tsn(forward, trigger, now),
            Chunk::Reconfig(reconfig) => self.on_reconfig(&reconfig, trigger),
            Chunk::Shutdown(_) => Ok(self.on_shutdown(trigger)),
            Chunk::ShutdownAck => Ok(self.on_shutdown_ack(trigger)),
            Chunk::ShutdownComplete => Ok(self.on_shutdown_complete(trigger)),
            Chunk::Abort(_) => Ok(Flow::Fault(Error::ErrAbortChunk)),
            Chunk::Error(_) => Ok(self.pass_chunk(true, Error::ErrAbortChunk, trigger)),
            Chunk::HeartbeatAck(_) => Ok(self.pass_unhandled(true, trigger)),
            Chunk::Other { kind, .. } => Ok(self.pass_unhandled(kind >= SKIPPABLE, trigger)),
        }
    }

    fn pass_unhandled(&self, may_be: bool, trigger: AckTrigger) -> Flow
        ensures { result
            ≡ passed_over (may_be && is_rfc self.now.profile) Error.ErrChunkTypeUnhandled trigger }
    {
        self.pass_chunk(may_be, Error::ErrChunkTypeUnhandled, trigger)
    }

    // By the rules of the RFCs what only tells something ends nothing: an ERROR (RFC 4960 section 3.3.10), and the
    // answer to a HEARTBEAT that was not sent (section 8.3). Nor does a chunk whose type lets it be passed over (section
    // 3.2).
    fn pass_chunk(&self, may_be: bool, fault: Error, trigger: AckTrigger) -> Flow
        ensures { result ≡ passed_over (may_be && is_rfc self.now.profile) fault trigger }
    {
        if may_be && self.is_by_rfcs() {
            Flow::Next(trigger)
        } else {
            Flow::Fault(fault)
        }
    }

    // The trigger of a packet so far, or Immediate where DATA with this TSN is to be acknowledged at once. It is put into
    // its caller, as most chunks are DATA.
    #[inline(always)]
    fn urged(&self, tsn: u32, trigger: AckTrigger) -> AckTrigger
        ensures { result ≡ urged_if (is_urgent self.now tsn) trigger }
    {
        if self.is_urgent(tsn) {
            return AckTrigger::Immediate;
        }
        trigger
    }

    #[inline(always)]
    #[tactic(auto, unfolding(crate::specs::Chunks::is_urgent))]
    fn is_urgent(&self, tsn: u32) -> bool
        ensures { result ≡ is_urgent self.now tsn }
    {
        self.is_by_rfcs() && (self.receiver.held.has_gap() || !self.receiver.is_new(tsn))
    }

    // DATA (RFC 4960 section 6.2). What is new is taken in, in whatever order it comes; without credit only what fills
    // a gap. It is put into its caller, as most chunks are DATA.
    #[inline(always)]
    #[tactic(auto, unfolding(crate::specs::Chunks::on_data))]
    fn on_data(&mut self, piece: ChunkPayloadData, trigger: AckTrigger) -> Result<Flow, AllocError>
        ensures exact { IfOk result (λ flow. on_data self.old piece trigger ≡ (self.new, flow)) }
        ensures grows { OnErr result (data_takes_memory self.old piece ≡ true) }
    {
        self.stats.inc_datas();
        let immediate = piece.immediate_sack;
        if !self.receiver.is_new(piece.tsn) {
            return self.settle_and_ask(trigger, immediate);
        }
        if self.resets.is_hidden(piece.stream_identifier, piece.tsn) {
            let fault = self.defer_where_admitted(piece)?;
            return self.ask_or_fault(fault, trigger, immediate);
        }
        let found = self.find_stream(piece.stream_identifier)?;
        if !found.is_there() {
            return Ok(Flow::Next(trigger));
        }
        let fault = self.take_where_admitted(piece, found.is_left())?;
        self.ask_or_fault(fault, trigger, immediate)
    }

    // Behind DATA that is no fault, a request of the peer that waited for it is performed. It is put into its callers,
    // since nearly all DATA comes here.
    #[inline(always)]
    fn ask_or_fault(
        &mut self,
        fault: Option<Error>,
        trigger: AckTrigger,
        immediate: bool,
    ) -> Result<Flow, AllocError>
        ensures exact { IfOk result (λ flow. asks_or_faults (self.old, fault) immediate trigger ≡ (self.new, flow)) }
        ensures grows { OnErr result (settling_takes_memory self.old ≡ true) }
    {
        match fault {
            Some(fault) => Ok(Flow::Fault(fault)),
            None => self.settle_and_ask(trigger, immediate),
        }
    }

    fn settle_and_ask(&mut self, trigger: AckTrigger, immediate: bool) -> Result<Flow, AllocError>
        ensures exact { IfOk result (λ flow. asks (settled self.old) immediate trigger ≡ (self.new, flow)) }
        ensures grows { OnErr result (settling_takes_memory self.old ≡ true) }
    {
        self.settle()?;
        Ok(self.ask(trigger, immediate))
    }

    // Takes in new DATA of the generation that is read, where credit is left or it fills a gap, and applies the skips
    // that were kept for that generation; answers why its stream refuses it, if it does. Nearly all DATA comes here, so
    // this function is put into its caller, as `take_in` and `hand_over` are.
    #[inline(always)]
    fn take_where_admitted(
        &mut self,
        piece: ChunkPayloadData,
        left: bool,
    ) -> Result<Option<Error>, AllocError>
        requires new { is_new_to self.old.receiver piece.tsn ≡ true }
        requires left { left ≡ goes_unread self.old piece }
        ensures exact { IfOk result (λ fault. taken_where_admitted self.old piece ≡ (self.new, fault)) }
        ensures grows { OnErr result (taking_takes_memory self.old piece ≡ true) }
    {
        if !self.admits(piece.tsn) {
            return Ok(None);
        }
        let id = piece.stream_identifier;
        let fault = self.take_in(piece, left)?;
        if fault.is_none() {
            self.apply_skips_of(id)?;
        }
        Ok(fault)
    }

    // Keeps new DATA of a generation that is not read yet, likewise.
    #[tactic(auto, unfolding(crate::specs::Chunks::deferred_where_admitted))]
    fn defer_where_admitted(&mut self, piece: ChunkPayloadData) -> Result<Option<Error>, AllocError>
        requires { is_new_to self.old.receiver piece.tsn ≡ true }
        ensures { IfOk result (λ fault. deferred_where_admitted self.old piece ≡ (self.new, fault)) }
    {
        if !self.admits(piece.tsn) {
            return Ok(None);
        }
        self.defer(piece)
    }

    // DATA asks to be acknowledged, unless the receive buffer is exhausted.
    pub(crate) fn ask(&self, trigger: AckTrigger, immediate: bool) -> Flow
        ensures { result ≡ (if is_exhausted self.now then Flow.Exhausted else
            Flow.Next (asked self.now.receiver trigger immediate)) }
    {
        if self.is_exhausted() {
            return Flow::Exhausted;
        }
        Flow::Next(self.receiver.ask(trigger, immediate))
    }
}
