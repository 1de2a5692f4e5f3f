// The calls of one stream.
ghost use Rattle.std.specs.Prelude.{◌≡◌, ◌↔◌, ◌∷◌, [], length, slice_get, IsNone, IfOk, IfSome, OnErr, OnOk};
ghost use Rattle.std.specs.Prelude.{◌==◌, IfErr, None, Some, not, position, set, true};
ghost use Rattle.sctp_streams.specs.declared.setting.Setting.TheVariants as settings;
ghost use Rattle.sctp_streams.specs.Stream.{is_read_half_open, params_of};
ghost use Rattle.sctp_directions.specs.Acts.{Act};
ghost use Rattle.sctp_assoc.specs.Happened.{acts_of_close_stream, acts_of_read, acts_of_stop};
ghost use Rattle.sctp_assoc.specs.Leads.{LeadsOn};
ghost use Rattle.sctp_assoc.specs.Stream.{lent, lender, id_of};
ghost use Rattle.sctp_assoc.specs.Calls.{LeavesTheOthers, Refuses, RefusesOrLacksMemory, RefusesRead, adjusted};
ghost use Rattle.sctp_assoc.specs.Calls.{RefusesStop, buffered_of, first_filled, gone_refusal, holds_of, is_writable};
ghost use Rattle.sctp_assoc.specs.Calls.{read_from_stream, read_refusal, ready_messages};
ghost use Rattle.sctp_assoc.specs.Calls.{stop_refusal, stopped, value_of, without_first_filled};
ghost use Rattle.sctp_assoc.specs.Calls.{write_refusal, written};

use crate::Association;
use bytes::Bytes;
use sctp_wire_queues::{
    Chunks, DataChannelStats, Error, PayloadProtocolIdentifier, ReliabilityParams, ReliabilityType,
    Setting, StreamId,
};

/// A stream, lent by its association for the calls of one stream. The association can be called again once the loan is
/// over. Where the stream is gone, as after a loss, its calls are refused as `ErrStreamClosed`.
#[derive(Drop)]
pub struct Stream<'a> {
    association: &'a mut Association,
    id: StreamId,
}

impl<'a> Stream<'a> {
    pub(crate) fn new(association: &'a mut Association, id: StreamId) -> Self
        ensures same { lender result ≡ association.entry.ghost_name }
        ensures value { lent result ≡ association.entry.now }
        ensures id { id_of result ≡ id }
    {
        Stream { association, id }
    }

    /// Takes out the next message, whole; None where none is ready. After `StreamEvent::Readable` read until it
    /// answers None; a later Readable may then find nothing. What was read no longer takes room in the receive
    /// buffer, which the next SACK says to the peer. By `Profile::Rfc` that SACK is due at once where the read opens
    /// the window, so call `poll_transmit` after reads.
    ///
    /// A read that gives a message closes the association where nothing that still waits in a full receive buffer can
    /// ever be read; the peer is told by an ABORT then.
    ///
    /// Refused, in this order: `ErrAssociationFailed`, `ErrStreamClosed` where the stream is gone or its read half is
    /// closed, both with nothing changed; `ErrNoMemory`, which leaves the association failed. A read takes memory only
    /// if it closes the association, or if the peer ended the stream and it is not read to its end.
    pub fn read(&mut self) -> Result<Option<Chunks>, Error>
        ensures same { lender self.new ≡ lender self.old }
        ensures id { id_of self.new ≡ id_of self.old }
        ensures refused { RefusesOrLacksMemory result (read_refusal (lent self.old) (id_of self.old)) }
        ensures err { IfErr result (λ error. RefusesRead (lent self.old) (id_of self.old) error (lent self.new)) }
        ensures ok { IfOk result
            (λ message. read_from_stream (lent self.old) (id_of self.old) ≡ (lent self.new, message)) }
        ensures first { IfOk result
            (λ message. message ≡ slice_get (ready_messages (lent self.old) (id_of self.old)) 0) }
        ensures others { OnOk result (LeavesTheOthers (lent self.old) (id_of self.old) (lent self.new)) }
        ensures none { IfOk result
            (λ message. IsNone message ↔ (ready_messages (lent self.old) (id_of self.old) ≡ [])) }
        ensures acts { OnOk result
            (LeadsOn (acts_of_read (lent self.old) (id_of self.old)) (lent self.old) (lent self.new)) }
    {
        self.association.read_stream(self.id)
    }

    /// The same as `read`, under the name of the ported crate.
    pub fn read_sctp(&mut self) -> Result<Option<Chunks>, Error>
        ensures same { lender self.new ≡ lender self.old }
        ensures id { id_of self.new ≡ id_of self.old }
        ensures refused { RefusesOrLacksMemory result (read_refusal (lent self.old) (id_of self.old)) }
        ensures err { IfErr result (λ error. RefusesRead (lent self.old) (id_of self.old) error (lent self.new)) }
        ensures ok { IfOk result
            (λ message. read_from_stream (lent self.old) (id_of self.old) ≡ (lent self.new, message)) }
        ensures first { IfOk result
            (λ message. message ≡ slice_get (ready_messages (lent self.old) (id_of self.old)) 0) }
        ensures others { OnOk result (LeavesTheOthers (lent self.old) (id_of self.old) (lent self.new)) }
        ensures none { IfOk result
            (λ message. IsNone message ↔ (ready_messages (lent self.old) (id_of self.old) ≡ [])) }
        ensures acts { OnOk result
            (LeadsOn (acts_of_read (lent self.old) (id_of self.old)) (lent self.old) (lent self.new)) }
    {
        self.association.read_stream(self.id)
    }

    /// Accepts one message under the stream's payload type and answers its length, in bytes. The bytes are copied;
    /// they go out with `poll_transmit`, as the windows allow, in pieces of the payload size.
    ///
    /// Refused, in this order with nothing changed: `ErrAssociationFailed`; `ErrStreamClosed` where the stream is gone
    /// or its write half is closed; `ErrPayloadDataStateNotExist` outside Established; `ErrStreamResetPending` where a
    /// reset of it is open or failed, or the peer ended it and it is not read to its end; `ErrEmptyMessage`;
    /// `ErrOutboundPacketTooLarge` for a message that is longer than `max_send_message_size`; `ErrNoMemory`.
    pub fn write(&mut self, bytes: &[u8]) -> Result<usize, Error>
        ensures same { lender self.new ≡ lender self.old }
        ensures id { id_of self.new ≡ id_of self.old }
        ensures refused { RefusesOrLacksMemory result
            (write_refusal (lent self.old) (id_of self.old) (length bytes.now)) }
        ensures err { OnErr result (lent self.new ≡ lent self.old) }
        ensures ok { IfOk result (λ n. n ≡ length bytes.now) }
        ensures accepted { OnOk result
            (lent self.new ≡ written (lent self.old) (id_of self.old) None bytes.now) }
        ensures acts { OnOk result (LeadsOn
            (Act.Wrote (id_of self.old) None bytes.now ∷ []) (lent self.old) (lent self.new)) }
    {
        self.association.write_stream(self.id, None, bytes)
    }

    /// The same under this payload type. A message of the type `Dcep` is ordered and reliable whatever the stream says
    /// (RFC 8832 section 6).
    pub fn write_with_ppi(
        &mut self,
        bytes: &[u8],
        ppi: PayloadProtocolIdentifier,
    ) -> Result<usize, Error>
        ensures same { lender self.new ≡ lender self.old }
        ensures id { id_of self.new ≡ id_of self.old }
        ensures refused { RefusesOrLacksMemory result
            (write_refusal (lent self.old) (id_of self.old) (length bytes.now)) }
        ensures err { OnErr result (lent self.new ≡ lent self.old) }
        ensures ok { IfOk result (λ n. n ≡ length bytes.now) }
        ensures accepted { OnOk result
            (lent self.new ≡ written (lent self.old) (id_of self.old) (Some ppi) bytes.now) }
        ensures acts { OnOk result (LeadsOn
            (Act.Wrote (id_of self.old) (Some ppi) bytes.now ∷ []) (lent self.old) (lent self.new)) }
    {
        self.association.write_stream(self.id, Some(ppi), bytes)
    }

    /// The same as `write_with_ppi`, but the bytes are shared and not copied.
    pub fn write_sctp(
        &mut self,
        bytes: &Bytes,
        ppi: PayloadProtocolIdentifier,
    ) -> Result<usize, Error>
        ensures same { lender self.new ≡ lender self.old }
        ensures id { id_of self.new ≡ id_of self.old }
        ensures refused { RefusesOrLacksMemory result
            (write_refusal (lent self.old) (id_of self.old) (length bytes.now)) }
        ensures err { OnErr result (lent self.new ≡ lent self.old) }
        ensures ok { IfOk result (λ n. n ≡ length bytes.now) }
        ensures accepted { OnOk result
            (lent self.new ≡ written (lent self.old) (id_of self.old) (Some ppi) bytes.now) }
        ensures acts { OnOk result (LeadsOn
            (Act.Wrote (id_of self.old) (Some ppi) bytes.now ∷ []) (lent self.old) (lent self.new)) }
    {
        self.association.write_shared(self.id, Some(ppi), bytes)
    }

    /// The same as `write`, but the bytes are shared and not copied.
    pub fn write_chunk(&mut self, bytes: &Bytes) -> Result<usize, Error>
        ensures same { lender self.new ≡ lender self.old }
        ensures id { id_of self.new ≡ id_of self.old }
        ensures refused { RefusesOrLacksMemory result
            (write_refusal (lent self.old) (id_of self.old) (length bytes.now)) }
        ensures err { OnErr result (lent self.new ≡ lent self.old) }
        ensures ok { IfOk result (λ n. n ≡ length bytes.now) }
        ensures accepted { OnOk result
            (lent self.new ≡ written (lent self.old) (id_of self.old) None bytes.now) }
        ensures acts { OnOk result (LeadsOn
            (Act.Wrote (id_of self.old) None bytes.now ∷ []) (lent self.old) (lent self.new)) }
    {
        self.association.write_shared(self.id, None, bytes)
    }

    /// Accepts the first of the buffers that has bytes as one message, as `write_chunk` does, and leaves it empty; the
    /// others are for the calls that follow. Refused as `write` is, with the buffers as they were; where none has
    /// bytes, as `ErrEmptyMessage` is.
    pub fn write_chunks(&mut self, buffers: &mut [Bytes]) -> Result<usize, Error>
        ensures same { lender self.new ≡ lender self.old }
        ensures id { id_of self.new ≡ id_of self.old }
        ensures refused { RefusesOrLacksMemory result
            (write_refusal (lent self.old) (id_of self.old) (length (first_filled buffers.old))) }
        ensures err { OnErr result (lent self.new ≡ lent self.old) }
        ensures ok { IfOk result (λ n. n ≡ length (first_filled buffers.old)) }
        ensures accepted { OnOk result
            (lent self.new ≡ written (lent self.old) (id_of self.old) None (first_filled buffers.old)) }
        ensures acts { OnOk result (LeadsOn
            (Act.Wrote (id_of self.old) None (first_filled buffers.old) ∷ []) (lent self.old) (lent self.new)) }
        ensures left { OnOk result (buffers.new ≡ without_first_filled buffers.old) }
        ensures kept { OnErr result (buffers.new ≡ buffers.old) }
    {
        let Some(index) = first_filled(buffers) else {
            return self.association.write_shared(self.id, None, &Bytes::new());
        };
        let count = self
            .association
            .write_shared(self.id, None, &buffers[index])?;
        buffers[index] = Bytes::new();
        Ok(count)
    }

    /// Closes the write half: from then on a write is refused as `ErrStreamClosed`. What was accepted goes out as it
    /// would without that, and the peer isn't told. Nothing changes where it is closed already.
    ///
    /// Refused, in this order with nothing changed: `ErrAssociationFailed`, `ErrStreamClosed`.
    pub fn finish(&mut self) -> Result<(), Error>
        ensures same { lender self.new ≡ lender self.old }
        ensures id { id_of self.new ≡ id_of self.old }
        ensures refused { Refuses result (gone_refusal (lent self.old) (id_of self.old)) }
        ensures err { OnErr result (lent self.new ≡ lent self.old) }
        ensures ok { OnOk result
            (lent self.new ≡ adjusted (lent self.old) (id_of self.old) settings.WriteHalfClosed) }
        ensures acts { OnOk result (LeadsOn
            (Act.Adjusted (id_of self.old) settings.WriteHalfClosed ∷ []) (lent self.old) (lent self.new)) }
    {
        self.association
            .set_stream(self.id, Setting::WriteHalfClosed)
    }

    /// Closes the read half and asks for a reset of the stream (RFC 6525 section 5.1). Nothing changes where the read
    /// half is closed already. Like a read it can close the association, or open the window.
    ///
    /// By the rules of the RFCs (`Profile::Rfc`) what waits to be read is dropped, and so is what comes until the
    /// stream ends: it is acknowledged, and none of it counts as waiting. By those of the port it goes on waiting,
    /// although it can never be read. Where the peer ended the stream already, both drop it, and no reset is asked for,
    /// by the rules of the RFCs unless something came behind that end: then its next use is reset.
    ///
    /// Refused, in this order with nothing changed: `ErrAssociationFailed`; `ErrStreamClosed` where the stream is gone;
    /// `ErrResetPacketInStateNotExist` outside Established, where no generation of the stream is retiring;
    /// `ErrNoMemory`, which leaves the association failed.
    pub fn stop(&mut self) -> Result<(), Error>
        ensures same { lender self.new ≡ lender self.old }
        ensures id { id_of self.new ≡ id_of self.old }
        ensures refused { RefusesOrLacksMemory result (stop_refusal (lent self.old) (id_of self.old)) }
        ensures err { IfErr result (λ error. RefusesStop (lent self.old) (id_of self.old) error (lent self.new)) }
        ensures ok { OnOk result (lent self.new ≡ stopped (lent self.old) (id_of self.old)) }
        ensures acts { OnOk result
            (LeadsOn (acts_of_stop (lent self.old) (id_of self.old)) (lent self.old) (lent self.new)) }
    {
        self.association.stop_stream(self.id)
    }

    /// Closes the write half as `finish` does, and then the read half as `stop` does. Refused as `stop` is.
    pub fn close(&mut self) -> Result<(), Error>
        ensures same { lender self.new ≡ lender self.old }
        ensures id { id_of self.new ≡ id_of self.old }
        ensures refused { RefusesOrLacksMemory result (stop_refusal (lent self.old) (id_of self.old)) }
        ensures err { IfErr result (λ error. RefusesStop (lent self.old) (id_of self.old) error (lent self.new)) }
        ensures ok { OnOk result
            (lent self.new ≡ stopped (adjusted (lent self.old) (id_of self.old) settings.WriteHalfClosed)
            (id_of self.old)) }
        ensures acts { OnOk result
            (LeadsOn (acts_of_close_stream (lent self.old) (id_of self.old)) (lent self.old) (lent self.new)) }
    {
        self.association.close_stream(self.id)
    }

    /// Sets how messages are sent that are written from now on: in order or not, and how long each is tried (RFC 3758
    /// sections 3.5 and 4.1). `value` is the greatest number of retransmissions for `Rexmit` and the lifetime in ms for
    /// `Timed`, which begins at the first `poll_transmit` after the write; for `Reliable` it says nothing. Where the
    /// peer does not use FORWARD TSN no message is given up. Messages of the payload type `Dcep` are ordered and
    /// reliable whatever is set.
    ///
    /// Refused, in this order with nothing changed: `ErrAssociationFailed`, `ErrStreamClosed`.
    pub fn set_reliability_params(
        &mut self,
        unordered: bool,
        reliability_type: ReliabilityType,
        value: u32,
    ) -> Result<(), Error>
        ensures same { lender self.new ≡ lender self.old }
        ensures id { id_of self.new ≡ id_of self.old }
        ensures refused { Refuses result (gone_refusal (lent self.old) (id_of self.old)) }
        ensures err { OnErr result (lent self.new ≡ lent self.old) }
        ensures ok { OnOk result
            (lent self.new ≡ adjusted (lent self.old) (id_of self.old)
            (settings.Reliability (params_of unordered reliability_type value))) }
        ensures acts { OnOk result (LeadsOn
            (Act.Adjusted (id_of self.old) (settings.Reliability (params_of unordered reliability_type value)) ∷ [])
            (lent self.old) (lent self.new)) }
    {
        let params = ReliabilityParams::of(unordered, reliability_type, value);
        self.association
            .set_stream(self.id, Setting::Reliability(params))
    }

    /// Bytes that were accepted on this generation of the stream and are not released. A SACK releases those of the
    /// DATA that it acknowledges, by its cumulative TSN ack or by a gap ack block, and `poll_transmit` those of
    /// messages that it gives up. Refused, with nothing changed: `ErrAssociationFailed`, `ErrStreamClosed`.
    pub fn buffered_amount(&self) -> Result<usize, Error>
        ensures { result ≡ buffered_of (lent self.now) (id_of self.now) }
    {
        let stream = self.association.live_stream(self.id)?;
        Ok(stream.buffered_amount() as usize)
    }

    /// What this generation of the stream counted so far. Refused: `ErrAssociationFailed`, `ErrStreamClosed`.
    pub fn stats(&self) -> Result<DataChannelStats, Error>
        ensures { result ≡ value_of (λ s. s.stats) (lent self.now) (id_of self.now) }
    {
        Ok(self.association.live_stream(self.id)?.stats())
    }

    /// Whether the read half is open; false where the stream is gone.
    pub fn is_readable(&self) -> bool
        ensures { result ≡ holds_of (λ s. is_read_half_open s.halves) (lent self.now) (id_of self.now) }
    {
        self.association.is_stream_readable(self.id)
    }

    /// Whether the write half is open and no reset of the stream is open; false where the stream is gone. The state of
    /// the association is not asked.
    pub fn is_writable(&self) -> bool
        ensures { result ≡ is_writable (lent self.now) (id_of self.now) }
    {
        self.association.is_stream_writable(self.id)
    }

    /// The stream's identifier.
    pub fn stream_identifier(&self) -> StreamId
        ensures { result ≡ id_of self.now }
    {
        self.id
    }

    /// The payload type of `write`, `write_chunk` and `write_chunks`: at first that of `open_stream`, and `Unknown`,
    /// which is sent as 0, on a stream that the peer opened. Refused: `ErrAssociationFailed`, `ErrStreamClosed`.
    pub fn get_default_payload_type(&self) -> Result<PayloadProtocolIdentifier, Error>
        ensures { result ≡ value_of (λ s. s.default_payload_type) (lent self.now) (id_of self.now) }
    {
        let stream = self.association.live_stream(self.id)?;
        Ok(stream.default_payload_type())
    }

    /// Sets it. Refused, in this order with nothing changed: `ErrAssociationFailed`, `ErrStreamClosed`.
    pub fn set_default_payload_type(
        &mut self,
        default_payload_type: PayloadProtocolIdentifier,
    ) -> Result<(), Error>
        ensures same { lender self.new ≡ lender self.old }
        ensures id { id_of self.new ≡ id_of self.old }
        ensures refused { Refuses result (gone_refusal (lent self.old) (id_of self.old)) }
        ensures err { OnErr result (lent self.new ≡ lent self.old) }
        ensures ok { OnOk result
            (lent self.new ≡ adjusted (lent self.old) (id_of self.old)
            (settings.DefaultPayloadType default_payload_type)) }
        ensures acts { OnOk result (LeadsOn
            (Act.Adjusted (id_of self.old) (settings.DefaultPayloadType default_payload_type) ∷ [])
            (lent self.old) (lent self.new)) }
    {
        self.association
            .set_stream(self.id, Setting::DefaultPayloadType(default_payload_type))
    }

    /// In bytes, at first 0: where a SACK, or a poll that gives messages up, takes the buffered amount from above it to
    /// it or below, that is told as `StreamEvent::BufferedAmountLow`, once for all that it releases. Refused:
    /// `ErrAssociationFailed`, `ErrStreamClosed`.
    pub fn buffered_amount_low_threshold(&self) -> Result<usize, Error>
        ensures { result ≡ value_of (λ s. s.low_mark) (lent self.now) (id_of self.now) }
    {
        Ok(self.association.live_stream(self.id)?.low_mark() as usize)
    }

    /// Sets it, in bytes. Refused, in this order with nothing changed: `ErrAssociationFailed`, `ErrStreamClosed`.
    pub fn set_buffered_amount_low_threshold(&mut self, th: usize) -> Result<(), Error>
        ensures same { lender self.new ≡ lender self.old }
        ensures id { id_of self.new ≡ id_of self.old }
        ensures refused { Refuses result (gone_refusal (lent self.old) (id_of self.old)) }
        ensures err { OnErr result (lent self.new ≡ lent self.old) }
        ensures ok { OnOk result
            (lent self.new ≡ adjusted (lent self.old) (id_of self.old) (settings.LowMark th)) }
        ensures acts { OnOk result (LeadsOn
            (Act.Adjusted (id_of self.old) (settings.LowMark th) ∷ []) (lent self.old) (lent self.new)) }
    {
        self.association
            .set_stream(self.id, Setting::LowMark(th as u64))
    }

    /// In bytes, at first the greatest usize: a write that takes the buffered amount from below it to it or above is
    /// told as `StreamEvent::BufferedAmountHigh`. Refused: `ErrAssociationFailed`, `ErrStreamClosed`.
    pub fn buffered_amount_high_threshold(&self) -> Result<usize, Error>
        ensures { result ≡ value_of (λ s. s.high_mark) (lent self.now) (id_of self.now) }
    {
        Ok(self.association.live_stream(self.id)?.high_mark() as usize)
    }

    /// Sets it, in bytes. Refused, in this order with nothing changed: `ErrAssociationFailed`, `ErrStreamClosed`.
    pub fn set_buffered_amount_high_threshold(&mut self, th: usize) -> Result<(), Error>
        ensures same { lender self.new ≡ lender self.old }
        ensures id { id_of self.new ≡ id_of self.old }
        ensures refused { Refuses result (gone_refusal (lent self.old) (id_of self.old)) }
        ensures err { OnErr result (lent self.new ≡ lent self.old) }
        ensures ok { OnOk result
            (lent self.new ≡ adjusted (lent self.old) (id_of self.old) (settings.HighMark th)) }
        ensures acts { OnOk result (LeadsOn
            (Act.Adjusted (id_of self.old) (settings.HighMark th) ∷ []) (lent self.old) (lent self.new)) }
    {
        self.association
            .set_stream(self.id, Setting::HighMark(th as u64))
    }
}

// Where the first of the buffers is that has bytes: these are what `first_filled` of the contracts gives.
fn first_filled(buffers: &[Bytes]) -> Option<usize>
    ensures some { IfSome result (λ k. slice_get buffers.now k ≡ Some (first_filled buffers.now)) }
    ensures emptied { IfSome result (λ k. set buffers.now k [] ≡ without_first_filled buffers.now) }
    ensures none { IsNone result → first_filled buffers.now ≡ [] }
{
    first_with_bytes(buffers)
}

// The same index, as `position` has it.
fn first_with_bytes(buffers: &[Bytes]) -> Option<usize>
    ensures { result ≡ position (λ bytes. not (length bytes == 0)) buffers.now }
{
    buffers.iter().position(|buffer| !buffer.is_empty())
}
