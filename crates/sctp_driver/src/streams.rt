// The calls of a driver's streams, each named by its identifier.
ghost use Rattle.std.specs.Prelude.{◌≡◌, length, IfErr, IfOk, IfSome, IsErrOf, None, OnErr, OnOk, true};
ghost use Rattle.sctp_streams.specs.declared.setting.Setting.TheVariants as settings;
ghost use Rattle.sctp_streams.specs.Stream.{params_of};
ghost use Rattle.sctp_assoc.specs.Calls.{Refuses, RefusesOrLacksMemory, accepted_stream, adjusted, open_refusal};
ghost use Rattle.sctp_assoc.specs.Calls.{opened, refusal_to_write, stop_takes_memory, stopped, stream_refusal};
ghost use Rattle.sctp_assoc.specs.Calls.{written};
ghost use Rattle.sctp_driver.specs.Driving.{RunsOutOfMemory, with_association};
ghost use Rattle.sctp_driver.specs.Messages.{Reads, ReadFails, index_of, with_message};
ghost use Rattle.sctp_driver.specs.Streams.{asked_of, buffered_on, refusal_to_stop, stream_closed, with_stopped};

use crate::driver::Driver;
use crate::lending;
use crate::messages::{ReadAnswer, find, forget, give, give_new};
use sctp_assoc::{DataChannelStats, Error, PayloadProtocolIdentifier, ReliabilityType, StreamId};

impl Driver {
    /// Makes a stream on this side. What is written on it carries `payload_type` where a write names none. Nothing is
    /// sent for it: the peer sees the stream by its first DATA.
    ///
    /// Refused, in this order with nothing changed: `ErrAssociationFailed`; `ErrStreamAlreadyExist`, also where the
    /// peer opened it; `ErrStreamResetPending` where a reset of it is open or failed; `ErrStreamCreateFailed` where no
    /// generation is left; `ErrNoMemory`.
    pub fn open_stream(
        &mut self,
        id: StreamId,
        payload_type: PayloadProtocolIdentifier,
    ) -> Result<(), Error>
        ensures refused { RefusesOrLacksMemory result (open_refusal self.old.association id) }
        ensures ok { OnOk result
            (self.new ≡ with_association self.old (opened self.old.association id payload_type)) }
        ensures err { OnErr result (self.new ≡ self.old) }
    {
        lending::open_stream(&mut self.association, id, payload_type)
    }

    /// Takes out the identifier of the oldest stream that the peer opened and that was not accepted yet, each once;
    /// None where there is none, or the association failed. Such a stream may have ended since.
    pub fn accept_stream(&mut self) -> Option<StreamId>
        ensures accepted { accepted_stream self.old.association ≡ (self.new.association, result) }
        ensures others { self.new ≡ with_association self.old self.new.association }
    {
        lending::accept_stream(&mut self.association)
    }

    /// Accepts one message under this payload type, or else the stream's, and answers its length, in bytes. The bytes
    /// are copied; they go out with `poll_transmit`, as the windows allow.
    ///
    /// Refused, in this order with nothing changed: `ErrAssociationFailed`; `ErrStreamNotExisted`; `ErrStreamClosed`
    /// where its write half is closed; `ErrPayloadDataStateNotExist` outside Established; `ErrStreamResetPending` where
    /// a reset of it is open or failed, or the peer ended it and it is not read to its end; `ErrEmptyMessage`;
    /// `ErrOutboundPacketTooLarge` for a message that is longer than `max_send_message_size`; `ErrNoMemory`.
    pub fn write(
        &mut self,
        id: StreamId,
        payload_type: Option<PayloadProtocolIdentifier>,
        bytes: &[u8],
    ) -> Result<usize, Error>
        ensures refused { RefusesOrLacksMemory result
            (refusal_to_write self.old.association id (length bytes.now)) }
        ensures ok { IfOk result (λ n. n ≡ length bytes.now) }
        ensures accepted { OnOk result
            (self.new ≡ with_association self.old (written self.old.association id payload_type bytes.now)) }
        ensures err { OnErr result (self.new ≡ self.old) }
    {
        lending::write(&mut self.association, id, payload_type, bytes)
    }

    /// Copies the next message of a stream to the front of the buffer, whole. Where the buffer is shorter the message
    /// stays, and `NoRoom` says how long it is; a later read with a longer buffer gives it, also after a loss of the
    /// association. After `StreamEvent::Readable` read until it answers `Nothing`, or until the stream is gone: where
    /// the peer ended it, it may end with its last message. A message that waits for a longer buffer counts as read.
    /// Poll for datagrams after reads: where a read opens the receive window, the peer is told.
    ///
    /// Refused, in this order: `ErrAssociationFailed`, `ErrStreamNotExisted` and `ErrStreamClosed` (its read half is
    /// closed), with nothing changed, and only where no message of the stream waits in the driver; `ErrNoMemory`, which
    /// leaves the message to be read, or the association failed where the read was to close it or to end a generation
    /// of the stream.
    pub fn read(&mut self, id: StreamId, buffer: &mut [u8]) -> Result<ReadAnswer, Error>
        ensures ok { IfOk result
            (λ answer. Reads (with_message self.old id) id buffer.old answer self.new buffer.new) }
        ensures err { IfErr result (λ error. ReadFails self.old id error self.new) }
        ensures unfilled { OnErr result (buffer.new ≡ buffer.old) }
    {
        match find(&self.kept, id) {
            Some(_) => Ok(give(&mut self.kept, id, buffer)),
            None => self.read_next(id, buffer),
        }
    }

    // Takes the next message of a stream, of which none is kept, out of the association and gives it.
    fn read_next(&mut self, id: StreamId, buffer: &mut [u8]) -> Result<ReadAnswer, Error>
        requires { index_of id self.old.kept ≡ None }
        ensures ok { IfOk result
            (λ answer. Reads (with_message self.old id) id buffer.old answer self.new buffer.new) }
        ensures err { IfErr result (λ error. ReadFails self.old id error self.new) }
        ensures unfilled { OnErr result (buffer.new ≡ buffer.old) }
    {
        self.kept.reserve(1)?;
        match lending::read(&mut self.association, id)? {
            Some(message) => Ok(give_new(&mut self.kept, id, message, buffer)),
            None => Ok(ReadAnswer::Nothing),
        }
    }

    /// Closes the write half of a stream: from then on a write is refused as `ErrStreamClosed`. What was accepted goes
    /// out as it would without that, and the peer isn't told.
    ///
    /// Refused, in this order with nothing changed: `ErrAssociationFailed`, `ErrStreamNotExisted`.
    pub fn finish(&mut self, id: StreamId) -> Result<(), Error>
        ensures refused { Refuses result (stream_refusal self.old.association id) }
        ensures ok { OnOk result
            (self.new ≡ with_association self.old (adjusted self.old.association id settings.WriteHalfClosed)) }
        ensures err { OnErr result (self.new ≡ self.old) }
    {
        lending::finish(&mut self.association, id)
    }

    /// Closes the read half of a stream and asks for a reset of it (RFC 6525 section 5.1, RFC 8831 section 6.7): from
    /// then on a read is refused as `ErrStreamClosed` and a write as `ErrStreamResetPending`, and a message that waits
    /// for a longer buffer is dropped. By `Profile::Rfc` all that is unread is, and so is what still comes of the
    /// stream until it ends. What was accepted goes out, and then the request. Once the peer has reset its
    /// half, too, `StreamEvent::Finished` and `StreamEvent::ResetComplete` tell the end, and the stream can be opened
    /// anew. Where the read half is closed already, nothing is asked for.
    ///
    /// Refused, in this order with nothing changed: `ErrAssociationFailed`, `ErrStreamNotExisted`;
    /// `ErrResetPacketInStateNotExist` outside Established, unless the peer ended the stream and messages of it are
    /// still to be read. `ErrNoMemory` leaves the association failed.
    pub fn stop(&mut self, id: StreamId) -> Result<(), Error>
        ensures refused { RefusesOrLacksMemory result (refusal_to_stop self.old.association id) }
        ensures ok { OnOk result (self.new ≡ with_stopped self.old id (stopped self.old.association id)) }
        ensures unchanged { IfSome (refusal_to_stop self.old.association id) (λ error. self.new ≡ self.old) }
        ensures memory { IsErrOf result Error.ErrNoMemory → RunsOutOfMemory self.old self.new }
        ensures grows { IsErrOf result Error.ErrNoMemory → stop_takes_memory self.old.association id ≡ true }
    {
        lending::stop(&mut self.association, id)?;
        forget(&mut self.kept, id);
        Ok(())
    }

    /// Closes both halves of a stream: the write half as `finish` does, and then the read half as `stop` does. Refused
    /// as `stop` is.
    pub fn close_stream(&mut self, id: StreamId) -> Result<(), Error>
        ensures refused { RefusesOrLacksMemory result (refusal_to_stop self.old.association id) }
        ensures ok { OnOk result (self.new ≡ with_stopped self.old id (stream_closed self.old.association id)) }
        ensures unchanged { IfSome (refusal_to_stop self.old.association id) (λ error. self.new ≡ self.old) }
        ensures memory { IsErrOf result Error.ErrNoMemory → RunsOutOfMemory self.old self.new }
        ensures grows { IsErrOf result Error.ErrNoMemory → stop_takes_memory self.old.association id ≡ true }
    {
        lending::close_stream(&mut self.association, id)?;
        forget(&mut self.kept, id);
        Ok(())
    }

    /// Sets how messages of a stream are sent that are written from now on: in order or not, and how long each is
    /// tried (RFC 3758 sections 3.5 and 4.1). `value` is the greatest number of retransmissions for `Rexmit` and the
    /// lifetime in ms for `Timed`, which begins at the first `poll_transmit` after the write; for `Reliable` it says
    /// nothing. Where the peer does not use FORWARD TSN no message is given up.
    ///
    /// Refused, in this order with nothing changed: `ErrAssociationFailed`, `ErrStreamNotExisted`.
    pub fn set_reliability_params(
        &mut self,
        id: StreamId,
        unordered: bool,
        kind: ReliabilityType,
        value: u32,
    ) -> Result<(), Error>
        ensures refused { Refuses result (stream_refusal self.old.association id) }
        ensures ok { OnOk result (self.new ≡ with_association self.old
            (adjusted self.old.association id (settings.Reliability (params_of unordered kind value)))) }
        ensures err { OnErr result (self.new ≡ self.old) }
    {
        lending::set_reliability_params(&mut self.association, id, unordered, kind, value)
    }

    /// Bytes that were accepted on a stream and are not released: a SACK releases those of the DATA that it
    /// acknowledges, and `poll_transmit` those of messages that it gives up. Nothing changes. Refused:
    /// `ErrAssociationFailed`, `ErrStreamNotExisted`.
    pub fn buffered_amount(&mut self, id: StreamId) -> Result<usize, Error>
        ensures answer { result ≡ buffered_on self.old.association id }
        ensures same { self.new ≡ self.old }
    {
        lending::buffered_amount(&mut self.association, id)
    }

    /// What the stream counted since it was opened: messages of WebRTC application data, and their bytes. Those that
    /// wait in the driver count as read. Nothing changes. Refused: `ErrAssociationFailed`, `ErrStreamNotExisted`.
    pub fn stream_stats(&mut self, id: StreamId) -> Result<DataChannelStats, Error>
        ensures answer { result ≡ asked_of (λ s. s.stats) self.old.association id }
        ensures same { self.new ≡ self.old }
    {
        lending::stream_stats(&mut self.association, id)
    }

    /// The payload type of writes that name none: at first that of `open_stream`, and `Unknown`, which is sent as 0, on
    /// a stream that the peer opened. Nothing changes. Refused: `ErrAssociationFailed`, `ErrStreamNotExisted`.
    pub fn default_payload_type(&mut self, id: StreamId) -> Result<PayloadProtocolIdentifier, Error>
        ensures answer { result ≡ asked_of (λ s. s.default_payload_type) self.old.association id }
        ensures same { self.new ≡ self.old }
    {
        lending::default_payload_type(&mut self.association, id)
    }

    /// Sets it for messages that are written from now on.
    ///
    /// Refused, in this order with nothing changed: `ErrAssociationFailed`, `ErrStreamNotExisted`.
    pub fn set_default_payload_type(
        &mut self,
        id: StreamId,
        payload_type: PayloadProtocolIdentifier,
    ) -> Result<(), Error>
        ensures refused { Refuses result (stream_refusal self.old.association id) }
        ensures ok { OnOk result (self.new
            ≡ with_association self.old (adjusted self.old.association id (settings.DefaultPayloadType payload_type))) }
        ensures err { OnErr result (self.new ≡ self.old) }
    {
        lending::set_default_payload_type(&mut self.association, id, payload_type)
    }

    /// In bytes, at first 0: where a SACK, or a poll that gives messages up, takes the buffered amount from above it to
    /// it or below, that is told as `StreamEvent::BufferedAmountLow`. Nothing changes. Refused: `ErrAssociationFailed`,
    /// `ErrStreamNotExisted`.
    pub fn buffered_amount_low_threshold(&mut self, id: StreamId) -> Result<usize, Error>
        ensures answer { result ≡ asked_of (λ s. s.low_mark) self.old.association id }
        ensures same { self.new ≡ self.old }
    {
        lending::low_mark(&mut self.association, id)
    }

    /// Sets it, in bytes; it tells nothing by itself.
    ///
    /// Refused, in this order with nothing changed: `ErrAssociationFailed`, `ErrStreamNotExisted`.
    pub fn set_buffered_amount_low_threshold(
        &mut self,
        id: StreamId,
        bytes: usize,
    ) -> Result<(), Error>
        ensures refused { Refuses result (stream_refusal self.old.association id) }
        ensures ok { OnOk result (self.new
            ≡ with_association self.old (adjusted self.old.association id (settings.LowMark bytes))) }
        ensures err { OnErr result (self.new ≡ self.old) }
    {
        lending::set_low_mark(&mut self.association, id, bytes)
    }

    /// In bytes, at first the greatest usize: a write that takes the buffered amount from below it to it or above is
    /// told as `StreamEvent::BufferedAmountHigh`. Nothing changes. Refused: `ErrAssociationFailed`,
    /// `ErrStreamNotExisted`.
    pub fn buffered_amount_high_threshold(&mut self, id: StreamId) -> Result<usize, Error>
        ensures answer { result ≡ asked_of (λ s. s.high_mark) self.old.association id }
        ensures same { self.new ≡ self.old }
    {
        lending::high_mark(&mut self.association, id)
    }

    /// Sets it, in bytes; it tells nothing by itself.
    ///
    /// Refused, in this order with nothing changed: `ErrAssociationFailed`, `ErrStreamNotExisted`.
    pub fn set_buffered_amount_high_threshold(
        &mut self,
        id: StreamId,
        bytes: usize,
    ) -> Result<(), Error>
        ensures refused { Refuses result (stream_refusal self.old.association id) }
        ensures ok { OnOk result (self.new
            ≡ with_association self.old (adjusted self.old.association id (settings.HighMark bytes))) }
        ensures err { OnErr result (self.new ≡ self.old) }
    {
        lending::set_high_mark(&mut self.association, id, bytes)
    }
}
