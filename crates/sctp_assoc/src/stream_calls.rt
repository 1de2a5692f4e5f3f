// What an association does for the calls of its streams.
ghost use Rattle.std.specs.Prelude.{◌≡◌, ◌↔◌, ◌∷◌, [], length, slice_get, IsNone, IfErr, IfOk, OnErr, OnOk, true};
ghost use Rattle.std.specs.Prelude.{Some, false};
ghost use Rattle.sctp_wire_types.specs.Config.{is_rfc};
ghost use Rattle.sctp_streams.specs.Stream.{is_read_half_open};
ghost use Rattle.sctp_streams.specs.declared.setting.Setting.TheVariants as settings;
ghost use Rattle.sctp_streams.specs.Streams.{is_readable_in, stream_at};
ghost use Rattle.sctp_resets.specs.Resets.{is_retiring};
ghost use Rattle.sctp_directions.specs.Acts.{Act};
ghost use Rattle.sctp_assoc.specs.Happened.{acts_of_close_stream, acts_of_read, acts_of_stop};
ghost use Rattle.sctp_assoc.specs.Leads.{LeadsOn};
ghost use Rattle.sctp_assoc.specs.Calls.{LeavesTheOthers, Refuses, RefusesOrLacksMemory, RefusesRead, adjusted};
ghost use Rattle.sctp_assoc.specs.Calls.{RefusesStop, credit_in, drained_behind, eased, eased_if, gone_refusal};
ghost use Rattle.sctp_assoc.specs.Calls.{holds_of, is_writable, tells_window, told_if};
ghost use Rattle.sctp_assoc.specs.Calls.{read_from_stream, read_refusal, read_takes_memory, ready_messages};
ghost use Rattle.sctp_assoc.specs.Calls.{stop_refusal, stopped, stopped_open, unread_dropped};
ghost use Rattle.sctp_assoc.specs.Calls.{with_queued, write_refusal, written};
ghost use Rattle.sctp_assoc.specs.Closing.{exhausted, is_exhausted, relieved};
ghost use Rattle.sctp_assoc.specs.Shown.{HasFailed, answers_of};

use crate::Association;
use bytes::Bytes;
use sctp_parts::state::AssociationState;
use sctp_parts::timer::Timer;
use sctp_wire_queues::{
    Attributes, Chunks, Error, Event, PayloadProtocolIdentifier, PendingMessage, Profile, Setting,
    StreamEvent, StreamId, StreamState, cut,
};
use std::alloc::AllocError;

impl Association {
    pub(crate) fn read_stream(&mut self, id: StreamId) -> Result<Option<Chunks>, Error>
        ensures refused { RefusesOrLacksMemory result (read_refusal self.old id) }
        ensures err { IfErr result (λ error. RefusesRead self.old id error self.new) }
        ensures ok { IfOk result (λ message. read_from_stream self.old id ≡ (self.new, message)) }
        ensures first { IfOk result (λ message. message ≡ slice_get (ready_messages self.old id) 0) }
        ensures others { OnOk result (LeavesTheOthers self.old id self.new) }
        ensures none { IfOk result (λ message. IsNone message ↔ (ready_messages self.old id ≡ [])) }
        ensures acts { OnOk result (LeadsOn (acts_of_read self.old id) self.old self.new) }
    {
        let is_ready = self.check_read(id)?;
        self.read_next(id, is_ready)
    }

    // Nothing is looked at and nothing changes where no message is ready and no generation of the stream ended.
    #[tactic(auto, using(crate::proofs::StreamReads::nothing_is_read))]
    fn read_next(&mut self, id: StreamId, is_ready: bool) -> Result<Option<Chunks>, Error>
        requires { is_ready ≡ is_readable_in self.old.streams id }
        ensures ok { IfOk result (λ message. read_from_stream self.old id ≡ (self.new, message)) }
        ensures err { IfErr result (λ e. (e ≡ Error.ErrNoMemory) × (read_takes_memory self.old id ≡ true)
            × HasFailed (answers_of self.old) self.new) }
    {
        if self.resets.is_retiring(id) {
            return self.read_retiring(id);
        }
        if !is_ready {
            return Ok(None);
        }
        self.read_plainly(id)
    }

    // Takes the next message out where no generation of the stream ended, and closes where that leaves the receive
    // buffer exhausted, or tells the window where that opened it.
    #[tactic(auto, using(crate::proofs::StreamReads::plain_read_takes_memory))]
    fn read_plainly(&mut self, id: StreamId) -> Result<Option<Chunks>, Error>
        requires { is_retiring self.old.resets id ≡ false }
        ensures ok { IfOk result (λ message. read_from_stream self.old id ≡ (self.new, message)) }
        ensures err { IfErr result (λ e. (e ≡ Error.ErrNoMemory) × (read_takes_memory self.old id ≡ true)
            × HasFailed (answers_of self.old) self.new) }
    {
        let credit = self.credit();
        let message = self.streams.read(id);
        self.ease_if(message.is_some(), credit)?;
        Ok(message)
    }

    // The same where one ended. It stands apart, so that reads of all other streams don't pay for it.
    #[cold]
    #[inline(never)]
    fn read_retiring(&mut self, id: StreamId) -> Result<Option<Chunks>, Error>
        ensures ok { IfOk result (λ message. read_from_stream self.old id ≡ (self.new, message)) }
        ensures err { IfErr result (λ e. (e ≡ Error.ErrNoMemory) × (read_takes_memory self.old id ≡ true)
            × HasFailed (answers_of self.old) self.new) }
    {
        let credit = self.credit();
        let message = self.streams.read(id);
        let before = self.answers();
        if self.read_out(id).is_err() {
            self.fail(before);
            return Err(Error::ErrNoMemory);
        }
        if message.is_some() {
            self.ease(credit)?;
        }
        Ok(message)
    }

    // Ends the generations of the stream that ended and of which nothing waits.
    #[tactic(auto, using(sctp_resets::proofs::FrontWaits::none_waits))]
    fn read_out(&mut self, id: StreamId) -> Result<(), AllocError>
        ensures exact { OnOk result (self.new ≡ drained_behind self.old id self.old.streams) }
        ensures grows { OnErr result (is_retiring self.old.resets id ≡ true) }
    {
        self.waiting_in_front = 0;
        self.resets.read_out(
            id,
            &mut self.streams,
            &mut self.events,
            &mut self.to_accept,
            self.sender.queue.next_message_id(),
            self.receiver.max_receive_message_size,
        )
    }

    // Refuses a read for any reason but memory; answers whether a message is ready.
    fn check_read(&self, id: StreamId) -> Result<bool, Error>
        ensures refused { Refuses result (read_refusal self.now id) }
        ensures ready { IfOk result (λ ready. ready ≡ is_readable_in self.now.streams id) }
    {
        self.check_usable()?;
        match self.streams.get(id) {
            Some(stream) if stream.is_read_half_open() => Ok(stream.is_readable()),
            _ => Err(Error::ErrStreamClosed),
        }
    }

    // The same as `ease` after a read that gave a message; else nothing.
    fn ease_if(&mut self, gave: bool, before: u32) -> Result<(), Error>
        ensures ok { OnOk result (self.new ≡ eased_if gave before self.old) }
        ensures err { IfErr result (λ e. (e ≡ Error.ErrNoMemory) × (gave ≡ true) × (is_exhausted self.old ≡ true)
            × HasFailed (answers_of self.old) self.new) }
    {
        if gave {
            return self.ease(before);
        }
        Ok(())
    }

    // Behind a read that gave a message, or a stop: closes where the receive buffer is exhausted, and tells the window
    // where it opened. `before` was the credit before the call.
    fn ease(&mut self, before: u32) -> Result<(), Error>
        ensures ok { OnOk result (self.new ≡ eased before self.old) }
        ensures err { IfErr result (λ e. (e ≡ Error.ErrNoMemory) × (is_exhausted self.old ≡ true)
            × HasFailed (answers_of self.old) self.new) }
    {
        self.relieve()?;
        self.tell_window(before);
        Ok(())
    }

    // An acknowledgement goes out with the next poll where the window opened.
    fn tell_window(&mut self, before: u32)
        ensures { self.new ≡ told_if (tells_window before self.old) self.old }
    {
        if self.tells_window(before) {
            self.receiver.acknowledge_at_once();
            self.timers.stop(Timer::Ack);
        }
    }

    // Whether the peer is told at once of a window that opened: by the RFCs, while DATA may come, where the credit was
    // below the lesser of two packets and half of the buffer, and no longer is.
    #[tactic(auto, unfolding(crate::specs::Calls::tells_window))]
    fn tells_window(&self, before: u32) -> bool
        ensures { result ≡ tells_window before self.now }
    {
        let packets = 4 * u64::from(self.sender.mtu);
        let twice_open = packets.min(u64::from(self.receiver.buffer_size));
        matches!(self.profile, Profile::Rfc)
            && 2 * u64::from(before) < twice_open
            && twice_open <= 2 * u64::from(self.credit())
            && self.exchanges_data()
    }

    // The bytes that may still come.
    fn credit(&self) -> u32
        ensures { result ≡ credit_in self.now }
    {
        self.receiver.credit(self.waiting_bytes())
    }

    // Closes where the receive buffer is exhausted.
    fn relieve(&mut self) -> Result<(), Error>
        ensures ok { OnOk result (self.new ≡ relieved self.old) }
        ensures err { IfErr result (λ e. (e ≡ Error.ErrNoMemory) × (is_exhausted self.old ≡ true)
            × HasFailed (answers_of self.old) self.new) }
    {
        if self.is_exhausted() {
            return self.exhaust_or_fail();
        }
        Ok(())
    }

    // The receive buffer is exhausted, which closes; where memory is refused for that the association fails.
    #[cold]
    #[inline(never)]
    fn exhaust_or_fail(&mut self) -> Result<(), Error>
        ensures ok { OnOk result (self.new ≡ exhausted self.old) }
        ensures err { IfErr result (λ e. (e ≡ Error.ErrNoMemory) × HasFailed (answers_of self.old) self.new) }
    {
        let before = self.answers();
        if self.exhaust().is_err() {
            self.fail(before);
            return Err(Error::ErrNoMemory);
        }
        Ok(())
    }

    // Writes a copy of the bytes, under this payload type or else the stream's. It is put into its callers, which do
    // nothing else.
    #[inline(always)]
    #[tactic(auto, using(crate::proofs::CallsLeadOn::write_leads_on))]
    pub(crate) fn write_stream(
        &mut self,
        id: StreamId,
        payload_type: Option<PayloadProtocolIdentifier>,
        bytes: &[u8],
    ) -> Result<usize, Error>
        ensures refused { RefusesOrLacksMemory result (write_refusal self.old id (length bytes.now)) }
        ensures err { OnErr result (self.new ≡ self.old) }
        ensures ok { IfOk result (λ n. n ≡ length bytes.now) }
        ensures accepted { OnOk result (self.new ≡ written self.old id payload_type bytes.now) }
        ensures acts { OnOk result (LeadsOn (Act.Wrote id payload_type bytes.now ∷ []) self.old self.new) }
    {
        self.check_write(id, bytes.len())?;
        let copy = Bytes::copy_from_slice(self.alloc, bytes)?;
        self.accept(id, payload_type, copy)?;
        Ok(bytes.len())
    }

    // Writes bytes that are shared and not copied, under this payload type or else the stream's.
    #[tactic(auto, using(crate::proofs::CallsLeadOn::write_leads_on))]
    pub(crate) fn write_shared(
        &mut self,
        id: StreamId,
        payload_type: Option<PayloadProtocolIdentifier>,
        bytes: &Bytes,
    ) -> Result<usize, Error>
        ensures refused { RefusesOrLacksMemory result (write_refusal self.old id (length bytes.now)) }
        ensures err { OnErr result (self.new ≡ self.old) }
        ensures ok { IfOk result (λ n. n ≡ length bytes.now) }
        ensures accepted { OnOk result (self.new ≡ written self.old id payload_type bytes.now) }
        ensures acts { OnOk result (LeadsOn (Act.Wrote id payload_type bytes.now ∷ []) self.old self.new) }
    {
        self.check_write(id, bytes.len())?;
        self.accept(id, payload_type, bytes.clone()?)?;
        Ok(bytes.len())
    }

    // Refuses a write for any reason but memory.
    fn check_write(&self, id: StreamId, size: usize) -> Result<(), Error>
        ensures { Refuses result (write_refusal self.now id size) }
    {
        self.check_usable()?;
        match self.streams.get(id) {
            Some(stream) if stream.is_write_half_open() => {}
            _ => return Err(Error::ErrStreamClosed),
        }
        if !matches!(self.state, AssociationState::Established) {
            return Err(Error::ErrPayloadDataStateNotExist);
        }
        if self.resets.is_blocked(id) {
            return Err(Error::ErrStreamResetPending);
        }
        if size == 0 {
            return Err(Error::ErrEmptyMessage);
        }
        if size > self.max_send_message_size as usize {
            return Err(Error::ErrOutboundPacketTooLarge);
        }
        Ok(())
    }

    // Queues a message of a live stream, in pieces that are cuts of its bytes, and counts it. A buffered amount past
    // the greatest u64 counts as want of memory.
    fn accept(
        &mut self,
        id: StreamId,
        named: Option<PayloadProtocolIdentifier>,
        bytes: Bytes,
    ) -> Result<(), AllocError>
        ensures ok { OnOk result (self.new ≡ written self.old id named bytes) }
        ensures err { OnErr result (self.new ≡ self.old) }
    {
        let Some(stream) = self.streams.get(id) else {
            return Ok(());
        };
        let payload_type = named.unwrap_or(stream.default_payload_type());
        let params = stream.params_for(payload_type);
        let size = bytes.len() as u64;
        if stream.buffered_amount() > u64::MAX - size {
            return Err(AllocError);
        }
        let (user_data, rest) = cut(self.alloc, bytes, self.sender.max_payload_size as usize)?;
        let message = PendingMessage {
            message: Attributes {
                message_id: 0,
                stream_identifier: id,
                generation: stream.stats().generation,
                unordered: params.unordered,
                stream_sequence_number: stream.next_ssn(),
                payload_type,
                policy: params.policy,
                deadline: None,
            },
            begun: false,
            user_data,
            rest,
        };
        let high = stream.reaches_high_mark(size);
        self.queue_message(id, message, high)?;
        self.streams.accept(id, payload_type, size)?;
        Ok(())
    }

    // Queues a message, and where it takes its stream to the high mark the event of that. Where memory is refused
    // neither is queued.
    #[tactic(auto, using(sctp_resets::proofs::FrontWaits::none_waits))]
    fn queue_message(
        &mut self,
        id: StreamId,
        message: PendingMessage,
        high: bool,
    ) -> Result<(), AllocError>
        ensures ok { OnOk result (self.new ≡ with_queued self.old id message high) }
        ensures err { OnErr result (self.new ≡ self.old) }
    {
        if !high {
            return self.sender.queue.push(message);
        }
        self.tell(Event::Stream(StreamEvent::BufferedAmountHigh { id }))?;
        let queued = self.sender.queue.push(message);
        if queued.is_err() {
            self.waiting_in_front = 0;
            self.events.take_back();
        }
        queued
    }

    // Refuses to set or to ask a stream that is gone.
    pub(crate) fn check_live(&self, id: StreamId) -> Result<(), Error>
        ensures { Refuses result (gone_refusal self.now id) }
    {
        self.check_usable()?;
        if !self.streams.contains(id) {
            return Err(Error::ErrStreamClosed);
        }
        Ok(())
    }

    #[tactic(auto, using(crate::proofs::CallsLeadOn::setting_leads_on))]
    pub(crate) fn set_stream(&mut self, id: StreamId, setting: Setting) -> Result<(), Error>
        ensures refused { Refuses result (gone_refusal self.old id) }
        ensures err { OnErr result (self.new ≡ self.old) }
        ensures ok { OnOk result (self.new ≡ adjusted self.old id setting) }
        ensures acts { OnOk result (LeadsOn (Act.Adjusted id setting ∷ []) self.old self.new) }
    {
        self.check_live(id)?;
        self.streams.set(id, setting);
        Ok(())
    }

    // Closes the read half and asks for a reset; nothing where it is closed already.
    #[tactic(auto, using(crate::proofs::StopsLeadOn::idle_stop_leads_on))]
    pub(crate) fn stop_stream(&mut self, id: StreamId) -> Result<(), Error>
        ensures refused { RefusesOrLacksMemory result (stop_refusal self.old id) }
        ensures err { IfErr result (λ error. RefusesStop self.old id error self.new) }
        ensures ok { OnOk result (self.new ≡ stopped self.old id) }
        ensures acts { OnOk result (LeadsOn (acts_of_stop self.old id) self.old self.new) }
    {
        self.check_stop(id)?;
        if !self.is_stream_readable(id) {
            return Ok(());
        }
        let credit = self.credit();
        let before = self.answers();
        if self.stop_open(id).is_err() {
            self.fail(before);
            return Err(Error::ErrNoMemory);
        }
        self.ease(credit)
    }

    // Refuses to stop a stream for any reason but memory.
    pub(crate) fn check_stop(&self, id: StreamId) -> Result<(), Error>
        ensures { Refuses result (stop_refusal self.now id) }
    {
        self.check_live(id)?;
        if self.is_stream_readable(id)
            && !self.resets.is_retiring(id)
            && !matches!(self.state, AssociationState::Established)
        {
            return Err(Error::ErrResetPacketInStateNotExist);
        }
        Ok(())
    }

    #[tactic(auto, using(sctp_resets::proofs::FrontWaits::none_waits))]
    fn stop_open(&mut self, id: StreamId) -> Result<(), AllocError>
        ensures exact { OnOk result (self.new ≡ stopped_open self.old id) }
    {
        self.streams.close_read_half(id);
        if self.resets.is_retiring(id) {
            self.waiting_in_front = 0;
            self.resets
                .stop_reading(id, &mut self.streams, &mut self.events)
        } else {
            self.drop_unread(id);
            self.resets.wait_for(id)
        }
    }

    // By the rules of the RFCs what waits of a stream that is read no more is dropped.
    fn drop_unread(&mut self, id: StreamId)
        ensures { self.new ≡ record self.old {
          streams = unread_dropped (is_rfc self.old.profile) self.old.streams id;
        } }
    {
        if self.is_by_rfcs() {
            self.streams.drop_unread(self.alloc, id);
        }
    }

    // Closes both halves of a stream.
    pub(crate) fn close_stream(&mut self, id: StreamId) -> Result<(), Error>
        ensures refused { RefusesOrLacksMemory result (stop_refusal self.old id) }
        ensures err { IfErr result (λ error. RefusesStop self.old id error self.new) }
        ensures ok { OnOk result (self.new ≡ stopped (adjusted self.old id settings.WriteHalfClosed) id) }
        ensures acts { OnOk result (LeadsOn (acts_of_close_stream self.old id) self.old self.new) }
    {
        self.check_stop(id)?;
        self.close_write_half(id);
        self.stop_stream(id)
    }

    fn close_write_half(&mut self, id: StreamId)
        ensures { self.new ≡ adjusted self.old id settings.WriteHalfClosed }
    {
        self.streams.set(id, Setting::WriteHalfClosed);
    }

    // Whether it is live and its read half is open.
    pub(crate) fn is_stream_readable(&self, id: StreamId) -> bool
        ensures { result ≡ holds_of (λ s. is_read_half_open s.halves) self.now id }
    {
        match self.streams.get(id) {
            Some(stream) => stream.is_read_half_open(),
            None => false,
        }
    }

    // Whether it is live and its write half is open.
    pub(crate) fn is_stream_writable(&self, id: StreamId) -> bool
        ensures { result ≡ is_writable self.now id }
    {
        match self.streams.get(id) {
            Some(stream) => stream.is_write_half_open() && !self.resets.is_blocked(id),
            None => false,
        }
    }

    // The live stream; refused where it is gone.
    pub(crate) fn live_stream(&self, id: StreamId) -> Result<&StreamState, Error>
        ensures refused { Refuses result (gone_refusal self.now id) }
        ensures ok { IfOk result (λ s. stream_at self.now.streams id ≡ Some s.now) }
    {
        self.check_usable()?;
        self.streams.get(id).ok_or(Error::ErrStreamClosed)
    }
}
