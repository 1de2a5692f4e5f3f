// The packets of one poll, in the order in which they go out.
ghost use Rattle.std.specs.Prelude.{[], ◌≡◌, ◌++◌, ◌&&◌, true, length, nat_lt, OnErr, OnOk, IfOk};
ghost use Rattle.sctp_wire.specs.Packets.{packet_is_plain};
ghost use Rattle.sctp_wire.specs.DataPackets.{datagrams_of, with_all};
ghost use Rattle.sctp_streams.specs.LowMarks.{AreGathered};
ghost use Rattle.sctp_inbound.specs.Handshake.{header_of};
ghost use Rattle.sctp_outbound.specs.Abandonment.{gives_up_before, expires};
ghost use Rattle.sctp_outbound.specs.Falling.{fell_before};
ghost use Rattle.sctp_outbound.specs.Forward.{gives_forward};
ghost use Rattle.sctp_assoc.specs.Calls.{exchanges_data, is_established};
ghost use Rattle.sctp_assoc.specs.Gather.{AckIsReadAgain, AreControlReadAgain, AreReadAgain, ExchangeIsReadAgain};
ghost use Rattle.sctp_assoc.specs.Gather.{AreRequestsReadAgain, ControlRequestsReadAgain, GivenRequestReadAgain};
ghost use Rattle.sctp_assoc.specs.Gather.{PollRequestsReadAgain, requests_of};
ghost use Rattle.sctp_assoc.specs.Gather.{ForwardIsReadAgain, IsReadAgain, PollIsReadAgain, ack_after, ack_polled};
ghost use Rattle.sctp_assoc.specs.Gather.{after_both, after_fast, after_marks, after_new, both_of, bundled};
ghost use Rattle.sctp_assoc.specs.Gather.{ControlReadAgain, ShutdownIsReadAgain, control_polled, data_after};
ghost use Rattle.sctp_assoc.specs.Gather.{data_gives, data_polled, open_polled};
ghost use Rattle.sctp_assoc.specs.Gather.{exchange_gives, exchange_polled};
ghost use Rattle.sctp_assoc.specs.Gather.{fast_fell, fast_gives, fast_sent, forward_after, forward_polled};
ghost use Rattle.sctp_assoc.specs.Gather.{has_something_to_give, is_due, late_abandoned, late_fell, listed, marks_fell};
ghost use Rattle.sctp_assoc.specs.Gather.{marks_give, marks_sent, new_fell, new_gives, new_sent};
ghost use Rattle.sctp_assoc.specs.Gather.{packet_bytes, single_chunk_packet, polled, spent_abandoned};
ghost use Rattle.sctp_assoc.specs.Gather.{requests_after, with_control_given, with_request_placed, with_t3};
ghost use Rattle.sctp_assoc.specs.Gather.{without_control};
ghost use Rattle.sctp_assoc.specs.Shown.{uses_forward_tsn};
ghost use Rattle.sctp_reset_requests.specs.Own.{sent_first};
ghost use Rattle.sctp_resets.specs.Resets.{request_sent};

use crate::Association;
use crate::control::Control;
use bytes::Bytes;
use sctp_looks::Looks;
use sctp_outbound_queue::Retransmission;
use sctp_parts::state::AckState;
use sctp_parts::timer::Timer;
use sctp_streams::Fallen;
use sctp_wire_queues::{Chunk, CommonHeader, DataPackets, Error, Instant, marshal};
use std::alloc::{AllocError, Global};
use std::mem;

impl Association {
    // The packets that wait, then DATA that is sent again, then new DATA, then the acknowledgement, then FORWARD TSN,
    // and then a chunk of a graceful end. It lacks memory only where there is something to give or to give up.
    pub(crate) fn gather(&mut self, now: Instant) -> Result<Vec<Bytes>, AllocError>
        ensures exact { IfOk result (λ packets. polled self.old now ≡ (self.new, packets.items)) }
        ensures control_again { OnOk result (AreControlReadAgain self.old.control) }
        ensures control_requests { OnOk result (ControlRequestsReadAgain self.old) }
        ensures again { OnOk result (PollIsReadAgain (without_control self.old) now) }
        ensures requests { OnOk result (PollRequestsReadAgain (control_polled self.old).0 now) }
        ensures ending_again { OnOk result (ShutdownIsReadAgain (open_polled self.old now).0) }
        ensures grows { OnErr result (has_something_to_give self.old now ≡ true) }
    {
        let mut packets = Vec::new(self.alloc);
        self.gather_control(&mut packets)?;
        self.gather_exchange(&mut packets, now)?;
        self.run_reconfig(now);
        self.gather_shutdown(&mut packets, now)?;
        Ok(packets)
    }

    // What waits in front of DATA, oldest first. A request that may not go out keeps its place.
    fn gather_control(&mut self, packets: &mut Vec<Bytes>) -> Result<(), AllocError>
        requires { packets.old.items ≡ [] }
        ensures exact { OnOk result (control_polled self.old ≡ (self.new, packets.new.items)) }
        ensures again { OnOk result (AreControlReadAgain self.old.control) }
        ensures requests { OnOk result (ControlRequestsReadAgain self.old) }
        ensures grows { OnErr result (nat_lt 0 (length self.old.control) ≡ true) }
    {
        if self.control.is_empty() {
            return Ok(());
        }
        let waiting = mem::replace(&mut self.control, Vec::new(self.alloc));
        for control in waiting {
            self.give_control(packets, control)?;
        }
        Ok(())
    }

    fn give_control(&mut self, packets: &mut Vec<Bytes>, control: Control) -> Result<(), AllocError>
        ensures exact { OnOk result
            (with_control_given (self.old, packets.old.items) control ≡ (self.new, packets.new.items)) }
        ensures again { OnOk result (ControlReadAgain control) }
        ensures requests { OnOk result (GivenRequestReadAgain self.old control) }
    {
        match control {
            Control::Packet(packet) => {
                put_packet(packets, self.alloc, packet.header, packet.chunk)
            }
            Control::OwnRequest => self.give_request(packets),
        }
    }

    // Sends the oldest request that was never sent; where it may not go out it keeps its place.
    fn give_request(&mut self, packets: &mut Vec<Bytes>) -> Result<(), AllocError>
        ensures exact { OnOk result (with_request_placed (self.old, packets.old.items)
            (request_sent self.old.resets self.old.sender.queue) ≡ (self.new, packets.new.items)) }
        ensures again { OnOk result (AreRequestsReadAgain (header_of self.old.handshake)
            (listed (sent_first self.old.resets.own self.old.sender.queue).1)) }
    {
        match self.resets.send_first(&self.sender.queue)? {
            Some(param) => self.put_request(packets, param),
            None => self.place_request(),
        }
    }

    // While DATA is exchanged. In ShutdownSent no new DATA goes out, since none waits any more.
    #[tactic(auto, unfolding(crate::specs::Gather::exchange_polled))]
    fn gather_exchange(&mut self, packets: &mut Vec<Bytes>, now: Instant) -> Result<(), AllocError>
        ensures exact { OnOk result
            (after_both packets.old.items (exchange_polled self.old now) ≡ (self.new, packets.new.items)) }
        ensures again { OnOk result (PollIsReadAgain self.old now) }
        ensures requests { OnOk result (PollRequestsReadAgain self.old now) }
        ensures grows { OnErr result ((exchanges_data self.old.state && exchange_gives self.old now) ≡ true) }
    {
        if self.exchanges_data() {
            self.gather_data_and_acks(packets, now)?;
        }
        Ok(())
    }

    fn gather_data_and_acks(
        &mut self,
        packets: &mut Vec<Bytes>,
        now: Instant,
    ) -> Result<(), AllocError>
        ensures exact { OnOk result
            (after_both packets.old.items (forward_after (ack_after (requests_after (data_after self.old now))))
            ≡ (self.new, packets.new.items)) }
        ensures again { OnOk result (ExchangeIsReadAgain self.old now) }
        ensures requests { OnOk result (PollRequestsReadAgain self.old now) }
        ensures grows { OnErr result (exchange_gives self.old now ≡ true) }
    {
        let data = self.gather_data(now)?;
        put_all(packets, data)?;
        self.continue_shutdown();
        self.gather_requests(packets)?;
        self.gather_ack(packets)?;
        self.gather_forward(packets)?;
        Ok(())
    }

    // The packets of DATA: what the retransmission timer marked, what is missing, and new DATA, each bundled apart. In
    // front of each go the messages that are given up before it. Streams that this takes to their low mark are told of.
    #[tactic(auto, using(sctp_resets::proofs::FrontWaits::none_waits))]
    fn gather_data(&mut self, now: Instant) -> Result<Vec<Bytes>, AllocError>
        ensures exact { OnOk result ((data_polled self.old now).0 ≡ self.new) }
        ensures packets { IfOk result
            (λ packets. packets.items ≡ datagrams_of (header_of self.old.handshake) (data_polled self.old now).1) }
        ensures again { OnOk result (AreReadAgain (header_of self.old.handshake) (data_polled self.old now).1) }
        ensures grows { OnErr result (data_gives self.old now ≡ true) }
    {
        let mut fallen = Fallen::new(self.alloc);
        self.expire(&mut fallen, now)?;
        let mut packets = DataPackets::new(
            self.alloc,
            self.handshake.header(),
            self.sender.mtu,
            self.sender.queue.pending_bytes(),
        );
        self.resend_marked(&mut fallen, &mut packets)?;
        self.resend_missing(&mut fallen, &mut packets)?;
        self.send_new(&mut fallen, &mut packets, now)?;
        // While they are told none is known to wait, so that the invariant holds where memory is refused.
        let waiting = mem::replace(&mut self.waiting_in_front, 0);
        fallen.tell(&mut self.events)?;
        self.waiting_in_front = waiting;
        packets.finish()
    }

    // Gives up the messages of which something was sent and whose time is over. Where there is one, the retransmission
    // timer runs.
    fn expire(&mut self, fallen: &mut Fallen, now: Instant) -> Result<(), AllocError>
        ensures exact { OnOk result (self.new ≡ late_abandoned self.old now) }
        ensures falls { OnOk result (AreGathered (late_fell self.old now) fallen.old fallen.new) }
        ensures grows { OnErr result (expires (uses_forward_tsn self.old) now (both_of self.old) ≡ true) }
    {
        let forward = self.handshake.use_forward_tsn;
        let any = self.sender.expire(&mut self.streams, fallen, forward, now)?;
        self.run_t3(any, now);
        Ok(())
    }

    // The retransmission timer runs where this is so.
    fn run_t3(&mut self, any: bool, now: Instant)
        ensures { self.new ≡ with_t3 any now self.old }
    {
        if any {
            let rto = self.rto.get_rto();
            self.timers.restart_if_stale(Timer::T3RTX, now, rto);
        }
    }

    // Gives up what would be sent again for a reason and was sent as often as it may be.
    fn give_up(&mut self, fallen: &mut Fallen, by: Retransmission) -> Result<(), AllocError>
        ensures exact { OnOk result (self.new ≡ spent_abandoned by self.old) }
        ensures falls { OnOk result
            (AreGathered (fell_before (uses_forward_tsn self.old) by (both_of self.old)) fallen.old fallen.new) }
        ensures grows { OnErr result (gives_up_before (uses_forward_tsn self.old) by self.old.sender ≡ true) }
    {
        let forward = self.handshake.use_forward_tsn;
        let mut looks = Looks::new();
        self.sender
            .give_up(&mut self.streams, fallen, forward, by, &mut looks)?;
        Ok(())
    }

    fn resend_marked(
        &mut self,
        fallen: &mut Fallen,
        packets: &mut DataPackets,
    ) -> Result<(), AllocError>
        requires { packets.old.current ≡ [] }
        ensures exact { OnOk result (self.new ≡ after_marks self.old) }
        ensures packets { OnOk result (packets.new ≡ bundled packets.old (marks_sent self.old)) }
        ensures falls { OnOk result (AreGathered (marks_fell self.old) fallen.old fallen.new) }
        ensures grows { OnErr result (marks_give self.old ≡ true) }
    {
        self.give_up(fallen, Retransmission::Timer)?;
        self.sender.resend_marked(packets, &mut Looks::new())?;
        packets.close()
    }

    fn resend_missing(
        &mut self,
        fallen: &mut Fallen,
        packets: &mut DataPackets,
    ) -> Result<(), AllocError>
        requires { packets.old.current ≡ [] }
        ensures exact { OnOk result (self.new ≡ after_fast self.old) }
        ensures packets { OnOk result (packets.new ≡ bundled packets.old (fast_sent self.old)) }
        ensures falls { OnOk result (AreGathered (fast_fell self.old) fallen.old fallen.new) }
        ensures grows { OnErr result (fast_gives self.old ≡ true) }
    {
        self.give_up(fallen, Retransmission::Fast)?;
        let fast = self.sender.resend_missing(packets, &mut Looks::new())?;
        self.stats.add_fast_retrans(fast);
        packets.close()
    }

    fn send_new(
        &mut self,
        fallen: &mut Fallen,
        packets: &mut DataPackets,
        now: Instant,
    ) -> Result<(), AllocError>
        ensures exact { OnOk result (self.new ≡ after_new self.old now) }
        ensures packets { OnOk result (packets.new ≡ with_all packets.old (new_sent self.old now)) }
        ensures falls { OnOk result (AreGathered (new_fell self.old now) fallen.old fallen.new) }
        ensures grows { OnErr result (new_gives self.old now ≡ true) }
    {
        let forward = self.handshake.use_forward_tsn;
        self.sender
            .drop_expired(&mut self.streams, fallen, forward, now);
        let sent = self.sender.send_new(packets, now)?;
        self.run_t3(sent, now);
        Ok(())
    }

    #[tactic(auto, unfolding(crate::specs::Gather::ack_polled))]
    fn gather_ack(&mut self, packets: &mut Vec<Bytes>) -> Result<(), AllocError>
        ensures exact { OnOk result
            (after_both packets.old.items (ack_polled self.old) ≡ (self.new, packets.new.items)) }
        ensures again { OnOk result (AckIsReadAgain self.old) }
        ensures grows { OnErr result (is_due self.old.receiver.ack_state ≡ true) }
    {
        if self.receiver.ack_state == AckState::Immediate {
            let waiting = self.waiting_bytes();
            let sack = self.receiver.sack(self.alloc, waiting)?;
            let header = self.handshake.header();
            put_packet(packets, self.alloc, header, Chunk::SelectiveAck(sack))?;
        }
        Ok(())
    }

    // The FORWARD TSN that is due (RFC 3758 section 3.5), in a packet of its own.
    #[tactic(auto, unfolding(crate::specs::Gather::forward_polled))]
    fn gather_forward(&mut self, packets: &mut Vec<Bytes>) -> Result<(), AllocError>
        ensures exact { OnOk result
            (after_both packets.old.items (forward_polled self.old) ≡ (self.new, packets.new.items)) }
        ensures again { OnOk result (ForwardIsReadAgain self.old) }
        ensures grows { OnErr result (gives_forward self.old.sender ≡ true) }
    {
        if let Some(forward) = self.sender.forward_tsn(self.alloc)? {
            let header = self.handshake.header();
            put_packet(packets, self.alloc, header, Chunk::ForwardTsn(forward))?;
        }
        Ok(())
    }
}

// Some packets behind others; where there are no others they need no room.
fn put_all(packets: &mut Vec<Bytes>, more: Vec<Bytes>) -> Result<(), AllocError>
    ensures exact { OnOk result (packets.new.items ≡ packets.old.items ++ more.items) }
    ensures grows { OnErr result (nat_lt 0 (length more.items) ≡ true) }
{
    if packets.is_empty() {
        *packets = more;
        return Ok(());
    }
    for packet in more {
        packets.push(packet)?;
    }
    Ok(())
}

// Spells a packet of one chunk. A chunk that is longer than its length field can say is not sent.
#[tactic(auto, unfolding(crate::specs::Gather::packet_bytes), using(crate::proofs::PacketsReadAgain::read_again))]
pub(crate) fn put_packet(
    packets: &mut Vec<Bytes>,
    alloc: Global,
    common_header: CommonHeader,
    chunk: Chunk,
) -> Result<(), AllocError>
    ensures exact { OnOk result (packets.new.items ≡ packets.old.items ++ packet_bytes common_header chunk) }
    ensures again { OnOk result (packet_is_plain (single_chunk_packet common_header chunk) ≡ true
        → IsReadAgain common_header chunk) }
{
    match marshal(alloc, &common_header, &[chunk]) {
        Ok(bytes) => {
            packets.push(bytes)?;
            Ok(())
        }
        Err(Error::ErrNoMemory) => Err(AllocError),
        Err(_) => Ok(()),
    }
}
