// The surface of an association.
ghost use Rattle.std.specs.Prelude.{◌≡◌, ◌↔◌, ◌*◌, ◌∷◌, ◌⊎◌, ◌≤◌, [], true, false, not, IsNone, IfSome, OnOk, OnErr};
ghost use Rattle.std.specs.Prelude.{Err, IfOk, IsErrOf, None, Some, false};
ghost use Rattle.std.specs.Borrow.{sem};
ghost use Rattle.std.specs.Duration.{as_nanos};
ghost use Rattle.std.specs.Option.{option_copied};
ghost use Rattle.sctp_parts.specs.State.{is_closing};
ghost use Rattle.sctp_parts.specs.Timers.{least_moment};
ghost use Rattle.sctp_assoc.specs.Calls.{Refuses, RefusesOrLacksMemory, accepted_stream};
ghost use Rattle.sctp_assoc.specs.Calls.{failed_refusal, open_refusal, opened, stream_refusal, usable};
ghost use Rattle.sctp_assoc.specs.Calls.{with_max_send_message_size};
ghost use Rattle.sctp_streams.specs.Streams.{live_ids};
ghost use Rattle.sctp_assoc.specs.Probes.{timed_out_by};
ghost use Rattle.sctp_assoc.specs.Calls.{after_t3, after_ack_delay, event_from, event_polled, fault_polled};
ghost use Rattle.sctp_assoc.specs.Calls.{is_first_at_once};
ghost use Rattle.sctp_assoc.specs.Closing.{closed_by, is_closed_state};
ghost use Rattle.sctp_assoc.specs.Chunks.{after_packet};
ghost use Rattle.sctp_directions.specs.Acts.{Act, begun};
ghost use Rattle.sctp_assoc.specs.Leads.{LeadsOn, Binds};
ghost use Rattle.sctp_assoc.specs.Happened.{PollsOn, acts_of_close, acts_of_packet, acts_of_poll, acts_of_timeouts};
ghost use Rattle.sctp_assoc.specs.Happened.{forwards_of_poll};
ghost use Rattle.sctp_assoc.specs.Inbound.{is_datagram, packet_of_event, transmit_of};
ghost use Rattle.sctp_assoc.specs.Created.{create_refusal, created, fresh_association, join_refusal, joined};
ghost use Rattle.sctp_assoc.specs.Stream.{id_of, lender, lent, rests_if_none, rests_if_refused};
ghost use Rattle.sctp_assoc.specs.Gather.{IsAddressed, has_something_to_give, packets_of, polled};
ghost use Rattle.sctp_assoc.specs.Shown.{HasFailed, answers_of};
ghost use Rattle.sctp_assoc.specs.Timeouts.{after_timeouts, timeouts_take_memory};
ghost use Rattle.sctp_assoc.specs.Shutdown.{endpoint_event_polled, shutdown_begun, shutdown_refusal};

use crate::control::Control;
use crate::shutdown::ShutdownDue;
use crate::{AssociationEvent, Stream};
use bytes::Bytes;
use sctp_inbound::{Handshake, Offer, Receiver};
use sctp_outbound::Sender;
use sctp_parts::estimate::RtoManager;
use sctp_parts::shared::{AssociationId, EndpointEvent};
use sctp_parts::state::AssociationState;
use sctp_parts::stats::AssociationStats;
use sctp_parts::timer::{Timer, TimerTable};
use sctp_resets::Resets;
use sctp_wire_queues::{
    AssociationError, ChunkInit, Error, Event, Events, Instant, Payload, PayloadProtocolIdentifier,
    Profile, ServerConfig, Side, StreamEvent, StreamId, Streams, Transmit, TransportConfig,
};
use std::alloc::{AllocError, Global};
use std::collections::VecDeque;
use std::marker::Model;
use std::net::{IpAddr, SocketAddr};
use std::time::Duration;

/// Greatest payload of one DATA chunk, in bytes.
const MAX_PAYLOAD_SIZE: u32 = 65_519;

/// One side of an SCTP association (RFC 4960): what it has to send, what came, its streams, timers and events. It
/// reads no clock and no random source: moments, first numbers and the cookie are handed in. The page of this crate
/// says who makes which call, and when.
///
/// A call that finds no memory may leave the association failed; then every call that answers a `Result` answers
/// `ErrAssociationFailed` and changes nothing.
pub struct Association {
    pub(crate) alloc: Global,
    pub(crate) side: Side,
    pub(crate) remote_addr: SocketAddr,
    pub(crate) local_ip: Option<IpAddr>,
    pub(crate) state: AssociationState,
    /// A fault, its application or the end of a shutdown closed the association while its state was any but Closed.
    pub(crate) lost: bool,
    /// An earlier call found no memory in its middle.
    pub(crate) failed: bool,
    pub(crate) max_send_message_size: u32,
    /// The rules that it keeps where `sctp-proto` and the RFCs part.
    pub(crate) profile: Profile,
    pub(crate) handshake: Handshake,
    pub(crate) receiver: Receiver,
    pub(crate) sender: Sender,
    pub(crate) streams: Streams,
    /// The streams that the peer opened and that were not accepted yet, oldest first.
    pub(crate) to_accept: VecDeque<StreamId>,
    pub(crate) events: Events,
    /// Why the handshake failed, until that is told.
    pub(crate) handshake_fault: Option<Error>,
    /// What the endpoint is to be told and did not ask for yet: at most that a shutdown began.
    pub(crate) endpoint_event: Option<EndpointEvent>,
    /// The packets that go out before any DATA, oldest first.
    pub(crate) control: Vec<Control>,
    /// The chunks of a graceful end that go out behind all others.
    pub(crate) shutdown_due: ShutdownDue,
    pub(crate) timers: TimerTable,
    pub(crate) rto: RtoManager,
    pub(crate) stats: AssociationStats,
    /// Requests to reset streams, and the generations of streams that ended and are still read.
    pub(crate) resets: Resets,
    /// So many of the oldest events are known to wait for a stream to be read to its end; more may.
    pub(crate) waiting_in_front: usize,
}

// Its parts are let go here, so that a crate that owns an association proves one call where it lets go of it.
impl Drop for Association {
    fn drop(self) {
        let Association {
            alloc: _alloc,
            side: _side,
            remote_addr: _remote_addr,
            local_ip: _local_ip,
            state: _state,
            lost: _lost,
            failed: _failed,
            max_send_message_size: _max_send_message_size,
            profile: _profile,
            handshake: _handshake,
            receiver: _receiver,
            sender: _sender,
            streams: _streams,
            to_accept: _to_accept,
            events: _events,
            handshake_fault: _handshake_fault,
            endpoint_event: _endpoint_event,
            control: _control,
            shutdown_due: _shutdown_due,
            timers: _timers,
            rto: _rto,
            stats: _stats,
            resets: _resets,
            waiting_in_front: _waiting_in_front,
        } = self;
    }
}

impl Model for Association {
    ghost use Rattle.sctp_assoc.specs.Shown.{Shown};

    ghost Value = { Shown };

    ghost view = { λ a. record {
      side = a.side;
      remote_addr = a.remote_addr;
      local_ip = a.local_ip;
      state = a.state;
      lost = a.lost;
      failed = a.failed;
      max_send_message_size = a.max_send_message_size;
      profile = a.profile;
      handshake = a.handshake;
      receiver = a.receiver;
      sender = a.sender;
      streams = a.streams;
      to_accept = a.to_accept.items;
      events = a.events;
      handshake_fault = a.handshake_fault;
      endpoint_event = a.endpoint_event;
      control = a.control.items;
      shutdown_due = a.shutdown_due;
      timers = a.timers;
      estimate = a.rto;
      counts = a.stats;
      resets = a.resets;
    } };

    ghost use Rattle.sctp_resets.specs.Telling.{FrontWaits};

    ghost invariant = { λ a. FrontWaits a.resets.generations.retiring a.resets.debts a.events a.waiting_in_front };
}

impl Association {
    /// Makes an association that a handshake is to establish (RFC 4960 section 5.1). With a `server_config` it is a
    /// server, which stays in Closed until an INIT and then a COOKIE ECHO came. Without one it is a client in
    /// CookieWait: its INIT waits for the next `poll_transmit`, and the timer of it runs from `now`.
    ///
    /// `max_payload_size` is the greatest payload of one DATA chunk, in bytes, 1 to 65,519; a packet of one has 28
    /// bytes more, and padding. `local_aid` is this side's verification tag (a peer refuses 0), `initial_tsn` its
    /// first TSN and `cookie` its State Cookie: nobody else should be able to guess them. The addresses are copied
    /// and never looked at.
    ///
    /// It keeps the rules of the port where `config` names no profile.
    ///
    /// Refused, in this order: `ErrBadPayloadSize`, `ErrBadInitialTsn` for the `initial_tsn` 0, `ErrNoMemory`.
    #[tactic(auto, using(crate::proofs::FreshHistory::created_binds))]
    pub fn new(
        alloc: Global,
        server_config: Option<&ServerConfig>,
        config: &TransportConfig,
        max_payload_size: u32,
        local_aid: AssociationId,
        initial_tsn: u32,
        cookie: [u8; 32],
        remote_addr: SocketAddr,
        local_ip: Option<IpAddr>,
        now: Instant,
    ) -> Result<Association, Error>
        ensures refused { RefusesOrLacksMemory result (create_refusal max_payload_size initial_tsn) }
        ensures begins { IfOk result (λ a. Binds a (begun initial_tsn 1)) }
        ensures created { IfOk result (λ a. a ≡ created (option_copied server_config.entry) config.now max_payload_size
            local_aid initial_tsn cookie remote_addr local_ip now) }
    {
        if max_payload_size == 0 || MAX_PAYLOAD_SIZE < max_payload_size {
            return Err(Error::ErrBadPayloadSize);
        }
        if initial_tsn == 0 {
            return Err(Error::ErrBadInitialTsn);
        }
        let cookie = Bytes::copy_from_slice(alloc, &cookie)?;
        let (side, state, offer) = match server_config {
            Some(_) => (Side::Server, AssociationState::Closed, None),
            None => (
                Side::Client,
                AssociationState::CookieWait,
                Some(Offer::new(config)),
            ),
        };
        let handshake = Handshake::fresh(config, local_aid, initial_tsn, cookie, offer);
        let mut association = Association::fresh(
            alloc,
            config,
            max_payload_size,
            remote_addr,
            local_ip,
            side,
            state,
            handshake,
            0,
            0,
        );
        if server_config.is_none() {
            association.send_init(now)?;
        }
        Ok(association)
    }

    /// Makes an association that is established at once. Its two sides exchanged their INIT chunks in another way, as
    /// by the extension SNAP; such a chunk is called a token. `local_init` is this side's token and `remote_init` the
    /// peer's. No packet of a handshake goes out, and `Event::Connected` waits for `poll`. The other arguments are
    /// those of `new`.
    ///
    /// Refused, in this order: `ErrBadPayloadSize`; `ErrBadToken` where a token has an initiate tag 0, a number of
    /// streams 0 or a window below 1500 bytes (RFC 4960 section 3.3.2); `ErrNoMemory`.
    pub fn new_with_out_of_band_init(
        alloc: Global,
        config: &TransportConfig,
        max_payload_size: u32,
        remote_addr: SocketAddr,
        local_ip: Option<IpAddr>,
        local_init: &ChunkInit,
        remote_init: &ChunkInit,
    ) -> Result<Association, Error>
        ensures refused { RefusesOrLacksMemory result (join_refusal max_payload_size local_init.now remote_init.now) }
        ensures begins { IfOk result (λ a. Binds a (begun local_init.now.initial_tsn remote_init.now.initial_tsn)) }
        ensures joined { IfOk result
            (λ a. a ≡ joined config.now max_payload_size remote_addr local_ip local_init.now remote_init.now) }
    {
        if max_payload_size == 0 || MAX_PAYLOAD_SIZE < max_payload_size {
            return Err(Error::ErrBadPayloadSize);
        }
        if local_init.check().is_err() || remote_init.check().is_err() {
            return Err(Error::ErrBadToken);
        }
        let handshake = Handshake::by_tokens(config, local_init, remote_init);
        let mut association = Association::fresh(
            alloc,
            config,
            max_payload_size,
            remote_addr,
            local_ip,
            handshake.side_by_tags(),
            AssociationState::Established,
            handshake,
            remote_init.initial_tsn.wrapping_sub(1),
            remote_init.advertised_receiver_window_credit,
        );
        association.resets.meet(remote_init.initial_tsn);
        association.tell(Event::Connected)?;
        Ok(association)
    }

    // Nothing was sent and nothing came. `peer_last_tsn` is the last TSN in order and `window` the peer's
    // receive window.
    #[tactic(auto, using(sctp_resets::proofs::FrontWaits::none_waits))]
    fn fresh(
        alloc: Global,
        config: &TransportConfig,
        max_payload_size: u32,
        remote_addr: SocketAddr,
        local_ip: Option<IpAddr>,
        side: Side,
        state: AssociationState,
        handshake: Handshake,
        peer_last_tsn: u32,
        window: u32,
    ) -> Association
        requires { max_payload_size ≤ 65519 }
        ensures { result ≡ fresh_association config.now max_payload_size remote_addr local_ip side state handshake
            peer_last_tsn window }
    {
        let initial_tsn = handshake.my_initial_tsn;
        let profile = config.profile().unwrap_or(Profile::Port);
        Association {
            alloc,
            side,
            remote_addr,
            local_ip,
            state,
            lost: false,
            failed: false,
            max_send_message_size: config.max_send_message_size(),
            profile,
            handshake,
            receiver: Receiver::new(
                alloc,
                config.max_receive_buffer_size(),
                config.max_receive_message_size(),
                peer_last_tsn,
            ),
            sender: Sender::new(alloc, profile, max_payload_size, initial_tsn, window),
            streams: Streams::new(alloc),
            to_accept: VecDeque::new(alloc),
            events: Events::new(alloc),
            handshake_fault: None,
            endpoint_event: None,
            control: Vec::new(alloc),
            shutdown_due: ShutdownDue::nothing(),
            timers: TimerTable::new(
                config.max_init_retransmits(),
                config.max_data_retransmits(),
                config.rto_max_ms(),
            ),
            rto: RtoManager::new(
                config.rto_initial_ms(),
                config.rto_min_ms(),
                config.rto_max_ms(),
            ),
            stats: AssociationStats::default(),
            resets: Resets::new(alloc, profile, initial_tsn),
            waiting_in_front: 0,
        }
    }

    /// Takes out the oldest event that is ready; None where there is none. `StreamEvent::Finished` of a stream is held
    /// until all that came before it was read, and with it most later events of that stream (RFC 8831 section 6.7);
    /// events of other streams pass it. That the handshake failed is told where no other event is ready, as
    /// `Event::HandshakeFailed`, once for each of its timers that gave up; it may follow `Event::Connected`. Call it
    /// until it answers None: after a constructor, and after each turn of datagrams, timers, calls of streams and polls
    /// for packets, any of which may bring an event or make one ready. Its one error is `ErrAssociationFailed`; the
    /// events that waited are not told then.
    #[tactic(auto, using(crate::proofs::CallsLeadOn::poll_leads_on))]
    pub fn poll(&mut self) -> Result<Option<Event>, Error>
        ensures failed { IsErrOf result Error.ErrAssociationFailed ↔ (self.old.failed ≡ true) }
        ensures ok { IfOk result (λ event. event_polled self.old ≡ (self.new, event)) }
        ensures acts { OnOk result (LeadsOn [] self.old self.new) }
        ensures err { OnErr result ((result ≡ Err Error.ErrAssociationFailed) × (self.new ≡ self.old)) }
    {
        self.check_usable()?;
        Ok(self.next_event())
    }

    #[tactic(auto, using(crate::proofs::EventsTold::first_is_told, crate::proofs::EventsTold::none_is_told, sctp_resets::proofs::FrontWaits::none_waits))]
    fn next_event(&mut self) -> Option<Event>
        ensures { event_polled self.old ≡ (self.new, result) }
    {
        if self.is_first_at_once() {
            // None was known to wait: the oldest is of a kind that never does.
            self.waiting_in_front = 0;
            return self.events.pop();
        }
        if self.events.as_queue().is_empty() {
            return self.next_fault();
        }
        self.next_ready_event()
    }

    // Whether the oldest event is of a kind that never waits, and says nothing of a reset.
    fn is_first_at_once(&self) -> bool
        ensures { result ≡ is_first_at_once self.now.events }
    {
        match self.events.as_queue().front() {
            Some(Event::Stream(told)) => matches!(
                told,
                StreamEvent::Opened { .. } | StreamEvent::Readable { .. } | StreamEvent::Available
            ),
            Some(_) => true,
            None => false,
        }
    }

    // Looks for an event behind those that are known to wait for one of their stream.
    fn next_ready_event(&mut self) -> Option<Event>
        ensures { event_polled self.old ≡ (self.new, result) }
    {
        match self
            .resets
            .next_event(&mut self.events, &mut self.waiting_in_front)
        {
            Some(event) => Some(event),
            None => self.next_fault(),
        }
    }

    // That the handshake failed, where nobody was told.
    fn next_fault(&mut self) -> Option<Event>
        ensures { fault_polled self.old ≡ (self.new, result) }
    {
        let fault = self.handshake_fault.take()?;
        Some(Event::HandshakeFailed {
            reason: fault.into(),
        })
    }

    /// What the endpoint that holds this association is to be told, once; None where nothing is. A shutdown that this
    /// side began is told by `EndpointEvent::drained`, as soon as it began: no message is accepted from the application
    /// from then on, but reads, datagrams and timers go on until `is_drained`. Never refused, and takes no memory.
    pub fn poll_endpoint_event(&mut self) -> Option<EndpointEvent>
        ensures told { endpoint_event_polled self.old ≡ (self.new, result) }
        ensures acts { LeadsOn [] self.old self.new }
    {
        self.endpoint_event.take()
    }

    /// The moment at which the next timer expires; None where no timer runs. A driver sleeps until then, or until a
    /// datagram comes. Where the moment is not after now, `handle_timeout` is due. Ask again at the end of each turn
    /// of the loop.
    pub fn poll_timeout(&self) -> Option<Instant>
        ensures { result ≡ least_moment self.now.timers }
    {
        self.timers.next_timeout()
    }

    /// All packets that are due at `now`, in the order in which they are to go out; None where none is due. Each entry
    /// of the `Payload::RawEncode` is one datagram. Packets of the handshake and answers go first, in every state. In
    /// Established, and in a shutdown until SHUTDOWN ACK is due, there follow DATA that the retransmission timer
    /// marked, DATA that is to be retransmitted fast, new DATA within both windows (or one piece that probes them,
    /// where nothing is in flight), a SACK that is due, and a FORWARD TSN that is due. In a shutdown SHUTDOWN,
    /// SHUTDOWN ACK or SHUTDOWN COMPLETE goes last, one a call; the last of them closes the association (RFC 4960
    /// section 9.2). Where FORWARD TSN is in use, messages are given up before DATA: those whose time is over, which
    /// runs from the first such call after the write, and those of which a piece would go out again too often (RFC
    /// 3758 section 3.5); `poll` tells of streams that this takes to their low mark, in the order in which they fall.
    /// DATA chunks are bundled in packets of at most `mtu` bytes (RFC 4960 section 6.10); a packet of one alone may be
    /// up to 3 bytes longer. Call it last in each turn of the loop, and after writes and reads.
    ///
    /// Errors: `ErrAssociationFailed`, and `ErrNoMemory` only where there is something to give or to give up. After
    /// the latter the association is failed, and the packets of this call are lost.
    pub fn poll_transmit(&mut self, now: Instant) -> Result<Option<Transmit>, Error>
        ensures failed { IsErrOf result Error.ErrAssociationFailed ↔ (self.old.failed ≡ true) }
        ensures refused { IsErrOf result Error.ErrAssociationFailed → self.new ≡ self.old }
        ensures memory { IsErrOf result Error.ErrNoMemory → HasFailed (answers_of self.old) self.new }
        ensures given { IsErrOf result Error.ErrNoMemory → has_something_to_give self.old now ≡ true }
        ensures only { OnErr result ((result ≡ Err Error.ErrAssociationFailed) ⊎ (result ≡ Err Error.ErrNoMemory)) }
        ensures ok { IfOk result (λ given. polled self.old now ≡ (self.new, packets_of given)) }
        ensures acts { IfOk result (λ given. PollsOn (acts_of_poll self.old now) (forwards_of_poll self.old now)
            self.old self.new (packets_of given)) }
        ensures none { IfOk result (λ given. IsNone given ↔ (packets_of given ≡ [])) }
        ensures addressed { IfOk result (λ given. IfSome given (λ t. IsAddressed self.new now t)) }
    {
        self.check_usable()?;
        let before = self.answers();
        match self.gather(now) {
            Ok(packets) => Ok(self.transmit(packets, now)),
            Err(_) => {
                self.fail(before);
                Err(Error::ErrNoMemory)
            }
        }
    }

    fn transmit(&self, packets: Vec<Bytes>, now: Instant) -> Option<Transmit>
        ensures packets { packets_of result ≡ packets.items }
        ensures none { IsNone result ↔ (packets.items ≡ []) }
        ensures addressed { IfSome result (λ t. IsAddressed self.now now t) }
    {
        if packets.is_empty() {
            return None;
        }
        Some(Transmit {
            now,
            remote: self.remote_addr,
            payload: Payload::RawEncode(packets),
            ecn: None,
            local_ip: self.local_ip,
        })
    }

    /// Processes one datagram that came from the peer; only its moment and its payload are looked at. The verification
    /// tag is the driver's to check before (RFC 4960 section 8.5). What the datagram leads to is seen by `poll`,
    /// `poll_transmit` and `poll_timeout`.
    ///
    /// It answers Ok also where nothing changes: the datagram does not decode, is refused as a packet, comes after a
    /// loss, or is a `Payload::RawEncode`. A chunk that is a fault ends the packet and closes an open association, and
    /// so does the SHUTDOWN COMPLETE that is waited for; that is no error of this call, but `Event::AssociationLost`.
    ///
    /// Errors: `ErrAssociationFailed`, and `ErrNoMemory` only where a datagram is to be read, never after a loss.
    /// After the latter the association is failed.
    #[tactic(auto, using(crate::proofs::CallsLeadOn::packet_leads_on))]
    pub fn handle_event(&mut self, event: AssociationEvent) -> Result<(), Error>
        ensures failed { IsErrOf result Error.ErrAssociationFailed ↔ (self.old.failed ≡ true) }
        ensures refused { IsErrOf result Error.ErrAssociationFailed → self.new ≡ self.old }
        ensures memory { IsErrOf result Error.ErrNoMemory → HasFailed (answers_of self.old) self.new }
        ensures present { IsErrOf result Error.ErrNoMemory → self.old.lost ≡ false }
        ensures read { IsErrOf result Error.ErrNoMemory → is_datagram (transmit_of event).payload ≡ true }
        ensures only { OnErr result ((result ≡ Err Error.ErrAssociationFailed) ⊎ (result ≡ Err Error.ErrNoMemory)) }
        ensures ok { OnOk result (self.new ≡ after_packet self.old (packet_of_event event) (transmit_of event).now) }
        ensures acts { OnOk result
            (LeadsOn (acts_of_packet self.old (packet_of_event event) (transmit_of event).now) self.old self.new) }
    {
        self.check_usable()?;
        let transmit = event.transmit;
        let now = transmit.now;
        match transmit.payload {
            Payload::RawEncode(_) => Ok(()),
            Payload::PartialDecode(datagram) => {
                let before = self.answers();
                match self.on_datagram(datagram, now) {
                    Ok(()) => Ok(()),
                    Err(_) => {
                        self.fail(before);
                        Err(Error::ErrNoMemory)
                    }
                }
            }
        }
    }

    /// Does what the timers that expired by `now` ask for, and nothing where none did. INIT or COOKIE ECHO waits to
    /// go out again, or past `max_init_retransmits` the handshake failed (RFC 4960 section 5.1). DATA in flight is
    /// marked to be sent again, but not past `max_data_retransmits` (section 6.3.3). SHUTDOWN or SHUTDOWN ACK waits to
    /// go out again, without a limit (section 9.2). Where pieces in front of all others in flight are given up, FORWARD
    /// TSN is due again (RFC 3758 section 3.5). A delayed SACK becomes due (RFC 4960 section 6.2). `poll_transmit`
    /// gives the packets.
    ///
    /// Errors: `ErrAssociationFailed`, and `ErrNoMemory` only where INIT or COOKIE ECHO is to go out again, or a
    /// request to reset streams is given up. After the latter the association is failed.
    #[tactic(auto, using(crate::proofs::CallsLeadOn::timeouts_lead_on))]
    pub fn handle_timeout(&mut self, now: Instant) -> Result<(), Error>
        ensures failed { IsErrOf result Error.ErrAssociationFailed ↔ (self.old.failed ≡ true) }
        ensures refused { IsErrOf result Error.ErrAssociationFailed → self.new ≡ self.old }
        ensures memory { IsErrOf result Error.ErrNoMemory → HasFailed (answers_of self.old) self.new }
        ensures again { IsErrOf result Error.ErrNoMemory → timeouts_take_memory self.old now ≡ true }
        ensures only { OnErr result ((result ≡ Err Error.ErrAssociationFailed) ⊎ (result ≡ Err Error.ErrNoMemory)) }
        ensures ok { OnOk result (self.new ≡ after_timeouts self.old now) }
        ensures acts { OnOk result (LeadsOn (acts_of_timeouts self.old now) self.old self.new) }
    {
        self.check_usable()?;
        let before = self.answers();
        match self.on_timers(now) {
            Ok(()) => Ok(()),
            Err(_) => {
                self.fail(before);
                Err(Error::ErrNoMemory)
            }
        }
    }

    fn on_timers(&mut self, now: Instant) -> Result<(), AllocError>
        ensures exact { OnOk result (self.new ≡ after_timeouts self.old now) }
        ensures again { OnErr result (timeouts_take_memory self.old now ≡ true) }
    {
        self.on_t1_init(now)?;
        self.on_t1_cookie(now)?;
        self.on_t2_shutdown(now);
        self.on_t3(now);
        self.on_reconfig_timeout(now)?;
        self.on_ack(now);
        Ok(())
    }

    fn on_t3(&mut self, now: Instant)
        ensures { self.new ≡ after_t3 self.old now }
    {
        let expiry = self.timers.is_expired(Timer::T3RTX, now);
        if expiry.expired {
            self.timers.set(Timer::T3RTX, None);
            if !expiry.failed {
                self.stats.inc_t3timeouts();
                let probing = self.is_probing();
                mark_all(&mut self.sender, probing);
                let forward = self.handshake.use_forward_tsn;
                self.sender.ask_for_forward_tsn(forward);
                let rto = self.rto.get_rto();
                self.timers.start(Timer::T3RTX, now, rto);
            }
        }
    }

    fn on_ack(&mut self, now: Instant)
        ensures { self.new ≡ after_ack_delay self.old now }
    {
        let expiry = self.timers.is_expired(Timer::Ack, now);
        if expiry.expired {
            self.timers.set(Timer::Ack, None);
            self.stats.inc_ack_timeouts();
            self.receiver.acknowledge_at_once();
        }
    }

    /// Makes a stream on this side, in a new generation, and lends it for its calls. What is written on it carries
    /// `default_payload_type`. Nothing is sent for it: the peer sees the stream by its first DATA. Any state and
    /// any identifier will do; the numbers of streams that the handshake agreed on are not enforced.
    ///
    /// Refused, in this order with nothing changed: `ErrAssociationFailed`; `ErrStreamAlreadyExist`, also where the
    /// peer opened it; `ErrStreamResetPending` where a reset of it is open or failed; `ErrStreamCreateFailed` where no
    /// generation is left (the last one is 2^64 - 2); `ErrNoMemory`.
    #[tactic(auto, using(crate::proofs::CallsLeadOn::open_leads_on))]
    pub fn open_stream(
        &mut self,
        id: StreamId,
        default_payload_type: PayloadProtocolIdentifier,
    ) -> Result<Stream<'_>, Error>
        ensures* lends { sem 𝓛 (rests_if_refused self.entry result) }
        ensures refused { RefusesOrLacksMemory result (open_refusal self.old id) }
        ensures ok { IfOk result (λ s. lent s ≡ opened self.old id default_payload_type) }
        ensures acts { IfOk result (λ s. LeadsOn
            (Act.Opened id self.old.sender.queue.next_message_id default_payload_type ∷ []) self.old (lent s)) }
        ensures same { IfOk result (λ s. lender s ≡ self.entry.ghost_name) }
        ensures id { IfOk result (λ s. id_of s ≡ id) }
    {
        self.check_usable()?;
        if self.streams.contains(id) {
            return Err(Error::ErrStreamAlreadyExist);
        }
        if self.resets.is_blocked(id) {
            return Err(Error::ErrStreamResetPending);
        }
        let first_message_id = self.sender.queue.next_message_id();
        self.streams
            .make(self.alloc, id, first_message_id, default_payload_type)?;
        Ok(Stream::new(self, id))
    }

    /// Lends the live stream of this identifier for its calls: one that `open_stream` or the peer made. A loss ends all
    /// streams. Refused, in this order with nothing changed: `ErrAssociationFailed`, `ErrStreamNotExisted`.
    pub fn stream(&mut self, id: StreamId) -> Result<Stream<'_>, Error>
        ensures* lends { sem 𝓛 (rests_if_refused self.entry result) }
        ensures refused { Refuses result (stream_refusal self.old id) }
        ensures ok { IfOk result (λ s. lent s ≡ self.old) }
        ensures same { IfOk result (λ s. lender s ≡ self.entry.ghost_name) }
        ensures id { IfOk result (λ s. id_of s ≡ id) }
    {
        self.check_usable()?;
        if !self.streams.contains(id) {
            return Err(Error::ErrStreamNotExisted);
        }
        Ok(Stream::new(self, id))
    }

    /// Lends the oldest stream that the peer opened and that was not accepted yet, each once; None where there is none,
    /// or the association failed. Such a stream may have ended since: where no stream of its identifier is live, its
    /// calls answer `ErrStreamClosed`.
    pub fn accept_stream(&mut self) -> Option<Stream<'_>>
        ensures* lends { sem 𝓛 (rests_if_none self.entry result) }
        ensures none { IsNone result → (accepted_stream self.old).1 ≡ None }
        ensures some { IfSome result (λ s. accepted_stream self.old ≡ (lent s, Some (id_of s))) }
        ensures acts { IfSome result (λ s. LeadsOn [] self.old (lent s)) }
        ensures same { IfSome result (λ s. lender s ≡ self.entry.ghost_name) }
    {
        if self.failed {
            return None;
        }
        let id = self.to_accept.pop_front()?;
        Some(Stream::new(self, id))
    }

    /// The identifiers of the live streams, ascending.
    ///
    /// Refused, in this order with nothing changed: `ErrAssociationFailed`, `ErrNoMemory`.
    pub fn stream_ids(&self) -> Result<Vec<StreamId>, Error>
        ensures refused { RefusesOrLacksMemory result (failed_refusal self.now) }
        ensures ids { IfOk result (λ ids. ids.items ≡ live_ids self.now.streams) }
    {
        self.check_usable()?;
        Ok(self.streams.ids(self.alloc)?)
    }

    /// From now on writes take messages of up to so many bytes (at first those of
    /// `TransportConfig::max_send_message_size`); what was accepted stays. Never refused, and takes no memory. In a
    /// failed association nothing changes.
    #[tactic(auto, using(crate::proofs::CallsLeadOn::limit_leads_on))]
    pub fn set_max_send_message_size(&mut self, max_send_message_size: u32)
        ensures ok { self.new ≡ with_max_send_message_size self.old max_send_message_size }
        ensures acts { LeadsOn [] self.old self.new }
    {
        if !self.failed {
            self.max_send_message_size = max_send_message_size;
        }
    }

    /// Begins to end the association gracefully (RFC 4960 section 9.2), and answers at once. No message is accepted
    /// from the application any more; streams can still be opened, and read. What was accepted is still sent, and what
    /// the peer sends is taken in; once all DATA is acknowledged SHUTDOWN goes out, and the peer answers when its own
    /// is. Then the association closes, as by `close`. `poll_endpoint_event` tells that a shutdown began.
    ///
    /// Refused, in this order with nothing changed: `ErrAssociationFailed`; `ErrShutdownNonEstablished` in any state
    /// but Established. Takes no memory.
    pub fn shutdown(&mut self) -> Result<(), Error>
        ensures refused { Refuses result (shutdown_refusal self.old) }
        ensures err { OnErr result (self.new ≡ self.old) }
        ensures ok { OnOk result (self.new ≡ shutdown_begun self.old) }
        ensures acts { OnOk result (LeadsOn [] self.old self.new) }
    {
        self.check_usable()?;
        if self.state != AssociationState::Established {
            return Err(Error::ErrShutdownNonEstablished);
        }
        self.state = AssociationState::ShutdownPending;
        self.endpoint_event = Some(EndpointEvent::drained());
        self.continue_shutdown();
        Ok(())
    }

    /// Closes the association at once, in any state but Closed; nothing is told to the peer. All timers stop, no packet
    /// waits any more, each live stream ends with its last counters, and `Event::AssociationLost` tells it. In Closed
    /// nothing changes.
    ///
    /// Refused: `ErrAssociationFailed`, with nothing changed; `ErrNoMemory`, which leaves the association failed.
    #[tactic(auto, using(crate::proofs::CallsLeadOn::close_leads_on))]
    pub fn close(&mut self) -> Result<(), Error>
        ensures refused { RefusesOrLacksMemory result (failed_refusal self.old) }
        ensures unchanged { (result ≡ Err Error.ErrAssociationFailed) → self.new ≡ self.old }
        ensures memory { (result ≡ Err Error.ErrNoMemory) → HasFailed (answers_of self.old) self.new }
        ensures ok { OnOk result (self.new ≡ closed_by self.old AssociationError.AssociationClosed) }
        ensures grows { (result ≡ Err Error.ErrNoMemory) → is_closed_state self.old.state ≡ false }
        ensures acts { OnOk result (LeadsOn (acts_of_close self.old) self.old self.new) }
    {
        self.check_usable()?;
        self.close_or_fail(AssociationError::AssociationClosed)
    }

    /// Whether the association was not established yet. Once it was, this stays false, also after a loss.
    pub fn is_handshaking(&self) -> bool
        ensures { result ≡ not self.now.handshake.completed }
    {
        !self.handshake.completed
    }

    /// Whether the state is Closed: that of a server until a handshake establishes it, and of any side after a loss.
    pub fn is_closed(&self) -> bool
        ensures { result ≡ is_closed_state self.now.state }
    {
        self.state == AssociationState::Closed
    }

    /// Whether a shutdown has begun, at either side, and the association is not closed yet (RFC 4960 section 9.2).
    pub fn is_closing(&self) -> bool
        ensures { result ≡ is_closing self.now.state }
    {
        self.state.is_closing()
    }

    /// Whether the association was lost: a fault closed it, or `close`, or the end of a shutdown. Nothing is left to do
    /// for it then but to ask for its events.
    pub fn is_drained(&self) -> bool
        ensures { result ≡ self.now.lost }
    {
        self.lost
    }

    /// Whether an earlier call found no memory in its middle. Then the association is over, no timer runs, and the
    /// other questions (about its state, its side, its addresses and its counts) answer what they answered before.
    pub fn is_failed(&self) -> bool
        ensures { result ≡ self.now.failed }
    {
        self.failed
    }

    /// The retransmission timeout of RFC 4960 section 6.3.1, in whole ms, and not the round trip that the name says:
    /// so does the crate that this one is a port of.
    pub fn rtt(&self) -> Duration
        ensures { as_nanos result ≡ self.now.estimate.rto * 1000000 }
    {
        Duration::from_millis(self.rto.get_rto())
    }

    pub(crate) fn check_usable(&self) -> Result<(), Error>
        ensures { result ≡ usable self.now }
    {
        if self.failed {
            return Err(Error::ErrAssociationFailed);
        }
        Ok(())
    }
}

// All that is in flight is to be sent again. The congestion window falls, unless that probed a closed window.
fn mark_all(sender: &mut Sender, probing: bool)
    ensures { sender.new ≡ timed_out_by probing sender.old }
{
    if probing {
        sender.queue.mark_all_to_retransmit();
    } else {
        sender.on_t3_timeout();
    }
}
