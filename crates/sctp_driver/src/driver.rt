// A driver: how it is made, and its calls with datagrams and moments.
ghost use Rattle.std.specs.Prelude.{◌≡◌, ◌≢◌, ◌↔◌, ◌⊎◌, ◌-◌, [], None, Err, IsErrOf, IfOk, OnErr, OnOk, false, true};
ghost use Rattle.std.specs.Option.{option_copied};
ghost use Rattle.sctp_wire.specs.Packets.{finished};
ghost use Rattle.sctp_parts.specs.Timers.{least_moment};
ghost use Rattle.sctp_streams.specs.Streams.{live_ids};
ghost use Rattle.sctp_assoc.specs.Calls.{Refuses, RefusesOrLacksMemory, event_polled, failed_refusal, first_refusal};
ghost use Rattle.sctp_assoc.specs.Calls.{with_max_send_message_size};
ghost use Rattle.sctp_assoc.specs.Chunks.{after_packet};
ghost use Rattle.sctp_assoc.specs.Closing.{closed_by, is_closed_state};
ghost use Rattle.sctp_assoc.specs.Created.{client, create_refusal, created, join_refusal, joined, server};
ghost use Rattle.sctp_assoc.specs.Gather.{has_something_to_give};
ghost use Rattle.sctp_assoc.specs.Inbound.{taken_packet};
ghost use Rattle.sctp_assoc.specs.Shutdown.{endpoint_event_polled, shutdown_begun, shutdown_refusal};
ghost use Rattle.sctp_driver.specs.Driving.{RunsOutOfMemory, begun_with, by_rfcs, timeout_refusal, with_association};
ghost use Rattle.sctp_driver.specs.Late.{with_datagram};
ghost use Rattle.sctp_driver.specs.Sending.{Sends, asked};
ghost use Rattle.sctp_driver.specs.Silence.{timed_out, timing_out_takes_memory};
ghost use Rattle.sctp_driver.specs.Tags.{answer_to, begins, judged_packet};

use crate::messages::Kept;
use crate::sending::{PollAnswer, packets_in, take_first};
use crate::silence::time_out;
use crate::tags::{DatagramAnswer, first_chunk, judge, tell_init};
use bytes::Bytes;
use sctp_assoc::{
    Association, AssociationError, AssociationEvent, AssociationState, ChunkInit, EndpointEvent,
    Error, Event, Instant, PartialDecode, Payload, Profile, ServerConfig, StreamId, Transmit,
    TransportConfig,
};
use std::alloc::Global;
use std::collections::VecDeque;
use std::marker::Model;
use std::net::{IpAddr, Ipv4Addr, SocketAddr};

/// One association, the datagrams that wait to go out, and the messages that wait for a buffer that is long enough.
/// Moments are nanoseconds. Addresses are not its business: it is for datagrams of one peer.
///
/// A call that finds no memory may leave the association failed; `is_failed` says it. Then every call that asks the
/// association for a `Result` answers `ErrAssociationFailed` and changes nothing.
pub struct Driver {
    pub(crate) alloc: Global,
    pub(crate) association: Association,
    own_tag: u32,
    shutdown_limit: Option<usize>,
    pub(crate) waiting: VecDeque<Bytes>,
    pub(crate) kept: VecDeque<Kept>,
}

// Its parts are let go here, so that a crate that owns a driver proves one call where it lets go of it.
impl Drop for Driver {
    fn drop(self) {
        let Driver {
            alloc: _alloc,
            association: _association,
            own_tag: _own_tag,
            shutdown_limit: _shutdown_limit,
            waiting: _waiting,
            kept: _kept,
        } = self;
    }
}

impl Model for Driver {
    ghost use Rattle.sctp_driver.specs.Driving.{Driving};

    ghost Value = { Driving };

    ghost view = { λ d. record {
      association = d.association;
      own_tag = d.own_tag;
      shutdown_limit = d.shutdown_limit;
      waiting = d.waiting.items;
      kept = d.kept.items;
    } };
}

impl Driver {
    /// Makes a client, whose INIT waits for the next `poll_transmit`; the timer of it runs from `now` (RFC 4960
    /// section 5.1). `max_payload_size` is the greatest payload of one DATA chunk, in bytes, 1 to 65,519. `local_tag`
    /// is this side's verification tag (a peer refuses 0), `initial_tsn` its first TSN and `cookie` its State Cookie:
    /// nobody else should be able to guess them.
    ///
    /// Where the configuration names no profile, the rules of the RFCs are kept.
    ///
    /// Refused, in this order: `ErrBadTimeout` where the initial, least or greatest retransmission timeout is 0, with
    /// which a timer could be due again as soon as it expired; `ErrBadPayloadSize`; `ErrBadInitialTsn` for the
    /// `initial_tsn` 0; `ErrNoMemory`.
    pub fn client(
        alloc: Global,
        config: &TransportConfig,
        max_payload_size: u32,
        local_tag: u32,
        initial_tsn: u32,
        cookie: [u8; 32],
        now: u64,
    ) -> Result<Driver, Error>
        ensures refused { RefusesOrLacksMemory result
            (first_refusal (timeout_refusal config.now) (create_refusal max_payload_size initial_tsn)) }
        ensures created { IfOk result (λ d. d ≡ begun_with (client (by_rfcs config.now) max_payload_size local_tag
            initial_tsn cookie d.association.remote_addr None now) local_tag config.now.max_init_retransmits) }
    {
        Driver::made(
            alloc,
            None,
            config,
            max_payload_size,
            local_tag,
            initial_tsn,
            cookie,
            now,
        )
    }

    /// Makes a server, which waits for an INIT (RFC 4960 section 5.1). The arguments are those of `client`, and it is
    /// refused as that is.
    pub fn server(
        alloc: Global,
        config: &TransportConfig,
        max_payload_size: u32,
        local_tag: u32,
        initial_tsn: u32,
        cookie: [u8; 32],
        now: u64,
    ) -> Result<Driver, Error>
        ensures refused { RefusesOrLacksMemory result
            (first_refusal (timeout_refusal config.now) (create_refusal max_payload_size initial_tsn)) }
        ensures created { IfOk result (λ d. d ≡ begun_with (server (by_rfcs config.now) max_payload_size local_tag
            initial_tsn cookie d.association.remote_addr None) local_tag config.now.max_init_retransmits) }
    {
        let of_server = ServerConfig::default();
        Driver::made(
            alloc,
            Some(&of_server),
            config,
            max_payload_size,
            local_tag,
            initial_tsn,
            cookie,
            now,
        )
    }

    // A server where there is a server's configuration, else a client. A driver is large, and each frame that hands it on
    // copies it, so this function is put into its callers.
    #[inline(always)]
    fn made(
        alloc: Global,
        server_config: Option<&ServerConfig>,
        config: &TransportConfig,
        max_payload_size: u32,
        local_tag: u32,
        initial_tsn: u32,
        cookie: [u8; 32],
        now: u64,
    ) -> Result<Driver, Error>
        ensures refused { RefusesOrLacksMemory result
            (first_refusal (timeout_refusal config.now) (create_refusal max_payload_size initial_tsn)) }
        ensures created { IfOk result (λ d. d ≡ begun_with (created (option_copied server_config.entry)
            (by_rfcs config.now) max_payload_size local_tag initial_tsn cookie d.association.remote_addr None now)
            local_tag config.now.max_init_retransmits) }
    {
        let config = driven(config)?;
        let association = Association::new(
            alloc,
            server_config,
            &config,
            max_payload_size,
            local_tag,
            initial_tsn,
            cookie,
            nowhere(),
            None,
            Instant::from_nanos(now),
        )?;
        Ok(Driver::of(alloc, association, local_tag, config.max_init_retransmits()))
    }

    /// Makes a side that is established at once, by the two sides' INIT chunks (tokens), which were exchanged in
    /// another way. `Event::Connected` waits for `poll_event`. `config` and `max_payload_size` are those of `client`.
    ///
    /// Refused, in this order: `ErrBadTimeout` as by `client`; `ErrBadPayloadSize`; `ErrBadToken` where a token has an
    /// initiate tag 0, a number of streams 0 or a window below 1500 bytes (RFC 4960 section 3.3.2); `ErrNoMemory`.
    pub fn joined(
        alloc: Global,
        config: &TransportConfig,
        max_payload_size: u32,
        local_token: &ChunkInit,
        remote_token: &ChunkInit,
    ) -> Result<Driver, Error>
        ensures refused { RefusesOrLacksMemory result (first_refusal (timeout_refusal config.now)
            (join_refusal max_payload_size local_token.now remote_token.now)) }
        ensures joined { IfOk result (λ d. d ≡ begun_with (joined (by_rfcs config.now) max_payload_size
            d.association.remote_addr None local_token.now remote_token.now) local_token.now.initiate_tag
            config.now.max_init_retransmits) }
    {
        let config = driven(config)?;
        let association = Association::new_with_out_of_band_init(
            alloc,
            &config,
            max_payload_size,
            nowhere(),
            None,
            local_token,
            remote_token,
        )?;
        Ok(Driver::of(
            alloc,
            association,
            local_token.initiate_tag,
            config.max_init_retransmits(),
        ))
    }

    fn of(
        alloc: Global,
        association: Association,
        own_tag: u32,
        shutdown_limit: Option<usize>,
    ) -> Driver
        ensures { result ≡ begun_with association own_tag shutdown_limit }
    {
        Driver {
            alloc,
            association,
            own_tag,
            shutdown_limit,
            waiting: VecDeque::new(alloc),
            kept: VecDeque::new(alloc),
        }
    }

    /// Takes in one datagram that came at `now`, in nanoseconds. One that is no packet, whose verification tag RFC 4960
    /// section 8.5 does not accept, or that is an INIT past the handshake, is left and changes nothing. An ABORT or a
    /// SHUTDOWN COMPLETE may have the peer's tag and its T bit set (section 8.5.1). A SHUTDOWN begins a shutdown at
    /// this side, too, and a SHUTDOWN COMPLETE ends it: the association closes then (section 9.2). By the rules of the
    /// RFCs a SHUTDOWN ACK that comes behind the end is answered (section 8.4); `poll_transmit` gives the answer.
    ///
    /// Errors: `ErrAssociationFailed`, with nothing changed; `ErrNoMemory`, which leaves all as it was, or the
    /// association failed where it was at reading the packet.
    pub fn handle_datagram(&mut self, now: u64, datagram: &[u8]) -> Result<DatagramAnswer, Error>
        ensures answer { IfOk result (λ answer. answer ≡ answer_to self.old datagram.now) }
        ensures left { answer_to self.old datagram.now ≢ DatagramAnswer.Taken → self.new ≡ self.old }
        ensures taken { OnOk result (answer_to self.old datagram.now ≡ DatagramAnswer.Taken → self.new
            ≡ with_datagram self.old datagram.now now) }
        ensures failed { IsErrOf result Error.ErrAssociationFailed ↔ (self.old.association.failed ≡ true) }
        ensures refused { IsErrOf result Error.ErrAssociationFailed → self.new ≡ self.old }
        ensures memory { IsErrOf result Error.ErrNoMemory → (self.new ≡ self.old) ⊎ RunsOutOfMemory self.old self.new }
        ensures only { OnErr result ((result ≡ Err Error.ErrAssociationFailed) ⊎ (result ≡ Err Error.ErrNoMemory)) }
    {
        if self.association.is_failed() {
            return Err(Error::ErrAssociationFailed);
        }
        let bytes = Bytes::copy_from_slice(self.alloc, datagram)?;
        let packet = match PartialDecode::unmarshal(&bytes) {
            Ok(packet) => packet,
            Err(Error::ErrNoMemory) => return Err(Error::ErrNoMemory),
            Err(_) => return Ok(DatagramAnswer::NoPacket),
        };
        match self.judge(&packet) {
            DatagramAnswer::Taken => {
                if self.answers_late(&packet) {
                    self.answer_late()?;
                } else {
                    self.take_in(now, packet)?;
                }
                Ok(DatagramAnswer::Taken)
            }
            left => Ok(left),
        }
    }

    fn judge(&self, packet: &PartialDecode) -> DatagramAnswer
        ensures { result ≡ judged_packet self.now packet.now }
    {
        let (chunks, peer) = (packet.remaining.as_slice(), self.association.peer_tag());
        let answer = judge(
            first_chunk(chunks),
            packet.common_header.verification_tag,
            self.own_tag,
            peer,
            begins(&self.association),
        );
        tell_init(answer, chunks, peer)
    }

    #[inline(always)]
    fn take_in(&mut self, now: u64, packet: PartialDecode) -> Result<(), Error>
        ensures ok { OnOk result (self.new
            ≡ with_association self.old (after_packet self.old.association (taken_packet (finished packet)) now)) }
        ensures failed { IsErrOf result Error.ErrAssociationFailed ↔ (self.old.association.failed ≡ true) }
        ensures refused { IsErrOf result Error.ErrAssociationFailed → self.new ≡ self.old }
        ensures memory { IsErrOf result Error.ErrNoMemory → RunsOutOfMemory self.old self.new }
        ensures only { OnErr result ((result ≡ Err Error.ErrAssociationFailed) ⊎ (result ≡ Err Error.ErrNoMemory)) }
    {
        self.association.handle_event(AssociationEvent::datagram(Transmit {
            now: Instant::from_nanos(now),
            remote: nowhere(),
            payload: Payload::PartialDecode(packet),
            ecn: None,
            local_ip: None,
        }))
    }

    /// Copies the next datagram that is due at `now`, in nanoseconds, to the front of the buffer and takes it out.
    /// Where the buffer is shorter the datagram waits on, and `NoRoom` says how long it is. Call it until it answers
    /// `Nothing`. The association is asked only where no datagram waits in the driver. Where a SHUTDOWN COMPLETE is
    /// due, the association closes as it is asked, and its datagrams still go out.
    ///
    /// Errors, only where none waits: `ErrAssociationFailed`, with nothing changed; `ErrNoMemory`, only where there is
    /// something to give, after which the association is failed and the packets of this poll are lost.
    pub fn poll_transmit(&mut self, now: u64, buffer: &mut [u8]) -> Result<PollAnswer, Error>
        ensures ok { IfOk result
            (λ answer. Sends (asked self.old now) buffer.old answer self.new buffer.new) }
        ensures failed { IsErrOf result Error.ErrAssociationFailed
            ↔ ((self.old.waiting ≡ []) × (self.old.association.failed ≡ true)) }
        ensures refused { IsErrOf result Error.ErrAssociationFailed → self.new ≡ self.old }
        ensures memory { IsErrOf result Error.ErrNoMemory → RunsOutOfMemory self.old self.new }
        ensures given { IsErrOf result Error.ErrNoMemory
            → has_something_to_give self.old.association now ≡ true }
        ensures only { OnErr result ((result ≡ Err Error.ErrAssociationFailed) ⊎ (result ≡ Err Error.ErrNoMemory)) }
        ensures unfilled { OnErr result (buffer.new ≡ buffer.old) }
    {
        self.ask(now)?;
        Ok(take_first(&mut self.waiting, buffer))
    }

    // Where no datagram waits, asks the association for those that are due.
    fn ask(&mut self, now: u64) -> Result<(), Error>
        ensures ok { OnOk result (self.new ≡ asked self.old now) }
        ensures failed { IsErrOf result Error.ErrAssociationFailed
            ↔ ((self.old.waiting ≡ []) × (self.old.association.failed ≡ true)) }
        ensures refused { IsErrOf result Error.ErrAssociationFailed → self.new ≡ self.old }
        ensures memory { IsErrOf result Error.ErrNoMemory → RunsOutOfMemory self.old self.new }
        ensures given { IsErrOf result Error.ErrNoMemory
            → has_something_to_give self.old.association now ≡ true }
        ensures only { OnErr result ((result ≡ Err Error.ErrAssociationFailed) ⊎ (result ≡ Err Error.ErrNoMemory)) }
    {
        if !self.waiting.is_empty() {
            return Ok(());
        }
        let given = self.association.poll_transmit(Instant::from_nanos(now))?;
        self.waiting = packets_in(self.alloc, given);
        Ok(())
    }

    /// The moment at which the next timer expires, in nanoseconds; None where no timer runs. Where it is not after now,
    /// `handle_timeout` is due.
    pub fn poll_timeout(&self) -> Option<u64>
        ensures { result ≡ least_moment self.now.association.timers }
    {
        match self.association.poll_timeout() {
            Some(moment) => Some(moment.as_nanos()),
            None => None,
        }
    }

    /// Does what the timers that expired by `now`, in nanoseconds, ask for, and nothing where none did (RFC 4960
    /// sections 5.1, 6.2, 6.3.3 and 9.2). `poll_transmit` gives the packets.
    ///
    /// By the rules of the RFCs a peer that is silent for good ends the association (sections 8.1 and 9.2): where DATA
    /// went out again `max_data_retransmits` times in a row and is not acknowledged, or a SHUTDOWN ACK
    /// `max_init_retransmits` times and is not answered, it closes, as by `close`, in place of what the timers ask for.
    ///
    /// Errors: `ErrAssociationFailed`, with nothing changed, and `ErrNoMemory` only where INIT or COOKIE ECHO is to go
    /// out again, a request to reset streams is given up or the association is to close, after which the association
    /// is failed.
    pub fn handle_timeout(&mut self, now: u64) -> Result<(), Error>
        ensures ok { OnOk result
            (self.new ≡ with_association self.old (timed_out self.old.association self.old.shutdown_limit now)) }
        ensures failed { IsErrOf result Error.ErrAssociationFailed ↔ (self.old.association.failed ≡ true) }
        ensures refused { IsErrOf result Error.ErrAssociationFailed → self.new ≡ self.old }
        ensures memory { IsErrOf result Error.ErrNoMemory → RunsOutOfMemory self.old self.new }
        ensures again { IsErrOf result Error.ErrNoMemory
            → timing_out_takes_memory self.old.association self.old.shutdown_limit now ≡ true }
        ensures only { OnErr result ((result ≡ Err Error.ErrAssociationFailed) ⊎ (result ≡ Err Error.ErrNoMemory)) }
    {
        time_out(&mut self.association, self.shutdown_limit, now)
    }

    /// Takes out the oldest event; None where none waits. Its one error is `ErrAssociationFailed`, with nothing
    /// changed.
    pub fn poll_event(&mut self) -> Result<Option<Event>, Error>
        ensures ok { IfOk result (λ event. event_polled self.old.association ≡ (self.new.association, event)) }
        ensures others { self.new ≡ with_association self.old self.new.association }
        ensures failed { IsErrOf result Error.ErrAssociationFailed ↔ (self.old.association.failed ≡ true) }
        ensures err { OnErr result ((result ≡ Err Error.ErrAssociationFailed) × (self.new ≡ self.old)) }
    {
        self.association.poll()
    }

    /// What whoever holds this driver is to be told, once; None where nothing is. That `shutdown` began is told by
    /// `EndpointEvent::drained`, as soon as it did: no message is accepted from the application from then on, but
    /// reads, datagrams and timers go on until `is_drained`. Never refused, and takes no memory.
    pub fn poll_endpoint_event(&mut self) -> Option<EndpointEvent>
        ensures told { endpoint_event_polled self.old.association ≡ (self.new.association, result) }
        ensures others { self.new ≡ with_association self.old self.new.association }
    {
        self.association.poll_endpoint_event()
    }

    /// Begins to end the association gracefully (RFC 4960 section 9.2), and answers at once. From now on writes and
    /// stops are refused. What was accepted is still sent, and messages of the peer still come; go on with datagrams,
    /// moments and events. Once all DATA of both sides is acknowledged the association closes, as by `close`, and the
    /// peer's does; `Event::AssociationLost` tells it, for the reason `AssociationClosed`. Read what comes before that,
    /// as the end of a stream takes unread messages with it. A peer that is gone is waited for without a limit of
    /// time, but for the two limits of `handle_timeout`, of DATA and of SHUTDOWN ACK: call `close` after a time of your
    /// own.
    ///
    /// Refused, in this order with nothing changed: `ErrAssociationFailed`; `ErrShutdownNonEstablished` in any state
    /// but Established, so also where the peer began a shutdown. Takes no memory.
    pub fn shutdown(&mut self) -> Result<(), Error>
        ensures refused { Refuses result (shutdown_refusal self.old.association) }
        ensures ok { OnOk result (self.new
            ≡ with_association self.old (shutdown_begun self.old.association)) }
        ensures unchanged { OnErr result (self.new ≡ self.old) }
    {
        self.association.shutdown()
    }

    /// Closes the association at once, in any state but Closed; nothing is told to the peer, and each stream ends.
    /// Datagrams that wait in the driver still go out, and messages that wait in it can be read.
    ///
    /// Refused: `ErrAssociationFailed`, with nothing changed; `ErrNoMemory`, which leaves the association failed.
    pub fn close(&mut self) -> Result<(), Error>
        ensures refused { RefusesOrLacksMemory result (failed_refusal self.old.association) }
        ensures ok { OnOk result (self.new
            ≡ with_association self.old (closed_by self.old.association AssociationError.AssociationClosed)) }
        ensures unchanged { (result ≡ Err Error.ErrAssociationFailed) → self.new ≡ self.old }
        ensures memory { (result ≡ Err Error.ErrNoMemory) → RunsOutOfMemory self.old self.new }
        ensures grows { (result ≡ Err Error.ErrNoMemory) → is_closed_state self.old.association.state ≡ false }
    {
        self.association.close()
    }

    /// From now on writes take messages of up to so many bytes; what was accepted stays. At first the limit is
    /// `max_send_message_size` of the configuration. Never refused; in a failed association nothing changes.
    pub fn set_max_send_message_size(&mut self, max_send_message_size: u32)
        ensures { self.new ≡ with_association self.old
            (with_max_send_message_size self.old.association max_send_message_size) }
    {
        self.association
            .set_max_send_message_size(max_send_message_size);
    }

    /// The identifiers of the streams, ascending: those that this side opened, and those that the peer did.
    ///
    /// Refused, in this order with nothing changed: `ErrAssociationFailed`, `ErrNoMemory`.
    pub fn stream_ids(&self) -> Result<Vec<StreamId>, Error>
        ensures refused { RefusesOrLacksMemory result (failed_refusal self.now.association) }
        ensures ids { IfOk result (λ ids. ids.items ≡ live_ids self.now.association.streams) }
    {
        self.association.stream_ids()
    }
}

// Whether an association is at its handshake.
fn begins(association: &Association) -> bool
    ensures { result ≡ begins association.now }
{
    !association.is_drained()
        && matches!(
            association.state(),
            AssociationState::Closed | AssociationState::CookieWait | AssociationState::CookieEchoed
        )
}

// The configuration of a driver's association: by the rules of the RFCs where it names none. Refused where one of its
// timeouts is 0.
fn driven(config: &TransportConfig) -> Result<TransportConfig, Error>
    ensures refused { Refuses result (timeout_refusal config.now) }
    ensures chosen { IfOk result (λ chosen. chosen ≡ by_rfcs config.now) }
{
    if config.rto_initial_ms() == 0 || config.rto_min_ms() == 0 || config.rto_max_ms() == 0 {
        return Err(Error::ErrBadTimeout);
    }
    let profile = config.profile().unwrap_or(Profile::Rfc);
    let config = *config;
    Ok(config.with_profile(Some(profile)))
}

// An address of the documentation range (RFC 5737), which is never looked at.
fn nowhere() -> SocketAddr {
    SocketAddr::new(IpAddr::V4(Ipv4Addr::new(192, 0, 2, 1)), 5000)
}
