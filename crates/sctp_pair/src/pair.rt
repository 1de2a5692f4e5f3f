// The pair, and a run of steps on it.
ghost use Rattle.std.specs.Prelude.{◌≡◌, ℕ, length, slice_get, [], ◌∷◌, None, OnErr, IfOk, vec_len};
ghost use Rattle.std.specs.Option.{option_copied};
ghost use Rattle.sctp_assoc.specs.Created.{client, create_refusal, join_refusal, joined, server};
ghost use Rattle.sctp_pair.specs.Callers.{CameBy, ComesOn, HoldsOn, NothingIsReadBeforeADelivery, ReadsAreFronts};
ghost use Rattle.sctp_pair.specs.Callers.{ReadsWereWritten};
ghost use Rattle.sctp_pair.specs.Across.{CameFresh, EndsOn, ReadsOn};
ghost use Rattle.std.specs.Borrow.{Lends, sem};
ghost use Rattle.sctp_assoc.specs.contracts.association.Association as association;
ghost use Rattle.sctp_pair.specs.contracts.pair.Pair.{the_row};
ghost use Rattle.sctp_steps.specs.Ends.{JoinRefuses, packets_of, end_of, with_end};
ghost use Rattle.sctp_steps.specs.Steps.{ComesTo, Runs, SendsAt, Steps};
ghost use Rattle.sctp_boundaries.specs.Laws.{RunKeepsBoundaries, StandsFresh, StepKeepsBoundaries};
ghost use Rattle.sctp_closed_between.specs.Between.{BeginsUnclosed, EndOnlyClosed};
ghost use Rattle.sctp_pair.specs.World.{World, empty_world};
ghost use Rattle.sctp_pair.specs.Counted.{FitsCounted, LeadsCounted, RunsCounted, Tally, nothing_tallied};
ghost use Rattle.sctp_pair.specs.Fits.{Fits, LeadsSafely, RunsSafely};

use crate::delivery::deliver;
use crate::{Reply, Side2, Step};
use bytes::Bytes;
use sctp_assoc::{
    Association, AssociationId, ChunkInit, Error, Instant, ServerConfig, TransportConfig,
};
use sctp_boundaries::boundaries_are_kept;
use sctp_calls::calls;
use sctp_closed_between::only_closed_streams_end_between;
use std::alloc::Global;
use std::marker::Model;
use std::net::SocketAddr;

/// Two associations that face each other, A and B, and all packets that they gave out, numbered 0, 1, 2 and so on for
/// each side. These packets are the network: a step delivers any of them, late, again, in any order or never, and
/// none is altered or forged.
///
/// A pair is for simulators, for tests, and for whoever needs the promise of delivery: it is said of `run` and
/// `step`.
pub struct Pair {
    alloc: Global,
    a: Association,
    b: Association,
    packets_a: Vec<Bytes>,
    packets_b: Vec<Bytes>,
    remote_a: SocketAddr,
    remote_b: SocketAddr,
}

// Its parts are let go here, so that a crate that owns a pair proves one call where it lets go of it.
impl Drop for Pair {
    fn drop(self) {
        let Pair {
            alloc: _alloc,
            a: _a,
            b: _b,
            packets_a: _packets_a,
            packets_b: _packets_b,
            remote_a: _remote_a,
            remote_b: _remote_b,
        } = self;
    }
}

impl Model for Pair {
    ghost use Rattle.sctp_steps.specs.Ends.{Ends};

    ghost Value = { Ends };

    ghost view = { λ p. record {
      a = p.a;
      b = p.b;
      packets_a = p.packets_a.items;
      packets_b = p.packets_b.items;
    } };
}

impl Pair {
    /// A pair whose sides are established from the start, without a handshake: their two INIT chunks were exchanged
    /// in another way, as by the extension SNAP, of which this call has its name. Such a chunk is called a token.
    /// `token_a` is A's own and what B knows of A, `token_b` the other way round. Each payload size is 1 to 65,519
    /// bytes. `remote_of_a` is the address at which A reaches B.
    ///
    /// Refused where A would be refused by `Association::new_with_out_of_band_init`, or else B. Nothing is left then.
    ///
    /// It stands in the world in which nothing happened yet, and between courses in which nothing was sent on any
    /// stream (`boundaries`); and no stream of it was closed (`unclosed`).
    pub fn snap(
        alloc: Global,
        config_a: &TransportConfig,
        config_b: &TransportConfig,
        max_payload_size_a: u32,
        max_payload_size_b: u32,
        token_a: &ChunkInit,
        token_b: &ChunkInit,
        remote_of_a: SocketAddr,
        remote_of_b: SocketAddr,
    ) -> Result<Pair, Error>
        ensures joined { IfOk result (λ p. p ≡ record {
          a = joined config_a.now max_payload_size_a remote_of_a None token_a.now token_b.now;
          b = joined config_b.now max_payload_size_b remote_of_b None token_b.now token_a.now;
          packets_a = [];
          packets_b = [];
        }) }
        ensures refused { JoinRefuses result
            (join_refusal max_payload_size_a token_a.now token_b.now)
            (join_refusal max_payload_size_b token_b.now token_a.now) }
        ensures fits { IfOk result (λ p. Fits p
            (empty_world p token_a.now.initial_tsn token_b.now.initial_tsn max_payload_size_a max_payload_size_b)) }
        ensures counted { IfOk result (λ p. FitsCounted nothing_tallied p
            (empty_world p token_a.now.initial_tsn token_b.now.initial_tsn max_payload_size_a max_payload_size_b)) }
        ensures new { IfOk result (λ p. CameBy (record {
          size_a = max_payload_size_a;
          size_b = max_payload_size_b;
          initial_a = token_a.now.initial_tsn;
          initial_b = token_b.now.initial_tsn;
        }) [] [] p) }
        ensures boundaries { IfOk result (λ p. StandsFresh token_a.now.initial_tsn token_b.now.initial_tsn p) }
        ensures unclosed { IfOk result (λ p. BeginsUnclosed p) }
        ensures fresh { IfOk result (λ p. CameFresh (record {
          size_a = max_payload_size_a;
          size_b = max_payload_size_b;
          initial_a = token_a.now.initial_tsn;
          initial_b = token_b.now.initial_tsn;
        }) [] [] p) }
    {
        boundaries_are_kept();
        only_closed_streams_end_between();
        let a = Association::new_with_out_of_band_init(
            alloc,
            config_a,
            max_payload_size_a,
            remote_of_a,
            None,
            token_a,
            token_b,
        )?;
        let b = Association::new_with_out_of_band_init(
            alloc,
            config_b,
            max_payload_size_b,
            remote_of_b,
            None,
            token_b,
            token_a,
        )?;
        Ok(Pair {
            alloc,
            a,
            b,
            packets_a: Vec::new(alloc),
            packets_b: Vec::new(alloc),
            remote_a: remote_of_a,
            remote_b: remote_of_b,
        })
    }

    /// A pair of which A is the client and B the server, before any packet (RFC 4960 section 5.1). A's INIT comes
    /// with its first `Step::PollTransmit`, and the timer of it runs from `now`. Tags, first TSNs and cookies are
    /// each side's own, and each payload size is 1 to 65,519 bytes. `remote_of_a` is the address at which A reaches
    /// B.
    ///
    /// Refused where A would be refused by `Association::new`, or else B. Nothing is left then.
    ///
    /// It stands in the world in which nothing happened yet, and between courses in which nothing was sent on any
    /// stream (`boundaries`); and no stream of it was closed (`unclosed`).
    pub fn client_server(
        alloc: Global,
        config_a: &TransportConfig,
        server_config_b: &ServerConfig,
        config_b: &TransportConfig,
        max_payload_size_a: u32,
        max_payload_size_b: u32,
        tag_a: AssociationId,
        tag_b: AssociationId,
        tsn_a: u32,
        tsn_b: u32,
        cookie_a: [u8; 32],
        cookie_b: [u8; 32],
        remote_of_a: SocketAddr,
        remote_of_b: SocketAddr,
        now: Instant,
    ) -> Result<Pair, Error>
        ensures created { IfOk result (λ p. p ≡ record {
          a = client config_a.now max_payload_size_a tag_a tsn_a cookie_a remote_of_a None now;
          b = server config_b.now max_payload_size_b tag_b tsn_b cookie_b remote_of_b None;
          packets_a = [];
          packets_b = [];
        }) }
        ensures refused { JoinRefuses result (create_refusal max_payload_size_a tsn_a)
            (create_refusal max_payload_size_b tsn_b) }
        ensures fits { IfOk result (λ p. Fits p (empty_world p tsn_a tsn_b max_payload_size_a max_payload_size_b)) }
        ensures counted { IfOk result (λ p. FitsCounted nothing_tallied p
            (empty_world p tsn_a tsn_b max_payload_size_a max_payload_size_b)) }
        ensures new { IfOk result (λ p. CameBy (record {
          size_a = max_payload_size_a;
          size_b = max_payload_size_b;
          initial_a = tsn_a;
          initial_b = tsn_b;
        }) [] [] p) }
        ensures boundaries { IfOk result (λ p. StandsFresh tsn_a tsn_b p) }
        ensures unclosed { IfOk result (λ p. BeginsUnclosed p) }
        ensures fresh { IfOk result (λ p. CameFresh (record {
          size_a = max_payload_size_a;
          size_b = max_payload_size_b;
          initial_a = tsn_a;
          initial_b = tsn_b;
        }) [] [] p) }
    {
        boundaries_are_kept();
        only_closed_streams_end_between();
        let a = Association::new(
            alloc,
            None,
            config_a,
            max_payload_size_a,
            tag_a,
            tsn_a,
            cookie_a,
            remote_of_a,
            None,
            now,
        )?;
        let b = Association::new(
            alloc,
            Some(server_config_b),
            config_b,
            max_payload_size_b,
            tag_b,
            tsn_b,
            cookie_b,
            remote_of_b,
            None,
            now,
        )?;
        Ok(Pair {
            alloc,
            a,
            b,
            packets_a: Vec::new(alloc),
            packets_b: Vec::new(alloc),
            remote_a: remote_of_a,
            remote_b: remote_of_b,
        })
    }

    /// The packet of this number that a side gave out; None where it gave out none of this number.
    pub fn packet(&self, side: Side2, number: u64) -> Option<&Bytes>
        ensures { option_copied result ≡ slice_get (packets_of side self.now) number }
    {
        match side {
            Side2::A => self.packets_a.get(number as usize),
            Side2::B => self.packets_b.get(number as usize),
        }
    }

    /// One side, to be looked at: its state, its numbers and its counts.
    pub fn association(&self, side: Side2) -> &Association
        ensures { result.now ≡ end_of side self.now }
    {
        match side {
            Side2::A => &self.a,
            Side2::B => &self.b,
        }
    }

    /// Carries out the steps, in order, and answers one reply for each. A step that is refused is a reply, and the
    /// steps after it are carried out all the same. `ErrNoMemory` is this call's only error, where there is no
    /// room for the replies: it comes before the first step, with nothing changed.
    ///
    /// The promise of delivery is said of all steps since the pair was made, these among them (`came`). It holds as
    /// long as few pieces stay unacknowledged and few messages unread, which a caller counts by its writes and reads
    /// and by a look at the pair before the call; a piece is what one DATA chunk has room for. After each of these
    /// steps, each side has accepted fewer than 2^31 pieces since the pair was made; these are fewer than 16,384 more
    /// than its peer had acknowledged cumulatively when this call began, as the side itself showed then (of a side that
    /// had failed or lost its association this is not asked); and on each stream fewer than 32,768 of its messages are
    /// not read. The calls before this one have kept to that, each from its own beginning. So a run may go on as long
    /// as its streams are read and its packets acknowledged. It is enough, too, that each side accepts fewer than
    /// 16,384 pieces in all.
    ///
    /// This is said of streams that no `Stop` and no `CloseStream`, at either side, was answered `Done` for. On each
    /// of them that no `SetReliabilityParams` of the writer's side had send other messages than ordered, reliable
    /// ones, the messages that one side's reads answered are, in order, a prefix of those that the other side's
    /// accepted writes gave (`front`). On every one of them, each message is one of those, whole, and none comes twice
    /// (`written`). Nothing is read on them at a side before the first delivery to it that is answered `Done`
    /// (`undelivered`).
    ///
    /// Of a pair that `snap` or `client_server` made, every stream's resets divide what is read (`boundaries`): each
    /// message that is read is made of DATA that the other side gave out and that is in no other message, and each
    /// request that the other side performed divides what is read on the stream by generations: what was sent before it
    /// is read in earlier ones, what was sent after it in later ones (docs/MODEL.md, courses). It holds as long as
    /// fewer than 2^31 offsets and requests were sent in either direction.
    ///
    /// Of such a pair no reply tells that a stream ended (Finished, ResetComplete or ResetFailed) which no `Stop` and
    /// no `CloseStream`, at either side, had named before: by the same premise (`closed`), or by those of `across`
    /// (`ended`).
    ///
    /// Of such a pair each message that is read on any stream is one that the other side's accepted writes gave, whole,
    /// and none comes twice, whether a `Stop` or a `CloseStream` reset the stream in between or not (`across`). It
    /// holds as long as both premises do: few pieces unacknowledged and few messages unread, few offsets and requests
    /// sent. A caller need not know the second one: it holds wherever fewer than 2^31 of all steps since the pair was
    /// made are `PollTransmit` of A, and fewer than 2^31 that of B. (A poll sends one request at most for the first
    /// time.)
    ///
    /// More is said over worlds, which docs/MODEL.md has in words. From each world that the pair fits, the steps lead
    /// from world to world, in each of which the pair stands. As long as each so far is within the limits, it is safe
    /// (`headline`). As long as few pieces stay unacknowledged and few messages unread, each of these worlds is safe
    /// (`counted`).
    #[tactic(auto, using(crate::proofs::RunsOfWorlds::runs_lead, crate::proofs::Counted::runs_lead_counted))]
    pub fn run(&mut self, steps: &[Step]) -> Result<Vec<Reply>, Error>
        ensures ok { IfOk result (λ replies. Runs steps.now replies.items self.old self.new) }
        ensures refused { OnErr result ((result ≡ Err Error.ErrNoMemory) × (self.new ≡ self.old)) }
        ensures headline { IfOk result (λ replies. (w : World) → Fits self.old w
            → RunsSafely steps.now replies.items w self.new) }
        ensures counted { IfOk result (λ replies. (t : Tally) (w : World) → FitsCounted t self.old w
            → RunsCounted steps.now replies.items w t self.old self.new) }
        ensures came { IfOk result (λ replies. ComesOn steps.now replies.items self.old self.new) }
        ensures front { IfOk result (λ replies. HoldsOn ReadsAreFronts steps.now replies.items self.old) }
        ensures written { IfOk result (λ replies. HoldsOn ReadsWereWritten steps.now replies.items self.old) }
        ensures undelivered { IfOk result
            (λ replies. HoldsOn NothingIsReadBeforeADelivery steps.now replies.items self.old) }
        ensures boundaries { IfOk result
            (λ replies. RunKeepsBoundaries steps.now replies.items self.old self.new) }
        ensures closed { IfOk result (λ replies. EndOnlyClosed steps.now replies.items self.old self.new) }
        ensures across { IfOk result (λ replies. ReadsOn steps.now replies.items self.old self.new) }
        ensures ended { IfOk result (λ replies. EndsOn steps.now replies.items self.old self.new) }
    {
        boundaries_are_kept();
        only_closed_streams_end_between();
        self.carry_out_all(steps)
    }

    /// Carries out one step and answers what came of it; a refusal is a reply, too.
    ///
    /// The promise of delivery is that of `run`, for this one step: the clauses `came`, `front`, `written`,
    /// `undelivered`, `boundaries`, `closed`, `across` and `ended`. What was acknowledged is looked at before each
    /// step, so that a caller that goes step by step may write on as acknowledgements come.
    ///
    /// From each world that the pair fits, the step leads to a next one, in which the pair stands. Where that is
    /// within the limits, it is safe (`headline`). Where few pieces are unacknowledged and few messages unread, this
    /// step's included, the next world is safe (`counted`).
    #[tactic(auto, using(crate::proofs::StepsLead::step_leads, crate::proofs::Counted::step_leads_counted))]
    pub fn step(&mut self, step: &Step) -> Reply
        ensures exact { Steps step.now self.old result self.new }
        ensures headline { (w : World) → Fits self.old w → LeadsSafely step.now result w self.new }
        ensures counted { (t : Tally) (w : World) → FitsCounted t self.old w
            → LeadsCounted step.now result w t self.new }
        ensures came { ComesOn (step.now ∷ []) (result ∷ []) self.old self.new }
        ensures front { HoldsOn ReadsAreFronts (step.now ∷ []) (result ∷ []) self.old }
        ensures written { HoldsOn ReadsWereWritten (step.now ∷ []) (result ∷ []) self.old }
        ensures undelivered { HoldsOn NothingIsReadBeforeADelivery (step.now ∷ []) (result ∷ []) self.old }
        ensures boundaries { StepKeepsBoundaries step.now self.old result self.new }
        ensures closed { EndOnlyClosed (step.now ∷ []) (result ∷ []) self.old self.new }
        ensures across { ReadsOn (step.now ∷ []) (result ∷ []) self.old self.new }
        ensures ended { EndsOn (step.now ∷ []) (result ∷ []) self.old self.new }
    {
        boundaries_are_kept();
        only_closed_streams_end_between();
        self.carry_out(step)
    }

    #[tactic(auto, using(crate::proofs::RunsJoined::run_next))]
    fn carry_out_all(&mut self, steps: &[Step]) -> Result<Vec<Reply>, Error>
        ensures ok { IfOk result (λ replies. Runs steps.now replies.items self.old self.new) }
        ensures refused { OnErr result ((result ≡ Err Error.ErrNoMemory) × (self.new ≡ self.old)) }
    {
        let mut replies = Vec::with_capacity(self.alloc, steps.len())?;
        for step in steps {
            let reply = self.carry_out(step);
            replies.push_reserved(reply);
        }
        Ok(replies)
    }

    // A table of the steps: each is one call, at one side.
    fn carry_out(&mut self, step: &Step) -> Reply
        ensures { Steps step.now self.old result self.new }
    {
        match step {
            Step::OpenStream {
                side,
                id,
                payload_type,
            } => calls::open_stream(self.end(*side), *id, *payload_type),
            Step::Stream { side, id } => calls::find_stream(self.end(*side), *id),
            Step::AcceptStream { side } => calls::accept_stream(self.end(*side)),
            Step::SetMaxSendMessageSize {
                side,
                max_send_message_size,
            } => calls::set_max_send_message_size(self.end(*side), *max_send_message_size),
            Step::StreamIds { side } => calls::stream_ids(self.end(*side)),
            Step::Shutdown { side } => calls::shutdown(self.end(*side)),
            Step::Close { side } => calls::close(self.end(*side)),
            Step::Write { side, id, bytes } => calls::write(self.end(*side), *id, bytes),
            Step::WriteWithPpi {
                side,
                id,
                bytes,
                ppi,
            } => calls::write_with_ppi(self.end(*side), *id, bytes, *ppi),
            Step::WriteSctp {
                side,
                id,
                bytes,
                ppi,
            } => calls::write_sctp(self.end(*side), *id, bytes, *ppi),
            Step::WriteChunk { side, id, bytes } => calls::write_chunk(self.end(*side), *id, bytes),
            Step::WriteChunks { side, id, chunks } => {
                calls::write_chunks(self.end(*side), *id, chunks)
            }
            Step::Read { side, id } => calls::read(self.end(*side), *id),
            Step::ReadSctp { side, id } => calls::read_sctp(self.end(*side), *id),
            Step::Finish { side, id } => calls::finish(self.end(*side), *id),
            Step::Stop { side, id } => calls::stop(self.end(*side), *id),
            Step::CloseStream { side, id } => calls::close_stream(self.end(*side), *id),
            Step::SetReliabilityParams {
                side,
                id,
                unordered,
                rel_type,
                rel_val,
            } => calls::set_reliability_params(
                self.end(*side),
                *id,
                *unordered,
                *rel_type,
                *rel_val,
            ),
            Step::SetDefaultPayloadType {
                side,
                id,
                default_payload_type,
            } => calls::set_default_payload_type(self.end(*side), *id, *default_payload_type),
            Step::SetBufferedAmountLowThreshold { side, id, th } => {
                calls::set_low_threshold(self.end(*side), *id, *th)
            }
            Step::SetBufferedAmountHighThreshold { side, id, th } => {
                calls::set_high_threshold(self.end(*side), *id, *th)
            }
            Step::StreamStats { side, id } => calls::stream_stats(self.end(*side), *id),
            Step::IsReadable { side, id } => calls::is_readable(self.end(*side), *id),
            Step::IsWritable { side, id } => calls::is_writable(self.end(*side), *id),
            Step::StreamIdentifier { side, id } => calls::stream_identifier(self.end(*side), *id),
            Step::GetDefaultPayloadType { side, id } => {
                calls::default_payload_type(self.end(*side), *id)
            }
            Step::BufferedAmountLowThreshold { side, id } => {
                calls::low_threshold(self.end(*side), *id)
            }
            Step::BufferedAmountHighThreshold { side, id } => {
                calls::high_threshold(self.end(*side), *id)
            }
            Step::BufferedAmount { side, id } => calls::buffered_amount(self.end(*side), *id),
            Step::PollTransmit { side, now } => self.poll_transmit(*side, *now),
            Step::HandleTimeout { side, now } => calls::handle_timeout(self.end(*side), *now),
            Step::Deliver { side, number, now } => self.deliver(*side, *number, *now),
            Step::Poll { side } => calls::poll(self.end(*side)),
            Step::PollEndpointEvent { side } => calls::poll_endpoint_event(self.end(*side)),
            Step::PollTimeout { side } => Reply::Timeout(self.association(*side).poll_timeout()),
            Step::Rtt { side } => Reply::Rtt(self.association(*side).rtt()),
            Step::Stats { side } => Reply::Stats(self.association(*side).stats()),
            Step::Side { side } => Reply::Side(self.association(*side).side()),
            Step::RemoteAddr { side } => Reply::RemoteAddr(self.association(*side).remote_addr()),
            Step::LocalIp { side } => Reply::LocalIp(self.association(*side).local_ip()),
            Step::IsHandshaking { side } => Reply::State(self.association(*side).is_handshaking()),
            Step::IsClosed { side } => Reply::State(self.association(*side).is_closed()),
            Step::IsClosing { side } => Reply::State(self.association(*side).is_closing()),
            Step::IsDrained { side } => Reply::State(self.association(*side).is_drained()),
            Step::IsFailed { side } => Reply::State(self.association(*side).is_failed()),
        }
    }

    // One side, for a call of it.
    fn end(&mut self, side: Side2) -> &mut Association
        ensures* lends { sem 𝓛 (Lends the_row association.the_row self.entry result (with_end side self.entry.now)) }
        ensures now { result.now ≡ end_of side self.old }
    {
        match side {
            Side2::A => &mut self.a,
            Side2::B => &mut self.b,
        }
    }

    fn poll_transmit(&mut self, side: Side2, now: Instant) -> Reply
        ensures { SendsAt side self.old now result self.new }
    {
        match side {
            Side2::A => calls::poll_transmit(&mut self.a, &mut self.packets_a, now),
            Side2::B => calls::poll_transmit(&mut self.b, &mut self.packets_b, now),
        }
    }

    fn deliver(&mut self, side: Side2, number: u64, now: Instant) -> Reply
        ensures { ComesTo side self.old number now result self.new }
    {
        match side {
            Side2::A => deliver(
                &mut self.a,
                self.packets_b.as_slice(),
                number,
                self.remote_a,
                now,
            ),
            Side2::B => deliver(
                &mut self.b,
                self.packets_a.as_slice(),
                number,
                self.remote_b,
                now,
            ),
        }
    }
}
