// Calls as values: one is carried out, or a list of them.
ghost use Rattle.std.specs.Prelude.{◌≡◌, IfOk, OnErr};
ghost use Rattle.sctp_assoc.specs.Abstract.{RunsOn, StepsOn};
ghost use Rattle.sctp_assoc.specs.Replies.{Replies};

use crate::calls;
use bytes::Bytes;
use sctp_assoc::{Association, Call, Error, Reply};
use std::alloc::Global;

/// Carries out the calls, in order, and answers one reply for each; a call that is refused is answered by a reply, too.
/// Packets that go out are put behind `packets`. Its one error is `ErrNoMemory`, where there is no room for the
/// replies: it comes before the first call, with nothing changed.
///
/// This is all that one side does, against any peer at all: the calls, with their replies and packets, are a run of the
/// abstract association, from what is past on which the association stands. (A constructor says on what it begins, in
/// its clause `begins`.) docs/MODEL.md has in words what that is.
#[tactic(auto, using(crate::proofs::AbstractRuns::run_next, crate::proofs::AbstractRuns::no_run))]
pub fn run(
    alloc: Global,
    association: &mut Association,
    calls: &[Call],
    packets: &mut Vec<Bytes>,
) -> Result<Vec<Reply>, Error>
    ensures ok { IfOk result (λ replies.
        RunsOn calls.now association.old packets.old.items replies.items association.new packets.new.items) }
    ensures refused { OnErr result
        ((result ≡ Err Error.ErrNoMemory) × (association.new ≡ association.old) × (packets.new ≡ packets.old)) }
{
    let mut replies = Vec::with_capacity(alloc, calls.len())?;
    for call in calls {
        let reply = carry_out(association, call, packets);
        replies.push_reserved(reply);
    }
    Ok(replies)
}

/// Carries out one call and answers what came of it; a refusal is a reply, too. Packets that go out are put behind
/// `packets`. The call is a step of the abstract association, as those of `run` are.
#[tactic(auto, using(crate::proofs::AbstractSteps::steps_on))]
pub fn carry_out(association: &mut Association, call: &Call, packets: &mut Vec<Bytes>) -> Reply
    ensures replied { Replies call.now association.old packets.old.items result association.new packets.new.items }
    ensures steps { StepsOn call.now association.old packets.old.items result association.new packets.new.items }
{
    make(association, call, packets)
}

// A table of the calls.
fn make(association: &mut Association, call: &Call, packets: &mut Vec<Bytes>) -> Reply
    ensures { Replies call.now association.old packets.old.items result association.new packets.new.items }
{
    match call {
        Call::OpenStream { id, payload_type } => calls::open_stream(
            association,
            *id,
            *payload_type,
        ),
        Call::Stream { id } => calls::find_stream(association, *id),
        Call::AcceptStream => calls::accept_stream(association),
        Call::StreamIds => calls::stream_ids(association),
        Call::SetMaxSendMessageSize {
            max_send_message_size,
        } => calls::set_max_send_message_size(association, *max_send_message_size),
        Call::Write { id, bytes } => calls::write(association, *id, bytes),
        Call::WriteWithPpi { id, bytes, ppi } => calls::write_with_ppi(
            association,
            *id,
            bytes,
            *ppi,
        ),
        Call::WriteSctp { id, bytes, ppi } => calls::write_sctp(association, *id, bytes, *ppi),
        Call::WriteChunk { id, bytes } => calls::write_chunk(association, *id, bytes),
        Call::WriteChunks { id, chunks } => calls::write_chunks(association, *id, chunks),
        Call::Read { id } => calls::read(association, *id),
        Call::ReadSctp { id } => calls::read_sctp(association, *id),
        Call::Finish { id } => calls::finish(association, *id),
        Call::Stop { id } => calls::stop(association, *id),
        Call::CloseStream { id } => calls::close_stream(association, *id),
        Call::SetReliabilityParams {
            id,
            unordered,
            rel_type,
            rel_val,
        } => calls::set_reliability_params(association, *id, *unordered, *rel_type, *rel_val),
        Call::SetDefaultPayloadType {
            id,
            default_payload_type,
        } => calls::set_default_payload_type(association, *id, *default_payload_type),
        Call::SetBufferedAmountLowThreshold { id, th } => {
            calls::set_low_threshold(association, *id, *th)
        }
        Call::SetBufferedAmountHighThreshold { id, th } => {
            calls::set_high_threshold(association, *id, *th)
        }
        Call::StreamStats { id } => calls::stream_stats(association, *id),
        Call::IsReadable { id } => calls::is_readable(association, *id),
        Call::IsWritable { id } => calls::is_writable(association, *id),
        Call::StreamIdentifier { id } => calls::stream_identifier(association, *id),
        Call::GetDefaultPayloadType { id } => calls::default_payload_type(association, *id),
        Call::BufferedAmountLowThreshold { id } => calls::low_threshold(association, *id),
        Call::BufferedAmountHighThreshold { id } => calls::high_threshold(association, *id),
        Call::BufferedAmount { id } => calls::buffered_amount(association, *id),
        Call::Shutdown => calls::shutdown(association),
        Call::Close => calls::close(association),
        Call::Poll => calls::poll(association),
        Call::PollEndpointEvent => calls::poll_endpoint_event(association),
        Call::PollTimeout => Reply::Timeout(association.poll_timeout()),
        Call::PollTransmit { now } => calls::poll_transmit(association, packets, *now),
        Call::HandleTimeout { now } => calls::handle_timeout(association, *now),
        Call::HandleDatagram {
            datagram,
            remote,
            now,
        } => calls::handle_datagram(association, datagram, *remote, *now),
        Call::IsHandshaking => Reply::State(association.is_handshaking()),
        Call::IsClosed => Reply::State(association.is_closed()),
        Call::IsClosing => Reply::State(association.is_closing()),
        Call::IsDrained => Reply::State(association.is_drained()),
        Call::IsFailed => Reply::State(association.is_failed()),
        Call::Rtt => Reply::Rtt(association.rtt()),
        Call::Stats => Reply::Stats(association.stats()),
        Call::Side => Reply::Side(association.side()),
        Call::RemoteAddr => Reply::RemoteAddr(association.remote_addr()),
        Call::LocalIp => Reply::LocalIp(association.local_ip()),
    }
}
