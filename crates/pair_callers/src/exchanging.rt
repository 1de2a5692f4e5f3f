// Exchanging: what follows for one association, whatever its peer is, from the clauses of its calls alone.
ghost use Rattle.std.specs.Prelude.{◌≡◌, ◌*◌, None, true, IfOk, OnErr, OnOk};
ghost use Rattle.sctp_assoc.specs.Calls.{stream_refusal, written};
ghost use Rattle.sctp_assoc.specs.Chunks.{after_packet};
ghost use Rattle.sctp_assoc.specs.Gather.{packets_of, polled};
ghost use Rattle.sctp_assoc.specs.Replies.{packet_in};
ghost use Rattle.pair_callers.specs.Exchanging.{IsHeldOrDropped};

use bytes::Bytes;
use sctp_assoc::{Association, AssociationEvent, Error, Instant, Payload, StreamId, Transmit};
use sctp_sides::writes_and_polls_lose_nothing;
use sctp_wire_queues::PartialDecode;
use std::net::SocketAddr;

/// Writes a message on a live stream, asks for the packets that are due at `now`, and then hands in a datagram, from
/// wherever it came. It answers these packets, and leaves a datagram that cannot be read as a packet.
///
/// A failed association refuses all of this with nothing changed. Any other error is that of the first call which was
/// refused; what the calls before it did stays done, and packets that were asked for are lost. Where the datagram is no
/// packet, the message waits or is in flight, or it had a lifetime of 0 ms and was dropped.
pub fn exchange(
    association: &mut Association,
    id: StreamId,
    message: &Bytes,
    datagram: &Bytes,
    remote: SocketAddr,
    now: Instant,
) -> Result<Option<Transmit>, Error>
    ensures failed { association.old.failed ≡ true
        → (result ≡ Err Error.ErrAssociationFailed) × (association.new ≡ association.old) }
    ensures given { IfOk result (λ given. (polled (written association.old id None message.now) now).1
        ≡ packets_of given) }
    ensures ok { OnOk result (association.new
        ≡ after_packet (polled (written association.old id None message.now) now).0 (packet_in datagram.now) now) }
    ensures held { OnOk result (packet_in datagram.now ≡ None
        → IsHeldOrDropped (written association.old id None message.now) now association.new
        association.old.sender.queue.next_message_id) }
{
    let given = send(association, id, message, now)?;
    hand_in(association, datagram, remote, now)?;
    Ok(given)
}

fn send(
    association: &mut Association,
    id: StreamId,
    message: &Bytes,
    now: Instant,
) -> Result<Option<Transmit>, Error>
    ensures failed { association.old.failed ≡ true
        → (result ≡ Err Error.ErrAssociationFailed) × (association.new ≡ association.old) }
    ensures ok { IfOk result
        (λ given. polled (written association.old id None message.now) now ≡ (association.new, packets_of given)) }
    ensures held { OnOk result (IsHeldOrDropped (written association.old id None message.now) now association.new
        association.old.sender.queue.next_message_id) }
{
    writes_and_polls_lose_nothing();
    write(association, id, message)?;
    association.poll_transmit(now)
}

fn write(association: &mut Association, id: StreamId, message: &Bytes) -> Result<usize, Error>
    ensures failed { association.old.failed ≡ true → result ≡ Err Error.ErrAssociationFailed }
    ensures refused { OnErr result (association.new ≡ association.old) }
    ensures live { OnOk result (stream_refusal association.old id ≡ None) }
    ensures accepted { OnOk result (association.new ≡ written association.old id None message.now) }
{
    let mut stream = association.stream(id)?;
    stream.write(message.as_slice())
}

fn hand_in(
    association: &mut Association,
    datagram: &Bytes,
    remote: SocketAddr,
    now: Instant,
) -> Result<(), Error>
    ensures ok { OnOk result (association.new ≡ after_packet association.old (packet_in datagram.now) now) }
    ensures undecoded { OnOk result (packet_in datagram.now ≡ None → association.new ≡ association.old) }
{
    let datagram = match PartialDecode::unmarshal(datagram) {
        Ok(datagram) => datagram,
        Err(Error::ErrNoMemory) => return Err(Error::ErrNoMemory),
        Err(_) => return Ok(()),
    };
    association.handle_event(AssociationEvent::datagram(Transmit {
        now,
        remote,
        payload: Payload::PartialDecode(datagram),
        ecn: None,
        local_ip: None,
    }))
}
