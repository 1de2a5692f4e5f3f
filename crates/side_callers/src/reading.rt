// What is read came: against any peer at all, a read gives nothing that was not in a datagram that was delivered
// before. And once it was told that the association was lost, nothing more is accepted.
ghost use Rattle.std.specs.Prelude.{◌≡◌, length, IfOk};
ghost use Rattle.sctp_directions.specs.Acts.{History};
ghost use Rattle.sctp_assoc.specs.Abstract.{StandsOn};
ghost use Rattle.sctp_sides.specs.OneSide.{IsFresh};
ghost use Rattle.side_callers.specs.Losing.{NothingIsAcceptedBehindALoss};
ghost use Rattle.side_callers.specs.Reading.{HoldsNothing, ReadsGiveWhatCame};

use bytes::Bytes;
use sctp_assoc::{
    Association, AssociationId, Call, ChunkInit, Error, Instant, Reply, ServerConfig,
    TransportConfig,
};
use std::alloc::Global;
use std::net::{IpAddr, SocketAddr};

/// Carries out calls on an association that stands on some past, and answers one reply for each. Where it holds nothing
/// yet, each message that is read on a stream was made of DATA chunks of datagrams that calls before the read
/// delivered: of all pieces of one message on that stream. Where it is as a constructor leaves it, no write is accepted
/// once its loss was told.
pub fn run_and_read(
    alloc: Global,
    association: &mut Association,
    calls: &[Call],
    packets: &mut Vec<Bytes>,
) -> Result<Vec<Reply>, Error>
    ensures each { IfOk result (λ replies. (h : History) → StandsOn association.old h
        → length replies.items ≡ length calls.now) }
    ensures came { IfOk result (λ replies. (h : History) → StandsOn association.old h → HoldsNothing association.old
        → ReadsGiveWhatCame calls.now replies.items) }
    ensures ended { IfOk result (λ replies. (h : History) → StandsOn association.old h → IsFresh association.old
        → NothingIsAcceptedBehindALoss replies.items) }
{
    sctp_calls::run(alloc, association, calls, packets)
}

/// Makes a client or a server, and carries out calls on it.
pub fn run_new(
    alloc: Global,
    server_config: Option<&ServerConfig>,
    config: &TransportConfig,
    max_payload_size: u32,
    local_aid: AssociationId,
    initial_tsn: u32,
    cookie: [u8; 32],
    remote_addr: SocketAddr,
    local_ip: Option<IpAddr>,
    now: Instant,
    calls: &[Call],
) -> Result<Vec<Reply>, Error>
    ensures each { IfOk result (λ replies. length replies.items ≡ length calls.now) }
    ensures came { IfOk result (λ replies. ReadsGiveWhatCame calls.now replies.items) }
    ensures ended { IfOk result (λ replies. NothingIsAcceptedBehindALoss replies.items) }
{
    let mut association = Association::new(
        alloc,
        server_config,
        config,
        max_payload_size,
        local_aid,
        initial_tsn,
        cookie,
        remote_addr,
        local_ip,
        now,
    )?;
    let mut packets = Vec::new(alloc);
    run_and_read(alloc, &mut association, calls, &mut packets)
}

/// Makes an association by tokens, and carries out calls on it.
pub fn run_joined(
    alloc: Global,
    config: &TransportConfig,
    max_payload_size: u32,
    remote_addr: SocketAddr,
    local_ip: Option<IpAddr>,
    local_init: &ChunkInit,
    remote_init: &ChunkInit,
    calls: &[Call],
) -> Result<Vec<Reply>, Error>
    ensures each { IfOk result (λ replies. length replies.items ≡ length calls.now) }
    ensures came { IfOk result (λ replies. ReadsGiveWhatCame calls.now replies.items) }
    ensures ended { IfOk result (λ replies. NothingIsAcceptedBehindALoss replies.items) }
{
    let mut association = Association::new_with_out_of_band_init(
        alloc,
        config,
        max_payload_size,
        remote_addr,
        local_ip,
        local_init,
        remote_init,
    )?;
    let mut packets = Vec::new(alloc);
    run_and_read(alloc, &mut association, calls, &mut packets)
}
