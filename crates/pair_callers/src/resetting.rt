// Resetting: what a caller is told of a stream, whatever resets it went through.
ghost use Rattle.std.specs.Prelude.{IfOk};
ghost use Rattle.pair_callers.specs.Resetting.{AcrossFromNew, EndedFromNew, PartsOnceMore, ReadsAnew, WrittenFromNew};

use sctp_assoc::{
    AssociationId, ChunkInit, Error, Instant, ServerConfig, StreamId, TransportConfig,
};
use sctp_pair::{Pair, Reply, Side2, Step};
use std::alloc::Global;
use std::net::SocketAddr;

/// Reads the next message of a stream at B: it is made of DATA that A gave out, of which nothing was read before, if
/// the pair stands between the courses of the stream.
pub fn read_across_resets(pair: &mut Pair, id: StreamId) -> Reply
    ensures { ReadsAnew id pair.old result }
{
    pair.step(&Step::Read { side: Side2::B, id })
}

/// Carries out one step: the requests of either side that were performed divide what was read, and the pair stands
/// between the courses of the stream then, as long as few requests and offsets were sent.
pub fn step_across_resets(pair: &mut Pair, step: &Step) -> Reply
    ensures { PartsOnceMore step.now pair.old result pair.new }
{
    pair.step(step)
}

/// Joins two associations by their tokens and runs the steps: the boundaries of each stream's resets are kept along
/// them, if each stop and each close of a stream names an identifier of 16 bits (`across`). If each side accepts fewer
/// than 16,384 pieces in all, and is asked fewer than 2^31 times for packets to send, each message that was read was
/// written by the other side, whole, and none was read twice, whichever resets its stream went through (`written`); and
/// no reply tells of an end of a stream that no step closed before, at either side (`ended`).
pub fn run_across_resets(
    alloc: Global,
    config: &TransportConfig,
    max_payload_size: u32,
    token_a: &ChunkInit,
    token_b: &ChunkInit,
    remote_of_a: SocketAddr,
    remote_of_b: SocketAddr,
    steps: &[Step],
) -> Result<Vec<Reply>, Error>
    ensures across { IfOk result (λ replies. AcrossFromNew max_payload_size token_a.now.initial_tsn
        token_b.now.initial_tsn steps.now replies.items) }
    ensures written { IfOk result (λ replies. WrittenFromNew max_payload_size steps.now replies.items) }
    ensures ended { IfOk result (λ replies. EndedFromNew max_payload_size steps.now replies.items) }
{
    let mut pair = Pair::snap(
        alloc,
        config,
        config,
        max_payload_size,
        max_payload_size,
        token_a,
        token_b,
        remote_of_a,
        remote_of_b,
    )?;
    pair.run(steps)
}

/// The same of a client and a server, from before their first packet on.
pub fn run_client_server_across_resets(
    alloc: Global,
    config: &TransportConfig,
    server_config: &ServerConfig,
    max_payload_size: u32,
    tags: (AssociationId, AssociationId),
    tsns: (u32, u32),
    cookies: ([u8; 32], [u8; 32]),
    remotes: (SocketAddr, SocketAddr),
    now: Instant,
    steps: &[Step],
) -> Result<Vec<Reply>, Error>
    ensures across { IfOk result (λ replies.
        AcrossFromNew max_payload_size tsns.0 tsns.1 steps.now replies.items) }
    ensures written { IfOk result (λ replies. WrittenFromNew max_payload_size steps.now replies.items) }
    ensures ended { IfOk result (λ replies. EndedFromNew max_payload_size steps.now replies.items) }
{
    let mut pair = Pair::client_server(
        alloc,
        config,
        server_config,
        config,
        max_payload_size,
        max_payload_size,
        tags.0,
        tags.1,
        tsns.0,
        tsns.1,
        cookies.0,
        cookies.1,
        remotes.0,
        remotes.1,
        now,
    )?;
    pair.run(steps)
}
