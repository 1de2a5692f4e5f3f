// Telling: what the replies of all steps tell of the streams of a pair that none of them stopped, with no world and no
// premise but that few pieces stay unacknowledged and few messages unread; it is enough that little is written at all.
ghost use Rattle.std.specs.Prelude.{◌∷◌, ◌++◌, [], IfOk};
ghost use Rattle.sctp_pair.specs.Callers.{AcceptFew, ReadsAreFronts};
ghost use Rattle.pair_callers.specs.Telling.{HoldFromNew, HoldOverTwo};

use crate::running::join;
use sctp_assoc::{AssociationId, ChunkInit, Error, Instant, ServerConfig, TransportConfig};
use sctp_pair::{Pair, Reply, Step};
use std::alloc::Global;
use std::net::SocketAddr;

/// Joins two associations by their tokens and runs the steps: each has a reply. On streams that none of them stopped
/// what one side read is a front of what the other one wrote, each message of it was written, and nothing was read
/// before the first delivery.
pub fn run_joined(
    alloc: Global,
    config: &TransportConfig,
    max_payload_size: u32,
    token_a: &ChunkInit,
    token_b: &ChunkInit,
    remote_of_a: SocketAddr,
    remote_of_b: SocketAddr,
    steps: &[Step],
) -> Result<Vec<Reply>, Error>
    ensures { IfOk result (λ replies. HoldFromNew max_payload_size steps.now replies.items) }
{
    let mut pair = join(
        alloc,
        config,
        max_payload_size,
        token_a,
        token_b,
        remote_of_a,
        remote_of_b,
    )?;
    pair.run(steps)
}

/// Makes a client and a server and runs the steps: the same holds of them.
pub fn run_client_server(
    alloc: Global,
    config: &TransportConfig,
    server_config: &ServerConfig,
    max_payload_size: u32,
    tags: (AssociationId, AssociationId),
    tsns: (u32, u32),
    cookies: ([u8; 32], [u8; 32]),
    remotes: (SocketAddr, SocketAddr),
    now: Instant,
    steps: &[Step],
) -> Result<Vec<Reply>, Error>
    ensures { IfOk result (λ replies. HoldFromNew max_payload_size steps.now replies.items) }
{
    let mut pair = Pair::client_server(
        alloc,
        config,
        server_config,
        config,
        max_payload_size,
        max_payload_size,
        tags.0,
        tags.1,
        tsns.0,
        tsns.1,
        cookies.0,
        cookies.1,
        remotes.0,
        remotes.1,
        now,
    )?;
    pair.run(steps)
}

/// Runs steps of a new pair, and then one step more: what was said of the first ones holds of all of them.
pub fn run_and_step(
    alloc: Global,
    config: &TransportConfig,
    max_payload_size: u32,
    token_a: &ChunkInit,
    token_b: &ChunkInit,
    remote_of_a: SocketAddr,
    remote_of_b: SocketAddr,
    steps: &[Step],
    last: &Step,
) -> Result<(Vec<Reply>, Reply), Error>
    ensures front { IfOk result (λ (replies, reply).
        AcceptFew max_payload_size max_payload_size (steps.now ++ last.now ∷ []) (replies.items ++ reply ∷ [])
        → ReadsAreFronts (steps.now ++ last.now ∷ []) (replies.items ++ reply ∷ [])) }
{
    let mut pair = join(
        alloc,
        config,
        max_payload_size,
        token_a,
        token_b,
        remote_of_a,
        remote_of_b,
    )?;
    let replies = pair.run(steps)?;
    let reply = pair.step(last);
    Ok((replies, reply))
}

/// Runs steps of a pair, and then others: on streams that no step stopped since the pair was made, what one side read
/// is a front of what the other one wrote, and each message of it was written. The second run counts from what was
/// acknowledged when it began.
pub fn run_twice(
    pair: &mut Pair,
    first: &[Step],
    second: &[Step],
) -> Result<(Vec<Reply>, Vec<Reply>), Error>
    ensures { IfOk result (λ (answers, replies).
        HoldOverTwo first.now answers.items second.now replies.items pair.old pair.new) }
{
    let answers = pair.run(first)?;
    let replies = pair.run(second)?;
    Ok((answers, replies))
}
