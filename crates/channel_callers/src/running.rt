// Running: what all steps of a new pair with a channel tell, by themselves and their replies.
ghost use Rattle.std.specs.Prelude.{◌≡◌, ℕ, [], Err, IfOk, None, OnErr};
ghost use Rattle.sctp_assoc.specs.Created.{client, create_refusal, join_refusal, joined, server};
ghost use Rattle.sctp_steps.specs.Ends.{JoinRefuses};
ghost use Rattle.sctp_pair.specs.Fits.{Fits};
ghost use Rattle.sctp_pair.specs.World.{empty_world};
ghost use Rattle.channel_callers.specs.Telling.{HoldFromNew, LeadsFrom};

use channel_pair::{ChannelPair, ChannelReply, ChannelStep};
use sctp_assoc::{
    AssociationId, ChunkInit, Error, Instant, ServerConfig, StreamId, TransportConfig,
};
use sctp_pair::Pair;
use std::alloc::Global;
use std::net::SocketAddr;

/// Joins two associations by their tokens, with no channel yet on stream `id`, and runs the steps: each has a reply.
///
/// What either side received is a prefix of what the other one sent, message by message, after any of the steps. It
/// holds as long as each side accepted fewer than 16,384 pieces in all, those of its OPEN and its ACK among them; a
/// piece is what one DATA chunk has room for (`fronts`). A message is sent by each `Send` that is answered `Sent`, and
/// received by each `Receive` that is answered with one.
///
/// An error is that of `Pair::snap`, or `ErrNoMemory` where there is no room for the replies.
pub fn run_channel(
    alloc: Global,
    config: &TransportConfig,
    max_payload_size: u32,
    token_a: &ChunkInit,
    token_b: &ChunkInit,
    remote_of_a: SocketAddr,
    remote_of_b: SocketAddr,
    id: StreamId,
    steps: &[ChannelStep],
) -> Result<Vec<ChannelReply>, Error>
    ensures led { IfOk result (λ replies. LeadsFrom id steps.now replies.items (record {
      a = joined config.now max_payload_size remote_of_a None token_a.now token_b.now;
      b = joined config.now max_payload_size remote_of_b None token_b.now token_a.now;
      packets_a = [];
      packets_b = [];
    })) }
    ensures refused { JoinRefuses result
        (join_refusal max_payload_size token_a.now token_b.now)
        (join_refusal max_payload_size token_b.now token_a.now) }
    ensures fronts { IfOk result (λ replies. HoldFromNew max_payload_size steps.now replies.items) }
{
    let pair = Pair::snap(
        alloc,
        config,
        config,
        max_payload_size,
        max_payload_size,
        token_a,
        token_b,
        remote_of_a,
        remote_of_b,
    )?;
    run_new(alloc, pair, id, steps)
}

/// The same of a client and a server, from before their first packet on. An error is that of `Pair::client_server`, or
/// `ErrNoMemory`.
pub fn run_channel_client_server(
    alloc: Global,
    config: &TransportConfig,
    server_config: &ServerConfig,
    max_payload_size: u32,
    tags: (AssociationId, AssociationId),
    tsns: (u32, u32),
    cookies: ([u8; 32], [u8; 32]),
    remotes: (SocketAddr, SocketAddr),
    now: Instant,
    id: StreamId,
    steps: &[ChannelStep],
) -> Result<Vec<ChannelReply>, Error>
    ensures led { IfOk result (λ replies. LeadsFrom id steps.now replies.items (record {
      a = client config.now max_payload_size tags.0 tsns.0 cookies.0 remotes.0 None now;
      b = server config.now max_payload_size tags.1 tsns.1 cookies.1 remotes.1 None;
      packets_a = [];
      packets_b = [];
    })) }
    ensures refused { JoinRefuses result (create_refusal max_payload_size tsns.0)
        (create_refusal max_payload_size tsns.1) }
    ensures fronts { IfOk result (λ replies. HoldFromNew max_payload_size steps.now replies.items) }
{
    let pair = Pair::client_server(
        alloc,
        config,
        server_config,
        config,
        max_payload_size,
        max_payload_size,
        tags.0,
        tags.1,
        tsns.0,
        tsns.1,
        cookies.0,
        cookies.1,
        remotes.0,
        remotes.1,
        now,
    )?;
    run_new(alloc, pair, id, steps)
}

// The same of a pair to which nothing happened yet.
fn run_new(
    alloc: Global,
    pair: Pair,
    id: StreamId,
    steps: &[ChannelStep],
) -> Result<Vec<ChannelReply>, Error>
    ensures led { IfOk result (λ replies. LeadsFrom id steps.now replies.items pair) }
    ensures refused { OnErr result (result ≡ Err Error.ErrNoMemory) }
    ensures fronts { IfOk result (λ replies. (initial_a initial_b size : ℕ)
        → Fits pair (empty_world pair initial_a initial_b size size) → HoldFromNew size steps.now replies.items) }
{
    let mut pair = ChannelPair::new(alloc, pair, id);
    pair.run(steps)
}
