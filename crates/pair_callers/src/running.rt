// Running: what a run and a question leave, and what a pair is that was just made.
ghost use Rattle.std.specs.Prelude.{◌≡◌, [], IfOk, OnErr, length, slice_get};
ghost use Rattle.std.specs.Option.{option_copied};
ghost use Rattle.sctp_pair.specs.Callers.{CameBy};
ghost use Rattle.sctp_steps.specs.Ends.{end_of, packets_of};
ghost use Rattle.sctp_pair.specs.World.{World};
ghost use Rattle.sctp_pair.specs.Counted.{FitsCounted, Tally};
ghost use Rattle.sctp_pair.specs.Fits.{Fits};
ghost use Rattle.pair_callers.specs.Running.{BeginsWithNothing, RunsCounting, RunsTelling, StepsTelling, answer_in};

use bytes::Bytes;
use sctp_assoc::{ChunkInit, Error, TransportConfig};
use sctp_pair::{Pair, Reply, Side2, Step};
use std::alloc::Global;
use std::net::SocketAddr;

/// Asks whether a side has lost its association.
pub fn is_lost(pair: &mut Pair, side: Side2) -> bool
    ensures lost { result ≡ (end_of side pair.old).lost }
    ensures unchanged { pair.new ≡ pair.old }
{
    answer_of(&pair.step(&Step::IsDrained { side }))
}

fn answer_of(reply: &Reply) -> bool
    ensures { result ≡ answer_in reply.now }
{
    match reply {
        Reply::State(answer) => *answer,
        _ => false,
    }
}

/// Runs the steps: each has a reply, and nothing happened where memory is lacking.
pub fn try_to_run(pair: &mut Pair, steps: &[Step]) -> Result<Vec<Reply>, Error>
    ensures each { IfOk result (λ replies. length replies.items ≡ length steps.now) }
    ensures refused { OnErr result (pair.new ≡ pair.old) }
{
    pair.run(steps)
}

/// Runs the steps. As long as each world is within the limits, what was read are accepted messages.
pub fn run_and_tell(pair: &mut Pair, steps: &[Step]) -> Result<Vec<Reply>, Error>
    ensures { IfOk result (λ replies. (w : World) → Fits pair.old w → RunsTelling steps.now replies.items w pair.new) }
{
    pair.run(steps)
}

/// Runs the steps of a caller that counts its writes and reads: what was read are accepted messages.
pub fn run_and_count(pair: &mut Pair, steps: &[Step]) -> Result<Vec<Reply>, Error>
    ensures { IfOk result (λ replies. (t : Tally) (w : World) → FitsCounted t pair.old w
        → RunsCounting steps.now replies.items w t pair.old) }
{
    pair.run(steps)
}

/// Carries out one step of a caller that counts its writes and reads: what was read are accepted messages.
pub fn step_and_count(pair: &mut Pair, step: &Step) -> Reply
    ensures { StepsTelling step.now result pair.old pair.new }
{
    pair.step(step)
}

/// A pair that two tokens join, in a world in which nothing was written and nothing read.
pub fn join(
    alloc: Global,
    config: &TransportConfig,
    max_payload_size: u32,
    token_a: &ChunkInit,
    token_b: &ChunkInit,
    remote_of_a: SocketAddr,
    remote_of_b: SocketAddr,
) -> Result<Pair, Error>
    ensures empty { IfOk result (λ p. BeginsWithNothing p) }
    ensures new { IfOk result (λ p. CameBy (record {
      size_a = max_payload_size;
      size_b = max_payload_size;
      initial_a = token_a.now.initial_tsn;
      initial_b = token_b.now.initial_tsn;
    }) [] [] p) }
{
    Pair::snap(
        alloc,
        config,
        config,
        max_payload_size,
        max_payload_size,
        token_a,
        token_b,
        remote_of_a,
        remote_of_b,
    )
}

/// The first packet that a side gave out.
pub fn give_first_packet(pair: &Pair, side: Side2) -> Option<&Bytes>
    ensures { option_copied result ≡ slice_get (packets_of side pair.now) 0 }
{
    pair.packet(side, 0)
}
