// A pair with a data channel, and a run of steps on it.
ghost use Rattle.std.specs.Prelude.{◌≡◌, ℕ, false, Err, IfOk, OnErr};
ghost use Rattle.sctp_pair.specs.World.{World, empty_world};
ghost use Rattle.sctp_pair.specs.Fits.{Fits};
ghost use Rattle.channel_pair.specs.ChannelWorld.{ChannelWorld, FitsChannel, HasNothingOn, begun};
ghost use Rattle.channel_pair.specs.Promise.{LeadsChannel, RunsChannel};
ghost use Rattle.channel_pair.specs.Seats.{AcceptsAt, AcknowledgesAt, OpensAt, ReceivesAt, SendsAt};
ghost use Rattle.channel_pair.specs.Steps.{AtSeat, RunsAll, StepsChannel, StepsPair, failed_at};

use crate::names::names;
use crate::seat::{accept_at, acknowledge_at, open_at, receive_at, send_at};
use crate::{ChannelReply, ChannelStep, Seat};
use sctp_assoc::{Error, StreamId};
use sctp_pair::{Pair, Side2, Step};
use std::alloc::Global;
use std::marker::Model;

/// A pair and a data channel between its sides, on one stream.
///
/// It is for simulators, for tests, and for whoever needs the promise that is said of `run` and `step`.
#[derive(Drop)]
pub struct ChannelPair {
    alloc: Global,
    pair: Pair,
    id: StreamId,
    a: Seat,
    b: Seat,
}

impl Model for ChannelPair {
    ghost use Rattle.channel_pair.specs.Shapes.{Shape};

    ghost Value = { Shape };

    ghost view = { λ p. record {
      pair = p.pair;
      id = p.id;
      a = p.a;
      b = p.b;
    } };
}

impl ChannelPair {
    /// A pair of whose sides neither has a channel yet. The channel's stream has this identifier.
    ///
    /// The promise is for a pair of which nothing was written and read on this stream, nor was the stream stopped or
    /// closed, or set to send other messages than ordered, reliable ones (`fits`); a new pair is one (`new`).
    #[tactic(auto, using(crate::proofs::NewChannels::new_fits, crate::proofs::NewChannels::empty_fits))]
    pub fn new(alloc: Global, pair: Pair, id: StreamId) -> ChannelPair
        ensures made { result ≡ record {
          pair = pair;
          id = id;
          a = Seat.Vacant false;
          b = Seat.Vacant false;
        } }
        ensures fits { (w : World) → Fits pair w → HasNothingOn id w → FitsChannel result (begun w) }
        ensures new { (initial_a initial_b size_a size_b : ℕ)
            → Fits pair (empty_world pair initial_a initial_b size_a size_b)
            → FitsChannel result (begun (empty_world pair initial_a initial_b size_a size_b)) }
    {
        ChannelPair {
            alloc,
            pair,
            id,
            a: Seat::Vacant { spoiled: false },
            b: Seat::Vacant { spoiled: false },
        }
    }

    /// The pair, to be looked at.
    pub fn pair(&self) -> &Pair
        ensures { result.now ≡ self.now.pair }
    {
        &self.pair
    }

    /// Carries out the steps, in order, and answers one reply for each. A step that is refused, or is `NotHere`, is a
    /// reply, and the steps after it are carried out all the same. `ErrNoMemory` is this call's only error, where there
    /// is no room for the replies: it comes before the first step, with nothing changed.
    ///
    /// From each world of the channel that this pair fits, the steps lead from world to world, as those of the pair do
    /// (`Pair::run`). As long as each so far is within the limits, what either side received is a prefix of what the
    /// other one sent, message by message (`headline`). A message is sent by each `Send` that is answered `Sent`, and
    /// received by each `Receive` that is answered with one. Of the steps of the pair that a call of a channel does each
    /// is of its side and this stream, and they write one message or none: its OPEN, its ACK or the data.
    #[tactic(auto, using(crate::proofs::ChannelLeads::runs_lead))]
    pub fn run(&mut self, steps: &[ChannelStep]) -> Result<Vec<ChannelReply>, Error>
        ensures ok { IfOk result (λ replies. RunsAll steps.now replies.items self.old self.new) }
        ensures refused { OnErr result ((result ≡ Err Error.ErrNoMemory) × (self.new ≡ self.old)) }
        ensures headline { IfOk result (λ replies. (c : ChannelWorld) → FitsChannel self.old c
            → RunsChannel self.old.id steps.now replies.items c self.new) }
    {
        self.carry_out_all(steps)
    }

    /// Carries out one step and answers what came of it; a refusal is a reply, too. The promise is that of `run`, for
    /// this one step.
    #[tactic(auto, using(crate::proofs::ChannelLeads::step_leads))]
    pub fn step(&mut self, step: &ChannelStep) -> ChannelReply
        ensures exact { StepsChannel step.now self.old result self.new }
        ensures headline { (c : ChannelWorld) → FitsChannel self.old c
            → LeadsChannel self.old.id step.now result c self.new }
    {
        self.carry_out(step)
    }

    #[tactic(auto, using(crate::proofs::RunsJoined::run_next))]
    fn carry_out_all(&mut self, steps: &[ChannelStep]) -> Result<Vec<ChannelReply>, Error>
        ensures ok { IfOk result (λ replies. RunsAll steps.now replies.items self.old self.new) }
        ensures refused { OnErr result ((result ≡ Err Error.ErrNoMemory) × (self.new ≡ self.old)) }
    {
        let mut replies = Vec::with_capacity(self.alloc, steps.len())?;
        for step in steps {
            let reply = self.carry_out(step);
            replies.push_reserved(reply);
        }
        Ok(replies)
    }

    fn carry_out(&mut self, step: &ChannelStep) -> ChannelReply
        ensures { StepsChannel step.now self.old result self.new }
    {
        match step {
            ChannelStep::Open {
                side,
                priority,
                label,
                protocol,
            } => self.open(*side, *priority, label.as_slice(), protocol.as_slice()),
            ChannelStep::Accept { side } => self.accept(*side),
            ChannelStep::Acknowledge { side } => self.acknowledge(*side),
            ChannelStep::Send { side, bytes } => self.send(*side, bytes.as_slice()),
            ChannelStep::Receive { side } => self.receive(*side),
            ChannelStep::OfPair(asked) => self.step_pair(asked),
        }
    }

    fn open(&mut self, side: Side2, priority: u16, label: &[u8], protocol: &[u8]) -> ChannelReply
        ensures { AtSeat side self.old
            (λ ds a b. OpensAt (failed_at side self.old) priority label.now protocol.now a ds result b) self.new }
    {
        let alloc = self.alloc;
        let id = self.id;
        match side {
            Side2::A => open_at(
                &mut self.pair,
                &mut self.a,
                alloc,
                Side2::A,
                id,
                priority,
                label,
                protocol,
            ),
            Side2::B => open_at(
                &mut self.pair,
                &mut self.b,
                alloc,
                Side2::B,
                id,
                priority,
                label,
                protocol,
            ),
        }
    }

    fn accept(&mut self, side: Side2) -> ChannelReply
        ensures { AtSeat side self.old (λ ds a b. AcceptsAt a ds result b) self.new }
    {
        let alloc = self.alloc;
        let id = self.id;
        match side {
            Side2::A => accept_at(&mut self.pair, &mut self.a, alloc, Side2::A, id),
            Side2::B => accept_at(&mut self.pair, &mut self.b, alloc, Side2::B, id),
        }
    }

    fn acknowledge(&mut self, side: Side2) -> ChannelReply
        ensures { AtSeat side self.old (λ ds a b. AcknowledgesAt a ds result b) self.new }
    {
        let alloc = self.alloc;
        let id = self.id;
        match side {
            Side2::A => acknowledge_at(&mut self.pair, &mut self.a, alloc, Side2::A, id),
            Side2::B => acknowledge_at(&mut self.pair, &mut self.b, alloc, Side2::B, id),
        }
    }

    fn send(&mut self, side: Side2, bytes: &[u8]) -> ChannelReply
        ensures { AtSeat side self.old (λ ds a b. SendsAt bytes.now a ds result b) self.new }
    {
        let alloc = self.alloc;
        let id = self.id;
        match side {
            Side2::A => send_at(&mut self.pair, &mut self.a, alloc, Side2::A, id, bytes),
            Side2::B => send_at(&mut self.pair, &mut self.b, alloc, Side2::B, id, bytes),
        }
    }

    fn receive(&mut self, side: Side2) -> ChannelReply
        ensures { AtSeat side self.old (λ ds a b. ReceivesAt a ds result b) self.new }
    {
        let alloc = self.alloc;
        let id = self.id;
        match side {
            Side2::A => receive_at(&mut self.pair, &mut self.a, alloc, Side2::A, id),
            Side2::B => receive_at(&mut self.pair, &mut self.b, alloc, Side2::B, id),
        }
    }

    // A step of the pair that may name the channel's stream is not carried out.
    fn step_pair(&mut self, step: &Step) -> ChannelReply
        ensures { StepsPair step.now self.old result self.new }
    {
        if names(step, self.id) {
            return ChannelReply::NotHere;
        }
        ChannelReply::OfPair(self.pair.step(step))
    }
}
