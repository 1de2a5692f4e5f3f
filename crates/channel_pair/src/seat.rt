// What one side of a pair has of a channel, and the channel's calls there.
ghost use Rattle.std.specs.Prelude.{◌≡◌, ◌==◌, true, false};
ghost use Rattle.sctp_steps.specs.Ends.{end_of};
ghost use Rattle.dcep_channel.specs.Channels.{AcceptsBy, AcknowledgesBy, BeginsBy, ReceivesBy, SendsBy};
ghost use Rattle.channel_pair.specs.PairDeeds.{DoesSome};
ghost use Rattle.channel_pair.specs.Seats.{AcceptsAt, AcknowledgesAt, OpensAt, ReceivesAt, SendsAt};
ghost use Rattle.channel_pair.specs.Seats.{is_spoiling, spoiled_refusal};

use crate::{ChannelReply, PairPort};
use dcep_channel::{Channel, ChannelError};
use sctp_assoc::{Chunks, Error, StreamId};
use sctp_pair::{Pair, Side2};
use std::alloc::Global;

/// What a side has of the channel.
#[derive(Debug, Drop)]
pub enum Seat {
    /// No channel. It is spoiled where a message was read for a channel and made none: no channel can be opened there.
    Vacant { spoiled: bool },
    /// A channel.
    Taken(Channel),
}

/// `Channel::open` at a side without a channel. A spoiled side is refused, since its stream is live, or failed.
pub(crate) fn open_at(
    pair: &mut Pair,
    seat: &mut Seat,
    alloc: Global,
    side: Side2,
    id: StreamId,
    priority: u16,
    label: &[u8],
    protocol: &[u8],
) -> ChannelReply
    ensures { DoesSome side id pair.old pair.new
        (λ ds. OpensAt (end_of side pair.old).failed priority label.now protocol.now seat.old ds result seat.new) }
{
    match seat {
        Seat::Vacant { spoiled } => {
            let spoiled = *spoiled;
            open_vacant(
                pair, seat, alloc, side, id, spoiled, priority, label, protocol,
            )
        }
        Seat::Taken(_) => ChannelReply::NotHere,
    }
}

// The same where there is no channel.
fn open_vacant(
    pair: &mut Pair,
    seat: &mut Seat,
    alloc: Global,
    side: Side2,
    id: StreamId,
    spoiled: bool,
    priority: u16,
    label: &[u8],
    protocol: &[u8],
) -> ChannelReply
    requires { seat.old ≡ Seat.Vacant spoiled }
    ensures { DoesSome side id pair.old pair.new
        (λ ds. OpensAt (end_of side pair.old).failed priority label.now protocol.now seat.old ds result seat.new) }
{
    if spoiled {
        return ChannelReply::Refused(refusal_at_spoiled(pair, side));
    }
    match open_on(pair, alloc, side, id, priority, label, protocol) {
        Ok(channel) => {
            *seat = Seat::Taken(channel);
            ChannelReply::Opened
        }
        Err(error) => ChannelReply::Refused(error),
    }
}

/// `Channel::accept` at a side without a channel. A message that was read and made no channel spoils the side.
pub(crate) fn accept_at(
    pair: &mut Pair,
    seat: &mut Seat,
    alloc: Global,
    side: Side2,
    id: StreamId,
) -> ChannelReply
    ensures { DoesSome side id pair.old pair.new (λ ds. AcceptsAt seat.old ds result seat.new) }
{
    match seat {
        Seat::Vacant { spoiled } => {
            let spoiled = *spoiled;
            match accept_on(pair, alloc, side, id) {
                Ok(Some(channel)) => {
                    *seat = Seat::Taken(channel);
                    ChannelReply::Accepted(true)
                }
                Ok(None) => ChannelReply::Accepted(false),
                Err(error) => {
                    *seat = Seat::Vacant {
                        spoiled: spoiled || is_spoiling(&error),
                    };
                    ChannelReply::Refused(error)
                }
            }
        }
        Seat::Taken(_) => ChannelReply::NotHere,
    }
}

/// `Channel::acknowledge` at a side that has a channel.
pub(crate) fn acknowledge_at(
    pair: &mut Pair,
    seat: &mut Seat,
    alloc: Global,
    side: Side2,
    id: StreamId,
) -> ChannelReply
    ensures { DoesSome side id pair.old pair.new (λ ds. AcknowledgesAt seat.old ds result seat.new) }
{
    match seat {
        Seat::Vacant { .. } => ChannelReply::NotHere,
        Seat::Taken(channel) => match acknowledge_on(pair, channel, alloc, side, id) {
            Ok(()) => ChannelReply::Acknowledged,
            Err(error) => ChannelReply::Refused(error),
        },
    }
}

/// `Channel::send` at a side that has a channel.
pub(crate) fn send_at(
    pair: &mut Pair,
    seat: &mut Seat,
    alloc: Global,
    side: Side2,
    id: StreamId,
    bytes: &[u8],
) -> ChannelReply
    ensures { DoesSome side id pair.old pair.new (λ ds. SendsAt bytes.now seat.old ds result seat.new) }
{
    match seat {
        Seat::Vacant { .. } => ChannelReply::NotHere,
        Seat::Taken(channel) => match send_on(pair, channel, alloc, side, id, bytes) {
            Ok(count) => ChannelReply::Sent(count),
            Err(error) => ChannelReply::Refused(error),
        },
    }
}

/// `Channel::receive` at a side that has a channel.
pub(crate) fn receive_at(
    pair: &mut Pair,
    seat: &mut Seat,
    alloc: Global,
    side: Side2,
    id: StreamId,
) -> ChannelReply
    ensures { DoesSome side id pair.old pair.new (λ ds. ReceivesAt seat.old ds result seat.new) }
{
    match seat {
        Seat::Vacant { .. } => ChannelReply::NotHere,
        Seat::Taken(channel) => match receive_on(pair, channel, alloc, side, id) {
            Ok(message) => ChannelReply::Received(message),
            Err(error) => ChannelReply::Refused(error),
        },
    }
}

// Why no channel is opened where a message of the stream was read: the stream is live, or the association failed.
fn refusal_at_spoiled(pair: &Pair, side: Side2) -> ChannelError
    ensures { result ≡ spoiled_refusal (end_of side pair.now).failed }
{
    if pair.association(side).is_failed() {
        return ChannelError::Beneath(Error::ErrAssociationFailed.number());
    }
    ChannelError::Beneath(Error::ErrStreamAlreadyExist.number())
}

// Whether a call of `Channel::accept` that was refused so may have read a message. Of want of memory it is not known.
fn is_spoiling(error: &ChannelError) -> bool
    ensures { result ≡ is_spoiling error.now }
{
    match error {
        ChannelError::Beneath(number) => *number == 4,
        _ => true,
    }
}

// The calls of a channel on the stream of a side.

#[tactic(auto, using(crate::proofs::PortDeeds::deeds_at_pair))]
fn open_on(
    pair: &mut Pair,
    alloc: Global,
    side: Side2,
    id: StreamId,
    priority: u16,
    label: &[u8],
    protocol: &[u8],
) -> Result<Channel, ChannelError>
    ensures { DoesSome side id pair.old pair.new (λ ds. BeginsBy priority label.now protocol.now ds result) }
{
    let mut port = PairPort::new(alloc, pair, side, id);
    Channel::open(alloc, &mut port, priority, label, protocol)
}

#[tactic(auto, using(crate::proofs::PortDeeds::deeds_at_pair))]
fn accept_on(
    pair: &mut Pair,
    alloc: Global,
    side: Side2,
    id: StreamId,
) -> Result<Option<Channel>, ChannelError>
    ensures { DoesSome side id pair.old pair.new (λ ds. AcceptsBy ds result) }
{
    let mut port = PairPort::new(alloc, pair, side, id);
    Channel::accept(alloc, &mut port)
}

#[tactic(auto, using(crate::proofs::PortDeeds::deeds_at_pair))]
fn acknowledge_on(
    pair: &mut Pair,
    channel: &mut Channel,
    alloc: Global,
    side: Side2,
    id: StreamId,
) -> Result<(), ChannelError>
    ensures { DoesSome side id pair.old pair.new (λ ds. AcknowledgesBy channel.old ds result channel.new) }
{
    let mut port = PairPort::new(alloc, pair, side, id);
    channel.acknowledge(&mut port)
}

#[tactic(auto, using(crate::proofs::PortDeeds::deeds_at_pair))]
fn send_on(
    pair: &mut Pair,
    channel: &Channel,
    alloc: Global,
    side: Side2,
    id: StreamId,
    bytes: &[u8],
) -> Result<usize, ChannelError>
    ensures { DoesSome side id pair.old pair.new (λ ds. SendsBy channel.now bytes.now ds result) }
{
    let mut port = PairPort::new(alloc, pair, side, id);
    channel.send(&mut port, bytes)
}

#[tactic(auto, using(crate::proofs::PortDeeds::deeds_at_pair))]
fn receive_on(
    pair: &mut Pair,
    channel: &mut Channel,
    alloc: Global,
    side: Side2,
    id: StreamId,
) -> Result<Option<Chunks>, ChannelError>
    ensures { DoesSome side id pair.old pair.new (λ ds. ReceivesBy channel.old ds result channel.new) }
{
    let mut port = PairPort::new(alloc, pair, side, id);
    channel.receive(&mut port)
}
