// The protocol of one side of a data channel (RFC 8832 section 6).
ghost use Rattle.std.specs.Prelude.{◌≡◌, IfOk, List, true};
ghost use Rattle.sctp_receive_queues.specs.Messages.{bytes_left};
ghost use Rattle.dcep_channel.specs.Channels.{AcceptsAnswer, AcceptsBy, AcceptsBytes, AcceptsMessage, AcknowledgesBy};
ghost use Rattle.dcep_channel.specs.Channels.{BeginsBy, BeginsWith};
ghost use Rattle.dcep_channel.specs.Channels.{OpensAndWrites, ReceivesBy, SendsBy, WritesDcep, WritesReliably};
ghost use Rattle.dcep_channel.specs.Channels.{accepter, from_beneath, is_ack_message, is_awaited, is_binary, is_dcep};
ghost use Rattle.dcep_channel.specs.Channels.{may_send, opener, received, send_refusal, with_acknowledgement};
ghost use Rattle.dcep_channel.specs.Channels.{without_length};
ghost use Rattle.dcep_channel.specs.Deeds.{Deed, DoesAll};

use crate::error::ChannelError;
use crate::open_message::{ACK_MESSAGE, OpenMessage, is_ack};
use crate::port::Port;
use sctp_assoc::{Chunks, PayloadProtocolIdentifier};
use std::alloc::{AllocError, Global};
use std::marker::Model;

/// One side of a reliable and ordered data channel. Each call is handed the port of the channel's stream, and it has to
/// be the same stream in each call.
///
/// Where a call of the port is refused, the channel's call answers `ChannelError::Beneath` with the refusal's number,
/// and can be made again.
#[derive(Debug, Drop)]
pub struct Channel {
    is_opener: bool,
    // of an opener, that the ACK came; of an accepter, that it was written
    acknowledged: bool,
    failed: bool,
    open_message: OpenMessage,
}

impl Model for Channel {
    ghost use Rattle.dcep_channel.specs.Channels.{ChannelState};

    ghost Value = { ChannelState };

    ghost view = { λ c. record {
      is_opener = c.is_opener;
      acknowledged = c.acknowledged;
      failed = c.failed;
      open_message = c.open_message;
    } };
}

impl Channel {
    /// Opens the stream, has it send reliable messages in order, and writes DATA_CHANNEL_OPEN with this priority, label
    /// and protocol. Messages may be sent at once.
    ///
    /// Refused: `ErrLabelTooLong` where label or protocol is longer than 65,535 bytes, with nothing changed;
    /// `Beneath(4)` where the OPEN finds no memory, with nothing changed; and as the calls of the port are. Where the
    /// last of these is refused the stream is live without a channel.
    pub fn open<P: Port>(
        alloc: Global,
        port: &mut P,
        priority: u16,
        label: &[u8],
        protocol: &[u8],
    ) -> Result<Channel, ChannelError>
        ensures { (ds : List Deed) × DoesAll P.does ds port.old port.new
            × BeginsBy priority label.now protocol.now ds result }
    {
        match OpenMessage::new(alloc, priority, label, protocol) {
            Ok(open_message) => begin(port, open_message),
            Err(error) => Err(error),
        }
    }

    /// Takes out the next message, which has to be a DATA_CHANNEL_OPEN of a reliable and ordered channel, and makes the
    /// channel that it asks for. None where no message is ready.
    ///
    /// Refused: as `read` of the port is; `ErrNotOpenMessage` where the message is no OPEN; `Beneath(4)` where a DCEP
    /// message finds no memory; `ErrChannelType` where the OPEN asks for another type of channel. But for the first of
    /// these the message was read.
    pub fn accept<P: Port>(alloc: Global, port: &mut P) -> Result<Option<Channel>, ChannelError>
        ensures { (ds : List Deed) × DoesAll P.does ds port.old port.new × AcceptsBy ds result }
    {
        accept_from(alloc, port.read())
    }

    /// Has the stream send reliable messages in order, and writes DATA_CHANNEL_ACK, once: on a channel that is
    /// acknowledged, or that this side opened, nothing happens.
    ///
    /// Refused: `ErrChannelFailed`; and as the calls of the port are, and then the channel is not acknowledged.
    pub fn acknowledge<P: Port>(&mut self, port: &mut P) -> Result<(), ChannelError>
        ensures { (ds : List Deed) × DoesAll P.does ds port.old port.new
            × AcknowledgesBy self.old ds result self.new }
    {
        if self.is_failed() {
            return Err(ChannelError::ErrChannelFailed);
        }
        if self.may_send() {
            return Ok(());
        }
        match write_reliably(port, &ACK_MESSAGE) {
            Ok(()) => {
                self.mark_acknowledged();
                Ok(())
            }
            Err(error) => Err(error),
        }
    }

    /// Writes one message, of payload type 53, and answers its length in bytes.
    ///
    /// Refused: `ErrChannelFailed`; `ErrNotAcknowledged` on an accepted channel that is not acknowledged; and as
    /// `write` of the port is, which refuses an empty message, too.
    pub fn send<P: Port>(&self, port: &mut P, bytes: &[u8]) -> Result<usize, ChannelError>
        ensures { (ds : List Deed) × DoesAll P.does ds port.old port.new
            × SendsBy self.now bytes.now ds result }
    {
        match self.send_refusal() {
            Some(error) => Err(error),
            None => from_beneath(port.write(PayloadProtocolIdentifier::Binary, bytes)),
        }
    }

    /// Takes out the next message of payload type 53; None where none is ready. The first DATA_CHANNEL_ACK that an
    /// opener reads is taken out silently.
    ///
    /// Refused: `ErrChannelFailed`; as `read` of the port is; `ErrUnexpectedMessage` where the message is another one,
    /// which was read, and from then on the channel is failed.
    pub fn receive<P: Port>(&mut self, port: &mut P) -> Result<Option<Chunks>, ChannelError>
        ensures { (ds : List Deed) × DoesAll P.does ds port.old port.new
            × ReceivesBy self.old ds result self.new }
    {
        if self.is_failed() {
            return Err(ChannelError::ErrChannelFailed);
        }
        let first = port.read();
        if self.awaits(&first) {
            self.mark_acknowledged();
            let second = port.read();
            return self.answer_for(second);
        }
        self.answer_for(first)
    }

    /// Whether this side opened the channel.
    pub fn is_opener(&self) -> bool
        ensures { result ≡ self.now.is_opener }
    {
        self.is_opener
    }

    /// Whether the channel is acknowledged: the ACK came to the opener, or the accepter wrote it.
    pub fn is_acknowledged(&self) -> bool
        ensures { result ≡ self.now.acknowledged }
    {
        self.acknowledged
    }

    /// Whether an unexpected message failed the channel.
    pub fn is_failed(&self) -> bool
        ensures { result ≡ self.now.failed }
    {
        self.failed
    }

    /// The DATA_CHANNEL_OPEN of the channel, as it was written or read.
    pub fn open_message(&self) -> &OpenMessage
        ensures { result.now ≡ self.now.open_message }
    {
        &self.open_message
    }

    fn of_opener(open_message: OpenMessage) -> Channel
        ensures { result ≡ opener open_message }
    {
        Channel {
            is_opener: true,
            acknowledged: false,
            failed: false,
            open_message,
        }
    }

    fn of_accepter(open_message: OpenMessage) -> Channel
        ensures { result ≡ accepter open_message }
    {
        Channel {
            is_opener: false,
            acknowledged: false,
            failed: false,
            open_message,
        }
    }

    fn mark_acknowledged(&mut self)
        ensures { self.new ≡ with_acknowledgement self.old }
    {
        self.acknowledged = true;
    }

    // Why the channel itself refuses to send.
    fn send_refusal(&self) -> Option<ChannelError>
        ensures { result ≡ send_refusal self.now }
    {
        if self.failed {
            return Some(ChannelError::ErrChannelFailed);
        }
        if !self.may_send() {
            return Some(ChannelError::ErrNotAcknowledged);
        }
        None
    }

    // Whether this side opened the channel or acknowledged it.
    fn may_send(&self) -> bool
        ensures { result ≡ may_send self.now }
    {
        self.is_opener || self.acknowledged
    }

    // Whether this is the ACK that the opener waits for.
    fn awaits(&self, read: &Result<Option<Chunks>, u8>) -> bool
        ensures { result ≡ is_awaited self.now read.now }
    {
        match read {
            Ok(Some(message)) => {
                is_ack_message(message) && (self.is_opener && !self.acknowledged)
            }
            Ok(None) => false,
            Err(_) => false,
        }
    }

    // Answers what was read: a message of payload type 53; any other one fails the channel.
    fn answer_for(
        &mut self,
        read: Result<Option<Chunks>, u8>,
    ) -> Result<Option<Chunks>, ChannelError>
        ensures { received self.old read ≡ (self.new, result) }
    {
        match read {
            Ok(Some(message)) => {
                if is_binary(message.payload_type()) {
                    return Ok(Some(message));
                }
                self.failed = true;
                Err(ChannelError::ErrUnexpectedMessage)
            }
            Ok(None) => Ok(None),
            Err(number) => Err(ChannelError::Beneath(number)),
        }
    }
}

// Opens the stream and writes this OPEN on it.
fn begin<P: Port>(port: &mut P, open_message: OpenMessage) -> Result<Channel, ChannelError>
    ensures { (ds : List Deed) × DoesAll P.does ds port.old port.new × BeginsWith open_message ds result }
{
    match open_and_write(port, open_message.as_slice()) {
        Ok(()) => Ok(Channel::of_opener(open_message)),
        Err(error) => Err(error),
    }
}

// Opens the stream and writes a DCEP message on it.
fn open_and_write<P: Port>(port: &mut P, message: &[u8]) -> Result<(), ChannelError>
    ensures { (ds : List Deed) × DoesAll P.does ds port.old port.new × OpensAndWrites message.now ds result }
{
    match port.open() {
        Ok(()) => write_reliably(port, message),
        Err(number) => Err(ChannelError::Beneath(number)),
    }
}

// Has the stream send reliable messages in order, and writes a DCEP message on it.
fn write_reliably<P: Port>(port: &mut P, message: &[u8]) -> Result<(), ChannelError>
    ensures { (ds : List Deed) × DoesAll P.does ds port.old port.new × WritesReliably message.now ds result }
{
    match port.keep_reliable() {
        Ok(()) => write_dcep(port, message),
        Err(number) => Err(ChannelError::Beneath(number)),
    }
}

// Writes a DCEP message.
fn write_dcep<P: Port>(port: &mut P, message: &[u8]) -> Result<(), ChannelError>
    ensures { (ds : List Deed) × DoesAll P.does ds port.old port.new × WritesDcep message.now ds result }
{
    without_length(port.write(PayloadProtocolIdentifier::Dcep, message))
}

// An answer of the port, as the channel's.
fn from_beneath(answer: Result<usize, u8>) -> Result<usize, ChannelError>
    ensures { result ≡ from_beneath answer }
{
    match answer {
        Ok(count) => Ok(count),
        Err(number) => Err(ChannelError::Beneath(number)),
    }
}

// The same without the length that was written.
fn without_length(answer: Result<usize, u8>) -> Result<(), ChannelError>
    ensures { result ≡ without_length answer }
{
    match answer {
        Ok(_) => Ok(()),
        Err(number) => Err(ChannelError::Beneath(number)),
    }
}

fn is_dcep(kind: PayloadProtocolIdentifier) -> bool
    ensures { result ≡ is_dcep kind }
{
    matches!(kind, PayloadProtocolIdentifier::Dcep)
}

fn is_binary(kind: PayloadProtocolIdentifier) -> bool
    ensures { result ≡ is_binary kind }
{
    matches!(kind, PayloadProtocolIdentifier::Binary)
}

// The channel that was asked for by what was read.
fn accept_from(
    alloc: Global,
    read: Result<Option<Chunks>, u8>,
) -> Result<Option<Channel>, ChannelError>
    ensures { AcceptsAnswer read result }
{
    match read {
        Ok(Some(message)) => match accept_message(alloc, &message) {
            Ok(channel) => Ok(Some(channel)),
            Err(error) => Err(error),
        },
        Ok(None) => Ok(None),
        Err(number) => Err(ChannelError::Beneath(number)),
    }
}

// The channel that a message asks for.
fn accept_message(alloc: Global, message: &Chunks) -> Result<Channel, ChannelError>
    ensures { AcceptsMessage message.now result }
{
    if is_dcep(message.payload_type()) {
        return accept_dcep(alloc, message);
    }
    Err(ChannelError::ErrNotOpenMessage)
}

// The channel that a DCEP message asks for.
fn accept_dcep(alloc: Global, message: &Chunks) -> Result<Channel, ChannelError>
    requires { is_dcep message.now.payload_type ≡ true }
    ensures { AcceptsMessage message.now result }
{
    match bytes_of(alloc, message) {
        Ok(bytes) => accept_bytes(bytes),
        Err(_) => Err(ChannelError::Beneath(4)),
    }
}

// The channel that the bytes of a DCEP message ask for.
fn accept_bytes(bytes: Vec<u8>) -> Result<Channel, ChannelError>
    ensures { AcceptsBytes bytes.items result }
{
    match OpenMessage::read(bytes) {
        Ok(open_message) => Ok(Channel::of_accepter(open_message)),
        Err(error) => Err(error),
    }
}

// A message's bytes, one behind the other.
fn bytes_of(alloc: Global, message: &Chunks) -> Result<Vec<u8>, AllocError>
    ensures { IfOk result (λ bytes. bytes.items ≡ bytes_left message.now) }
{
    let mut bytes = vec![in alloc; 0; message.len()]?;
    message.copy_to(bytes.as_mut_slice());
    Ok(bytes)
}

// Whether a message is an ACK.
fn is_ack_message(message: &Chunks) -> bool
    ensures { result ≡ is_ack_message message.now }
{
    if !is_dcep(message.payload_type()) || message.len() != 1 {
        return false;
    }
    let mut byte = [0];
    message.copy_to(&mut byte);
    is_ack(&byte)
}
