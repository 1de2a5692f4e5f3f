// Messages of an application are received.
ghost use Rattle.std.specs.Prelude.{◌≡◌, ℕ, List, IfErr, IfOk, OnErr};
ghost use Rattle.sctp_driver.specs.Driving.{Driving};
ghost use Rattle.sctp_driver.specs.Messages.{ReadFails};
ghost use Rattle.sctp_channels.specs.declared.receiving.Next.TheVariants as nexts;
ghost use Rattle.sctp_channels.specs.Receiving.{GivesFirst, ReadsNext, Receives, ReceivesOpen, ReceivesRead};
ghost use Rattle.sctp_channels.specs.Receiving.{begins_as_open, met, read_as};

use crate::channels::Channels;
use crate::reading::{is_dcep, read};
use channel_table::{ChannelError, Received, ShortMessage, Stage, received_as};
use sctp_driver::{Driver, Error, PayloadProtocolIdentifier, ReadAnswer};
use sctp_wire_types::StreamId;

// The message type of DATA_CHANNEL_OPEN (RFC 8832 section 5.1).
const OPEN: u8 = 3;

/// What a read of the stream of an open channel is to its application.
#[derive(Clone, Copy)]
pub(crate) enum Next {
    /// It receives this.
    Given(Received),
    /// Nothing: it is to be read on.
    Dropped,
    /// The channel ends.
    SecondOpen,
}

impl Channels {
    /// Copies the next message of a channel to the front of the buffer, whole. Where the buffer is shorter the message
    /// stays, and `NoRoom` says how long it is. DCEP messages are dropped; they may be told as `NoRoom`, too, and may
    /// have changed the buffer. A second OPEN ends the channel. Messages of payload types that RFC 8831 does not have
    /// are received as `Other`.
    /// `Nothing` on a channel that is not open yet, and where its stream ended, but for a message that waited for a
    /// longer buffer before the peer ended it.
    ///
    /// Refused: `NoChannel`, with nothing changed; `Beneath` for want of memory and a failed association, as `read` of
    /// the driver is; and as its `close_stream` is where a second OPEN came.
    pub fn receive(
        &mut self,
        driver: &mut Driver,
        id: StreamId,
        buffer: &mut [u8],
    ) -> Result<Received, ChannelError>
        ensures { Receives id self.old driver.old buffer.old result self.new driver.new buffer.new }
    {
        if self.table.is_at_hand(id) {
            return self.read_on(driver, id, buffer);
        }
        self.receive_searched(driver, id, buffer)
    }

    // The same of a channel that is not at hand. It stands apart, so that one that is does not pay for it.
    #[inline(never)]
    fn receive_searched(
        &mut self,
        driver: &mut Driver,
        id: StreamId,
        buffer: &mut [u8],
    ) -> Result<Received, ChannelError>
        ensures { Receives id self.old driver.old buffer.old result self.new driver.new buffer.new }
    {
        let Some(channel) = self.table.get(id) else {
            return Err(ChannelError::NoChannel);
        };
        let first = channel.first();
        match channel.stage() {
            Stage::Waiting | Stage::Begun | Stage::Announcing => Ok(Received::Nothing),
            Stage::Open | Stage::Closing => self.receive_open(driver, id, first, buffer),
        }
    }

    // Of an open channel, with what came in place of the ACK.
    fn receive_open(
        &mut self,
        driver: &mut Driver,
        id: StreamId,
        first: Option<ShortMessage>,
        buffer: &mut [u8],
    ) -> Result<Received, ChannelError>
        ensures { ReceivesOpen first id self.old driver.old buffer.old result self.new driver.new buffer.new }
    {
        match first {
            Some(message) => Ok(self.give_first(id, message, buffer)),
            None => self.read_on(driver, id, buffer),
        }
    }

    // It is put into its callers, so that what was read is not handed on once more.
    #[inline(always)]
    fn read_on(
        &mut self,
        driver: &mut Driver,
        id: StreamId,
        buffer: &mut [u8],
    ) -> Result<Received, ChannelError>
        ensures { ReceivesRead id self.old driver.old buffer.old result self.new driver.new buffer.new }
    {
        match read_next(driver, id, buffer)? {
            Next::Given(received) => Ok(received),
            Next::Dropped => self.read_further(driver, id, buffer),
            Next::SecondOpen => {
                self.reset(driver, id)?;
                Ok(Received::Nothing)
            }
        }
    }

    // The same where the message read last was dropped. It stays apart from what is done for each message.
    #[inline(never)]
    fn read_further(
        &mut self,
        driver: &mut Driver,
        id: StreamId,
        buffer: &mut [u8],
    ) -> Result<Received, ChannelError>
        ensures { (d : Driving) → (bytes : List ℕ) → ReadsNext id d bytes nexts.Dropped driver.old buffer.old
            → ReceivesRead id self.old d bytes result self.new driver.new buffer.new }
    {
        for _dropped in 1..u64::MAX {
            match read_next(driver, id, buffer)? {
                Next::Given(received) => return Ok(received),
                Next::Dropped => {}
                Next::SecondOpen => {
                    self.reset(driver, id)?;
                    return Ok(Received::Nothing);
                }
            }
        }
        // No memory holds so many messages.
        Err(ChannelError::Beneath(Error::ErrNoMemory))
    }

    // Gives the message that came in place of the ACK.
    fn give_first(&mut self, id: StreamId, message: ShortMessage, buffer: &mut [u8]) -> Received
        ensures { GivesFirst message id self.old buffer.old result self.new buffer.new }
    {
        if buffer.is_empty() {
            return Received::NoRoom { length: 1 };
        }
        self.table.forget_first(id);
        buffer[0] = message.byte;
        match received_as(message.payload_type, 1) {
            Some(received) => received,
            None => Received::Nothing,
        }
    }
}

// Reads the next message of a stream.
#[inline(always)]
fn read_next(driver: &mut Driver, id: StreamId, buffer: &mut [u8]) -> Result<Next, Error>
    ensures ok { IfOk result (λ next. ReadsNext id driver.old buffer.old next driver.new buffer.new) }
    ensures err { IfErr result (λ error. ReadFails driver.old id error driver.new) }
    ensures unfilled { OnErr result (buffer.new ≡ buffer.old) }
{
    match read(driver, id, buffer) {
        Ok(answer) => Ok(read_as(answer, buffer)),
        Err(error) => Err(error),
    }
}

// Inlined, as `meet` is: each message that is received takes this way.
#[inline(always)]
fn read_as(answer: ReadAnswer, buffer: &[u8]) -> Next
    ensures { result ≡ read_as answer buffer.now }
{
    match answer {
        ReadAnswer::Nothing => Next::Given(Received::Nothing),
        ReadAnswer::NoRoom { length } => Next::Given(Received::NoRoom { length }),
        ReadAnswer::Message {
            payload_type,
            length,
        } => meet(payload_type, length, buffer),
    }
}

// What a message is that was read into this buffer. Of one of DCEP its first byte says that, however long it is.
#[inline(always)]
fn meet(payload_type: PayloadProtocolIdentifier, length: usize, buffer: &[u8]) -> Next
    ensures { result ≡ met payload_type length buffer.now }
{
    match received_as(payload_type, length) {
        Some(received) => Next::Given(received),
        None => {
            if is_dcep(payload_type) && begins_as_open(buffer) {
                Next::SecondOpen
            } else {
                Next::Dropped
            }
        }
    }
}

fn begins_as_open(bytes: &[u8]) -> bool
    ensures { result ≡ begins_as_open bytes.now }
{
    !bytes.is_empty() && bytes[0] == OPEN
}
