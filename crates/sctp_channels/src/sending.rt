// Messages of an application are sent.
ghost use Rattle.std.specs.Prelude.{◌≡◌};
ghost use Rattle.channel_table.specs.Payloads.{binary_type, is_empty, payload, text_type};
ghost use Rattle.channel_table.specs.Tables.{channel_at};
ghost use Rattle.sctp_channels.specs.Sending.{Sends, Writes, send_check};

use crate::channels::Channels;
use channel_table::{ChannelError, binary_type, text_type};
use sctp_driver::{Driver, PayloadProtocolIdentifier};
use sctp_wire_types::StreamId;

// What goes for an empty message.
const ONE_ZERO: [u8; 1] = [0];

impl Channels {
    /// Sends a text, which is UTF-8 by RFC 8831 section 6.6, and nothing here looks at that. An empty one can be sent,
    /// too. Before the peer's ACK came it goes in order (RFC 8832 section 6).
    ///
    /// Refused, in this order with nothing changed: `NoChannel`; `NotOpen` where its OPEN was not written yet, or it
    /// ends; and as `write` of the driver is.
    pub fn send_text(
        &self,
        driver: &mut Driver,
        id: StreamId,
        text: &[u8],
    ) -> Result<(), ChannelError>
        ensures { Sends id (text_type (is_empty text.now)) text.now self.now driver.old result driver.new }
    {
        self.send(driver, id, text_type(text.is_empty()), text)
    }

    /// Sends a binary message. The rest is as of `send_text`.
    pub fn send_binary(
        &self,
        driver: &mut Driver,
        id: StreamId,
        bytes: &[u8],
    ) -> Result<(), ChannelError>
        ensures { Sends id (binary_type (is_empty bytes.now)) bytes.now self.now driver.old result driver.new }
    {
        self.send(driver, id, binary_type(bytes.is_empty()), bytes)
    }

    // It is put into its callers, so that the message is not handed on once more.
    #[inline(always)]
    fn send(
        &self,
        driver: &mut Driver,
        id: StreamId,
        payload_type: PayloadProtocolIdentifier,
        bytes: &[u8],
    ) -> Result<(), ChannelError>
        ensures { Sends id payload_type bytes.now self.now driver.old result driver.new }
    {
        if !self.table.is_at_hand(id) {
            self.check_sending(id)?;
        }
        write(driver, id, payload_type, bytes)
    }

    // Refuses what `send_text` does of a channel that is not at hand. It stays apart from what is done for each
    // message.
    #[inline(never)]
    fn check_sending(&self, id: StreamId) -> Result<(), ChannelError>
        ensures { result ≡ send_check (channel_at self.now.table id) }
    {
        match self.table.get(id) {
            None => Err(ChannelError::NoChannel),
            Some(channel) => {
                if channel.may_send() {
                    Ok(())
                } else {
                    Err(ChannelError::NotOpen)
                }
            }
        }
    }
}

fn write(
    driver: &mut Driver,
    id: StreamId,
    payload_type: PayloadProtocolIdentifier,
    bytes: &[u8],
) -> Result<(), ChannelError>
    ensures { Writes id payload_type (payload bytes.now) driver.old result driver.new }
{
    if bytes.is_empty() {
        write_whole(driver, id, payload_type, &ONE_ZERO)
    } else {
        write_whole(driver, id, payload_type, bytes)
    }
}

#[inline(always)]
fn write_whole(
    driver: &mut Driver,
    id: StreamId,
    payload_type: PayloadProtocolIdentifier,
    bytes: &[u8],
) -> Result<(), ChannelError>
    ensures { Writes id payload_type bytes.now driver.old result driver.new }
{
    match driver.write(id, Some(payload_type), bytes) {
        Ok(_) => Ok(()),
        Err(error) => Err(ChannelError::Beneath(error)),
    }
}
