// The channels of one side.
ghost use Rattle.std.specs.Prelude.{◌≡◌, [], option_copied};
ghost use Rattle.sctp_assoc.specs.Calls.{with_max_send_message_size};
ghost use Rattle.sctp_driver.specs.Driving.{with_association};
ghost use Rattle.channel_table.specs.Payloads.{send_limit};
ghost use Rattle.channel_table.specs.Tables.{channel_at};
ghost use Rattle.sctp_driver.specs.Streams.{asked_of, buffered_on};
ghost use Rattle.sctp_channels.specs.Channels.{Asks, SetsLowMark, no_channels, of_driver};

use channel_table::{Channel, ChannelError, Role, Table, send_limit};
use sctp_driver::{Driver, Error};
use sctp_wire_types::StreamId;
use std::alloc::Global;
use std::collections::VecDeque;
use std::marker::Model;

/// The data channels of one side of an association. Each call that is handed a driver is to be handed that of the same
/// association.
pub struct Channels {
    pub(crate) alloc: Global,
    pub(crate) role: Role,
    pub(crate) table: Table,
    // channels that were opened before the association was established, oldest first
    pub(crate) waiting: VecDeque<StreamId>,
    // streams to look at, next first
    pub(crate) due: VecDeque<StreamId>,
}

// Its parts are let go here, so that a crate that owns it proves one call where it lets go of it.
impl Drop for Channels {
    fn drop(self) {
        let Channels {
            alloc: _alloc,
            role: _role,
            table: _table,
            waiting: _waiting,
            due: _due,
        } = self;
    }
}

impl Model for Channels {
    ghost use Rattle.sctp_channels.specs.Channels.{ChannelsView};

    ghost Value = { ChannelsView };

    ghost view = { λ c. record {
      role = c.role;
      table = c.table;
      waiting = c.waiting.items;
      due = c.due.items;
    } };
}

impl Channels {
    /// No channel; takes no memory.
    pub fn new(alloc: Global, role: Role) -> Channels
        ensures { result ≡ no_channels role }
    {
        Channels {
            alloc,
            role,
            table: Table::new(alloc),
            waiting: VecDeque::new(alloc),
            due: VecDeque::new(alloc),
        }
    }

    /// The channel of this identifier. One that ended is gone once that is told.
    pub fn channel(&self, id: StreamId) -> Option<&Channel>
        ensures { option_copied result ≡ channel_at self.now.table id }
    {
        self.table.get(id)
    }

    /// Sets how long a message to the peer may be, by the attribute max-message-size of its session description, in
    /// bytes: None where it has none, which is 65,536, and 0 for any length (RFC 8841 section 6). Never refused; in a
    /// failed association nothing changes.
    pub fn set_max_message_size(driver: &mut Driver, sdp: Option<u32>)
        ensures { driver.new ≡ with_association driver.old
            (with_max_send_message_size driver.old.association (send_limit sdp)) }
    {
        driver.set_max_send_message_size(send_limit(sdp));
    }

    /// Bytes that were accepted on a channel's stream and are not released, those of DCEP messages too. Nothing
    /// changes.
    ///
    /// Refused: `NoChannel`; and as `buffered_amount` of the driver is, so where its stream is not opened yet.
    pub fn buffered_amount(&self, driver: &mut Driver, id: StreamId) -> Result<usize, ChannelError>
        ensures answer { Asks self.now id (buffered_on driver.old.association id) result }
        ensures same { driver.new ≡ driver.old }
    {
        if !self.table.contains(id) {
            return Err(ChannelError::NoChannel);
        }
        of_driver(driver.buffered_amount(id))
    }

    /// In bytes, at first 0: where the buffered amount falls from above it to it or below, `BufferedLow` tells that.
    /// Nothing changes. Refused as `buffered_amount` is.
    pub fn buffered_amount_low_threshold(
        &self,
        driver: &mut Driver,
        id: StreamId,
    ) -> Result<usize, ChannelError>
        ensures answer { Asks self.now id (asked_of (λ s. s.low_mark) driver.old.association id) result }
        ensures same { driver.new ≡ driver.old }
    {
        if !self.table.contains(id) {
            return Err(ChannelError::NoChannel);
        }
        of_driver(driver.buffered_amount_low_threshold(id))
    }

    /// Sets it, in bytes; it tells nothing by itself. Refused as `buffered_amount` is, with nothing changed.
    pub fn set_buffered_amount_low_threshold(
        &self,
        driver: &mut Driver,
        id: StreamId,
        bytes: usize,
    ) -> Result<(), ChannelError>
        ensures { SetsLowMark self.now id bytes driver.old result driver.new }
    {
        if !self.table.contains(id) {
            return Err(ChannelError::NoChannel);
        }
        match driver.set_buffered_amount_low_threshold(id, bytes) {
            Ok(()) => Ok(()),
            Err(error) => Err(ChannelError::Beneath(error)),
        }
    }
}

fn of_driver(answer: Result<usize, Error>) -> Result<usize, ChannelError>
    ensures { result ≡ of_driver answer }
{
    match answer {
        Ok(bytes) => Ok(bytes),
        Err(error) => Err(ChannelError::Beneath(error)),
    }
}
