// Channels are opened and closed.
ghost use Rattle.std.specs.Prelude.{◌≡◌, Err, false, IfErr, IfOk, IfSome, is_some, None, Ok, OnErr, OnOk, Some, true};
ghost use Rattle.dcep_messages.specs.Codec.{is_too_long};
ghost use Rattle.channel_table.specs.Tables.{Chooses};
ghost use Rattle.sctp_channels.specs.Opening.{Closes, RefusesOpen, Resets, end_refusal, established, open_of, outbound};
ghost use Rattle.sctp_channels.specs.Opening.{placed, with_opened};

use crate::channels::Channels;
use channel_table::{Channel, ChannelError, ChannelKind, OpenMessage, Stage, is_too_long};
use sctp_driver::{Driver, Error};
use sctp_wire_types::StreamId;

impl Channels {
    /// Makes a channel of this side, and answers its identifier: the one that was negotiated, or else the least one of
    /// this side's that no channel has. Its OPEN is written, or its stream opened where it is negotiated, by the next
    /// `poll_event` of an established association; from then on it can be sent on. The driver stays as it is.
    ///
    /// Identifiers stop at the streams on which this side may send: before the handshake has agreed on their number, at
    /// as many as this side offers. A channel whose identifier lies past those that were agreed on `Failed` tells.
    ///
    /// Refused, in this order with nothing changed: `LabelTooLong` where label or protocol is longer than 65,535 bytes;
    /// `Beneath(ErrAssociationFailed)`; `Lost` where the association was lost; `IdentifierTaken` where the negotiated
    /// identifier has a channel, or is 65,535; `IdentifierPastStreams` where this side may not send on so many streams;
    /// `NoIdentifierLeft`; `Beneath(ErrNoMemory)`.
    pub fn open(
        &mut self,
        driver: &Driver,
        kind: &ChannelKind,
        label: &[u8],
        protocol: &[u8],
    ) -> Result<StreamId, ChannelError>
        ensures long { is_too_long label.now protocol.now ≡ true → result ≡ Err ChannelError.LabelTooLong }
        ensures chosen { IfOk result (λ id. Chooses self.old.table self.old.role (outbound driver.now)
            kind.now.negotiated (Ok id)) }
        ensures lives { IfOk result (λ id. end_refusal driver.now ≡ None) }
        ensures ended { IfSome (end_refusal driver.now) (λ e. is_too_long label.now protocol.now ≡ false
            → result ≡ Err e) }
        ensures opened { IfOk result (λ id. self.new ≡ with_opened (established driver.now) self.old id
            (open_of kind.now label.now protocol.now) (is_some kind.now.negotiated)) }
        ensures refused { IfErr result (λ e. RefusesOpen self.old driver.now kind.now label.now protocol.now e) }
        ensures err { OnErr result (self.new ≡ self.old) }
    {
        if is_too_long(label, protocol) {
            return Err(ChannelError::LabelTooLong);
        }
        check_ended(driver)?;
        let id = self
            .table
            .identifier(self.role, driver.outbound_streams(), kind)?;
        let open_message = self.message_of(kind, label, protocol)?;
        let channel = Channel::opened(open_message, kind.negotiated.is_some());
        self.place(driver.is_established(), id, channel)?;
        Ok(id)
    }

    // The OPEN of such a channel.
    fn message_of(
        &self,
        kind: &ChannelKind,
        label: &[u8],
        protocol: &[u8],
    ) -> Result<OpenMessage, ChannelError>
        requires { is_too_long label.now protocol.now ≡ false }
        ensures ok { IfOk result (λ message. message ≡ open_of kind.now label.now protocol.now) }
        ensures err { IfErr result (λ e. e ≡ ChannelError.Beneath Error.ErrNoMemory) }
    {
        match OpenMessage::new(
            self.alloc,
            kind.ordered,
            kind.persistence,
            kind.priority,
            label,
            protocol,
        ) {
            Ok(message) => Ok(message),
            Err(_) => Err(ChannelError::Beneath(Error::ErrNoMemory)),
        }
    }

    // Takes a channel in, to be looked at next, or once the association is established.
    fn place(
        &mut self,
        is_established: bool,
        id: StreamId,
        channel: Channel,
    ) -> Result<(), ChannelError>
        ensures ok { OnOk result (self.new ≡ placed is_established self.old id channel) }
        ensures err { IfErr result (λ e. e ≡ ChannelError.Beneath Error.ErrNoMemory) }
        ensures same { OnErr result (self.new ≡ self.old) }
    {
        if is_established {
            self.due.reserve(1)?;
            self.table.insert(id, channel)?;
            self.due.push_back_reserved(id);
        } else {
            self.waiting.reserve(1)?;
            self.table.insert(id, channel)?;
            self.waiting.push_back_reserved(id);
        }
        Ok(())
    }

    /// Ends a channel: its stream is reset (RFC 8831 section 6.7), after what was accepted went out. What is unread
    /// is not received any more. `Closed` tells the end. One that was not begun is gone at once, and nothing is told;
    /// one that is ending stays so.
    ///
    /// Refused: `NoChannel`, with nothing changed; and as `close_stream` of the driver is, and then the channel stays
    /// as it is.
    pub fn close(&mut self, driver: &mut Driver, id: StreamId) -> Result<(), ChannelError>
        ensures { Closes id driver.old self.old result driver.new self.new }
    {
        match self.table.stage(id) {
            None => Err(ChannelError::NoChannel),
            Some(Stage::Waiting) => {
                self.table.remove(id);
                Ok(())
            }
            Some(Stage::Closing) => Ok(()),
            Some(Stage::Begun) => self.reset(driver, id),
            Some(Stage::Announcing) => self.reset(driver, id),
            Some(Stage::Open) => self.reset(driver, id),
        }
    }

    /// Resets the stream of a channel, which ends.
    pub(crate) fn reset(&mut self, driver: &mut Driver, id: StreamId) -> Result<(), ChannelError>
        ensures { Resets id driver.old self.old result driver.new self.new }
    {
        match driver.close_stream(id) {
            Ok(()) => {
                self.table.mark_closing(id);
                Ok(())
            }
            Err(error) => Err(ChannelError::Beneath(error)),
        }
    }
}

// Refuses what `open` does of an association that is over.
fn check_ended(driver: &Driver) -> Result<(), ChannelError>
    ensures ok { OnOk result (end_refusal driver.now ≡ None) }
    ensures err { IfErr result (λ e. end_refusal driver.now ≡ Some e) }
{
    if driver.is_failed() {
        return Err(ChannelError::Beneath(Error::ErrAssociationFailed));
    }
    if driver.is_drained() {
        return Err(ChannelError::Lost);
    }
    Ok(())
}
