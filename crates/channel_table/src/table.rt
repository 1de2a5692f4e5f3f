// The channels by their identifiers.
ghost use Rattle.std.specs.Prelude.{◌≡◌, [], false, true, None, Some, OnErr, OnOk, option_copied};
ghost use Rattle.std.specs.BTreeMap.{insert_entry, is_at};
ghost use Rattle.std.specs.Map.{lookup, remove_entry};
ghost use Rattle.std.specs.Ordering.{nat_cmp};
ghost use Rattle.channel_table.specs.declared.channel.Stage.TheVariants as stages;
ghost use Rattle.channel_table.specs.Tables.{Chooses, ChoosesOwn, IsLeastFree, Keeps, KeepsOrEnds, KeepsOthers};
ghost use Rattle.channel_table.specs.Tables.{TakesNegotiated, at_stage, channel_at, first_at, has_ended, is_taken};
ghost use Rattle.channel_table.specs.Tables.{keeping_first, may_open, stage_at, without_kept};

use crate::channel::{Channel, ShortMessage, Stage};
use crate::error::ChannelError;
use crate::kind::{ChannelKind, Role};
use sctp_wire_types::StreamId;
use std::alloc::{AllocError, Global};
use std::collections::BTreeMap;
use std::marker::Model;

/// The channels of one side, by the identifiers of their streams.
#[derive(Debug, Drop)]
pub struct Table {
    by_id: BTreeMap<StreamId, Channel>,
    // the channel that was found last, where it is open and no message of it is kept
    at_hand: Option<StreamId>,
}

impl Model for Table {
    ghost use Rattle.std.specs.Prelude.{ℕ, List};
    ghost use Rattle.channel_table.specs.Channels.{ChannelView};
    ghost use Rattle.channel_table.specs.Tables.{IsAtHand};

    ghost Value = { List (ℕ × ChannelView) };

    ghost view = { λ t. t.by_id.entries };

    ghost invariant = { λ t. IsAtHand t.at_hand t.by_id.entries };
}

impl Table {
    /// No channel; takes no memory.
    pub fn new(alloc: Global) -> Table
        ensures { result ≡ [] }
    {
        Table {
            by_id: BTreeMap::new(alloc),
            at_hand: None,
        }
    }

    pub fn contains(&self, id: StreamId) -> bool
        ensures { result ≡ is_taken self.now id }
    {
        self.by_id.contains_key(&id)
    }

    pub fn get(&self, id: StreamId) -> Option<&Channel>
        ensures { option_copied result ≡ lookup (is_at (nat_cmp id)) self.now }
    {
        self.by_id.get(&id)
    }

    /// Puts a channel under an identifier, in place of the one that is there. Where memory is refused nothing changes.
    pub fn insert(&mut self, id: StreamId, channel: Channel) -> Result<(), AllocError>
        ensures ok { OnOk result (self.new ≡ insert_entry nat_cmp self.old id channel) }
        ensures there { OnOk result (channel_at self.new id ≡ Some channel) }
        ensures others { OnOk result (KeepsOthers id self.old self.new) }
        ensures keeps { OnOk result (is_taken self.old id ≡ false → Keeps self.old self.new) }
        ensures err { OnErr result (self.new ≡ self.old) }
    {
        self.at_hand = None;
        self.by_id.insert(id, channel)?;
        Ok(())
    }

    /// The channel of this identifier is gone.
    pub fn remove(&mut self, id: StreamId)
        ensures entries { self.new ≡ remove_entry (is_at (nat_cmp id)) self.old }
        ensures gone { channel_at self.new id ≡ None }
        ensures others { KeepsOthers id self.old self.new }
        ensures keeps { KeepsOrEnds self.old self.new }
    {
        self.at_hand = None;
        self.by_id.remove(&id);
    }

    /// All channels are gone.
    pub fn clear(&mut self)
        ensures none { self.new ≡ [] }
        ensures keeps { KeepsOrEnds self.old self.new }
    {
        self.at_hand = None;
        self.by_id.clear();
    }

    /// How far the channel of this identifier came.
    pub fn stage(&self, id: StreamId) -> Option<Stage>
        ensures { result ≡ stage_at self.now id }
    {
        match self.get(id) {
            Some(channel) => Some(channel.stage()),
            None => None,
        }
    }

    /// The same, and a channel that is open, and of which no message is kept, is at hand from then on.
    pub fn recall(&mut self, id: StreamId) -> Option<Stage>
        ensures stage { result ≡ stage_at self.old id }
        ensures same { self.new ≡ self.old }
    {
        match self.by_id.get(&id) {
            Some(channel) => {
                let stage = channel.stage();
                if channel.is_ready() {
                    self.at_hand = Some(id);
                }
                Some(stage)
            }
            None => None,
        }
    }

    /// Whether the channel of this identifier is at hand, for which nothing is searched. That it is not says nothing.
    #[inline(always)]
    pub fn is_at_hand(&self, id: StreamId) -> bool
        ensures open { result ≡ true → stage_at self.now id ≡ Some stages.Open }
        ensures nothing_kept { result ≡ true → first_at self.now id ≡ None }
    {
        match self.at_hand {
            Some(at_hand) => at_hand == id,
            None => false,
        }
    }

    /// The OPEN of a channel was written.
    pub fn mark_begun(&mut self, id: StreamId)
        ensures exact { self.new ≡ at_stage self.old id stages.Begun }
        ensures keeps { may_open (stage_at self.old id) ≡ true → Keeps self.old self.new }
    {
        self.set_stage(id, Stage::Begun);
    }

    /// Messages go both ways on a channel from now on.
    pub fn mark_open(&mut self, id: StreamId)
        ensures exact { self.new ≡ at_stage self.old id stages.Open }
        ensures keeps { may_open (stage_at self.old id) ≡ true → Keeps self.old self.new }
        ensures open { may_open (stage_at self.old id) ≡ true → stage_at self.new id ≡ Some stages.Open }
    {
        self.set_stage(id, Stage::Open);
        self.recall(id);
    }

    /// The same by a message of one byte that came in place of the ACK, which is kept.
    pub fn mark_open_by(&mut self, id: StreamId, message: ShortMessage)
        ensures exact { self.new ≡ keeping_first (at_stage self.old id stages.Open) id message }
        ensures keeps { may_open (stage_at self.old id) ≡ true → Keeps self.old self.new }
        ensures open { may_open (stage_at self.old id) ≡ true → stage_at self.new id ≡ Some stages.Open }
    {
        self.set_stage(id, Stage::Open);
        self.keep_first(id, message);
    }

    /// A channel ends.
    pub fn mark_closing(&mut self, id: StreamId)
        ensures exact { self.new ≡ at_stage self.old id stages.Closing }
        ensures keeps { Keeps self.old self.new }
        ensures ended { has_ended (stage_at self.new id) ≡ true }
    {
        self.set_stage(id, Stage::Closing);
    }

    fn set_stage(&mut self, id: StreamId, stage: Stage)
        ensures { self.new ≡ at_stage self.old id stage }
    {
        self.at_hand = None;
        if let Some(channel) = self.by_id.get_mut(&id) {
            channel.set_stage(stage);
        }
    }

    fn keep_first(&mut self, id: StreamId, message: ShortMessage)
        ensures { self.new ≡ keeping_first self.old id message }
    {
        self.at_hand = None;
        if let Some(channel) = self.by_id.get_mut(&id) {
            channel.keep_first(message);
        }
    }

    /// The message that was kept was received.
    pub fn forget_first(&mut self, id: StreamId)
        ensures { self.new ≡ without_kept self.old id }
    {
        self.at_hand = None;
        if let Some(channel) = self.by_id.get_mut(&id) {
            channel.forget_first();
        }
    }

    /// The identifier of a new channel, of so many streams: the one that was negotiated, or else the least one of this
    /// side's that no channel has. Goes over the channels of this side whose identifiers are less.
    ///
    /// Refused: `IdentifierTaken` where the negotiated one has a channel, or is 65,535, which no channel's stream has (RFC
    /// 8832 section 6); `IdentifierPastStreams` where there are not so many streams; `NoIdentifierLeft`.
    pub fn identifier(
        &self,
        role: Role,
        streams: u16,
        kind: &ChannelKind,
    ) -> Result<StreamId, ChannelError>
        ensures { Chooses self.now role streams kind.now.negotiated result }
    {
        match kind.negotiated {
            Some(id) => self.negotiated(streams, id),
            None => self.own(role, streams),
        }
    }

    fn negotiated(&self, streams: u16, id: StreamId) -> Result<StreamId, ChannelError>
        ensures { TakesNegotiated self.now streams id result }
    {
        if id == StreamId::MAX || self.contains(id) {
            return Err(ChannelError::IdentifierTaken);
        }
        if id < streams {
            Ok(id)
        } else {
            Err(ChannelError::IdentifierPastStreams)
        }
    }

    fn own(&self, role: Role, streams: u16) -> Result<StreamId, ChannelError>
        ensures { ChoosesOwn self.now role streams result }
    {
        match self.least_free(role, streams) {
            Some(id) => Ok(id),
            None => Err(ChannelError::NoIdentifierLeft),
        }
    }

    // The least identifier of this side's, of so many streams, that no channel has.
    fn least_free(&self, role: Role, streams: u16) -> Option<StreamId>
        ensures { IsLeastFree self.now role streams result }
    {
        let parity = role.parity();
        for index in 0..32_768 - parity {
            let id = 2 * index + parity;
            if id >= streams {
                return None;
            }
            if !self.contains(id) {
                return Some(id);
            }
        }
        None
    }
}
