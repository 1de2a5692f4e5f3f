// The states of an association and of its acknowledgements.
ghost use Rattle.std.specs.Prelude.{◌≡◌};

use std::fmt;

/// The state of an association (RFC 4960 section 4).
#[derive(Clone, Copy, Debug, Default, PartialEq)]
pub enum AssociationState {
    #[default]
    Closed = 0,
    CookieWait = 1,
    CookieEchoed = 2,
    Established = 3,
    ShutdownAckSent = 4,
    ShutdownPending = 5,
    ShutdownReceived = 6,
    ShutdownSent = 7,
}

/// The state with this code; a number that is no code gives `Closed`.
impl From<u8> for AssociationState {
    ghost use Rattle.sctp_parts.specs.State.{HasCode};

    ghost from_gives = { λ code state. HasCode code state };

    fn from(code: u8) -> Self {
        match code {
            1 => AssociationState::CookieWait,
            2 => AssociationState::CookieEchoed,
            3 => AssociationState::Established,
            4 => AssociationState::ShutdownAckSent,
            5 => AssociationState::ShutdownPending,
            6 => AssociationState::ShutdownReceived,
            7 => AssociationState::ShutdownSent,
            _ => AssociationState::Closed,
        }
    }
}

/// Prints the variant's name.
impl fmt::Display for AssociationState {
    ghost use Rattle.std.specs.Prelude.{Some};
    ghost use Rattle.sctp_parts.specs.State.{state_name};

    ghost output = { λ state. Some (state_name state) };

    fn fmt<W: fmt::Write>(&self, f: &mut fmt::Formatter<W>) -> fmt::Result {
        match self {
            AssociationState::Closed => f.write_str("Closed"),
            AssociationState::CookieWait => f.write_str("CookieWait"),
            AssociationState::CookieEchoed => f.write_str("CookieEchoed"),
            AssociationState::Established => f.write_str("Established"),
            AssociationState::ShutdownAckSent => f.write_str("ShutdownAckSent"),
            AssociationState::ShutdownPending => f.write_str("ShutdownPending"),
            AssociationState::ShutdownReceived => f.write_str("ShutdownReceived"),
            AssociationState::ShutdownSent => f.write_str("ShutdownSent"),
        }
    }
}

impl AssociationState {
    ghost use Rattle.sctp_parts.specs.State.{code_of, is_closing};

    /// The number that stands for the state.
    pub fn code(self) -> u8
        ensures { result ≡ code_of self }
    {
        self as u8
    }

    /// Whether a shutdown has begun and the association is not closed yet.
    pub fn is_closing(&self) -> bool
        ensures { result ≡ is_closing self.now }
    {
        matches!(
            self,
            AssociationState::ShutdownAckSent
                | AssociationState::ShutdownPending
                | AssociationState::ShutdownReceived
                | AssociationState::ShutdownSent
        )
    }

    /// The same as `is_closing`. It does not say that an association has nothing left to do.
    pub fn is_drained(&self) -> bool
        ensures { result ≡ is_closing self.now }
    {
        self.is_closing()
    }
}

/// When acknowledgements are sent. An association is always in `Normal`; the others are for tests of the layer above.
#[derive(Clone, Copy, Debug, Default, PartialEq)]
pub enum AckMode {
    /// Delayed where the received data allow it (RFC 4960 section 6.2).
    #[default]
    Normal,
    NoDelay,
    AlwaysDelay,
}

/// Prints the variant's name.
impl fmt::Display for AckMode {
    ghost use Rattle.std.specs.Prelude.{Some};
    ghost use Rattle.sctp_parts.specs.State.{ack_mode_name};

    ghost output = { λ mode. Some (ack_mode_name mode) };

    fn fmt<W: fmt::Write>(&self, f: &mut fmt::Formatter<W>) -> fmt::Result {
        match self {
            AckMode::Normal => f.write_str("Normal"),
            AckMode::NoDelay => f.write_str("NoDelay"),
            AckMode::AlwaysDelay => f.write_str("AlwaysDelay"),
        }
    }
}

/// Whether an acknowledgement is owed to the peer.
#[derive(Clone, Copy, Debug, Default, PartialEq)]
pub enum AckState {
    /// None is owed.
    #[default]
    Idle,
    /// The next packets carry one.
    Immediate,
    /// One is sent when the timer of acknowledgements expires.
    Delay,
}

/// Prints the variant's name.
impl fmt::Display for AckState {
    ghost use Rattle.std.specs.Prelude.{Some};
    ghost use Rattle.sctp_parts.specs.State.{ack_state_name};

    ghost output = { λ state. Some (ack_state_name state) };

    fn fmt<W: fmt::Write>(&self, f: &mut fmt::Formatter<W>) -> fmt::Result {
        match self {
            AckState::Idle => f.write_str("Idle"),
            AckState::Immediate => f.write_str("Immediate"),
            AckState::Delay => f.write_str("Delay"),
        }
    }
}
