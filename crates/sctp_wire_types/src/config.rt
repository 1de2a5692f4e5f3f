// What an association is configured with.
ghost use Rattle.std.specs.Prelude.{◌≡◌};

use std::marker::Model;

/// The rules that an association keeps where `sctp-proto` and the RFCs part.
#[derive(Clone, Copy, Debug, PartialEq, Eq)]
pub enum Profile {
    /// Those of the crate `sctp-proto` 0.10.8.
    Port,
    /// Those of the RFCs, where keeping to the crate would leave two honest ends stuck.
    Rfc,
}

/// Limits and timeouts of an association, and the rules that it keeps. `default` has the values named below; each
/// `with_..` changes one. They are read when an association is made, and no value is refused here.
#[derive(Clone, Copy, Debug)]
pub struct TransportConfig {
    max_receive_buffer_size: u32,
    max_send_message_size: u32,
    max_receive_message_size: u32,
    max_num_outbound_streams: u16,
    max_num_inbound_streams: u16,
    local_port: u16,
    remote_port: u16,
    rto_initial_ms: u64,
    rto_min_ms: u64,
    rto_max_ms: u64,
    max_init_retransmits: Option<usize>,
    max_data_retransmits: Option<usize>,
    profile: Option<Profile>,
}

impl Model for TransportConfig {
    ghost use Rattle.sctp_wire_types.specs.Config.{Settings};

    ghost Value = { Settings };

    ghost view = { λ c. record {
      max_receive_buffer_size = c.max_receive_buffer_size;
      max_send_message_size = c.max_send_message_size;
      max_receive_message_size = c.max_receive_message_size;
      max_num_outbound_streams = c.max_num_outbound_streams;
      max_num_inbound_streams = c.max_num_inbound_streams;
      local_port = c.local_port;
      remote_port = c.remote_port;
      rto_initial_ms = c.rto_initial_ms;
      rto_min_ms = c.rto_min_ms;
      rto_max_ms = c.rto_max_ms;
      max_init_retransmits = c.max_init_retransmits;
      max_data_retransmits = c.max_data_retransmits;
      profile = c.profile;
    } };

    ghost inverse = { λ c. record {
      max_receive_buffer_size = c.max_receive_buffer_size;
      max_send_message_size = c.max_send_message_size;
      max_receive_message_size = c.max_receive_message_size;
      max_num_outbound_streams = c.max_num_outbound_streams;
      max_num_inbound_streams = c.max_num_inbound_streams;
      local_port = c.local_port;
      remote_port = c.remote_port;
      rto_initial_ms = c.rto_initial_ms;
      rto_min_ms = c.rto_min_ms;
      rto_max_ms = c.rto_max_ms;
      max_init_retransmits = c.max_init_retransmits;
      max_data_retransmits = c.max_data_retransmits;
      profile = c.profile;
    } };
}

impl TransportConfig {
    /// Receive buffer, in bytes; 1,048,576 by default. INIT and INIT ACK offer it as the receive window, and a peer
    /// refuses one below 1500 (RFC 4960 section 3.3.2). A SACK offers what is left of it.
    pub fn max_receive_buffer_size(&self) -> u32
        ensures { result ≡ self.now.max_receive_buffer_size }
    {
        self.max_receive_buffer_size
    }

    /// The same configuration with another `max_receive_buffer_size`.
    pub fn with_max_receive_buffer_size(self, max_receive_buffer_size: u32) -> Self
        ensures { result ≡ record self { max_receive_buffer_size = max_receive_buffer_size } }
    {
        let mut config = self;
        config.max_receive_buffer_size = max_receive_buffer_size;
        config
    }

    /// Greatest message that may be written, in bytes; 65,536 by default. One that is longer than the payload size goes
    /// out in pieces.
    pub fn max_send_message_size(&self) -> u32
        ensures { result ≡ self.now.max_send_message_size }
    {
        self.max_send_message_size
    }

    /// The same configuration with another `max_send_message_size`.
    pub fn with_max_send_message_size(self, max_send_message_size: u32) -> Self
        ensures { result ≡ record self { max_send_message_size = max_send_message_size } }
    {
        let mut config = self;
        config.max_send_message_size = max_send_message_size;
        config
    }

    /// Greatest message that may come, in bytes; 65,536 by default. A longer one is a fault and closes the association.
    pub fn max_receive_message_size(&self) -> u32
        ensures { result ≡ self.now.max_receive_message_size }
    {
        self.max_receive_message_size
    }

    /// The same configuration with another `max_receive_message_size`.
    pub fn with_max_receive_message_size(self, max_receive_message_size: u32) -> Self
        ensures { result ≡ record self { max_receive_message_size = max_receive_message_size } }
    {
        let mut config = self;
        config.max_receive_message_size = max_receive_message_size;
        config
    }

    /// Streams offered for sending, 65,535 by default. With 0 a peer refuses the INIT (RFC 4960 section 3.3.2).
    pub fn max_num_outbound_streams(&self) -> u16
        ensures { result ≡ self.now.max_num_outbound_streams }
    {
        self.max_num_outbound_streams
    }

    /// The same configuration with another `max_num_outbound_streams`.
    pub fn with_max_num_outbound_streams(self, max_num_outbound_streams: u16) -> Self
        ensures { result ≡ record self { max_num_outbound_streams = max_num_outbound_streams } }
    {
        let mut config = self;
        config.max_num_outbound_streams = max_num_outbound_streams;
        config
    }

    /// Streams offered for receiving, 65,535 by default. With 0 a peer refuses the INIT (RFC 4960 section 3.3.2).
    pub fn max_num_inbound_streams(&self) -> u16
        ensures { result ≡ self.now.max_num_inbound_streams }
    {
        self.max_num_inbound_streams
    }

    /// The same configuration with another `max_num_inbound_streams`.
    pub fn with_max_num_inbound_streams(self, max_num_inbound_streams: u16) -> Self
        ensures { result ≡ record self { max_num_inbound_streams = max_num_inbound_streams } }
    {
        let mut config = self;
        config.max_num_inbound_streams = max_num_inbound_streams;
        config
    }

    /// Own SCTP port, 5000 by default. A server takes it from the INIT instead. A packet with port 0 is refused where
    /// it comes.
    pub fn local_port(&self) -> u16
        ensures { result ≡ self.now.local_port }
    {
        self.local_port
    }

    /// The same configuration with another `local_port`.
    pub fn with_local_port(self, local_port: u16) -> Self
        ensures { result ≡ record self { local_port = local_port } }
    {
        let mut config = self;
        config.local_port = local_port;
        config
    }

    /// The peer's SCTP port, 5000 by default. A server takes it from the INIT instead. A packet with port 0 is
    /// refused where it comes.
    pub fn remote_port(&self) -> u16
        ensures { result ≡ self.now.remote_port }
    {
        self.remote_port
    }

    /// The same configuration with another `remote_port`.
    pub fn with_remote_port(self, remote_port: u16) -> Self
        ensures { result ≡ record self { remote_port = remote_port } }
    {
        let mut config = self;
        config.remote_port = remote_port;
        config
    }

    /// Retransmission timeout before the first measurement, in ms; 3000 by default (RFC 4960 sections 6.3.1 and 15).
    /// The constructors of a driver refuse 0, here and in the next two.
    pub fn rto_initial_ms(&self) -> u64
        ensures { result ≡ self.now.rto_initial_ms }
    {
        self.rto_initial_ms
    }

    /// The same configuration with another `rto_initial_ms`.
    pub fn with_rto_initial_ms(self, rto_initial_ms: u64) -> Self
        ensures { result ≡ record self { rto_initial_ms = rto_initial_ms } }
    {
        let mut config = self;
        config.rto_initial_ms = rto_initial_ms;
        config
    }

    /// Least retransmission timeout after a measurement, in ms; 1000 by default (RFC 4960 sections 6.3.1 and 15).
    /// Where it is above the greatest one, that one counts.
    pub fn rto_min_ms(&self) -> u64
        ensures { result ≡ self.now.rto_min_ms }
    {
        self.rto_min_ms
    }

    /// The same configuration with another `rto_min_ms`.
    pub fn with_rto_min_ms(self, rto_min_ms: u64) -> Self
        ensures { result ≡ record self { rto_min_ms = rto_min_ms } }
    {
        let mut config = self;
        config.rto_min_ms = rto_min_ms;
        config
    }

    /// Greatest retransmission timeout, in ms, also of a timer that backs off; 60,000 by default (RFC 4960 sections
    /// 6.3.1, 6.3.3 and 15).
    pub fn rto_max_ms(&self) -> u64
        ensures { result ≡ self.now.rto_max_ms }
    {
        self.rto_max_ms
    }

    /// The same configuration with another `rto_max_ms`.
    pub fn with_rto_max_ms(self, rto_max_ms: u64) -> Self
        ensures { result ≡ record self { rto_max_ms = rto_max_ms } }
    {
        let mut config = self;
        config.rto_max_ms = rto_max_ms;
        config
    }

    /// How often INIT, and COOKIE ECHO, go out again before the handshake fails; 8 by default, None is no limit (RFC
    /// 4960 section 15).
    pub fn max_init_retransmits(&self) -> Option<usize>
        ensures { result ≡ self.now.max_init_retransmits }
    {
        self.max_init_retransmits
    }

    /// The same configuration with another `max_init_retransmits`.
    pub fn with_max_init_retransmits(self, max_init_retransmits: Option<usize>) -> Self
        ensures { result ≡ record self { max_init_retransmits = max_init_retransmits } }
    {
        let mut config = self;
        config.max_init_retransmits = max_init_retransmits;
        config
    }

    /// How often the retransmission timer may expire in a row; None, by default, is no limit. An acknowledgement of
    /// something new ends the row, by the rules of the RFCs a SACK with a window of 0, too (RFC 4960 section 6.1 A).
    /// Past the limit the timer stops and DATA stays in flight; a driver closes the association then, by the rules of
    /// the RFCs (section 8.1).
    pub fn max_data_retransmits(&self) -> Option<usize>
        ensures { result ≡ self.now.max_data_retransmits }
    {
        self.max_data_retransmits
    }

    /// The same configuration with another `max_data_retransmits`.
    pub fn with_max_data_retransmits(self, max_data_retransmits: Option<usize>) -> Self
        ensures { result ≡ record self { max_data_retransmits = max_data_retransmits } }
    {
        let mut config = self;
        config.max_data_retransmits = max_data_retransmits;
        config
    }

    /// Which rules are kept; with None, the default, its maker chooses: `Association` keeps those of the port, a driver
    /// those of the RFCs.
    pub fn profile(&self) -> Option<Profile>
        ensures { result ≡ self.now.profile }
    {
        self.profile
    }

    /// The same configuration with another `profile`.
    pub fn with_profile(self, profile: Option<Profile>) -> Self
        ensures { result ≡ record self { profile = profile } }
    {
        let mut config = self;
        config.profile = profile;
        config
    }
}

impl Default for TransportConfig {
    ghost use Rattle.sctp_wire_types.specs.Config.{default_config};

    ghost is_default = { λ c. c ≡ default_config };

    fn default() -> Self {
        TransportConfig {
            max_receive_buffer_size: 1_048_576,
            max_send_message_size: 65_536,
            max_receive_message_size: 65_536,
            max_num_outbound_streams: 65_535,
            max_num_inbound_streams: 65_535,
            local_port: 5000,
            remote_port: 5000,
            rto_initial_ms: 3000,
            rto_min_ms: 1000,
            rto_max_ms: 60_000,
            max_init_retransmits: Some(8),
            max_data_retransmits: None,
            profile: None,
        }
    }
}

/// Makes an association the server of its handshake, which waits for an INIT. Nothing is set in it so far: what
/// counts is that it is there.
#[derive(Clone, Copy, Debug, Default)]
pub struct ServerConfig;
