// What C hands over to make an association, as plain structs.
ghost use Rattle.std.specs.Prelude.{◌≡◌, Err, IfOk, OnErr};
ghost use Rattle.sctp_c.specs.Configs.{config_refusal, limit_of, names_profile, profile_by, settings_of, side_refusal};
ghost use Rattle.sctp_c.specs.Configs.{token_chunk};

use sctp_driver::{ChunkInit, Error, Profile, TransportConfig, token};
use sctp_slots::DONE;
use sctp_wire_types::List;
use std::alloc::Global;

/// A configuration. The profile is 0 for the rules of the RFCs and 1 for those of the port. A retransmission limit of
/// the greatest `usize` is none.
#[repr(C)]
#[derive(Drop)]
pub struct Config {
    pub max_receive_buffer_size: u32,
    pub max_send_message_size: u32,
    pub max_receive_message_size: u32,
    pub max_num_outbound_streams: u16,
    pub max_num_inbound_streams: u16,
    pub local_port: u16,
    pub remote_port: u16,
    pub profile: u32,
    pub rto_initial_ms: u64,
    pub rto_min_ms: u64,
    pub rto_max_ms: u64,
    pub max_init_retransmits: usize,
    pub max_data_retransmits: usize,
}

const _: () = prove!(size_of::<Config>() == 64);

/// A configuration has a profile other than the two that there are.
const BAD_PROFILE: u32 = 63;

/// A port is 0.
const BAD_PORT: u32 = 64;

/// No outbound or no inbound streams are offered.
const BAD_STREAMS: u32 = 65;

/// The receive buffer is a window that a peer refuses.
const BAD_WINDOW: u32 = 66;

/// The verification tag is 0.
const BAD_TAG: u32 = 67;

/// The least window that a peer takes, in bytes (RFC 4960 section 3.3.2).
const LEAST_WINDOW: u32 = 1500;

/// The retransmission timeout before the first measurement, in ms, by default.
const RTO_INITIAL: u64 = 500;

/// The least retransmission timeout, in ms, by default. It is above the 200 ms for which a peer may hold back a SACK.
const RTO_MIN: u64 = 400;

/// The timeouts in a row in which DATA is sent again, by default.
const DATA_RETRANSMITS: usize = 10;

/// What names one side: its verification tag, its first TSN and its State Cookie.
#[repr(C)]
#[derive(Drop)]
pub struct Identity {
    pub tag: u32,
    pub initial_tsn: u32,
    pub cookie: [u8; 32],
}

const _: () = prove!(size_of::<Identity>() == 40);

/// The values of an INIT chunk that is exchanged in another way than in a packet.
#[repr(C)]
#[derive(Drop)]
pub struct Token {
    pub tag: u32,
    pub initial_tsn: u32,
    pub window: u32,
    pub num_outbound_streams: u16,
    pub num_inbound_streams: u16,
    pub forward_tsn: bool,
}

const _: () = prove!(size_of::<Token>() == 20);

fn limit(retransmits: usize) -> Option<usize>
    ensures { result ≡ limit_of retransmits }
{
    if retransmits == usize::MAX {
        None
    } else {
        Some(retransmits)
    }
}

// A number that names none is refused before.
fn profile(number: u32) -> Profile
    ensures { result ≡ profile_by number }
{
    if number == 0 {
        Profile::Rfc
    } else {
        Profile::Port
    }
}

fn number(limit: Option<usize>) -> usize {
    limit.unwrap_or(usize::MAX)
}

impl Config {
    /// The configuration of an association.
    pub(crate) fn transport(&self) -> TransportConfig
        ensures { result ≡ settings_of self.now }
    {
        TransportConfig::default()
            .with_max_receive_buffer_size(self.max_receive_buffer_size)
            .with_max_send_message_size(self.max_send_message_size)
            .with_max_receive_message_size(self.max_receive_message_size)
            .with_max_num_outbound_streams(self.max_num_outbound_streams)
            .with_max_num_inbound_streams(self.max_num_inbound_streams)
            .with_local_port(self.local_port)
            .with_remote_port(self.remote_port)
            .with_rto_initial_ms(self.rto_initial_ms)
            .with_rto_min_ms(self.rto_min_ms)
            .with_rto_max_ms(self.rto_max_ms)
            .with_max_init_retransmits(limit(self.max_init_retransmits))
            .with_max_data_retransmits(limit(self.max_data_retransmits))
            .with_profile(Some(profile(self.profile)))
    }

    /// Whether its profile is one of the two that there are.
    fn names_profile(&self) -> bool
        ensures { result ≡ names_profile self.now }
    {
        self.profile < 2
    }

    /// Why no side can be made with it, as a code; 0 where nothing speaks against it.
    pub(crate) fn refusal(&self) -> u32
        ensures { result ≡ config_refusal self.now }
    {
        if !self.names_profile() {
            BAD_PROFILE
        } else if self.local_port == 0 || self.remote_port == 0 {
            BAD_PORT
        } else if self.max_num_outbound_streams == 0 || self.max_num_inbound_streams == 0 {
            BAD_STREAMS
        } else if self.max_receive_buffer_size < LEAST_WINDOW {
            BAD_WINDOW
        } else {
            DONE
        }
    }

    /// Why no side can be made with it that has this verification tag.
    pub(crate) fn refusal_with(&self, tag: u32) -> u32
        ensures { result ≡ side_refusal self.now tag }
    {
        let refusal = self.refusal();
        if refusal == DONE && tag == 0 {
            BAD_TAG
        } else {
            refusal
        }
    }

    // C takes the rules of the RFCs by default, whatever the configuration names.
    fn of(config: &TransportConfig) -> Config {
        Config {
            max_receive_buffer_size: config.max_receive_buffer_size(),
            max_send_message_size: config.max_send_message_size(),
            max_receive_message_size: config.max_receive_message_size(),
            max_num_outbound_streams: config.max_num_outbound_streams(),
            max_num_inbound_streams: config.max_num_inbound_streams(),
            local_port: config.local_port(),
            remote_port: config.remote_port(),
            profile: 0,
            rto_initial_ms: config.rto_initial_ms(),
            rto_min_ms: config.rto_min_ms(),
            rto_max_ms: config.rto_max_ms(),
            max_init_retransmits: number(config.max_init_retransmits()),
            max_data_retransmits: number(config.max_data_retransmits()),
        }
    }
}

impl Token {
    /// The INIT chunk with these values.
    pub(crate) fn chunk(&self, alloc: Global) -> Result<ChunkInit, Error>
        ensures ok { IfOk result (λ init. init ≡ token_chunk self.now) }
        ensures err { OnErr result (result ≡ Err Error.ErrNoMemory) }
    {
        let config = TransportConfig::default()
            .with_max_receive_buffer_size(self.window)
            .with_max_num_outbound_streams(self.num_outbound_streams)
            .with_max_num_inbound_streams(self.num_inbound_streams);
        let mut init = token(alloc, &config, self.tag, self.initial_tsn)?;
        if !self.forward_tsn {
            init.params = List::new(alloc);
        }
        Ok(init)
    }
}

// The configuration that C takes by default: over today's paths the seconds that RFC 4960 section 15 gives are long, and
// its ten retransmissions end an association whose peer is silent for good.
fn defaults() -> TransportConfig {
    TransportConfig::default()
        .with_rto_initial_ms(RTO_INITIAL)
        .with_rto_min_ms(RTO_MIN)
        .with_max_data_retransmits(Some(DATA_RETRANSMITS))
}

/// Writes the default configuration.
#[unsafe(no_mangle)]
pub extern "C" fn sctp_assoc_default_config(config: &mut Config) -> u32 {
    *config = Config::of(&defaults());
    DONE
}

/// Writes the token of a side with a configuration.
#[unsafe(no_mangle)]
pub extern "C" fn sctp_assoc_make_token(
    config: &Config,
    tag: u32,
    initial_tsn: u32,
    token: &mut Token,
) -> u32 {
    *token = Token {
        tag,
        initial_tsn,
        window: config.max_receive_buffer_size,
        num_outbound_streams: config.max_num_outbound_streams,
        num_inbound_streams: config.max_num_inbound_streams,
        forward_tsn: true,
    };
    DONE
}
