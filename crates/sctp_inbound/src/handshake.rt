// Tags, ports and numbers of streams, as the two sides agree on them.
ghost use Rattle.std.specs.Prelude.{◌≡◌};
ghost use Rattle.std.specs.List.{list_any};
ghost use Rattle.sctp_inbound.specs.Handshake.{by_tokens_of, comes_back, established, fresh_of, has_issued, header_of};
ghost use Rattle.sctp_inbound.specs.Handshake.{learned_by_init, learned_by_init_ack, side_of, lists_forward_tsn};
ghost use Rattle.sctp_inbound.specs.Handshake.{is_extensions_with_forward_tsn, offer_of, with_answer, with_parameters};

use bytes::Bytes;
use sctp_wire_types::{ChunkInit, CommonHeader, Param, Side, TransportConfig};

/// The type of the FORWARD TSN chunk (RFC 3758 section 3.2).
const FORWARD_TSN: u8 = 192;

/// What the handshake, or two tokens in its place, fix for an association (RFC 4960 section 5.1).
#[derive(Debug, Drop)]
pub struct Handshake {
    pub my_verification_tag: u32,
    pub my_initial_tsn: u32,
    /// 0 until a token, an INIT or an INIT ACK says it.
    pub peer_verification_tag: u32,
    /// None until a token, an INIT or an INIT ACK says it.
    pub peer_initial_tsn: Option<u32>,
    pub source_port: u16,
    pub destination_port: u16,
    /// Streams that this side may send on, and those that it may receive on.
    pub num_outbound_streams: u16,
    pub num_inbound_streams: u16,
    /// The peer said that it takes FORWARD TSN (RFC 3758 section 3.1), so both sides may skip messages by it.
    pub use_forward_tsn: bool,
    /// The association was established once.
    pub completed: bool,
    /// This side's State Cookie; empty where tokens take the handshake's place.
    pub cookie: Bytes,
    /// The cookie went out in an INIT ACK.
    pub cookie_issued: bool,
    /// What a client's INIT offers, until it is answered.
    pub offer: Option<Offer>,
    /// The peer's State Cookie, which goes out in COOKIE ECHO until that is answered.
    pub echo: Option<Bytes>,
}

/// What an INIT offers beside its sender's own numbers: the receive window, in bytes, and streams (RFC 4960 section
/// 3.3.2).
#[derive(Clone, Copy, Debug)]
pub struct Offer {
    pub window: u32,
    pub num_outbound_streams: u16,
    pub num_inbound_streams: u16,
}

impl Offer {
    /// The offer of a configuration.
    pub fn new(config: &TransportConfig) -> Self
        ensures { result ≡ offer_of config.now }
    {
        Offer {
            window: config.max_receive_buffer_size(),
            num_outbound_streams: config.max_num_outbound_streams(),
            num_inbound_streams: config.max_num_inbound_streams(),
        }
    }
}

impl Handshake {
    /// The values that two tokens fix, `local` this side's and `remote` the peer's. Each side's outbound streams are
    /// limited by what the other takes.
    pub fn by_tokens(config: &TransportConfig, local: &ChunkInit, remote: &ChunkInit) -> Self
        ensures { result ≡ by_tokens_of config.now local.now remote.now }
    {
        Handshake {
            my_verification_tag: local.initiate_tag,
            my_initial_tsn: local.initial_tsn,
            peer_verification_tag: remote.initiate_tag,
            peer_initial_tsn: Some(remote.initial_tsn),
            source_port: config.local_port(),
            destination_port: config.remote_port(),
            num_outbound_streams: config
                .max_num_outbound_streams()
                .min(remote.num_inbound_streams),
            num_inbound_streams: config
                .max_num_inbound_streams()
                .min(remote.num_outbound_streams),
            use_forward_tsn: supports_forward_tsn(remote),
            completed: true,
            cookie: Bytes::new(),
            cookie_issued: false,
            offer: None,
            echo: None,
        }
    }

    /// Nothing is known of the peer. A client has an offer, which its INIT makes; a server has none.
    pub fn fresh(
        config: &TransportConfig,
        my_verification_tag: u32,
        my_initial_tsn: u32,
        cookie: Bytes,
        offer: Option<Offer>,
    ) -> Self
        ensures { result ≡ fresh_of config.now my_verification_tag my_initial_tsn cookie offer }
    {
        Handshake {
            my_verification_tag,
            my_initial_tsn,
            peer_verification_tag: 0,
            peer_initial_tsn: None,
            source_port: config.local_port(),
            destination_port: config.remote_port(),
            num_outbound_streams: config.max_num_outbound_streams(),
            num_inbound_streams: config.max_num_inbound_streams(),
            use_forward_tsn: false,
            completed: false,
            cookie,
            cookie_issued: false,
            offer,
            echo: None,
        }
    }

    /// An INIT came, which is answered by an INIT ACK with this side's cookie (RFC 4960 section 5.1).
    pub fn on_init(&mut self, header: &CommonHeader, init: &ChunkInit)
        ensures { self.new ≡ learned_by_init self.old header.now init.now }
    {
        self.take_answer(init);
        self.source_port = header.destination_port;
        self.destination_port = header.source_port;
        self.take_parameters(init);
        self.cookie_issued = true;
    }

    /// An INIT ACK came; false where its ports are not those that this side wrote to, and then nothing but its tag and
    /// its numbers of streams count.
    pub fn on_init_ack(&mut self, header: &CommonHeader, init: &ChunkInit) -> bool
        ensures answer { result ≡ comes_back self.old header.now }
        ensures state { self.new ≡ learned_by_init_ack self.old header.now init.now }
    {
        self.take_answer(init);
        if header.destination_port != self.source_port
            || header.source_port != self.destination_port
        {
            return false;
        }
        self.take_parameters(init);
        self.offer = None;
        true
    }

    // Each side's outbound streams are limited by what the other takes.
    fn take_answer(&mut self, init: &ChunkInit)
        ensures { self.new ≡ with_answer self.old init.now }
    {
        self.num_inbound_streams = self.num_inbound_streams.min(init.num_outbound_streams);
        self.num_outbound_streams = self.num_outbound_streams.min(init.num_inbound_streams);
        self.peer_verification_tag = init.initiate_tag;
    }

    fn take_parameters(&mut self, init: &ChunkInit)
        ensures { self.new ≡ with_parameters self.old init.now }
    {
        self.peer_initial_tsn = Some(init.initial_tsn);
        self.use_forward_tsn = self.use_forward_tsn || supports_forward_tsn(init);
    }

    /// Whether this is the cookie that this side gave out.
    pub fn has_issued(&self, cookie: &Bytes) -> bool
        ensures { result ≡ has_issued self.now cookie.now }
    {
        self.cookie_issued && self.cookie.as_slice() == cookie.as_slice()
    }

    /// The handshake is over: nothing of it is sent again.
    pub fn complete(&mut self)
        ensures { self.new ≡ established self.old }
    {
        self.completed = true;
        self.offer = None;
        self.echo = None;
    }

    /// The header of the packets that this side gives out.
    pub fn header(&self) -> CommonHeader
        ensures { result ≡ header_of self.now }
    {
        CommonHeader {
            source_port: self.source_port,
            destination_port: self.destination_port,
            verification_tag: self.peer_verification_tag,
        }
    }

    /// With tokens, the side with the lesser tag is the server; with equal tags both are.
    pub fn side_by_tags(&self) -> Side
        ensures { result ≡ side_of self.now }
    {
        if self.my_verification_tag <= self.peer_verification_tag {
            Side::Server
        } else {
            Side::Client
        }
    }
}

// Whether the peer lists FORWARD TSN among its extensions (RFC 5061 section 4.2.7).
fn supports_forward_tsn(init: &ChunkInit) -> bool
    ensures { result ≡ lists_forward_tsn init.now }
{
    init.params.as_slice().iter().any(|param| lists(param))
}

fn lists(param: &Param) -> bool
    ensures { result ≡ is_extensions_with_forward_tsn param.now }
{
    match param {
        Param::SupportedExtensions(types) => types.as_slice().contains(&FORWARD_TSN),
        _ => false,
    }
}
