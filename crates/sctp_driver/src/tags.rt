// Which packets are taken, by their verification tag (RFC 4960 section 8.5).
ghost use Rattle.std.specs.Prelude.{◌≡◌};
ghost use Rattle.sctp_driver.specs.Tags.{chunk_named, first_chunk_of, is_own_or_reflected, judged, judged_init};
ghost use Rattle.sctp_driver.specs.Tags.{init_told, is_init_of_another, taken_if};

/// What became of a datagram that came.
#[derive(Clone, Copy, Debug, PartialEq, Eq)]
pub enum DatagramAnswer {
    /// Its tag is accepted, and it was handed to the association, which leaves what does not decode.
    Taken,
    /// It is no SCTP packet, or its checksum is wrong (RFC 4960 section 6.8). Nothing changed.
    NoPacket,
    /// Its verification tag is not one that RFC 4960 section 8.5 accepts. Nothing changed.
    OtherTag,
    /// It is an INIT, and the association is past its handshake: one of this peer, by its initiate tag, or one that is
    /// too short to have a tag. Nothing changed.
    RepeatedInit,
    /// It is an INIT, the association is past its handshake, and its initiate tag is not the peer's: the peer was
    /// started anew, or somebody else asks from its address (RFC 4960 section 5.2.2). Nothing changed; a server beside
    /// this association can answer it.
    OtherInit,
}

/// What the rule of verification tags looks at of a packet's first chunk (RFC 4960 section 8.5.1). `reflected` is its
/// T bit.
#[derive(Clone, Copy, Debug, PartialEq, Eq)]
pub(crate) enum FirstChunk {
    Init,
    Abort { reflected: bool },
    ShutdownComplete { reflected: bool },
    CookieEcho,
    ShutdownAck,
    Other,
}

/// The first chunk of these chunks.
pub(crate) fn first_chunk(bytes: &[u8]) -> FirstChunk
    ensures { result ≡ first_chunk_of bytes.now }
{
    if bytes.len() < 2 {
        return FirstChunk::Other;
    }
    chunk_of(bytes[0], bytes[1])
}

fn chunk_of(kind: u8, flags: u8) -> FirstChunk
    ensures { result ≡ chunk_named kind flags }
{
    let reflected = flags % 2 == 1;
    match kind {
        1 => FirstChunk::Init,
        6 => FirstChunk::Abort { reflected },
        8 => FirstChunk::ShutdownAck,
        10 => FirstChunk::CookieEcho,
        14 => FirstChunk::ShutdownComplete { reflected },
        _ => FirstChunk::Other,
    }
}

/// What becomes of a packet with this first chunk and this verification tag. `own` is this side's tag, `peer` its
/// peer's, 0 where that is unknown, and `begins` says whether the association is at its handshake.
pub(crate) fn judge(
    first: FirstChunk,
    tag: u32,
    own: u32,
    peer: u32,
    begins: bool,
) -> DatagramAnswer
    ensures { result ≡ judged first tag own peer begins }
{
    match first {
        FirstChunk::Init => judge_init(tag, begins),
        FirstChunk::Abort { reflected } => {
            take_if(is_own_or_reflected(reflected, tag, own, peer))
        }
        FirstChunk::ShutdownComplete { reflected } => {
            take_if(is_own_or_reflected(reflected, tag, own, peer))
        }
        FirstChunk::CookieEcho => take_if(tag == own),
        FirstChunk::ShutdownAck => take_if(tag == own),
        FirstChunk::Other => take_if(tag == own),
    }
}

/// The same where an INIT past the handshake is told apart by its initiate tag. `peer` is the peer's tag, and these are
/// the chunks.
pub(crate) fn tell_init(answer: DatagramAnswer, chunks: &[u8], peer: u32) -> DatagramAnswer
    ensures { result ≡ init_told answer (is_init_of_another chunks.now peer) }
{
    match answer {
        DatagramAnswer::RepeatedInit => {
            if is_init_of_another(chunks, peer) {
                DatagramAnswer::OtherInit
            } else {
                DatagramAnswer::RepeatedInit
            }
        }
        judged => judged,
    }
}

// Whether an INIT, the first of these chunks, has another initiate tag. That stands behind the four bytes of its header.
fn is_init_of_another(chunks: &[u8], peer: u32) -> bool
    ensures { result ≡ is_init_of_another chunks.now peer }
{
    if chunks.len() < 8 {
        return false;
    }
    u32::from_be_bytes([chunks[4], chunks[5], chunks[6], chunks[7]]) != peer
}

fn judge_init(tag: u32, begins: bool) -> DatagramAnswer
    ensures { result ≡ judged_init tag begins }
{
    if tag != 0 {
        return DatagramAnswer::OtherTag;
    }
    if begins {
        DatagramAnswer::Taken
    } else {
        DatagramAnswer::RepeatedInit
    }
}

// A peer's tag of 0 is unknown, and no packet has it.
fn is_own_or_reflected(reflected: bool, tag: u32, own: u32, peer: u32) -> bool
    ensures { result ≡ is_own_or_reflected reflected tag own peer }
{
    if reflected {
        peer != 0 && tag == peer
    } else {
        tag == own
    }
}

fn take_if(fits: bool) -> DatagramAnswer
    ensures { result ≡ taken_if fits }
{
    if fits {
        DatagramAnswer::Taken
    } else {
        DatagramAnswer::OtherTag
    }
}
