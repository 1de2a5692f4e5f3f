// What a channel of the W3C is asked, and why bytes are no OPEN.
use channel_table::{Channel, OpenError, OpenMessage, Persistence};
use std::alloc::Global;
use std::test::Fail;

// Whether a channel with this persistence tells these as its limits.
fn has_limits(
    alloc: Global,
    persistence: Persistence,
    retransmits: Option<u32>,
    life_time: Option<u32>,
) -> Result<bool, Fail> {
    let message = OpenMessage::new(alloc, false, persistence, 256, b"chat", b"p")?;
    let channel = Channel::announced(message);
    Ok(channel.max_retransmits() == retransmits && channel.max_packet_life_time() == life_time)
}

fn is_refused(alloc: Global, bytes: &[u8], awaited: OpenError) -> Result<bool, Fail> {
    let read = OpenMessage::read(bytes.to_vec(alloc)?);
    Ok(matches!(read, Err(error) if error == awaited))
}

#[test]
fn a_channel_tells_its_limits(rt: HostRuntime) -> Result<(), Fail> {
    assert!(rt; has_limits(rt.alloc(), Persistence::Retransmits(2), Some(2), None)?);
    assert!(rt; has_limits(rt.alloc(), Persistence::LifeTime(500), None, Some(500))?);
    Ok(())
}

#[test]
fn what_is_no_open_is_refused_by_name(rt: HostRuntime) -> Result<(), Fail> {
    let alloc = rt.alloc();
    assert!(rt; is_refused(alloc, b"\x02", OpenError::NotOpenMessage)?);
    let long = b"\x03\x00\x00\x00\x00\x00\x00\x00\x00\x01\x00\x00ab";
    assert!(rt; is_refused(alloc, long, OpenError::NotOpenMessage)?);
    let strange = b"\x03\x03\x00\x00\x00\x00\x00\x00\x00\x00\x00\x00";
    assert!(rt; is_refused(alloc, strange, OpenError::UnknownChannelType)?);
    Ok(())
}
