// Lines that come in.
use anyhow::{Result, bail};
use std::alloc::Global;

/// Nanoseconds of a millisecond.
const MILLISECOND: u64 = 1_000_000;

/// Something that happens to a driver.
#[derive(Drop)]
pub struct Happening {
    /// When, in nanoseconds.
    pub now: u64,
    /// The datagram that came; None where the moment came without one.
    pub datagram: Option<Vec<u8>>,
}

/// Reads a line without its newline.
pub fn parse(alloc: Global, line: &[u8]) -> Result<Happening> {
    let text = str::from_utf8(line)?;
    let fields: Vec<&str> = text.split(' ').collect(alloc)?;
    match fields.as_slice() {
        [millis, "wake"] => Ok(Happening {
            now: nanos(millis.parse::<u64>()?),
            datagram: None,
        }),
        [millis, "in", bytes] => Ok(Happening {
            now: nanos(millis.parse::<u64>()?),
            datagram: Some(hex::decode(alloc, *bytes)?),
        }),
        _ => bail!("neither a datagram nor a moment: {text}"),
    }
}

fn nanos(millis: u64) -> u64 {
    millis.saturating_mul(MILLISECOND)
}
