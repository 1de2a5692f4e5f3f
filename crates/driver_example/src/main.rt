//! A server that echoes each message on the stream on which it came, as a driver of one association: datagrams and
//! moments come in as lines on standard input, and what the association gives out goes to standard output.
//!
//! It stands on `sctp_driver`. Who drives an `Association` of `sctp_assoc` itself has to do beside what that one does:
//! decode each datagram (`PartialDecode::unmarshal`) and leave what is no packet or has a wrong checksum; check the
//! verification tag (RFC 4960 section 8.5, and 8.5.1 for INIT, ABORT, SHUTDOWN COMPLETE and COOKIE ECHO); leave an INIT
//! once the association is established, since a repeated one would close it; keep the packets of a poll until they are
//! sent, one datagram each; and keep a message that is longer than the reader's buffer.
//!
//! | Line in | |
//! |---|---|
//! | `MILLIS in HEX` | a datagram came at this moment |
//! | `MILLIS wake` | this moment came |
//!
//! | Line out | |
//! |---|---|
//! | `MILLIS event ..` | what the association tells its application |
//! | `MILLIS out HEX` | a datagram that is to be sent |
//! | `MILLIS wake` | the moment at which the driver has to be woken, unless a datagram comes before |
#![tactic(auto)]

mod driver;
mod line;

use std::io::{BufReader, BufWriter, Write, writer};

fn main(rt: HostRuntime) -> anyhow::Result<()> {
    let alloc = rt.alloc();
    let input = BufReader::new(alloc, rt.reader())?;
    let mut output = BufWriter::new(alloc, writer(&rt))?;
    driver::serve(alloc, input, &mut output)?;
    output.flush()?;
    Ok(())
}
