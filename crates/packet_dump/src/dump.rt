// All lines of an input.
use crate::chunk::{write_chunk, write_name};
use crate::line::{Line, take_apart};
use crate::reading::{Reading, read_line};
use sctp_wire_queues::Packet;
use std::alloc::Global;
use std::io::{self, BufRead, Write};

fn write_packet<W: Write>(output: &mut W, packet: &Packet) -> io::Result<()> {
    let mut separator = "";
    for chunk in packet.chunks.as_slice() {
        write!(output, "{separator}")?;
        write_name(output, chunk)?;
        separator = ", ";
    }
    writeln!(output)?;
    for chunk in packet.chunks.as_slice() {
        write!(output, "  ")?;
        write_chunk(output, chunk)?;
        writeln!(output)?;
    }
    Ok(())
}

/// Prints line N of the input as `N: `, its moment if it has one, and the names of its chunks, and under it a line for
/// each chunk with its fields.
pub fn dump<R: BufRead + Drop, W: Write>(
    alloc: Global,
    input: R,
    output: &mut W,
) -> io::Result<()> {
    for (i, line) in input.split(alloc, b'\n').enumerate() {
        let line = line?;
        let Line { millis, hex } = take_apart(line.as_slice());
        write!(output, "{}: ", i + 1)?;
        if let Some(millis) = millis {
            write!(output, "at {millis} ms: ")?;
        }
        match read_line(alloc, hex)? {
            Reading::NotHex => writeln!(output, "not hex")?,
            Reading::Refused(error) => writeln!(output, "refused: {error}")?,
            Reading::Read(packet) => write_packet(output, &packet)?,
        }
    }
    output.flush()
}
