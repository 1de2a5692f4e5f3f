// The datagrams of an input in the forms of other programs.
use crate::line::{Line, SNAP_LENGTH, datagram_of, take_apart};
use crate::pcap::{file_head, record_head};
use anyhow::{Result, bail};
use std::alloc::Global;
use std::io::{self, BufRead, Write};

/// A form in which other programs read datagrams.
#[derive(Clone, Copy, Debug)]
pub enum Form {
    /// Lines of hex for Wireshark's `text2pcap -l 248 -t %s.%f`.
    Text,
    /// A pcap file.
    Pcap,
}

fn write_text<W: Write>(output: &mut W, millis: u32, datagram: &[u8]) -> io::Result<()> {
    let seconds = millis / 1000;
    let thousandths = millis % 1000;
    write!(output, "{seconds}.{thousandths:03}\n000000")?;
    for byte in datagram {
        write!(output, " {byte:02x}")?;
    }
    writeln!(output, "\n")
}

fn write_record<W: Write>(
    alloc: Global,
    output: &mut W,
    millis: u32,
    datagram: &[u8],
) -> io::Result<()> {
    let count = u32::try_from(datagram.len()).unwrap_or(u32::MAX);
    output.write_all(record_head(alloc, millis, count)?.as_slice())?;
    output.write_all(datagram)
}

/// Writes the datagram of each line in this form; the moment of a line without one is 0.
pub fn export<R: BufRead + Drop, W: Write>(
    alloc: Global,
    form: Form,
    input: R,
    output: &mut W,
) -> Result<()> {
    if let Form::Pcap = form {
        output.write_all(file_head(alloc, SNAP_LENGTH)?.as_slice())?;
    }
    for (i, line) in input.split(alloc, b'\n').enumerate() {
        let line = line?;
        let Line { millis, hex } = take_apart(line.as_slice());
        let millis = millis.unwrap_or(0);
        match (form, datagram_of(alloc, hex)?) {
            (Form::Text, Some(datagram)) => write_text(output, millis, datagram.as_slice())?,
            (Form::Pcap, Some(datagram)) => {
                write_record(alloc, output, millis, datagram.as_slice())?;
            }
            (_, None) => bail!("line {}: no datagram in hex", i + 1),
        }
    }
    output.flush()?;
    Ok(())
}
