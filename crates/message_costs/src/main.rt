//! What a message costs: two associations exchange messages in memory, so that callgrind can count the instructions.
//! Each line `SIZE COUNT BURST` of standard input asks for COUNT bursts of BURST messages of SIZE bytes from A to B,
//! over two associations of their own, and is answered by one line. The messages of a burst are written before A is
//! polled, and each packet is handed over at once. The difference of the instructions of two counts, divided by that of
//! the counts and by BURST, is what a message takes at both ends together.
//!
//!     echo 1100 3000 1 | valgrind --tool=callgrind --callgrind-out-file=/tmp/message_costs.callgrind out/message_costs
#![tactic(auto)]

mod ends;

use anyhow::{Result, bail};
use std::alloc::Global;
use std::io::{BufRead, BufReader, BufWriter, Write, writer};

/// What a line asks for.
struct Demand {
    /// The length of a message, in bytes.
    size: usize,
    /// How many bursts.
    count: u64,
    /// How many messages are written one after another.
    burst: u64,
}

fn main(rt: HostRuntime) -> Result<()> {
    let alloc = rt.alloc();
    let input = BufReader::new(alloc, rt.reader())?;
    let mut output = BufWriter::new(alloc, writer(&rt))?;
    answer_lines(alloc, input, &mut output)?;
    output.flush()?;
    Ok(())
}

fn answer_lines<R: BufRead + Drop, W: Write>(
    alloc: Global,
    input: R,
    output: &mut W,
) -> Result<()> {
    for line in input.split(alloc, b'\n') {
        let Demand { size, count, burst } = parse(line?.as_slice())?;
        let mut message: Vec<u8> = vec![in alloc; 0; size]?;
        let bytes_read = ends::exchange(alloc, message.as_mut_slice(), count, burst)?;
        writeln!(
            output,
            "{count} bursts of {burst} messages of {size} bytes: {bytes_read} bytes read"
        )?;
    }
    Ok(())
}

// Reads a line without its newline.
fn parse(line: &[u8]) -> Result<Demand> {
    let text = str::from_utf8(line)?;
    let mut fields = text.split(' ');
    let (Some(size), Some(count), Some(burst), None) = (
        fields.next(),
        fields.next(),
        fields.next(),
        fields.next(),
    ) else {
        bail!("not a size, a count and a burst: {text}");
    };
    of_fields(size, count, burst)
}

fn of_fields(size: &str, count: &str, burst: &str) -> Result<Demand> {
    Ok(Demand {
        size: size.parse::<usize>()?,
        count: count.parse::<u64>()?,
        burst: burst.parse::<u64>()?,
    })
}
