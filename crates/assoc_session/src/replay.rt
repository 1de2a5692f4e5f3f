// A session: lines in, replies out.
ghost use Rattle.std.specs.Prelude.{◌≡◌, ◌⊎◌};

use crate::line::{Beginning, Line, parse, profile_of};
use crate::reply::{flag, show, show_refusal};
use crate::setting::begun;
use sctp_assoc::Profile;
use sctp_pair::{Pair, Reply, Side2, Step};
use std::alloc::{AllocError, Global};
use std::io;
use std::io::{BufRead, BufReader, BufWriter, Read, Write};

/// Why a session ends before its input does.
#[derive(Drop)]
enum Stop {
    /// A line, counted from 1, is no step.
    BadStep(u64),
    /// Input, output or memory failed.
    Fault,
}

impl From<io::Error> for Stop {
    fn from(_: io::Error) -> Stop {
        Stop::Fault
    }
}

impl From<AllocError> for Stop {
    fn from(_: AllocError) -> Stop {
        Stop::Fault
    }
}

/// Carries out the steps of `input`, one a line, writes a reply a line to `output`, and answers the exit status: 0, or
/// 2 after a line that is no step or a fault of input or output, which `errors` is told.
pub fn session<R: Read + Drop, W: Write + Drop, E: Write + Drop>(
    alloc: Global,
    input: R,
    output: W,
    errors: E,
) -> u8
    ensures { (result ≡ 0) ⊎ (result ≡ 2) }
{
    let mut errors = errors;
    match replay(alloc, input, output) {
        Ok(()) => 0,
        Err(Stop::BadStep(number)) => {
            let _ = writeln!(errors, "line {number}: bad step");
            2
        }
        Err(Stop::Fault) => {
            let _ = writeln!(errors, "input or output failed");
            2
        }
    }
}

// Replies that were given before a bad step stay.
fn replay<R: Read + Drop, W: Write + Drop>(alloc: Global, input: R, output: W) -> Result<(), Stop> {
    let mut reader = BufReader::new(alloc, input)?;
    let mut writer = BufWriter::new(alloc, output)?;
    let ended = replay_lines(alloc, &mut reader, &mut writer);
    writer.flush()?;
    ended
}

// Each way out of a function that owns a pair, a step or a reply proves how that is dropped. So one function owns each
// of them, with one way out, and the others borrow it.

fn replay_lines<R: BufRead, W: Write>(
    alloc: Global,
    reader: &mut R,
    writer: &mut W,
) -> Result<(), Stop> {
    let mut line = Vec::new(alloc);
    if !next_line(reader, &mut line)? {
        return Ok(());
    }
    match profile_of(line.as_slice()) {
        Some(profile) => {
            writeln!(writer, "ok")?;
            if !next_line(reader, &mut line)? {
                return Ok(());
            }
            begin_under(alloc, reader, writer, profile, &mut line, 2)
        }
        None => begin_under(alloc, reader, writer, Profile::Port, &mut line, 1),
    }
}

// Carries out the line that makes the pair, which has this number, and those behind it.
fn begin_under<R: BufRead, W: Write>(
    alloc: Global,
    reader: &mut R,
    writer: &mut W,
    profile: Profile,
    line: &mut Vec<u8>,
    number: u64,
) -> Result<(), Stop> {
    let mut beginning = beginning_of(alloc, line.as_slice(), number)?;
    beginning.profile = profile;
    begin(alloc, reader, writer, beginning, line, number)
}

// What the line that makes the pair asks for.
fn beginning_of(alloc: Global, line: &[u8], number: u64) -> Result<Beginning, Stop> {
    let line = parse(alloc, line)?;
    match &line {
        Some(Line::Begin(beginning)) => Ok(*beginning),
        _ => Err(Stop::BadStep(number)),
    }
}

// Makes the pair, and carries out the lines that follow; where it is refused, the session ends.
fn begin<R: BufRead, W: Write>(
    alloc: Global,
    reader: &mut R,
    writer: &mut W,
    beginning: Beginning,
    line: &mut Vec<u8>,
    number: u64,
) -> Result<(), Stop> {
    match begun(alloc, beginning) {
        Ok(mut pair) => go_on(alloc, reader, writer, &mut pair, line, number),
        Err(error) => write_refusal(alloc, writer, error.number()),
    }
}

// The reply to the line that made the pair, which has this number, and the lines behind it. `line` is room for one.
fn go_on<R: BufRead, W: Write>(
    alloc: Global,
    reader: &mut R,
    writer: &mut W,
    pair: &mut Pair,
    line: &mut Vec<u8>,
    number: u64,
) -> Result<(), Stop> {
    writeln!(writer, "ok")?;
    for number in number.saturating_add(1)..u64::MAX {
        if !next_line(reader, line)? {
            break;
        }
        answer_line(alloc, writer, pair, line.as_slice(), number)?;
    }
    Ok(())
}

// Carries out a line behind the first one.
fn answer_line<W: Write>(
    alloc: Global,
    writer: &mut W,
    pair: &mut Pair,
    line: &[u8],
    number: u64,
) -> Result<(), Stop> {
    match parse(alloc, line)? {
        Some(line) => carry_out(alloc, writer, pair, &line, number),
        None => Err(Stop::BadStep(number)),
    }
}

fn carry_out<W: Write>(
    alloc: Global,
    writer: &mut W,
    pair: &mut Pair,
    line: &Line,
    number: u64,
) -> Result<(), Stop> {
    match line {
        Line::Step(step) => answer_step(alloc, writer, pair, step),
        Line::State(side) => write_state(writer, pair, *side),
        Line::Begin(_) => Err(Stop::BadStep(number)),
    }
}

fn answer_step<W: Write>(
    alloc: Global,
    writer: &mut W,
    pair: &mut Pair,
    step: &Step,
) -> Result<(), Stop> {
    let mut reply = pair.step(step);
    write_reply(alloc, writer, &mut reply)
}

// The next line without its newline; false where the input ended.
fn next_line<R: BufRead>(reader: &mut R, line: &mut Vec<u8>) -> Result<bool, Stop> {
    line.clear();
    reader.read_until(b'\n', line)?;
    if line.is_empty() {
        return Ok(false);
    }
    if line.last() == Some(&b'\n') {
        line.pop();
    }
    Ok(true)
}

fn write_reply<W: Write>(alloc: Global, writer: &mut W, reply: &mut Reply) -> Result<(), Stop> {
    let text = show(alloc, reply)?;
    writeln!(writer, "{text}")?;
    Ok(())
}

fn write_refusal<W: Write>(alloc: Global, writer: &mut W, number: u8) -> Result<(), Stop> {
    let text = show_refusal(alloc, number)?;
    writeln!(writer, "{text}")?;
    Ok(())
}

// Handshaking, closed, closing, drained and failed, each 0 or 1.
fn write_state<W: Write>(writer: &mut W, pair: &Pair, side: Side2) -> Result<(), Stop> {
    let association = pair.association(side);
    let handshaking = flag(association.is_handshaking());
    let closed = flag(association.is_closed());
    let closing = flag(association.is_closing());
    let drained = flag(association.is_drained());
    let failed = flag(association.is_failed());
    writeln!(
        writer,
        "{handshaking} {closed} {closing} {drained} {failed}"
    )?;
    Ok(())
}
