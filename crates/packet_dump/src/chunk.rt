// Chunks, by name and with their fields.
use crate::param::{write_causes, write_params};
use sctp_wire_queues::{
    Chunk, ChunkForwardTsn, ChunkIForwardTsn, ChunkInit, ChunkPayloadData, ChunkReconfig,
    ChunkSelectiveAck,
};
use std::io::{self, Write};

/// A chunk's name in the words of the RFCs; `type T` for one without.
pub fn write_name<W: Write>(output: &mut W, chunk: &Chunk) -> io::Result<()> {
    let name = match chunk {
        Chunk::Data(_) => "DATA",
        Chunk::Init(_) => "INIT",
        Chunk::InitAck(_) => "INIT ACK",
        Chunk::SelectiveAck(_) => "SACK",
        Chunk::Heartbeat(_) => "HEARTBEAT",
        Chunk::HeartbeatAck(_) => "HEARTBEAT ACK",
        Chunk::Abort(_) => "ABORT",
        Chunk::Shutdown(_) => "SHUTDOWN",
        Chunk::ShutdownAck => "SHUTDOWN ACK",
        Chunk::Error(_) => "ERROR",
        Chunk::CookieEcho(_) => "COOKIE ECHO",
        Chunk::CookieAck => "COOKIE ACK",
        Chunk::ShutdownComplete => "SHUTDOWN COMPLETE",
        Chunk::Reconfig(_) => "RE-CONFIG",
        Chunk::ForwardTsn(_) => "FORWARD TSN",
        Chunk::IForwardTsn(_) => "I-FORWARD-TSN",
        Chunk::Other { kind, .. } => return write!(output, "type {kind}"),
    };
    write!(output, "{name}")
}

fn write_data<W: Write>(output: &mut W, piece: &ChunkPayloadData) -> io::Result<()> {
    write!(
        output,
        ": TSN {}, stream {}, SSN {}, payload type {}",
        piece.tsn,
        piece.stream_identifier,
        piece.stream_sequence_number,
        piece.payload_type.number()
    )?;
    if piece.beginning_fragment {
        write!(output, ", first piece")?;
    }
    if piece.ending_fragment {
        write!(output, ", last piece")?;
    }
    if piece.unordered {
        write!(output, ", unordered")?;
    }
    if piece.immediate_sack {
        write!(output, ", immediate")?;
    }
    write!(output, ", {} bytes", piece.user_data.len())
}

fn write_init<W: Write>(output: &mut W, init: &ChunkInit) -> io::Result<()> {
    write!(
        output,
        ": initiate tag {}, window {}, {} outbound streams, {} inbound streams, initial TSN {}",
        init.initiate_tag,
        init.advertised_receiver_window_credit,
        init.num_outbound_streams,
        init.num_inbound_streams,
        init.initial_tsn
    )?;
    write_params(output, init.params.as_slice())
}

fn write_sack<W: Write>(output: &mut W, sack: &ChunkSelectiveAck) -> io::Result<()> {
    write!(
        output,
        ": cumulative TSN ack {}, window {}, gap blocks",
        sack.cumulative_tsn_ack, sack.advertised_receiver_window_credit
    )?;
    for block in sack.gap_ack_blocks.as_slice() {
        write!(output, " {}-{}", block.start, block.end)?;
    }
    write!(output, ", duplicates")?;
    for tsn in sack.duplicate_tsn.as_slice() {
        write!(output, " {tsn}")?;
    }
    Ok(())
}

fn write_reconfig<W: Write>(output: &mut W, reconfig: &ChunkReconfig) -> io::Result<()> {
    write_params(output, std::slice::from_ref(&reconfig.first))?;
    match &reconfig.second {
        Some(second) => write_params(output, std::slice::from_ref(second)),
        None => Ok(()),
    }
}

fn write_forward_tsn<W: Write>(output: &mut W, forward: &ChunkForwardTsn) -> io::Result<()> {
    write!(
        output,
        ": new cumulative TSN {}, streams",
        forward.new_cumulative_tsn
    )?;
    for skipped in forward.streams.as_slice() {
        write!(
            output,
            " {}:{}",
            skipped.stream_identifier, skipped.stream_sequence_number
        )?;
    }
    Ok(())
}

fn write_i_forward_tsn<W: Write>(output: &mut W, forward: &ChunkIForwardTsn) -> io::Result<()> {
    write!(
        output,
        ": new cumulative TSN {}, streams",
        forward.new_cumulative_tsn
    )?;
    for entry in forward.entries.as_slice() {
        let order = if entry.unordered { " unordered" } else { "" };
        write!(
            output,
            " {}:{}{order}",
            entry.stream_identifier, entry.message_identifier
        )?;
    }
    Ok(())
}

/// A chunk's name and its fields.
pub fn write_chunk<W: Write>(output: &mut W, chunk: &Chunk) -> io::Result<()> {
    write_name(output, chunk)?;
    match chunk {
        Chunk::Data(piece) => write_data(output, piece),
        Chunk::Init(init) => write_init(output, init),
        Chunk::InitAck(init) => write_init(output, init),
        Chunk::SelectiveAck(sack) => write_sack(output, sack),
        Chunk::Heartbeat(heartbeat) => write_params(output, heartbeat.params.as_slice()),
        Chunk::HeartbeatAck(heartbeat) => write_params(output, heartbeat.params.as_slice()),
        Chunk::Abort(abort) => write_causes(output, abort.error_causes.as_slice()),
        Chunk::Error(error) => write_causes(output, error.error_causes.as_slice()),
        Chunk::Shutdown(cumulative_tsn_ack) => write!(
            output,
            ": cumulative TSN ack {cumulative_tsn_ack}"
        ),
        Chunk::CookieEcho(cookie) => write!(output, ": cookie of {} bytes", cookie.len()),
        Chunk::Reconfig(reconfig) => write_reconfig(output, reconfig),
        Chunk::ForwardTsn(forward) => write_forward_tsn(output, forward),
        Chunk::IForwardTsn(forward) => write_i_forward_tsn(output, forward),
        Chunk::Other { flags, value, .. } => {
            write!(output, ": flags {flags}, {} bytes", value.len())
        }
        Chunk::ShutdownAck => Ok(()),
        Chunk::CookieAck => Ok(()),
        Chunk::ShutdownComplete => Ok(()),
    }
}
