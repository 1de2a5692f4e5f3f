//! Reads one datagram a line, in hex, from standard input and prints the chunks of its SCTP packet with their fields. In
//! front of the hex may stand the moment at which the datagram went out or came, in milliseconds, and a space.
//!
//! With a word it writes the datagrams for other programs in place of that, as lines for Wireshark's `text2pcap` or as
//! a pcap file, whose link type is that of SCTP:
//!
//!     packet_dump --text2pcap < datagrams | text2pcap -l 248 -t %s.%f - datagrams.pcap
//!     packet_dump --pcap < datagrams > datagrams.pcap
#![tactic(auto)]

mod chunk;
mod dump;
mod export;
mod line;
mod param;
mod pcap;
mod reading;

use crate::export::Form;
use anyhow::{Result, bail};
use std::env;
use std::io::{self, BufReader, BufWriter};

/// The form that is asked for; None for the chunks in words.
fn form_of(word: Option<String>) -> Result<Option<Form>> {
    let Some(word) = word else {
        return Ok(None);
    };
    match word.as_str() {
        "--text2pcap" => Ok(Some(Form::Text)),
        "--pcap" => Ok(Some(Form::Pcap)),
        _ => bail!("usage: packet_dump [--text2pcap | --pcap] < DATAGRAMS"),
    }
}

fn main(rt: HostRuntime) -> Result<()> {
    let alloc = rt.alloc();
    let mut words = env::args(&rt)?;
    let _program = words.next();
    let form = form_of(words.next())?;
    let input = BufReader::new(alloc, rt.reader())?;
    let mut output = BufWriter::new(alloc, io::writer(&rt))?;
    match form {
        Some(form) => export::export(alloc, form, input, &mut output),
        None => Ok(dump::dump(alloc, input, &mut output)?),
    }
}
