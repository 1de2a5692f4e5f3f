// What comes to an association, and what it shows. The datagrams were spelled apart from this code, from RFC 4960
// section 3 and RFC 3758 section 3.2, and so were the rows.
use crate::association::shown;
use std::process::Abort;
use std::test::Fail;

/// Datagrams in hex, by name. By INIT the peer has the tag 1, the first TSN 500 and ten streams each way, and lists
/// FORWARD TSN. The INIT ACK stands between the ports 5001, with 10 outbound and 20 inbound streams. The pieces
/// contradict each other, with the TSNs 500 and 501.
static DATAGRAMS: &str = "\
INIT 1388138800000000b325a99c0100001a0000000100100000000a000a000001f48008000682c00000
INIT_OF_TAG_0 13881388000000005e58a3910100001a0000000000100000000a000a000001f48008000682c00000
INIT_UNDER_TAG 1388138800000002ed73db280100001a0000000100100000000a000a000001f48008000682c00000
INIT_HEARTBEAT 13881388000000005d85e1be0100001a0000000100100000000a000a000001f48008000682c000000400000b0001000701020300
HEARTBEAT_INIT 1388138800000000cb40f8400400000b00010007010203000100001a0000000100100000000a000a000001f48008000682c00000
INIT_ACK_OF_OTHER_PORTS 1389138900000002a0718d0a0200003e0000000200100000000a0014000001f4\
000700244343434343434343434343434343434343434343434343434343434343434343\
8008000682c00000
COOKIE_ECHO 13881388000000024da94aed0a0000244343434343434343434343434343434343434343434343434343434343434343
HEARTBEAT 1388138800000002780a9e3f0400000b0001000701020300
DATA 138813880000000244618ce0000b0011000001f4000300000000003561000000
SHUTDOWN 1388138800000002bbed10870700000800000063
TWO_FIRST_PIECES 1388138800000002e221910700020011000001f4000300000000003561000000\
00020011000001f5000300000000003562000000
TWO_PAYLOAD_TYPES 1388138800000002d2e3575900020011000001f4000300000000003561000000\
00010011000001f5000300000000003362000000
TWO_LOOSE_FIRST_PIECES 138813880000000264fa5c6b00060011000001f4000300000000003561000000\
00060011000001f5000300000000003562000000
";

/// The hex of a datagram.
pub(crate) fn hex_of(name: &str) -> Result<&'static str, Fail> {
    for line in DATAGRAMS.lines() {
        if let Some((named, hex)) = line.split_once(' ') {
            if named == name {
                return Ok(hex);
            }
        }
    }
    Err(Fail::new(name))
}

/// An association, its steps, and what they bring: in the end whether a timer runs, the state, the last TSN in order,
/// the streams that may be received on and sent on, whether FORWARD TSN is in use, and whether TSN 100 is marked to be
/// sent again. Behind a loss the last TSN stays.
static ANSWERS: &str = "\
joined =  = connected Established 499 65535 65535 forwards
joined = write = sends connected timer Established 499 65535 65535 forwards
joined = write late = sends connected timer Established 499 65535 65535 forwards marked
client = INIT_ACK_OF_OTHER_PORTS = sends timer CookieWait 0 20 10
server =  = Closed 0 65535 65535
server = INIT = sends Closed 499 10 10 forwards
server = INIT COOKIE_ECHO TWO_FIRST_PIECES = \
sends sends connected told told ended lost Closed 500 10 10 forwards
server = INIT COOKIE_ECHO TWO_PAYLOAD_TYPES = \
sends sends connected told told ended lost Closed 500 10 10 forwards
server = INIT COOKIE_ECHO TWO_LOOSE_FIRST_PIECES = \
sends sends connected told told ended lost Closed 500 10 10 forwards
";

/// An INIT under a tag, or not alone, changes nothing (RFC 4960 sections 8.5.1 and 6.10). Any other one past the
/// handshake closes, whatever it says, and nothing counts after that. A driver hands on none past the handshake.
static GREETINGS: &str = "\
server = INIT_UNDER_TAG INIT_HEARTBEAT HEARTBEAT_INIT = Closed 0 65535 65535
server = INIT INIT_UNDER_TAG INIT_HEARTBEAT HEARTBEAT_INIT = sends Closed 499 10 10 forwards
server = INIT COOKIE_ECHO INIT_UNDER_TAG INIT_HEARTBEAT HEARTBEAT_INIT = \
sends sends connected Established 499 10 10 forwards
server = INIT COOKIE_ECHO INIT = sends sends connected lost Closed 499 10 10 forwards
server = INIT COOKIE_ECHO INIT_OF_TAG_0 = sends sends connected lost Closed 499 10 10 forwards
server = INIT COOKIE_ECHO write INIT = sends sends connected sends ended lost Closed 499 10 10 forwards
server = INIT COOKIE_ECHO write shutdown state INIT = \
sends sends connected sends ShutdownPending ended lost Closed 499 10 10 forwards
server = INIT COOKIE_ECHO write SHUTDOWN state INIT = \
sends sends connected sends ShutdownReceived ended lost Closed 499 10 10 forwards
server = INIT COOKIE_ECHO shutdown state INIT = \
sends sends connected sends ShutdownSent lost Closed 499 10 10 forwards
server = INIT COOKIE_ECHO SHUTDOWN state INIT = \
sends sends connected sends ShutdownAckSent lost Closed 499 10 10 forwards
server = INIT COOKIE_ECHO INIT INIT COOKIE_ECHO HEARTBEAT DATA SHUTDOWN = \
sends sends connected lost Closed 499 10 10 forwards
";

// Checks each line of a table.
fn check_rows(rt: &(impl Abort + AllocGlobal), rows: &'static str) -> Result<(), Fail> {
    for line in rows.lines() {
        let (kind, rest) = line.split_once(" = ").ok_or(line)?;
        let (steps, expected) = rest.split_once(" = ").ok_or(line)?;
        let text = shown(rt.alloc(), kind, steps)?;
        assert_eq!(rt; text.as_str(), expected, "{steps} of {kind}");
    }
    Ok(())
}

#[test]
fn an_association_answers_its_questions(rt: HostRuntime) -> Result<(), Fail> {
    check_rows(&rt, ANSWERS)
}

#[test]
fn an_init_past_the_handshake_closes(rt: HostRuntime) -> Result<(), Fail> {
    check_rows(&rt, GREETINGS)
}
