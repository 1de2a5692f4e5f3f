// DATA_CHANNEL_OPEN by itself. The bytes are those of RFC 8832 section 5.1, spelled by hand.
use dcep_channel::OpenMessage;
use std::alloc::Global;
use std::test::Fail;

/// Priority 0, label `chat`, no protocol.
static OPEN: &[u8] = b"\x03\x00\x00\x00\x00\x00\x00\x00\x00\x04\x00\x00chat";

/// What is read where one byte of these is another: its place, the byte, and the priority, label and protocol, or the
/// number of the refusal.
const CHANGED: [(usize, u8, &str); 13] = [
    (0, 3, "0 chat "),
    (0, 2, "31"),
    (0, 0, "31"),
    (1, 1, "32"),
    (1, 128, "32"),
    (2, 255, "65280 chat "),
    (7, 9, "0 chat "),
    (8, 1, "31"),
    (9, 3, "31"),
    (9, 5, "31"),
    (10, 1, "31"),
    (11, 1, "31"),
    (12, 0, "0 \0hat "),
];

/// The same of other bytes: of a reliability parameter other than 0, of aiortc 1.4.0, and with one byte too many.
const OTHERS: [(&[u8], &str); 3] = [
    (
        b"\x03\x00\x02\x01\x00\x00\x00\x07\x00\x01\x00\x02abc",
        "513 a bc",
    ),
    (
        b"\x03\x00\x00\x00\x00\x00\x00\x00\x00\x03\x00\x03bobbar",
        "0 bob bar",
    ),
    (
        b"\x03\x00\x00\x00\x00\x00\x00\x00\x00\x04\x00\x00chat\x00",
        "31",
    ),
];

// Priority, label and protocol of the OPEN that these bytes spell, or the number of the refusal.
fn read(alloc: Global, bytes: Vec<u8>) -> Result<String, Fail> {
    match OpenMessage::read(bytes) {
        Ok(open) => {
            let priority = open.priority();
            let label = str::from_utf8(open.label()).unwrap_or("?");
            let protocol = str::from_utf8(open.protocol()).unwrap_or("?");
            Ok(format!(in alloc; "{priority} {label} {protocol}")?)
        }
        Err(error) => {
            let number = error.number();
            Ok(format!(in alloc; "{number}")?)
        }
    }
}

#[test]
fn opens_are_read(rt: HostRuntime) -> Result<(), Fail> {
    for (at, byte, expected) in CHANGED {
        let mut bytes = OPEN.to_vec(rt.alloc())?;
        if let Some(place) = bytes.get_mut(at) {
            *place = byte;
        }
        assert_eq!(rt; read(rt.alloc(), bytes)?.as_str(), expected, "at {at}");
    }
    for (bytes, expected) in OTHERS {
        assert_eq!(rt;
            read(rt.alloc(), bytes.to_vec(rt.alloc())?)?.as_str(),
            expected
        );
    }
    for length in 0..OPEN.len() {
        let cut = OPEN[..length].to_vec(rt.alloc())?;
        assert_eq!(rt; read(rt.alloc(), cut)?.as_str(), "31", "cut to {length}");
    }
    Ok(())
}

/// Priority, label and protocol, and the bytes of that OPEN.
const SPELLED: [(u16, &[u8], &[u8], &[u8]); 2] = [
    (
        0,
        b"chat",
        b"",
        b"\x03\x00\x00\x00\x00\x00\x00\x00\x00\x04\x00\x00chat",
    ),
    (
        513,
        b"a",
        b"bc",
        b"\x03\x00\x02\x01\x00\x00\x00\x00\x00\x01\x00\x02abc",
    ),
];

/// The lengths of a label and a protocol, and those that are read in the OPEN, or the number of the refusal.
const LENGTHS: [(usize, usize, &str); 3] = [
    (65_535, 65_535, "65535 65535"),
    (65_536, 0, "30"),
    (0, 65_536, "30"),
];

fn lengths(alloc: Global, label: usize, protocol: usize) -> Result<String, Fail> {
    let label: Vec<u8> = vec![in alloc; 7; label]?;
    let protocol: Vec<u8> = vec![in alloc; 7; protocol]?;
    match OpenMessage::new(alloc, 0, label.as_slice(), protocol.as_slice()) {
        Ok(open) => {
            let (label, protocol) = (open.label().len(), open.protocol().len());
            Ok(format!(in alloc; "{label} {protocol}")?)
        }
        Err(error) => {
            let number = error.number();
            Ok(format!(in alloc; "{number}")?)
        }
    }
}

#[test]
fn opens_are_spelled(rt: HostRuntime) -> Result<(), Fail> {
    for (priority, label, protocol, bytes) in SPELLED {
        let open = OpenMessage::new(rt.alloc(), priority, label, protocol)?;
        assert_eq!(rt; open.as_slice(), bytes, "of priority {priority}");
    }
    for (label, protocol, expected) in LENGTHS {
        assert_eq!(rt; lengths(rt.alloc(), label, protocol)?.as_str(), expected);
    }
    Ok(())
}
