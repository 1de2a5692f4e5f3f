// Datagrams worked out by hand after RFC 4960 section 3.
use bytes::Bytes;
use sctp_wire_queues::{Chunk, Error, Fault, Packet, Param, PartialDecode, check_packet};
use std::alloc::{AllocError, Global};
use std::test::Fail;

const INIT: &[u8; 88] =
    b"1388138800000000925755c701000020123456780002000004000400000000018008000882c040c2c0000004";

// The same INIT under a verification tag 1, with its checksum.
const INIT_UNDER_TAG: &[u8; 88] =
    b"13881388000000013026303801000020123456780002000004000400000000018008000882c040c2c0000004";

// One DATA chunk of one byte, of a usrsctp peer.
const DATA: &[u8; 64] = b"138b138b733d005c0169848d0003001190b926d4000000000000003561000000";

fn datagram(alloc: Global, text: &[u8]) -> Result<Bytes, AllocError> {
    let bytes = hex::decode(alloc, text).map_err(|_| AllocError)?;
    Ok(Bytes::from_vec(bytes)?)
}

fn packet(alloc: Global, text: &[u8]) -> Result<Packet, Fail> {
    let bytes = datagram(alloc, text)?;
    Ok(PartialDecode::unmarshal(&bytes)?.finish(alloc)?)
}

#[test]
fn init_is_read_and_written_again(rt: HostRuntime) -> Result<(), Fail> {
    let alloc = rt.alloc();
    let bytes = datagram(alloc, INIT)?;
    let partial = PartialDecode::unmarshal(&bytes)?;
    assert_eq!(rt; partial.common_header.source_port, 5000);
    assert_eq!(rt; partial.common_header.destination_port, 5000);
    assert_eq!(rt; partial.common_header.verification_tag, 0);
    let packet = partial.finish(alloc)?;
    assert!(rt; check_packet(&packet).is_ok());
    for chunk in packet.chunks.as_slice() {
        assert!(rt; chunk.check().is_ok());
        match chunk {
            Chunk::Init(init) => {
                assert_eq!(rt; init.initiate_tag, 0x1234_5678);
                assert_eq!(rt; init.advertised_receiver_window_credit, 131_072);
                assert_eq!(rt; init.num_outbound_streams, 1024);
                assert_eq!(rt; init.num_inbound_streams, 1024);
                assert_eq!(rt; init.initial_tsn, 1);
                assert_eq!(rt; init.params.len(), 2);
            }
            _ => assert!(rt; false, "not an INIT"),
        }
    }
    let again = packet.marshal(alloc)?;
    assert_eq!(rt; again.as_slice(), bytes.as_slice());
    Ok(())
}

#[test]
fn refusals(rt: HostRuntime) -> Result<(), Fail> {
    let alloc = rt.alloc();
    let under_tag = packet(alloc, INIT_UNDER_TAG)?;
    assert_eq!(rt;
        check_packet(&under_tag),
        Err(Error::Malformed(Fault::InitTag))
    );
    let short = datagram(alloc, &INIT[..22])?;
    assert!(rt;
        matches!(
            PartialDecode::unmarshal(&short),
            Err(Error::Malformed(Fault::Short))
        )
    );
    let mut text = *INIT;
    text[39] = b'9';
    let changed = datagram(alloc, &text)?;
    assert!(rt;
        matches!(
            PartialDecode::unmarshal(&changed),
            Err(Error::Malformed(Fault::Checksum))
        )
    );
    Ok(())
}

// A copy would be the only owner of its bytes.
#[test]
fn payload_is_a_cut(rt: HostRuntime) -> Result<(), Fail> {
    let alloc = rt.alloc();
    let bytes = datagram(alloc, DATA)?;
    let packet = PartialDecode::unmarshal(&bytes)?.finish(alloc)?;
    for chunk in packet.chunks.as_slice() {
        match chunk {
            Chunk::Data(piece) => {
                assert_eq!(rt; piece.tsn, 0x90b9_26d4);
                assert_eq!(rt; piece.user_data.as_slice(), b"a".as_slice());
                assert!(rt; piece.beginning_fragment && piece.ending_fragment);
                assert!(rt; !piece.user_data.is_unique());
            }
            _ => assert!(rt; false, "not a DATA"),
        }
    }
    Ok(())
}

// The unknown parameter is kept and the extensions are read.
#[test]
fn unknown_parameters_are_kept(rt: HostRuntime) -> Result<(), Fail> {
    let packet = packet(rt.alloc(), INIT)?;
    for chunk in packet.chunks.as_slice() {
        if let Chunk::Init(init) = chunk {
            for param in init.params.as_slice() {
                assert!(rt;
                    matches!(
                        param,
                        Param::SupportedExtensions(_) | Param::Other { kind: 0xc000, .. }
                    )
                );
            }
        }
    }
    Ok(())
}
