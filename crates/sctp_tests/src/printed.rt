// What keeps more than it prints prints the fields that stand in it, as a derived `Debug` does.
use bytes::Bytes;
use sctp_outbound_queue::{Attributes, OutboundQueue, PendingMessage};
use sctp_parts::state::{AckMode, AckState};
use sctp_received::ReceiveQueue;
use sctp_streams::AssociationError;
use sctp_wire_types::{Error, Instant, PayloadProtocolIdentifier, Policy};
use std::alloc::{AllocError, Global};
use std::collections::VecDeque;
use std::test::Fail;

// An ordered message of two pieces on stream 1, with a lifetime of so many ms.
fn timed(alloc: Global, lifetime: u32) -> Result<PendingMessage, AllocError> {
    let mut rest = VecDeque::new(alloc);
    rest.push_back(Bytes::from_static(b"cd"))?;
    Ok(PendingMessage {
        message: Attributes {
            message_id: 0,
            stream_identifier: 1,
            generation: 0,
            unordered: false,
            stream_sequence_number: 0,
            payload_type: PayloadProtocolIdentifier::Binary,
            policy: Policy::Timed(lifetime),
            deadline: None,
        },
        begun: false,
        user_data: Bytes::from_static(b"ab"),
        rest,
    })
}

// Writes what a queue prints in a line.
fn print(alloc: Global, queue: &OutboundQueue, text: &mut String) -> Result<(), AllocError> {
    text.push_str(format!(in alloc; "{queue:?}\n")?.as_str())
}

// The first piece of a message that lives 50 ms is sent at 5 ms, and the time of the message runs from 7 ms on. The
// time of one that is written since does not run, and its deadline is not known; once it runs, it is the next one.
fn print_states(
    alloc: Global,
    queue: &mut OutboundQueue,
    text: &mut String,
) -> Result<(), AllocError> {
    queue.push(timed(alloc, 50)?)?;
    queue.send_next(Instant::from_millis(5))?;
    queue.start_timed_messages(Instant::from_millis(7));
    print(alloc, queue, text)?;
    queue.push(timed(alloc, 30)?)?;
    print(alloc, queue, text)?;
    queue.start_timed_messages(Instant::from_millis(9));
    print(alloc, queue, text)
}

static STATES: &str = "\
OutboundQueue { pending: [\
PendingMessage { message: Attributes { message_id: 0, stream_identifier: 1, generation: 0, unordered: false, \
stream_sequence_number: 0, payload_type: Binary, policy: Timed(50), deadline: Some(Instant { nanos: 57000000 }) }, \
begun: true, user_data: b\"cd\", rest: [] }], in_flight: [\
InFlight { message: Attributes { message_id: 0, stream_identifier: 1, generation: 0, unordered: false, \
stream_sequence_number: 0, payload_type: Binary, policy: Timed(50), deadline: Some(Instant { nanos: 57000000 }) }, \
beginning_fragment: true, ending_fragment: false, user_data: b\"ab\", sent_count: 1, \
since: Instant { nanos: 5000000 }, retransmit: false, acked: false, abandoned: false, misses: 0, resent: false }], \
first_tsn: 4294967295, next_message_id: 1, pending_bytes: 2, outstanding_bytes: 2, marked: 0, settled: 0, \
all_run: true, next_deadline: Some(Instant { nanos: 57000000 }) }
OutboundQueue { pending: [\
PendingMessage { message: Attributes { message_id: 0, stream_identifier: 1, generation: 0, unordered: false, \
stream_sequence_number: 0, payload_type: Binary, policy: Timed(50), deadline: Some(Instant { nanos: 57000000 }) }, \
begun: true, user_data: b\"cd\", rest: [] }, \
PendingMessage { message: Attributes { message_id: 1, stream_identifier: 1, generation: 0, unordered: false, \
stream_sequence_number: 0, payload_type: Binary, policy: Timed(30), deadline: None }, \
begun: false, user_data: b\"ab\", rest: [b\"cd\"] }], in_flight: [\
InFlight { message: Attributes { message_id: 0, stream_identifier: 1, generation: 0, unordered: false, \
stream_sequence_number: 0, payload_type: Binary, policy: Timed(50), deadline: Some(Instant { nanos: 57000000 }) }, \
beginning_fragment: true, ending_fragment: false, user_data: b\"ab\", sent_count: 1, \
since: Instant { nanos: 5000000 }, retransmit: false, acked: false, abandoned: false, misses: 0, resent: false }], \
first_tsn: 4294967295, next_message_id: 2, pending_bytes: 6, outstanding_bytes: 2, marked: 0, settled: 0, \
all_run: false, next_deadline: Some(Instant { nanos: 57000000 }) }
OutboundQueue { pending: [\
PendingMessage { message: Attributes { message_id: 0, stream_identifier: 1, generation: 0, unordered: false, \
stream_sequence_number: 0, payload_type: Binary, policy: Timed(50), deadline: Some(Instant { nanos: 57000000 }) }, \
begun: true, user_data: b\"cd\", rest: [] }, \
PendingMessage { message: Attributes { message_id: 1, stream_identifier: 1, generation: 0, unordered: false, \
stream_sequence_number: 0, payload_type: Binary, policy: Timed(30), deadline: Some(Instant { nanos: 39000000 }) }, \
begun: false, user_data: b\"ab\", rest: [b\"cd\"] }], in_flight: [\
InFlight { message: Attributes { message_id: 0, stream_identifier: 1, generation: 0, unordered: false, \
stream_sequence_number: 0, payload_type: Binary, policy: Timed(50), deadline: Some(Instant { nanos: 57000000 }) }, \
beginning_fragment: true, ending_fragment: false, user_data: b\"ab\", sent_count: 1, \
since: Instant { nanos: 5000000 }, retransmit: false, acked: false, abandoned: false, misses: 0, resent: false }], \
first_tsn: 4294967295, next_message_id: 2, pending_bytes: 6, outstanding_bytes: 2, marked: 0, settled: 0, \
all_run: true, next_deadline: Some(Instant { nanos: 39000000 }) }
";

#[test]
fn queues_print_their_fields(rt: HostRuntime) -> Result<(), Fail> {
    let mut text = String::new(rt.alloc());
    let mut queue = OutboundQueue::new(rt.alloc(), u32::MAX);
    print_states(rt.alloc(), &mut queue, &mut text)?;
    assert_eq!(rt; text.as_str(), STATES);
    Ok(())
}

// A queue of TSNs prints these alone, ascending.
fn hold(queue: &mut ReceiveQueue) -> Result<(), AllocError> {
    for tsn in [102, 104, 103] {
        queue.push(tsn, 100)?;
    }
    Ok(())
}

#[test]
fn small_types_have_their_texts(rt: HostRuntime) -> Result<(), Fail> {
    let mut held = ReceiveQueue::new(rt.alloc());
    hold(&mut held)?;
    let (mode, due) = (AckMode::default(), AckState::default());
    let reason = AssociationError::from(Error::ErrHandshakeInitAck);
    let text = format!(in rt.alloc(); "{held:?}\n{mode} {due}\n{reason}")?;
    assert_eq!(rt;
        text.as_str(),
        "ReceiveQueue { tsns: {102, 103, 104} }\nNormal Idle\nhandshake failed: no INIT ACK came"
    );
    Ok(())
}
