// A client and a server behind their handshake and a message: what a run asks of a side, and a packet of A.
use assoc_session::{Beginning, JoinedBy, Line, begun, parse};
use sctp_assoc::{Error, Profile, Side};
use sctp_pair::{Pair, Reply, Side2, Step};
use std::alloc::{AllocError, Global};
use std::test::Fail;

/// A handshake of A, a client at port 5000 of the second address, and B, a server; a message of A comes behind it.
static GREETING: &str = "\
    send A 0\ndeliver B 0 0\nsend B 0\ndeliver A 0 0\nsend A 0\ndeliver B 1 0\nsend B 0\ndeliver A 1 0\n\
    open A 1 53\nwrite A 1 6869\nsend A 0\ndeliver B 2 0\n";

// The steps of these lines.
fn steps_of(alloc: Global, text: &str) -> Result<Vec<Step>, AllocError> {
    let mut steps = Vec::new(alloc);
    for line in text.lines() {
        if let Some(Line::Step(step)) = parse(alloc, line.as_bytes())? {
            steps.push(step)?;
        }
    }
    Ok(steps)
}

// A pair before its handshake.
fn strangers(alloc: Global) -> Result<Pair, Error> {
    begun(
        alloc,
        Beginning {
            by: JoinedBy::Handshake,
            profile: Profile::Port,
            max_payload_size: 1200,
            tsn_a: 100,
            tsn_b: 500,
        },
    )
}

// What a side answers behind the handshake and the message. No other function owns the pair, as each way out of one
// that does proves how it is dropped.
fn answers(alloc: Global, side: Side2) -> Result<String, Error> {
    let mut pair = strangers(alloc)?;
    answers_of(alloc, &mut pair, side)
}

fn answers_of(alloc: Global, pair: &mut Pair, side: Side2) -> Result<String, Error> {
    let greeting = steps_of(alloc, GREETING)?;
    let _replies = pair.run(greeting.as_slice())?;
    let questions = [
        Step::Stats { side },
        Step::Side { side },
        Step::RemoteAddr { side },
        Step::LocalIp { side },
    ];
    let mut answers = pair.run(questions.as_slice())?;
    let mut text = told(alloc, answers.as_mut_slice())?;
    push_length(alloc, pair, &mut text)?;
    Ok(text)
}

fn told(alloc: Global, answers: &mut [Reply]) -> Result<String, Error> {
    let mut text = String::new(alloc);
    for answer in answers.iter_mut() {
        text.push_str(answer_shown(alloc, answer)?.as_str())?;
        text.push_str("\n")?;
    }
    Ok(text)
}

fn answer_shown(alloc: Global, answer: &mut Reply) -> Result<String, AllocError> {
    match answer {
        Reply::Stats(stats) => {
            let count = stats.get_num_datas();
            format!(in alloc; "{count} DATA")
        }
        Reply::Side(Side::Client) => "client".to_string(alloc),
        Reply::Side(Side::Server) => "server".to_string(alloc),
        Reply::RemoteAddr(address) => format!(in alloc; "{address}"),
        Reply::LocalIp(None) => "no address".to_string(alloc),
        _ => "another answer".to_string(alloc),
    }
}

// How long A's packet with the message is: 12 bytes of common header, 16 of DATA, two and their padding.
fn push_length(alloc: Global, pair: &Pair, text: &mut String) -> Result<(), AllocError> {
    if let Some(packet) = pair.packet(Side2::A, 2) {
        let length = packet.len();
        text.push_str(format!(in alloc; "{length} bytes\n")?.as_str())?;
    }
    Ok(())
}

#[test]
fn sides_answer_what_they_are(rt: HostRuntime) -> Result<(), Fail> {
    for (side, expected) in [
        (
            Side2::A,
            "0 DATA\nclient\n192.0.2.2:5000\nno address\n32 bytes\n",
        ),
        (
            Side2::B,
            "1 DATA\nserver\n192.0.2.1:5000\nno address\n32 bytes\n",
        ),
    ] {
        let answers = answers(rt.alloc(), side)?;
        assert_eq!(rt; answers.as_str(), expected);
    }
    Ok(())
}
