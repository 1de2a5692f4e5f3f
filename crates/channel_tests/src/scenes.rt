// A channel on stream 1 between the sides of a pair that tokens joined: who opens, acknowledges, sends and receives,
// and what is refused. Of a side that has no channel the pair writes the messages, spelled by hand (RFC 8832 section
// 5), and does so before there is a channel, since later on it does no step that names the stream.
use crate::lines::{lines_of, pair_step, steps_of};
use assoc_session::snapped_under;
use channel_pair::{ChannelPair, ChannelStep};
use sctp_assoc::{Error, TransportConfig};
use sctp_pair::Pair;
use std::alloc::{AllocError, Global};
use std::test::Fail;

/// Steps of the pair before there is a channel, and then all steps with their replies.
#[derive(Clone, Copy)]
struct Scene {
    before: &'static str,
    steps: &'static str,
    replies: &'static str,
}

const SCENES: [Scene; 22] = [
    // Both sides send and receive.
    Scene {
        before: "",
        steps: "A opens chat\nA sends one\nA receives\nsend A 0\ndeliver B 0 0\nB accepts\nB sends x\nB acknowledges\n\
            B acknowledges\nB receives\nB receives\nB sends two\nsend B 0\ndeliver A 0 0\nA acknowledges\nA receives\n\
            A receives\n",
        replies: "opened\nsent 3\nnone\npackets 0 1\nok\naccepted\nrefused 33\nacknowledged\nacknowledged\n\
            message 53 6f6e65\nnone\nsent 3\npackets 0 1\nok\nacknowledged\nmessage 53 74776f\nnone\n",
    },
    // The OPEN and two messages come in the reverse order.
    Scene {
        before: "",
        steps: "A opens chat\nsend A 0\nA sends one\nsend A 0\nA sends two\nsend A 0\ndeliver B 2 0\ndeliver B 1 0\n\
            deliver B 0 0\nB receives\nB accepts\nB sends no\nB acknowledges\nB receives\nB receives\nB receives\n\
            B sends three\nsend B 0\ndeliver A 0 0\nA receives\nA receives\n",
        replies: "opened\npackets 0 1\nsent 3\npackets 1 1\nsent 3\npackets 2 1\nok\nok\nok\nnot here\naccepted\n\
            refused 33\nacknowledged\nmessage 53 6f6e65\nmessage 53 74776f\nnone\nsent 5\npackets 0 2\nok\n\
            message 53 7468726565\nnone\n",
    },
    // A string fails an opener.
    Scene {
        before: "open B 1 51\nwrite B 1 74\nsend B 0\n",
        steps: "A opens chat\ndeliver A 0 0\nA receives\nA sends x\nA receives\nA acknowledges\n",
        replies: "opened\nok\nrefused 34\nrefused 35\nrefused 35\nrefused 35\n",
    },
    // A string, an empty one, an empty binary message and a DCEP message fail an accepter.
    Scene {
        before: "open A 1 53\nwriteas A 1 50 03000000000000000004000063686174\nwriteas A 1 51 61\nsend A 0\n\
            deliver B 0 0\n",
        steps: "B accepts\nB acknowledges\nB receives\nB receives\n",
        replies: "accepted\nacknowledged\nrefused 34\nrefused 35\n",
    },
    Scene {
        before: "open A 1 53\nwriteas A 1 50 03000000000000000004000063686174\nwriteas A 1 56 61\nsend A 0\n\
            deliver B 0 0\n",
        steps: "B accepts\nB acknowledges\nB receives\nB receives\n",
        replies: "accepted\nacknowledged\nrefused 34\nrefused 35\n",
    },
    Scene {
        before: "open A 1 53\nwriteas A 1 50 03000000000000000004000063686174\nwriteas A 1 57 61\nsend A 0\n\
            deliver B 0 0\n",
        steps: "B accepts\nB acknowledges\nB receives\nB receives\n",
        replies: "accepted\nacknowledged\nrefused 34\nrefused 35\n",
    },
    Scene {
        before: "open A 1 53\nwriteas A 1 50 03000000000000000004000063686174\nwriteas A 1 50 61\nsend A 0\n\
            deliver B 0 0\n",
        steps: "B accepts\nB acknowledges\nB receives\nB receives\n",
        replies: "accepted\nacknowledged\nrefused 34\nrefused 35\n",
    },
    // A second ACK fails an opener, behind a message and at once.
    Scene {
        before: "open B 1 53\nwriteas B 1 50 02\nwrite B 1 61\nwriteas B 1 50 02\nsend B 0\n",
        steps: "A opens chat\ndeliver A 0 0\nA receives\nA receives\nA receives\n",
        replies: "opened\nok\nmessage 53 61\nrefused 34\nrefused 35\n",
    },
    Scene {
        before: "open B 1 53\nwriteas B 1 50 02\nwriteas B 1 50 02\nsend B 0\n",
        steps: "A opens chat\ndeliver A 0 0\nA receives\n",
        replies: "opened\nok\nrefused 34\n",
    },
    // The ACK may come behind a message.
    Scene {
        before: "open B 1 53\nwrite B 1 61\nwriteas B 1 50 02\nwrite B 1 62\nsend B 0\n",
        steps: "A opens chat\ndeliver A 0 0\nA receives\nA receives\nA receives\n",
        replies: "opened\nok\nmessage 53 61\nmessage 53 62\nnone\n",
    },
    // An ACK fails an accepter.
    Scene {
        before: "open A 1 53\nwriteas A 1 50 03000000000000000004000063686174\nwriteas A 1 50 02\nsend A 0\n\
            deliver B 0 0\n",
        steps: "B accepts\nB receives\nB acknowledges\n",
        replies: "accepted\nrefused 34\nrefused 35\n",
    },
    // An OPEN fails an opener, also that of a channel.
    Scene {
        before: "open B 1 53\nwriteas B 1 50 03000000000000000001000061\nsend B 0\n",
        steps: "A opens chat\ndeliver A 0 0\nA receives\nA receives\n",
        replies: "opened\nok\nrefused 34\nrefused 35\n",
    },
    Scene {
        before: "",
        steps: "A opens chat\nB opens chat\nsend B 0\ndeliver A 0 0\nA receives\nA receives\nA sends one\n\
            A acknowledges\n",
        replies: "opened\nopened\npackets 0 1\nok\nrefused 34\nrefused 35\nrefused 35\nrefused 35\n",
    },
    // A second OPEN fails an accepter.
    Scene {
        before: "open A 1 53\nwriteas A 1 50 03000000000000000004000063686174\n\
            writeas A 1 50 03000000000000000001000061\nsend A 0\ndeliver B 0 0\n",
        steps: "B accepts\nB acknowledges\nB receives\nB sends a\n",
        replies: "accepted\nacknowledged\nrefused 34\nrefused 35\n",
    },
    // Each side has the stream, so none can open a channel there.
    Scene {
        before: "open A 1 53\nwriteas A 1 50 03000000000000000004000063686174\nsend A 0\ndeliver B 0 0\n",
        steps: "A opens chat\nB opens chat\nB accepts\n",
        replies: "refused 6\nrefused 6\naccepted\n",
    },
    // OPENs and an ACK that aiortc 1.4.0 wrote, as another stack with data channels. What they say is what tshark
    // 4.0.17 reads in them: reliable with the label `chat`; with the label `bob` and the protocol `bar`; partially
    // reliable and unordered, with the label `late`; the first of these without its last byte, and the ACK in its place.
    Scene {
        before: "open A 1 53\nwriteas A 1 50 03000000000000000004000063686174\nsend A 0\n",
        steps: "deliver B 0 0\nB accepts\nB acknowledges\n",
        replies: "ok\naccepted\nacknowledged\n",
    },
    Scene {
        before: "open A 1 53\nwriteas A 1 50 030000000000000000030003626f62626172\nsend A 0\n",
        steps: "deliver B 0 0\nB accepts\nB acknowledges\n",
        replies: "ok\naccepted\nacknowledged\n",
    },
    Scene {
        before: "open A 1 53\nwriteas A 1 50 0381000000000003000400006c617465\nsend A 0\n",
        steps: "deliver B 0 0\nB accepts\nB acknowledges\n",
        replies: "ok\nrefused 32\nnot here\n",
    },
    Scene {
        before: "open B 1 53\nwriteas B 1 50 02\nwrite B 1 61\nsend B 0\n",
        steps: "A opens bob\ndeliver A 0 0\nA receives\nA receives\n",
        replies: "opened\nok\nmessage 53 61\nnone\n",
    },
    Scene {
        before: "open A 1 53\nwriteas A 1 50 030000000000000000040000636861\n\
            write A 1 03000000000000000004000063686174\nsend A 0\ndeliver B 0 0\n",
        steps: "B accepts\nB opens chat\nB accepts\nB accepts\n",
        replies: "refused 31\nrefused 6\nrefused 31\nnone\n",
    },
    Scene {
        before: "open A 1 53\nwriteas A 1 50 02\nwrite A 1 03000000000000000004000063686174\nsend A 0\ndeliver B 0 0\n",
        steps: "B accepts\nB opens chat\nB accepts\nB accepts\n",
        replies: "refused 31\nrefused 6\nrefused 31\nnone\n",
    },
    // Steps that name the stream, or accept one, are not carried out, nor calls at a side that has no channel, or has
    // one. The sixth line is of another stream; the message on that comes through.
    Scene {
        before: "",
        steps: "A sends one\nopen A 1 53\nwrite A 1 6f6e65\nread A 1\nstop A 1\naccept A\nopen A 2 53\n\
            write A 2 6f6e65\nsend A 0\ndeliver B 0 0\nread B 2\nA opens chat\nA opens chat\nA accepts\nB accepts\n",
        replies: "not here\nnot here\nnot here\nnot here\nnot here\nnot here\nok\nwrote 3\npackets 0 1\nok\n\
            message 53 6f6e65\nopened\nnot here\nnot here\nrefused 9\n",
    },
];

// What the steps of a scene are answered.
fn played(alloc: Global, scene: &Scene, steps: &[ChannelStep]) -> Result<String, Error> {
    match snapped_under(alloc, &TransportConfig::default(), 1200, 100, 500) {
        Ok(pair) => Ok(played_by(alloc, pair, scene.before, steps)?),
        Err(error) => Err(error),
    }
}

fn played_by(
    alloc: Global,
    mut pair: Pair,
    before: &str,
    steps: &[ChannelStep],
) -> Result<String, Error> {
    prepare(alloc, &mut pair, before)?;
    let mut pair = ChannelPair::new(alloc, pair, 1);
    run(alloc, &mut pair, steps)
}

// Carries out these lines, before there is a channel.
fn prepare(alloc: Global, pair: &mut Pair, before: &str) -> Result<(), AllocError> {
    for line in before.lines() {
        if let Some(step) = pair_step(alloc, line)? {
            let _reply = pair.step(&step);
        }
    }
    Ok(())
}

fn run(alloc: Global, pair: &mut ChannelPair, steps: &[ChannelStep]) -> Result<String, Error> {
    let mut replies = pair.run(steps)?;
    Ok(lines_of(alloc, replies.as_mut_slice())?)
}

#[test]
fn channels_answer_their_calls(rt: HostRuntime) -> Result<(), Fail> {
    for (number, scene) in SCENES.iter().enumerate() {
        let steps = steps_of(rt.alloc(), scene.steps)?;
        let replies = played(rt.alloc(), scene, steps.as_slice())?;
        assert_eq!(rt; replies.as_str(), scene.replies, "scene {number}");
    }
    Ok(())
}
