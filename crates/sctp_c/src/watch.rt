// What C keeps of a driver's calls: what passed, and why the association ended.
ghost use Rattle.std.specs.Prelude.{◌≡◌, IfSome, Some};
ghost use Rattle.sctp_driver.specs.Tags.{packet_in};
ghost use Rattle.sctp_watch.specs.Ends.{ended_by};
ghost use Rattle.sctp_c.specs.Watches.{cause_in, end_number, with_end};

use sctp_watch::{Cause, End, end_by};

/// What passed between a driver and its peer, and why its association ended. `include/sctp_assoc.h` has the numbers of
/// ends. All bytes 0 is a watch that saw nothing.
#[repr(C)]
#[derive(Drop)]
pub struct Watch {
    pub datagrams_sent: u64,
    pub bytes_sent: u64,
    pub datagrams_received: u64,
    pub bytes_received: u64,
    pub end: u32,
    pub cause: u16,
    pub reason_length: u16,
    pub reason: [u8; 128],
}

const _: () = prove!(size_of::<Watch>() == 168);

const CLOSED: u32 = 1;

const ABORTED: u32 = 2;

const SHUT_DOWN: u32 = 3;

const ABORT_CAME: u32 = 4;

const FAULT: u32 = 5;

const BUFFER_EXHAUSTED: u32 = 6;

const SILENT: u32 = 7;

fn end_number(end: &End) -> u32
    ensures { result ≡ end_number end.now }
{
    match end {
        End::Closed => CLOSED,
        End::Aborted => ABORTED,
        End::ShutDown => SHUT_DOWN,
        End::AbortCame(_) => ABORT_CAME,
        End::Fault => FAULT,
        End::BufferExhausted => BUFFER_EXHAUSTED,
        End::Silent => SILENT,
    }
}

fn cause_in(end: End) -> Cause
    ensures { result ≡ cause_in end }
{
    match end {
        End::AbortCame(cause) => cause,
        _ => Cause::none(),
    }
}

impl Watch {
    fn end_as(&mut self, end: End)
        ensures { self.new ≡ with_end end self.old }
    {
        self.end = end_number(&end);
        let cause = cause_in(end);
        self.cause = cause.code;
        self.reason_length = cause.reason_length();
        self.reason = cause.padded_reason();
    }
}

/// Notes why the association ended, by the datagram that ended it. `archive/watch.c` calls this.
#[unsafe(no_mangle)]
pub extern "C" fn sctp_assoc_watch_ended_by(watch: &mut Watch, datagram: &[u8])
    ensures { IfSome (packet_in datagram.now) (λ packet. watch.new ≡ with_end (ended_by (Some packet)) watch.old) }
{
    watch.end_as(end_by(datagram));
}
