// The path to the peer.
ghost use Rattle.std.specs.Prelude.{◌≡◌, None};
ghost use Rattle.sctp_driver.specs.Paths.{path_of};
ghost use Rattle.sctp_c.specs.Slots.{OnAny};
ghost use Rattle.sctp_c.specs.Totals.{path_values};

use sctp_driver::Path;
use sctp_slots::{DONE, EMPTY_SLOT, Slot};
use std::alloc::Global;

/// How much the path to the peer takes, and how much is under way on it.
#[repr(C)]
#[derive(Drop)]
pub struct PathValues {
    pub mtu: u32,
    pub congestion_window: u32,
    pub slow_start_threshold: u32,
    pub peer_window: u32,
    pub bytes_in_flight: u64,
    pub smoothed_round_trip_ms: u64,
}

const _: () = prove!(size_of::<PathValues>() == 32);

fn path_values(path: Path) -> PathValues
    ensures { result ≡ path_values path }
{
    PathValues {
        mtu: path.mtu,
        congestion_window: path.congestion_window,
        slow_start_threshold: path.slow_start_threshold,
        peer_window: path.peer_window,
        bytes_in_flight: path.bytes_in_flight,
        smoothed_round_trip_ms: path.smoothed_round_trip_ms,
    }
}

/// What is known of the path to the peer.
#[unsafe(no_mangle)]
pub extern "C" fn sctp_assoc_path(slot: &mut Slot, alloc: Global, path: &mut PathValues) -> u32
    ensures answer { OnAny slot.old.handle.driver slot.new.handle.driver
        (λ d e. (e ≡ d) × (result ≡ 0) × (path.new ≡ path_values (path_of d.association))) }
    ensures empty { slot.old.handle.driver ≡ None → (result ≡ 1) × (path.new ≡ path.old) }
{
    let Some(driver) = slot.take(alloc) else {
        return EMPTY_SLOT;
    };
    *path = path_values(driver.path());
    slot.put(driver);
    DONE
}
