// Which release this is. The header and the manifest of the Rust crate say the same, which a test of each compares.
ghost use Rattle.std.specs.Prelude.{◌≡◌};
ghost use Rattle.sctp_c.specs.Releases.{release};

const MAJOR: u32 = 0;

const MINOR: u32 = 2;

const PATCH: u32 = 0;

/// The number of this release.
#[unsafe(no_mangle)]
pub extern "C" fn sctp_assoc_version() -> u32
    ensures { result ≡ release 0 2 0 }
{
    10_000 * MAJOR + 100 * MINOR + PATCH
}
