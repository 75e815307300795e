//! Which version this is.

ghost use Rattle.std.specs.Prelude.{◌≡◌};

/// The major number times 1,000, and the minor one.
pub const VERSION: u32 = 1000;

/// The version of this library, as `include/lapd.h` has it.
#[unsafe(no_mangle)]
pub extern "C" fn lapd_version() -> u32
    ensures { result ≡ 1000 }
{
    VERSION
}
