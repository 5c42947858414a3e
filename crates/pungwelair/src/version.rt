//! The export that tells the version of the library.

ghost use Rattle.std.specs.Prelude.{◌≡◌};

// The parts of the version, which stand in `pungwelair.h` too.
const MAJOR: u32 = 0;

const MINOR: u32 = 6;

const PATCH: u32 = 3;

/// The version as one number: a million times its major number, a thousand times its minor one, and its patch number.
#[unsafe(no_mangle)]
pub extern "C" fn pw_version() -> u32
    ensures { result ≡ 6003 }
{
    MAJOR * 1_000_000 + MINOR * 1_000 + PATCH
}
