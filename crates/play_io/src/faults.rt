//! Which calls of a source or sink in memory are to fail.

ghost use Rattle.std.specs.Prelude.{◌≡◌};
ghost use Rattle.play_io.specs.Memory.{fails_at};

// Whether a call is one of those that fail.
pub(crate) fn is_failing(failing: &[u32], call: u64) -> bool
    ensures { result ≡ fails_at failing.now call }
{
    failing.iter().any(|number| u64::from(*number) == call)
}
