//! From how many sought slots on several threads are likely to be sooner than one.

ghost use Rattle.std.specs.Prelude.{◌≡◌, ◌↔◌, ◌≤◌, true, count_by};

/// From how many sought slots on several threads are likely to find their pairs sooner than one. Starting four takes some
/// 80 microseconds, one runs some 40 after it was asked for, and over a few thousand boxes four were slower than one.
pub const FEWEST_SOUGHT: usize = 4_096;

/// Whether so many slots are marked that several threads are likely to find their pairs sooner than one.
pub fn pays_threads(marks: &[bool]) -> bool
    ensures { (result ≡ true) ↔ (FEWEST_SOUGHT ≤ count_by (λ mark. mark) marks.now) }
{
    count_marks(marks) >= FEWEST_SOUGHT
}

// How many slots are marked.
fn count_marks(marks: &[bool]) -> usize
    ensures { result ≡ count_by (λ mark. mark) marks.now }
{
    marks.iter().filter(|mark| **mark).count()
}
