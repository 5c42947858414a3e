//! A filter in place: what fails a test is dropped from a list.

ghost use Rattle.std.specs.Prelude.{◌≡◌, ◌≤◌, ◌++◌, Bool, drop, filter, length, take, vec_len};

/// Drops the items from one place of a list on that fail a test; the others stay in their order. It takes no memory.
///
/// The test is asked once of each item.
#[inline(always)]
pub fn keep_passing<T: Copy, F: Fn(&T) -> bool>(from: usize, items: &mut Vec<T>, passes: F)
    requires within { from ≤ vec_len items.old }
    requires callable { F.IsAlwaysCallable passes }
    ensures { (test : T → Bool) → ((item : _) (r : Bool) → F.post passes item r → r ≡ test item.now)
        → items.new.items ≡ take from items.old.items ++ filter test (drop from items.old.items) }
{
    let kept = move_passing(&mut items[from..], passes);
    items.truncate(from + kept);
}

// Moves the items that pass a test to the front of a list, in their order, and answers how many they are.
#[inline(always)]
fn move_passing<T: Copy, F: Fn(&T) -> bool>(items: &mut [T], passes: F) -> usize
    requires { F.IsAlwaysCallable passes }
    ensures bound { result ≤ length items.new }
    ensures long { length items.new ≡ length items.old }
    ensures passed { (test : T → Bool) → ((item : _) (r : Bool) → F.post passes item r → r ≡ test item.now)
        → take result items.new ≡ filter test items.old }
{
    let mut kept = 0;
    for at in 0..items.len() {
        let item = items[at];
        // it is written whether it is kept or not, so that there is no branch to guess wrong
        items[kept] = item;
        kept += usize::from(passes(&item));
    }
    kept
}
