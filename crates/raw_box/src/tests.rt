//! One test: a boxed value goes out as a pointer, comes back, and is dropped once.

use super::RawBox;
use std::alloc::Global;
use std::process::Abort;
use std::sync::atomic::{AtomicU64, Ordering};
use std::test::Fail;

// Numbers of its own, and a count of how often such a value was dropped.
struct Counted<'a> {
    numbers: Vec<u32>,
    drops: &'a AtomicU64,
}

impl Drop for Counted<'_> {
    fn drop(self) {
        let Self { numbers: _, drops } = self;
        drops.fetch_add(1, Ordering::SeqCst);
    }
}

fn boxed_numbers(alloc: Global, drops: &AtomicU64) -> Result<Box<Counted>, Fail> {
    let numbers = Vec::from_slice(alloc, &[3, 1, 4])?;
    Ok(Box::new(alloc, Counted { numbers, drops })?)
}

fn same_value(rt: &impl Abort, value: &Counted, numbers: &[u32], dropped: u64) {
    assert_eq!(rt; value.numbers.as_slice(), numbers);
    assert_eq!(rt; value.drops.load(Ordering::SeqCst), dropped);
}

#[test]
fn a_value_goes_out_and_comes_back_and_is_dropped_once(rt: HostRuntime) -> Result<(), Fail> {
    let drops = AtomicU64::new(0);
    let back = RawBox::of(boxed_numbers(rt.alloc(), &drops)?).into_box();
    same_value(&rt, &back, &[3, 1, 4], 0);
    drop(back);
    assert_eq!(rt; drops.load(Ordering::SeqCst), 1);
    Ok(())
}
