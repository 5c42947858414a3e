//! Loops that append what passes a test, or what is made of each item; what was there stays where memory runs out.

ghost use Rattle.std.specs.Prelude.{◌≡◌, ◌++◌, Bool, Option, OnOk, OnErr, filter, map, take, vec_len};
ghost use Rattle.std.specs.List.{filter_map};

use fixed_box::NoMemory;

/// Appends the items that pass a test, in their order. After an `Err` `out` is as before.
///
/// The test is asked once of each item.
#[inline(always)]
pub fn push_filtered<T: Copy, F: Fn(&T) -> bool>(
    items: &[T],
    out: &mut Vec<T>,
    passes: F,
) -> Result<(), NoMemory>
    requires { F.IsAlwaysCallable passes }
    ensures ok { OnOk result ((test : T → Bool) → ((item : _) (r : Bool) → F.post passes item r → r ≡ test item.now)
        → out.new.items ≡ out.old.items ++ filter test items.now) }
    ensures err { OnErr result (out.new.items ≡ out.old.items) }
{
    let before = out.len();
    let pushed = push_passing(items, out, passes);
    if pushed.is_err() {
        out.truncate(before);
    }
    pushed
}

// Does what `push_filtered` does. What was there stays, after an `Err` too.
#[inline(always)]
fn push_passing<T: Copy, F: Fn(&T) -> bool>(
    items: &[T],
    out: &mut Vec<T>,
    passes: F,
) -> Result<(), NoMemory>
    requires { F.IsAlwaysCallable passes }
    ensures ok { OnOk result ((test : T → Bool) → ((item : _) (r : Bool) → F.post passes item r → r ≡ test item.now)
        → out.new.items ≡ out.old.items ++ filter test items.now) }
    ensures kept { take (vec_len out.old) out.new.items ≡ out.old.items }
{
    let mut rest = items;
    'items: while let Some((item, more)) = rest.split_first() {
        if passes(item) {
            out.push(*item)?;
        }
        rest = more;
    }
    Ok(())
}

/// Appends what is made of each item, in the order of the items. After an `Err` `out` is as before.
#[inline(always)]
pub fn push_mapped<T, U: Drop, F: Fn(&T) -> U>(
    items: &[T],
    out: &mut Vec<U>,
    make: F,
) -> Result<(), NoMemory>
    requires { F.IsAlwaysCallable make }
    ensures ok { OnOk result ((made : T → U) → ((item : _) (r : U) → F.post make item r → r ≡ made item.now)
        → out.new.items ≡ out.old.items ++ map made items.now) }
    ensures err { OnErr result (out.new.items ≡ out.old.items) }
{
    let before = out.len();
    let pushed = push_each(items, out, make);
    if pushed.is_err() {
        out.truncate(before);
    }
    pushed
}

// Does what `push_mapped` does. What was there stays, after an `Err` too.
#[inline(always)]
fn push_each<T, U: Drop, F: Fn(&T) -> U>(
    items: &[T],
    out: &mut Vec<U>,
    make: F,
) -> Result<(), NoMemory>
    requires { F.IsAlwaysCallable make }
    ensures ok { OnOk result ((made : T → U) → ((item : _) (r : U) → F.post make item r → r ≡ made item.now)
        → out.new.items ≡ out.old.items ++ map made items.now) }
    ensures kept { take (vec_len out.old) out.new.items ≡ out.old.items }
{
    let mut rest = items;
    'items: while let Some((item, more)) = rest.split_first() {
        out.push(make(item))?;
        rest = more;
    }
    Ok(())
}

/// Appends what is made of each item, where something is, in the order of the items. After an `Err` `out` is as before.
#[inline(always)]
pub fn push_filter_mapped<T, U: Drop, F: Fn(&T) -> Option<U>>(
    items: &[T],
    out: &mut Vec<U>,
    make: F,
) -> Result<(), NoMemory>
    requires { F.IsAlwaysCallable make }
    ensures ok { OnOk result ((made : T → Option U) → ((item : _) (r : Option U) → F.post make item r → r ≡ made item.now)
        → out.new.items ≡ out.old.items ++ filter_map made items.now) }
    ensures err { OnErr result (out.new.items ≡ out.old.items) }
{
    let before = out.len();
    let pushed = push_what_is_made(items, out, make);
    if pushed.is_err() {
        out.truncate(before);
    }
    pushed
}

// Does what `push_filter_mapped` does. What was there stays, after an `Err` too.
#[inline(always)]
fn push_what_is_made<T, U: Drop, F: Fn(&T) -> Option<U>>(
    items: &[T],
    out: &mut Vec<U>,
    make: F,
) -> Result<(), NoMemory>
    requires { F.IsAlwaysCallable make }
    ensures ok { OnOk result ((made : T → Option U) → ((item : _) (r : Option U) → F.post make item r → r ≡ made item.now)
        → out.new.items ≡ out.old.items ++ filter_map made items.now) }
    ensures kept { take (vec_len out.old) out.new.items ≡ out.old.items }
{
    let mut rest = items;
    'items: while let Some((item, more)) = rest.split_first() {
        if let Some(made) = make(item) {
            out.push(made)?;
        }
        rest = more;
    }
    Ok(())
}
