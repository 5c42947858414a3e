//! Pairs over frames: they begin, stay and are over, and former ones are set again.

ghost use Rattle.std.specs.Prelude.{◌≡◌};

use live_table::Handle;
use pair_events::{Event, Events, HPair, PairTable, Told};
use std::alloc::Global;
use std::process::Abort;
use std::test::Fail;

fn told(event: Event, pair: HPair) -> Told {
    Told { event, pair }
}

// A pair of slots 0 and 1, the first under this generation.
fn pair_under(generation: u32) -> HPair
    ensures first { result.a.slot ≡ 0 }
    ensures second { result.b.slot ≡ 1 }
{
    HPair {
        a: Handle {
            slot: 0,
            generation,
        },
        b: Handle {
            slot: 1,
            generation: 0,
        },
    }
}

#[test]
fn pairs_begin_stay_and_are_over(rt: HostRuntime) -> Result<(), Fail> {
    let alloc = rt.alloc();
    let first = pair_under(0);
    let renewed = pair_under(1);
    let mut table = PairTable::new(alloc);
    let mut out = Vec::new(alloc);
    table.turn(Vec::from_slice(alloc, &[first])?, &mut out)?;
    assert_eq!(rt; out.as_slice(), [told(Event::Begin, first)].as_slice());
    out.clear();
    table.turn(Vec::from_slice(alloc, &[first])?, &mut out)?;
    assert_eq!(rt; out.as_slice(), [told(Event::Stay, first)].as_slice());
    out.clear();
    table.turn(Vec::from_slice(alloc, &[renewed])?, &mut out)?;
    let both = [told(Event::Begin, renewed), told(Event::Over, first)];
    assert_eq!(rt; out.as_slice(), both.as_slice());
    out.clear();
    table.turn(Vec::new(alloc), &mut out)?;
    assert_eq!(rt; out.as_slice(), [told(Event::Over, renewed)].as_slice());
    Ok(())
}

#[test]
fn former_pairs_are_answered_and_set_again(rt: HostRuntime) -> Result<(), Fail> {
    let alloc = rt.alloc();
    let pair = pair_under(0);
    let mut table = PairTable::new(alloc);
    let mut out = Vec::new(alloc);
    let none = table.turn_keep(Vec::from_slice(alloc, &[pair])?, &mut out)?;
    assert!(rt; none.is_empty());
    let former = table.turn_keep(Vec::new(alloc), &mut out)?;
    assert_eq!(rt; former.as_slice(), [pair].as_slice());
    table.set_last(former);
    out.clear();
    table.turn(Vec::from_slice(alloc, &[pair])?, &mut out)?;
    assert_eq!(rt; out.as_slice(), [told(Event::Stay, pair)].as_slice());
    Ok(())
}

// What a frame changed.
#[derive(Drop)]
struct Changes {
    began: Vec<HPair>,
    over: Vec<HPair>,
}

// Turns the table to the pair under a generation, or to none.
fn turn_to(
    alloc: Global,
    table: &mut PairTable,
    generation: Option<u32>,
    changes: &mut Changes,
) -> Result<(), Fail> {
    let mut now = Vec::new(alloc);
    if let Some(generation) = generation {
        now.push(pair_under(generation))?;
    }
    table.turn_changes(now, &mut changes.began, &mut changes.over)?;
    Ok(())
}

// Whether this is the pair under a generation alone, or none.
fn is_under(pairs: &[HPair], generation: Option<u32>) -> bool {
    match (pairs, generation) {
        ([], None) => true,
        ([pair], Some(generation)) => *pair == pair_under(generation),
        _ => false,
    }
}

// The generations of a frame's pair, of the one that begins, and of the one that is over.
fn turn_over_frames(
    rt: &impl Abort,
    alloc: Global,
    table: &mut PairTable,
    changes: &mut Changes,
) -> Result<(), Fail> {
    for (now, began, over) in [
        (Some(0), Some(0), None),
        (Some(0), None, None),
        (Some(1), Some(1), Some(0)),
        (None, None, Some(1)),
        (None, None, None),
    ] {
        turn_to(alloc, table, now, changes)?;
        assert!(rt; is_under(table.last(), now), "{now:?} is kept");
        assert!(rt;
            is_under(&changes.began, began),
            "{began:?} begins before {now:?}"
        );
        assert!(rt;
            is_under(&changes.over, over),
            "{over:?} is over before {now:?}"
        );
    }
    Ok(())
}

#[test]
fn a_pair_that_stays_is_no_change(rt: HostRuntime) -> Result<(), Fail> {
    let alloc = rt.alloc();
    let mut table = PairTable::new(alloc);
    let mut changes = Changes {
        began: Vec::new(alloc),
        over: Vec::new(alloc),
    };
    turn_over_frames(&rt, alloc, &mut table, &mut changes)
}

// A pair of the first boxes that two slots had.
fn pair_of(a: u32, b: u32) -> HPair {
    HPair {
        a: Handle {
            slot: a,
            generation: 0,
        },
        b: Handle {
            slot: b,
            generation: 0,
        },
    }
}

// The next event, and how many are left behind it.
fn same_next(rt: &impl Abort, events: &mut Events<'_>, next: Option<Told>, left: usize) {
    assert_eq!(rt; events.next(), next);
    assert_eq!(rt; events.len(), left);
}

#[test]
fn events_are_counted_and_told_in_order(rt: HostRuntime) {
    let stays = pair_of(0, 1);
    let begins = pair_of(0, 2);
    let is_over = pair_of(1, 2);
    let pairs = [stays, begins];
    let began = [begins];
    let over = [is_over];
    let mut events = Events::of(&pairs, &began, &over);
    assert_eq!(rt; events.len(), 3);
    same_next(&rt, &mut events, Some(told(Event::Stay, stays)), 2);
    same_next(&rt, &mut events, Some(told(Event::Begin, begins)), 1);
    same_next(&rt, &mut events, Some(told(Event::Over, is_over)), 0);
    same_next(&rt, &mut events, None, 0);
}

// The next event behind so many that are passed, of a pair that begins and of one that is over.
fn next_behind(passed: usize, begins: HPair, is_over: HPair) -> Option<Told> {
    let began = [begins];
    let over = [is_over];
    let mut events = Events::of_changes(&began, &over);
    events.skip(passed);
    events.next()
}

#[test]
fn events_are_passed_as_far_as_there_are_some(rt: HostRuntime) {
    let begins = pair_of(0, 1);
    let is_over = pair_of(0, 2);
    for (passed, next) in [
        (0, Some(told(Event::Begin, begins))),
        (1, Some(told(Event::Over, is_over))),
        (2, None),
        (3, None),
        (usize::MAX, None),
    ] {
        assert_eq!(rt;
            next_behind(passed, begins, is_over),
            next,
            "behind {passed}"
        );
    }
}
