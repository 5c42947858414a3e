//! Frames before which nothing changed: nothing is searched, and each pair stays. A change is seen at once, and what a frame told
//! stays on a way back behind it.

use crate::worlds::{NOBODYS, SEEN, unit};
use box_world::BoxWorld;
use hier_grid::HierGrid;
use live_table::{Handle, Masks};
use pair_events::{Event, Events, HPair, Told};
use std::alloc::Global;
use std::process::Abort;
use std::test::Fail;
use std::thread::Threads;
use test_gates::Entries;

// What is told of the pair of the slots 0 and 1, and behind it of that of the slots 1 and 2.
#[derive(Clone, Copy)]
struct Frame {
    first: Option<Event>,
    second: Option<Event>,
}

const BEGIN: Frame = Frame {
    first: Some(Event::Begin),
    second: None,
};

const STAY: Frame = Frame {
    first: Some(Event::Stay),
    second: None,
};

const OVER: Frame = Frame {
    first: Some(Event::Over),
    second: None,
};

const NOTHING: Frame = Frame {
    first: None,
    second: None,
};

const STAY_AND_BEGIN: Frame = Frame {
    first: Some(Event::Stay),
    second: Some(Event::Begin),
};

const BOTH_BEGIN: Frame = Frame {
    first: Some(Event::Begin),
    second: Some(Event::Begin),
};

const BOTH_STAY: Frame = Frame {
    first: Some(Event::Stay),
    second: Some(Event::Stay),
};

const BOTH_OVER: Frame = Frame {
    first: Some(Event::Over),
    second: Some(Event::Over),
};

// What happens to two boxes that touch, under the slots 0 and 1.
#[derive(Clone, Copy)]
enum Step {
    // A third box comes, which touches the second alone.
    Come,
    // The second box moves away.
    Part,
    // The second box sees nobody.
    Hide,
    // The second box goes.
    Go,
    Mark,
    Back,
    // The frame ends, whose pairs are searched, and this is told.
    Searched(Frame),
    // The frame ends, whose pairs aren't searched, and this is told.
    Rested(Frame),
    // Behind a way back: this is told as before, and the pairs are the first one, or none.
    Kept { told: Frame, pair: bool },
}

// The pairs of the first boxes of their slots.
const FIRST: HPair = HPair {
    a: Handle {
        slot: 0,
        generation: 0,
    },
    b: Handle {
        slot: 1,
        generation: 0,
    },
};

const SECOND: HPair = HPair {
    a: Handle {
        slot: 1,
        generation: 0,
    },
    b: Handle {
        slot: 2,
        generation: 0,
    },
};

// Whether the event is the next one of the pair, where one is wanted.
fn is_next(rest: &mut Events<'_>, pair: HPair, wanted: Option<Event>) -> bool {
    match wanted {
        Some(event) => rest.next() == Some(Told { event, pair }),
        None => true,
    }
}

// Whether these events are told, and no more.
fn are_told(events: Events<'_>, wanted: Frame) -> bool {
    let mut rest = events;
    is_next(&mut rest, FIRST, wanted.first)
        && is_next(&mut rest, SECOND, wanted.second)
        && rest.next().is_none()
}

// Whether the pairs are the first one, where it is wanted, and then the second one, where it is.
fn are_pairs(pairs: &[HPair], first: bool, second: bool) -> bool {
    match pairs {
        [] => !first && !second,
        [pair] => (*pair == FIRST && first && !second) || (*pair == SECOND && second && !first),
        [one, other] => *one == FIRST && *other == SECOND && first && second,
        _ => false,
    }
}

// Whether these are the pairs of which such an event is told.
fn are_pairs_of(pairs: &[HPair], event: Event, told: Frame) -> bool {
    are_pairs(pairs, told.first == Some(event), told.second == Some(event))
}

// Whether the frame is told, in full and by what changed.
fn tells(world: &BoxWorld<HierGrid>, told: Frame) -> bool {
    are_told(world.events(), told)
        && are_pairs_of(world.began(), Event::Begin, told)
        && are_pairs_of(world.over(), Event::Over, told)
}

fn is_pair(event: Option<Event>) -> bool {
    matches!(event, Some(Event::Begin | Event::Stay))
}

// Ends a frame with two workers, and answers whether a thread searched as it should, this is told, and the pairs are those that
// began or stayed.
fn ends_frame<R: Threads + Sync>(
    rt: &R,
    world: &mut BoxWorld<HierGrid>,
    searched: bool,
    told: Frame,
) -> Result<bool, Fail> {
    let gate = Entries::new();
    world.end_frame(rt, 2, &gate)?;
    Ok(
        (gate.counts()[0] != 0) == searched
            && tells(world, told)
            && are_pairs(world.pairs(), is_pair(told.first), is_pair(told.second)),
    )
}

// Answers whether the step comes to what it should.
fn goes<R: Threads + Sync>(
    rt: &R,
    world: &mut BoxWorld<HierGrid>,
    step: Step,
) -> Result<bool, Fail> {
    match step {
        Step::Come => Ok(world.add(unit(2, 0)?, SEEN, NOBODYS)? == SECOND.b),
        Step::Part => Ok(world.shift(FIRST.b, unit(50, 0)?) == Ok(())),
        Step::Hide => Ok(world.mask(FIRST.b, Masks { is: 1, sees: 0 }) == Ok(())),
        Step::Go => Ok(world.remove(FIRST.b) == Ok(())),
        Step::Mark => Ok(world.mark()?),
        Step::Back => Ok(world.back()?),
        Step::Searched(told) => ends_frame(rt, world, true, told),
        Step::Rested(told) => ends_frame(rt, world, false, told),
        Step::Kept { told, pair } => {
            Ok(tells(world, told) && are_pairs(world.pairs(), pair, false))
        }
    }
}

// Two boxes that touch, and each step comes to what it should.
fn plays<R: Threads + Sync + Abort>(
    rt: &R,
    world: &mut BoxWorld<HierGrid>,
    steps: &[Step],
) -> Result<(), Fail> {
    world.add(unit(0, 0)?, SEEN, NOBODYS)?;
    world.add(unit(1, 0)?, SEEN, NOBODYS)?;
    for (at, step) in steps.iter().enumerate() {
        assert!(rt; goes(rt, world, *step)?, "step {at}");
    }
    Ok(())
}

// The same in a world of its own, which is handed on, so that what it owns is let go in one place.
fn plays_anew<R: Threads + Sync + Abort>(
    rt: &R,
    alloc: Global,
    steps: &[Step],
) -> Result<(), Fail> {
    let mut world = BoxWorld::new(alloc, HierGrid::new(alloc)?)?;
    plays(rt, &mut world, steps)
}

// The two boxes still touch, and nothing changed since the last frame.
const STAYS: Step = Step::Rested(STAY);

// The two boxes began to touch.
const BEGINS: Step = Step::Searched(BEGIN);

// The two boxes no longer touch.
const PARTS: Step = Step::Searched(OVER);

// No pair is there, and nothing changed since the last frame.
const RESTS: Step = Step::Rested(NOTHING);

#[test]
fn a_pair_is_over_where_a_box_sees_nobody(rt: HostRuntime) -> Result<(), Fail> {
    let steps = [BEGINS, STAYS, STAYS, STAYS, Step::Hide, PARTS, RESTS, RESTS];
    plays_anew(&rt, rt.alloc(), &steps)
}

#[test]
fn a_pair_is_over_where_a_box_moves_away(rt: HostRuntime) -> Result<(), Fail> {
    let steps = [BEGINS, STAYS, STAYS, Step::Part, PARTS, RESTS];
    plays_anew(&rt, rt.alloc(), &steps)
}

#[test]
fn a_pair_is_over_where_a_box_goes(rt: HostRuntime) -> Result<(), Fail> {
    let steps = [BEGINS, STAYS, Step::Go, PARTS, RESTS, RESTS];
    plays_anew(&rt, rt.alloc(), &steps)
}

#[test]
fn a_pair_begins_where_another_stays(rt: HostRuntime) -> Result<(), Fail> {
    let steps = [
        BEGINS,
        STAYS,
        Step::Come,
        Step::Searched(STAY_AND_BEGIN),
        Step::Rested(BOTH_STAY),
        Step::Rested(BOTH_STAY),
    ];
    plays_anew(&rt, rt.alloc(), &steps)
}

#[test]
fn two_pairs_begin_and_are_over_in_order(rt: HostRuntime) -> Result<(), Fail> {
    let steps = [
        Step::Come,
        Step::Searched(BOTH_BEGIN),
        Step::Go,
        Step::Searched(BOTH_OVER),
        RESTS,
    ];
    plays_anew(&rt, rt.alloc(), &steps)
}

// Back to boxes that no longer pair, but whose last frame had the pair.
#[test]
fn a_pair_is_over_once_more_behind_a_way_back(rt: HostRuntime) -> Result<(), Fail> {
    let steps = [
        BEGINS,
        Step::Hide,
        Step::Mark,
        PARTS,
        RESTS,
        RESTS,
        Step::Back,
        PARTS,
        RESTS,
    ];
    plays_anew(&rt, rt.alloc(), &steps)
}

#[test]
fn a_mark_changes_nothing(rt: HostRuntime) -> Result<(), Fail> {
    let steps = [
        BEGINS,
        Step::Mark,
        STAYS,
        STAYS,
        Step::Back,
        Step::Searched(STAY),
        STAYS,
    ];
    plays_anew(&rt, rt.alloc(), &steps)
}

#[test]
fn a_begin_is_told_on_a_way_back_behind_it(rt: HostRuntime) -> Result<(), Fail> {
    let steps = [
        Step::Mark,
        BEGINS,
        Step::Back,
        Step::Kept {
            told: BEGIN,
            pair: false,
        },
        BEGINS,
    ];
    plays_anew(&rt, rt.alloc(), &steps)
}

#[test]
fn an_over_is_told_on_a_way_back_behind_it(rt: HostRuntime) -> Result<(), Fail> {
    let steps = [
        BEGINS,
        Step::Mark,
        Step::Hide,
        PARTS,
        Step::Back,
        Step::Kept {
            told: OVER,
            pair: true,
        },
        Step::Searched(STAY),
    ];
    plays_anew(&rt, rt.alloc(), &steps)
}

// The pairs of the frame that is told aren't those of the mark.
#[test]
fn a_stay_is_told_on_a_way_back_behind_it(rt: HostRuntime) -> Result<(), Fail> {
    let steps = [
        BEGINS,
        Step::Mark,
        Step::Come,
        Step::Searched(STAY_AND_BEGIN),
        Step::Back,
        Step::Kept {
            told: STAY_AND_BEGIN,
            pair: true,
        },
        Step::Searched(STAY),
    ];
    plays_anew(&rt, rt.alloc(), &steps)
}

// A second way back, over a frame that is no longer the last.
#[test]
fn the_last_frame_is_told_on_two_ways_back(rt: HostRuntime) -> Result<(), Fail> {
    let kept = Step::Kept {
        told: NOTHING,
        pair: false,
    };
    let steps = [
        Step::Mark,
        BEGINS,
        Step::Mark,
        Step::Hide,
        PARTS,
        RESTS,
        Step::Back,
        Step::Back,
        kept,
        BEGINS,
    ];
    plays_anew(&rt, rt.alloc(), &steps)
}
