//! Two readers of one world ask it, leave in either order, and the last of them gives the world back.

ghost use Rattle.std.specs.Prelude.{◌≡◌};

use super::WorldReader;
use held_world::{
    CLOSED, HeldWorld, OK, PwBox, PwGroup, PwHandle, PwMasks, PwPoint, PwQuery, REGION, TREE,
    group_of, masks_of,
};
use std::alloc::Global;
use std::process::Abort;
use std::test::Fail;

const NOBODYS: PwHandle = PwHandle {
    slot: u32::MAX,
    generation: 0,
};

const fn corner(at: i32) -> PwPoint {
    PwPoint {
        x: at,
        y: at,
        z: at,
    }
}

// A world with one box from 0 to 10 on each axis.
fn one_box(alloc: Global) -> Result<Box<HeldWorld>, Fail> {
    let mut held = HeldWorld::new(alloc, TREE)?;
    let body = PwBox {
        lo: corner(0),
        hi: corner(10),
    };
    let masks = masks_of(&PwMasks { is: 1, sees: 1 });
    let group = group_of(&PwGroup { owner: 0, fixed: 0 });
    let mut handles = [NOBODYS];
    held.add_all(&[body], masks, group, &mut handles);
    Ok(Box::new(alloc, held)?)
}

// What a reader tells of the boxes about the origin: the status, how many there are, and the first one's slot.
fn asked(reader: &mut WorldReader) -> (u32, usize, u32)
    ensures { reader.new ≡ reader.old }
{
    let about = PwQuery {
        kind: REGION,
        mask: 1,
        a: corner(-1),
        b: corner(1),
    };
    let mut out = [NOBODYS];
    let reply = reader.hits(&about, &mut out);
    (reply.status, reply.count, out[0].slot)
}

// What a reader is to tell of them.
fn tells(rt: &impl Abort, reader: &mut WorldReader, wanted: (u32, usize, u32))
    ensures { reader.new ≡ reader.old }
{
    assert_eq!(rt; asked(reader), wanted);
}

// Whether a world came back, with its box.
fn came_back(rt: &impl Abort, back: &Option<Box<HeldWorld>>, wanted: bool) {
    let boxes = match back {
        Some(held) => Some(held.world.len()),
        None => None,
    };
    assert_eq!(rt; boxes, wanted.then_some(1));
}

#[test]
fn readers_of_one_world_ask_it_and_the_last_gives_it_back(rt: HostRuntime) -> Result<(), Fail> {
    let mut one = WorldReader::new(rt.alloc());
    let mut other = WorldReader::new(rt.alloc());
    tells(&rt, &mut one, (CLOSED, 0, u32::MAX));
    let held = one_box(rt.alloc())?;
    if one.share(rt.alloc(), held).is_err() {
        return Err(Fail::new("no memory"));
    }
    other.join(&one)?;
    tells(&rt, &mut one, (OK, 1, 0));
    tells(&rt, &mut other, (OK, 1, 0));
    came_back(&rt, &one.leave(), false);
    tells(&rt, &mut one, (CLOSED, 0, u32::MAX));
    tells(&rt, &mut other, (OK, 1, 0));
    // The one that had left joins again, and the other leaves first.
    one.join(&other)?;
    came_back(&rt, &other.leave(), false);
    came_back(&rt, &one.leave(), true);
    Ok(())
}
