//! The first hits of rays and of moved boxes among the live boxes, each told in the caller's room.

ghost use Rattle.std.specs.Prelude.{◌≡◌, OnOk, OnErr, IfOk};
ghost use Rattle.live_queries.specs.First.{IsFirstEntered};
ghost use Rattle.any_world.specs.AnyWorld.{state_of};
ghost use Rattle.held_world.specs.declared.TheConstants.{OK, NO_MEMORY};
ghost use Rattle.held_world.specs.Firsts.{hit_out, axis_out, axis_of, side_of, hit_count, hit_told, AsksFirst, AsksFirstCast};
ghost use Rattle.held_world.specs.Plain.{groups_in, ray_in, cast_in};

use crate::plain::{PwHit, handle_out};
use crate::questions::{PwCast, PwRay, cast_of, groups_of, ray_of};
use crate::{HeldRoom, INVERTED, LOWER, NO_AXIS, NO_MEMORY, OK, Reply, UPPER};
use any_world::AnyWorld;
use fixed_box::NoMemory;
use live_queries::{Axis, Face, FirstHit};

impl HeldRoom {
    /// Tells of the live box that a ray meets first, the first that `entered` would tell: it, where it is met, and by which side. The
    /// count is 1, or 0 where it meets none. After any status but `OK`, and where the count is 0, `out` is as before, here and below. No
    /// list of the room that `hits` and the like fill is touched.
    pub fn first_entered(&mut self, world: &AnyWorld, ray: &PwRay, out: &mut PwHit) -> Reply
        ensures answer { let state = state_of world.now in
            AsksFirst (IsFirstEntered state.time.now.table.entries (ray_in ray.now) (groups_in ray.now.mask)) state.spent result out.old out.new }
        ensures same { self.new ≡ self.old }
    {
        let groups = groups_of(ray.mask);
        let first = world.first_entered(&ray_of(ray), groups, &mut self.asking);
        told(first, out)
    }

    /// The same for the box that a moved box meets first on its way. `INVERTED` comes where it is none.
    pub fn first_cast(&mut self, world: &AnyWorld, cast: &PwCast, out: &mut PwHit) -> Reply
        ensures answer { let state = state_of world.now in
            AsksFirstCast (cast_in cast.now) state.time.now.table.entries cast.now.mask state.spent result out.old out.new }
        ensures same { self.new ≡ self.old }
    {
        let Some(asked) = cast_of(cast) else {
            return Reply {
                status: INVERTED,
                count: 0,
            };
        };
        let groups = groups_of(cast.mask);
        let first = world.first_cast(&asked, groups, &mut self.asking);
        told(first, out)
    }
}

// What a question for the first hit came to.
fn told(answer: Result<Option<FirstHit>, NoMemory>, out: &mut PwHit) -> Reply
    ensures ok { IfOk answer (λ hit. (result ≡ record { status = OK; count = hit_count hit }) × (out.new ≡ hit_told hit out.old)) }
    ensures err { OnErr answer ((result ≡ record { status = NO_MEMORY; count = 0 }) × (out.new ≡ out.old)) }
{
    match answer {
        Ok(hit) => put_hit(&hit, out),
        Err(_) => Reply {
            status: NO_MEMORY,
            count: 0,
        },
    }
}

// Tells a hit, if there is one, and how many there are.
pub(crate) fn put_hit(hit: &Option<FirstHit>, out: &mut PwHit) -> Reply
    ensures told { result ≡ record { status = OK; count = hit_count hit.now } }
    ensures room { out.new ≡ hit_told hit.now out.old }
{
    match hit {
        Some(hit) => {
            *out = hit_out(hit);
            Reply {
                status: OK,
                count: 1,
            }
        }
        None => Reply {
            status: OK,
            count: 0,
        },
    }
}

fn hit_out(hit: &FirstHit) -> PwHit
    ensures { result ≡ hit_out hit.now }
{
    PwHit {
        handle: handle_out(&hit.handle),
        num: hit.place.num(),
        den: hit.place.den(),
        axis: axis_of(&hit.face),
        side: side_of(&hit.face),
    }
}

fn axis_of(face: &Option<Face>) -> u32
    ensures { result ≡ axis_of face.now }
{
    match face {
        Some(face) => axis_out(face.axis),
        None => NO_AXIS,
    }
}

fn axis_out(axis: Axis) -> u32
    ensures { result ≡ axis_out axis }
{
    match axis {
        Axis::X => 0,
        Axis::Y => 1,
        Axis::Z => 2,
    }
}

fn side_of(face: &Option<Face>) -> u32
    ensures { result ≡ side_of face.now }
{
    match face {
        Some(face) if face.upper => UPPER,
        _ => LOWER,
    }
}
