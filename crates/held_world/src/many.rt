//! Many questions at once, answered in order up to the first that is refused.

ghost use Rattle.std.specs.Prelude.{◌≡◌, ◌≢◌, ◌++◌, false, true, is_some};
ghost use Rattle.live_queries.specs.First.{IsFirstEntered};
ghost use Rattle.any_world.specs.AnyWorld.{state_of};
ghost use Rattle.held_world.specs.declared.TheConstants.{ARGUMENT, OK};
ghost use Rattle.held_world.specs.Firsts.{AsksFirst, AsksFirstCast};
ghost use Rattle.held_world.specs.Many.{AsksAll, AsksEach, IsNoAnswer, hits_in, no_hit};
ghost use Rattle.held_world.specs.Plain.{cast_in, groups_in, query_in, ray_in};

use crate::copying::copy_handles;
use crate::plain::{PwHandle, PwHit, PwQuery, query_of};
use crate::questions::{PwCast, PwRay, groups_of};
use crate::{ARGUMENT, HeldRoom, LOWER, NO_AXIS, NO_MEMORY, OK, Reply};
use any_world::AnyWorld;

impl HeldRoom {
    /// Tells of the live box that each ray meets first, as `first_entered` does, at its place of `out`: where it meets none, the place
    /// has the handle of no box. The count tells how many rays were answered: all, or those before the first that is refused, for want
    /// of memory. The rest of `out` is as before. `ARGUMENT` comes where `out` has less room than there are rays, and then
    /// nothing is asked, here and below.
    pub fn first_entered_each(
        &mut self,
        world: &AnyWorld,
        rays: &[PwRay],
        out: &mut [PwHit],
    ) -> Reply
        ensures answer { let state = state_of world.now in
            AsksEach (λ ray. AsksFirst (IsFirstEntered state.time.now.table.entries (ray_in ray) (groups_in ray.mask)) state.spent) rays.now
            result out.old out.new }
        ensures same { self.new ≡ self.old }
    {
        if out.len() < rays.len() {
            return too_little_room();
        }
        let mut count = 0;
        'rays: while count < rays.len() {
            let mut hit = no_hit();
            let reply = self.first_entered(world, &rays[count], &mut hit);
            if reply.status != OK {
                return Reply {
                    status: reply.status,
                    count,
                };
            }
            out[count] = hit;
            count += 1;
        }
        Reply { status: OK, count }
    }

    /// The same for the boxes that moved boxes meet first on their ways. `INVERTED` comes at the first that is none.
    pub fn first_cast_each(
        &mut self,
        world: &AnyWorld,
        casts: &[PwCast],
        out: &mut [PwHit],
    ) -> Reply
        ensures answer { let state = state_of world.now in
            AsksEach (λ cast. AsksFirstCast (cast_in cast) state.time.now.table.entries cast.mask state.spent) casts.now result out.old out.new }
        ensures same { self.new ≡ self.old }
    {
        if out.len() < casts.len() {
            return too_little_room();
        }
        let mut count = 0;
        'casts: while count < casts.len() {
            let mut hit = no_hit();
            let reply = self.first_cast(world, &casts[count], &mut hit);
            if reply.status != OK {
                return Reply {
                    status: reply.status,
                    count,
                };
            }
            out[count] = hit;
            count += 1;
        }
        Reply { status: OK, count }
    }

    /// Copies the handles of the live boxes that meet each question, by their slots, one answer behind another, as many as there is
    /// room for. `ends` tells of each answer how many handles there are up to its end, those without room too. The count tells how
    /// many questions were answered: all, or those before the first that is refused, by `ARGUMENT` where it is no question. The rest of
    /// `ends` and of `out` is as before. `ARGUMENT` comes where `ends` has less room than there are questions, and then nothing is asked.
    pub fn hits_each(
        &mut self,
        world: &AnyWorld,
        queries: &[PwQuery],
        out: &mut [PwHandle],
        ends: &mut [usize],
    ) -> Reply
        ensures { let state = state_of world.now in
            AsksAll state.time.now.table.entries state.spent queries.now result out.old out.new ends.old ends.new }
    {
        if ends.len() < queries.len() {
            return too_little_room();
        }
        self.found.clear();
        let mut count = 0;
        let mut status = OK;
        'queries: while count < queries.len() {
            status = self.find_more(world, &queries[count]);
            if status != OK {
                break;
            }
            ends[count] = self.found.len();
            count += 1;
        }
        copy_handles(&self.found, out);
        Reply { status, count }
    }

    // Appends what a question finds to what was found.
    fn find_more(&mut self, world: &AnyWorld, query: &PwQuery) -> u32
        ensures sound { result ≡ OK → (state_of world.now).spent ≡ false }
        ensures found { result ≡ OK → self.new.found.items ≡ self.old.found.items ++ hits_in (state_of world.now).time.now.table.entries query.now }
        ensures asked { result ≡ OK → is_some (query_in query.now) ≡ true }
        ensures none { result ≢ OK → (self.new.found.items ≡ self.old.found.items) × IsNoAnswer query.now result }
    {
        let Some(asked) = query_of(query) else {
            return ARGUMENT;
        };
        let groups = groups_of(query.mask);
        match world.hits(&asked, groups, &mut self.asking, &mut self.found) {
            Ok(()) => OK,
            Err(_) => NO_MEMORY,
        }
    }
}

fn too_little_room() -> Reply
    ensures { result ≡ record { status = ARGUMENT; count = 0 } }
{
    Reply {
        status: ARGUMENT,
        count: 0,
    }
}

// What is told where nothing is met.
fn no_hit() -> PwHit
    ensures { result ≡ no_hit }
{
    PwHit {
        handle: PwHandle {
            slot: u32::MAX,
            generation: u32::MAX,
        },
        num: 0,
        den: 1,
        axis: NO_AXIS,
        side: LOWER,
    }
}
