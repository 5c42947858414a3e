//! Questions about the live boxes of a world, whose handles are copied into the caller's room.

ghost use Rattle.std.specs.Prelude.{◌≡◌, min, length, Some, option_map, OnOk, OnErr};
ghost use Rattle.fixed_box.specs.declared.TheConstants.{SLOTS};
ghost use Rattle.live_queries.specs.Pairs.{hits_of};
ghost use Rattle.live_queries.specs.Queries.{entered_of, cast_of, nearest_to, nearest_to_box};
ghost use Rattle.any_world.specs.AnyWorld.{state_of};
ghost use Rattle.held_world.specs.declared.TheConstants.{OK, NO_MEMORY, ARGUMENT, INVERTED};
ghost use Rattle.held_world.specs.Plain.{groups_in, handle_out, query_in, ray_in, cast_in, near_in, near_box_in};
ghost use Rattle.held_world.specs.Copies.{copied};
ghost use Rattle.held_world.specs.Asks.{Asks};

use crate::copying::copy_handles;
use crate::plain::{PwHandle, PwQuery, query_of};
use crate::questions::{
    PwCast, PwNear, PwNearBox, PwRay, cast_of, groups_of, near_box_of, near_of, ray_of,
};
use crate::room::HeldRoom;
use crate::{ARGUMENT, INVERTED, NO_MEMORY, OK, Reply};
use any_world::AnyWorld;
use fixed_box::NoMemory;

impl HeldRoom {
    /// Copies the handles of the live boxes that meet a question, by their slots, as many as there is room for, and tells how many
    /// there are in all. `ARGUMENT` comes where it is no question. After any status but `OK` the count is 0 and `out` is as before. With
    /// the mask 0 a question looks at no group. All this holds below too.
    pub fn hits(&mut self, world: &AnyWorld, query: &PwQuery, out: &mut [PwHandle]) -> Reply
        ensures { let state = state_of world.now in
            Asks ARGUMENT (option_map (λ asked. hits_of state.time.now.table.entries asked (groups_in query.now.mask)) (query_in query.now)) state.spent
            result out.old out.new }
    {
        let Some(asked) = query_of(query) else {
            return Reply {
                status: ARGUMENT,
                count: 0,
            };
        };
        self.found.clear();
        let groups = groups_of(query.mask);
        let answer = world.hits(&asked, groups, &mut self.asking, &mut self.found);
        self.answered(answer, out)
    }

    /// Copies the handles of the live boxes that a ray meets, in the order in which it first meets them and then by their slots, as
    /// many as there is room for, and tells how many there are in all.
    pub fn entered(&mut self, world: &AnyWorld, ray: &PwRay, out: &mut [PwHandle]) -> Reply
        ensures { let state = state_of world.now in
            Asks ARGUMENT (Some (entered_of state.time.now.table.entries (ray_in ray.now) (groups_in ray.now.mask))) state.spent
            result out.old out.new }
    {
        self.found.clear();
        let groups = groups_of(ray.mask);
        let answer = world.entered(&ray_of(ray), groups, &mut self.asking, &mut self.found);
        self.answered(answer, out)
    }

    /// The same for the boxes that a moved box meets on its way. `INVERTED` comes where it is none.
    pub fn cast(&mut self, world: &AnyWorld, cast: &PwCast, out: &mut [PwHandle]) -> Reply
        ensures { let state = state_of world.now in
            Asks INVERTED (option_map (λ asked. cast_of state.time.now.table.entries asked (groups_in cast.now.mask)) (cast_in cast.now)) state.spent
            result out.old out.new }
    {
        let Some(asked) = cast_of(cast) else {
            return Reply {
                status: INVERTED,
                count: 0,
            };
        };
        self.found.clear();
        let groups = groups_of(cast.mask);
        let answer = world.cast(&asked, groups, &mut self.asking, &mut self.found);
        self.answered(answer, out)
    }

    /// The same for the boxes that are nearest to a place: at most as many as are wanted and at most `SLOTS`, the nearest first and then by
    /// their slots.
    pub fn nearest(&mut self, world: &AnyWorld, near: &PwNear, out: &mut [PwHandle]) -> Reply
        ensures { let state = state_of world.now in
            Asks ARGUMENT (Some (nearest_to state.time.now.table.entries (near_in near.now).at (min near.now.want SLOTS) (groups_in near.now.mask)))
            state.spent result out.old out.new }
    {
        self.found.clear();
        let answer = world.nearest(&near_of(near), &mut self.asking, &mut self.found);
        self.answered(answer, out)
    }

    /// The same for the boxes that are nearest to a box, of those whose squared distance from it is at least `from`. `INVERTED` comes where
    /// it is no box.
    pub fn nearest_box(&mut self, world: &AnyWorld, near: &PwNearBox, out: &mut [PwHandle]) -> Reply
        ensures { let state = state_of world.now in
            Asks INVERTED (option_map (λ asked. nearest_to_box state.time.now.table.entries asked.body asked.from (min asked.want SLOTS) asked.groups)
            (near_box_in near.now)) state.spent result out.old out.new }
    {
        let Some(asked) = near_box_of(near) else {
            return Reply {
                status: INVERTED,
                count: 0,
            };
        };
        self.found.clear();
        let answer = world.nearest_box(&asked, &mut self.asking, &mut self.found);
        self.answered(answer, out)
    }

    // What a question came to, whose answer is in `found` where there was memory for it.
    fn answered(&self, answer: Result<(), NoMemory>, out: &mut [PwHandle]) -> Reply
        ensures ok { OnOk answer ((result ≡ record { status = OK; count = length self.now.found.items })
            × (out.new ≡ copied handle_out self.now.found.items out.old)) }
        ensures err { OnErr answer ((result ≡ record { status = NO_MEMORY; count = 0 }) × (out.new ≡ out.old)) }
    {
        match answer {
            Ok(()) => {
                copy_handles(&self.found, out);
                Reply {
                    status: OK,
                    count: self.found.len(),
                }
            }
            Err(_) => Reply {
                status: NO_MEMORY,
                count: 0,
            },
        }
    }
}
