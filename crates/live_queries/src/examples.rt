//! Rays, casts and nearest boxes worked out by hand, in the order in which they are told.

ghost use Rattle.std.specs.Prelude.{◌≡◌, pos, negsuc, true, false, Some, None, [], ◌∷◌, ◌++◌, take, drop};
ghost use Rattle.broad_index.specs.declared.query.Query.TheVariants.{Along};
ghost use Rattle.live_table.specs.Example.{under};
ghost use Rattle.near_boxes.specs.Rows.{three_crates, middle, far_and_near, lowest, beside, low_end};
ghost use Rattle.live_queries.specs.declared.face.Axis.TheVariants.{X};
ghost use Rattle.live_queries.specs.declared.groups.Groups.TheVariants.{All, Of};
ghost use Rattle.live_queries.specs.Face.{entry_face, contact_face};
ghost use Rattle.live_queries.specs.Pairs.{hits_of};
ghost use Rattle.live_queries.specs.Queries.{entered_of, cast_of, nearest_to, nearest_to_box};
ghost use Rattle.live_queries.specs.Rows.{lives, between, flat, ray_from, moved_by, three_ahead, two_ahead, at_the_end};

// A ray meets nearer boxes first, whatever their slots. Those that it meets at one place, as all around its start, come by
// their slots.
#[tactic(auto, unfolding(ray_slabs::specs::Crossing::in_ray, ray_slabs::specs::First::first))]
fn rays_meet_nearer_boxes_first()
    ensures by_slot { hits_of (lives 1 three_ahead) (Along (ray_from 0)) (Of 4294967295) ≡ under 0 0 ∷ under 1 0 ∷ under 2 0 ∷ [] }
    ensures by_entry { entered_of (lives 1 three_ahead) (ray_from 0) (Of 4294967295) ≡ under 1 0 ∷ under 2 0 ∷ under 0 0 ∷ [] }
    ensures inside { entered_of (lives 1 three_ahead) (ray_from 163840) (Of 1) ≡ under 1 0 ∷ under 2 0 ∷ under 0 0 ∷ [] }
    ensures asked { entered_of (lives 1 three_ahead) (ray_from 0) (Of 2) ≡ [] }
{}

// A cast stops one raw unit short of a box, touches it at its end, and meets what stands beyond the range of coordinates.
#[tactic(auto, unfolding(box_cast::specs::Cast::first_contact))]
fn casts_meet_nearer_boxes_first()
    ensures by_contact { cast_of (lives 1 two_ahead) (moved_by (between 0 1) (pos 1310720)) (Of 4294967295) ≡ under 1 0 ∷ under 0 0 ∷ [] }
    ensures short { cast_of (lives 1 two_ahead) (moved_by (between 0 1) (pos 262143)) (Of 4294967295) ≡ [] }
    ensures touching { cast_of (lives 1 two_ahead) (moved_by (between 0 1) (pos 262144)) (Of 4294967295) ≡ under 1 0 ∷ [] }
    ensures beyond { cast_of (lives 1 at_the_end) (moved_by (flat 2097152000) (pos 2147418112)) (Of 4294967295) ≡ under 0 0 ∷ [] }
    ensures away { cast_of (lives 1 at_the_end) (moved_by (flat 0) (negsuc 2147483647)) (Of 4294967295) ≡ [] }
{}

// A ray comes into a box by its lower side, and by none where it starts inside. A box that is cast back touches the upper one,
// and one that stands beside another from the start on touches the side that it moves to.
fn faces_are_the_sides_that_are_reached()
    ensures ahead { entry_face (ray_from 0) (record { num = pos 131072; den = pos 65536 }) (between 2 3)
        ≡ Some (record { axis = X; upper = false }) }
    ensures half { entry_face (ray_from 0) (record { num = pos 4; den = pos 2 }) (between 2 3) ≡ Some (record { axis = X; upper = false }) }
    ensures within { entry_face (ray_from 163840) (record { num = pos 0; den = pos 1 }) (between 2 3) ≡ None }
    ensures back { contact_face (moved_by (between 5 6) (negsuc 262143)) (record { num = pos 1; den = pos 2 }) (between 2 3)
        ≡ Some (record { axis = X; upper = true }) }
    ensures beside { contact_face (moved_by (between 1 2) (pos 65536)) (record { num = pos 0; den = pos 1 }) (between 2 3)
        ≡ Some (record { axis = X; upper = false }) }
{}

// Of two that are as near the lower slot comes first, and a box of another group doesn't count.
fn the_nearest_are_told_first()
    ensures two { nearest_to (lives 1 three_crates) middle 2 (Of 4294967295) ≡ under 0 0 ∷ under 1 0 ∷ [] }
    ensures all { nearest_to (lives 1 three_crates) middle 8192 (Of 4294967295) ≡ under 0 0 ∷ under 1 0 ∷ under 2 0 ∷ [] }
    ensures none { nearest_to (lives 1 three_crates) middle 3 (Of 2) ≡ [] }
    ensures asked { nearest_to (lives 1 (take 1 three_crates) ++ lives 2 (drop 1 three_crates)) middle 1 (Of 2) ≡ under 1 0 ∷ [] }
    ensures far { nearest_to (lives 1 far_and_near) lowest 1 (Of 4294967295) ≡ under 1 0 ∷ [] }
{}

// A box that touches the second crate is a unit from the first and four from the third. From the square of the first on it is told
// again, and one more leaves it out. Of two that are as near the lower slot comes first, and a box that is too near doesn't count.
fn the_nearest_to_a_box_are_told_from_a_distance_on()
    ensures all { nearest_to_box (lives 1 three_crates) (beside 2) 0 8192 (Of 4294967295) ≡ under 1 0 ∷ under 0 0 ∷ under 2 0 ∷ [] }
    ensures from { nearest_to_box (lives 1 three_crates) (beside 2) 4294967296 8192 (Of 4294967295) ≡ under 0 0 ∷ under 2 0 ∷ [] }
    ensures beyond { nearest_to_box (lives 1 three_crates) (beside 2) 4294967297 8192 (Of 4294967295) ≡ under 2 0 ∷ [] }
    ensures ties { nearest_to_box (lives 1 three_crates) (beside 0) 17179869184 1 (Of 4294967295) ≡ under 1 0 ∷ [] }
    ensures asked { nearest_to_box (lives 1 (take 1 three_crates) ++ lives 2 (drop 1 three_crates)) (beside 0) 0 1 (Of 2) ≡ under 1 0 ∷ [] }
    // A distance whose square is cut to 64 bits would leave none out.
    ensures far { nearest_to_box (lives 1 far_and_near) low_end 18446744073709551616 8192 (Of 4294967295) ≡ under 0 0 ∷ [] }
{}

// A box of no group is found by a question that looks at no group, and by no other.
#[tactic(auto, unfolding(ray_slabs::specs::Crossing::in_ray, ray_slabs::specs::First::first))]
fn boxes_of_no_group_are_found_without_a_mask()
    ensures no_group { hits_of (lives 0 three_ahead) (Along (ray_from 0)) All ≡ under 0 0 ∷ under 1 0 ∷ under 2 0 ∷ [] }
    ensures by_entry { entered_of (lives 0 three_ahead) (ray_from 0) All ≡ under 1 0 ∷ under 2 0 ∷ under 0 0 ∷ [] }
    ensures each_mask { hits_of (lives 0 three_ahead) (Along (ray_from 0)) (Of 4294967295) ≡ [] }
    ensures empty_mask { hits_of (lives 1 three_ahead) (Along (ray_from 0)) (Of 0) ≡ [] }
    ensures nearest { nearest_to (lives 0 (take 1 three_crates) ++ lives 2 (drop 1 three_crates)) middle 1 All ≡ under 0 0 ∷ [] }
{}
