//! A box as numbers that are compared at once.

ghost use Rattle.std.specs.Prelude.{◌≡◌, Option, None, Some};
ghost use Rattle.fixed_box.specs.Bounds.{Bounds};
ghost use Rattle.slot_lists.specs.Meeting.{both_meet};
ghost use Rattle.skin_index.specs.Lanes.{absent, lanes_of, reaches};

use fixed_box::FBox;

// A box as four lower and four upper numbers, so that each four of two boxes are compared by one vector instruction. The fourth ones tell
// whether there is a box: none meets itself or another.
#[derive(Clone, Copy)]
pub(crate) struct Lanes {
    pub lo_x: i32,
    pub lo_y: i32,
    pub lo_z: i32,
    pub lo_there: i32,
    pub hi_x: i32,
    pub hi_y: i32,
    pub hi_z: i32,
    pub hi_there: i32,
}

impl Lanes {
    pub(crate) fn absent() -> Lanes
        ensures { result ≡ absent }
    {
        Lanes {
            lo_x: 0,
            lo_y: 0,
            lo_z: 0,
            lo_there: 1,
            hi_x: 0,
            hi_y: 0,
            hi_z: 0,
            hi_there: 0,
        }
    }

    pub(crate) fn of(body: &FBox) -> Lanes
        ensures { result ≡ lanes_of (Some body.now) }
    {
        let (lo, hi) = (body.lo(), body.hi());
        Lanes {
            lo_x: lo.x,
            lo_y: lo.y,
            lo_z: lo.z,
            lo_there: 0,
            hi_x: hi.x,
            hi_y: hi.y,
            hi_z: hi.z,
            hi_there: 0,
        }
    }

    // Whether both are boxes, and meet.
    #[inline(always)]
    pub(crate) fn meet(&self, other: &Lanes) -> bool
        ensures { (a b : Option Bounds) → self.now ≡ lanes_of a → other.now ≡ lanes_of b → result ≡ both_meet a b }
    {
        self.reaches(other) & other.reaches(self)
    }

    // Whether each lower number is at most the upper one of the other. There is no branch.
    #[inline(always)]
    fn reaches(&self, other: &Lanes) -> bool
        ensures { result ≡ reaches self.now other.now }
    {
        (self.lo_x <= other.hi_x)
            & (self.lo_y <= other.hi_y)
            & (self.lo_z <= other.hi_z)
            & (self.lo_there <= other.hi_there)
    }
}
