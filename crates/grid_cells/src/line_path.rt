//! About where a line runs through a block of cells, by which a block is cut well.

ghost use Rattle.std.specs.Prelude.{◌<◌};

use crate::block_cut::{BlockCut, CutAxis};
use crate::cell::{clamped, reach_of, start_of};
use crate::cell_block::CellBlock;
use broad_index::Query;
use cell_table::LEVELS;
use fixed_box::FBox;
use ray_slabs::WPoint;

/// About where a line goes, rounded: by it a block of cells is cut so that most of what the line misses is left out at once.
/// No proof rests on it, since the line itself is asked of each part.
#[derive(Drop)]
pub struct LinePath {
    // The axis on which the line goes farthest, where it starts on it, and the ends of its region there.
    main: CutAxis,
    // Whether it goes up on that axis.
    upward: bool,
    start: i64,
    least: i64,
    most: i64,
    x: Course,
    y: Course,
    z: Course,
}

// Where a line starts on an axis, and how far it goes there while it goes 2^20 on its main axis.
#[derive(Drop)]
struct Course {
    start: i64,
    slope: i64,
}

// How far a line goes on each axis.
#[derive(Drop)]
struct Way {
    x: i64,
    y: i64,
    z: i64,
}

impl LinePath {
    /// The path of a line in a region, which of a cast is that of its lower corner.
    pub fn of(line: &Query, region: &FBox) -> LinePath {
        match line {
            Query::Along(ray) => LinePath::new(&ray.from, &way_of(&ray.dir), region),
            Query::Between(seg) => LinePath::new(&seg.a, &way_between(&seg.a, &seg.b), region),
            Query::Swept(cast) => {
                let corner = WPoint::of(&cast.body.lo());
                LinePath::new(&corner, &way_of(&WPoint::of(&cast.by)), region)
            }
            Query::Region(body) => LinePath::resting(body),
            Query::Spot(_) => LinePath::resting(region),
        }
    }

    fn new(from: &WPoint, way: &Way, region: &FBox) -> LinePath {
        let lo = region.lo();
        let hi = region.hi();
        let main = way.main();
        let (start, far, least, most) = match main {
            CutAxis::X => (from.x(), way.x, lo.x, hi.x),
            CutAxis::Y => (from.y(), way.y, lo.y, hi.y),
            CutAxis::Z => (from.z(), way.z, lo.z, hi.z),
        };
        LinePath {
            main,
            upward: far >= 0,
            start,
            least: i64::from(least),
            most: i64::from(most),
            x: Course::new(from.x(), way.x, far),
            y: Course::new(from.y(), way.y, far),
            z: Course::new(from.z(), way.z, far),
        }
    }

    // The path of what goes nowhere.
    fn resting(region: &FBox) -> LinePath {
        let at = WPoint::of(&region.lo());
        LinePath::new(&at, &Way { x: 0, y: 0, z: 0 }, region)
    }

    /// Where the first of so many parts ends, as long as one another, of the line's way through a box.
    pub fn next_place(&self, body: &FBox, parts: u32) -> PathPlace {
        let lo = body.lo();
        let hi = body.hi();
        let (lo, hi) = match self.main {
            CutAxis::X => (lo.x, hi.x),
            CutAxis::Y => (lo.y, hi.y),
            CutAxis::Z => (lo.z, hi.z),
        };
        let from = i64::from(lo).max(self.least);
        let end = i64::from(hi).min(self.most);
        let part = end.wrapping_sub(from).wrapping_div(i64::from(parts.max(1)));
        let at = if self.upward {
            from.wrapping_add(part)
        } else {
            end.wrapping_sub(part)
        };
        PathPlace {
            axis: self.main,
            at: clamped(at),
            upward: self.upward,
        }
    }

    /// About how many steps it takes to follow the line through a block.
    pub fn steps_through(&self, block: &CellBlock) -> u32 {
        block.len_on(self.main).saturating_mul(STEPS_PER_CELL)
    }

    /// Where a block is to be cut, the first part of it one that the line misses most likely, or `None` where its cells are so
    /// few that a look at each is best. On the main axis it is cut in the middle, down to thin slabs, and a slab about
    /// the path.
    pub(crate) fn cut(&self, block: &CellBlock) -> Option<BlockCut>
        requires { block.now.from.level < LEVELS }
    {
        let cells = block.len();
        if cells <= FEW {
            return None;
        }
        if block.len_on(self.main) > SLAB {
            return Some(middle_of(block, self.main));
        }
        let aside = self.cut_aside(block);
        if aside.is_none() && cells > MANY {
            return Some(middle_of(block, block.longest()));
        }
        aside
    }

    // Where a part on one side of the path is cut off, as the path passes by a block on the main axis. `None` where there is
    // no such part.
    fn cut_aside(&self, block: &CellBlock) -> Option<BlockCut>
        requires { block.now.from.level < LEVELS }
    {
        let passed = self.passed(block);
        let (second, third) = match self.main {
            CutAxis::X => (CutAxis::Y, CutAxis::Z),
            CutAxis::Y => (CutAxis::X, CutAxis::Z),
            CutAxis::Z => (CutAxis::X, CutAxis::Y),
        };
        let cut = self.cut_on(second, block, passed);
        if cut.is_some() {
            cut
        } else {
            self.cut_on(third, block, passed)
        }
    }

    // The same on one axis.
    fn cut_on(&self, axis: CutAxis, block: &CellBlock, passed: (i64, i64)) -> Option<BlockCut>
        requires { block.now.from.level < LEVELS }
    {
        let (from, end) = block.ends_on(axis);
        let (first, last) = self.course(axis).cells(block.from.level, passed);
        if (from < first) & (first < end) {
            Some(BlockCut {
                axis,
                at: first,
                turned: false,
            })
        } else if (from < last) & (last < end) {
            Some(BlockCut {
                axis,
                at: last,
                turned: true,
            })
        } else {
            None
        }
    }

    fn course(&self, axis: CutAxis) -> &Course {
        match axis {
            CutAxis::X => &self.x,
            CutAxis::Y => &self.y,
            CutAxis::Z => &self.z,
        }
    }

    // From where to where the line passes by a block on the main axis, ahead of its start.
    fn passed(&self, block: &CellBlock) -> (i64, i64)
        requires { block.now.from.level < LEVELS }
    {
        let (from, end) = block.ends_on(self.main);
        let level = block.from.level;
        (
            self.ahead(start_of(level, from)),
            self.ahead(reach_of(level, end)),
        )
    }

    // How far a place lies ahead of the line's start on the main axis, from the places in its region.
    fn ahead(&self, place: i64) -> i64 {
        place
            .max(self.least)
            .min(self.most)
            .wrapping_sub(self.start)
    }
}

/// A place on the axis on which a line goes farthest, and whether the line goes up there.
#[derive(Clone, Copy)]
pub struct PathPlace {
    pub axis: CutAxis,
    pub at: i32,
    pub upward: bool,
}

impl Way {
    // The axis on which it is farthest.
    fn main(&self) -> CutAxis {
        let x = self.x.unsigned_abs();
        let y = self.y.unsigned_abs();
        let z = self.z.unsigned_abs();
        if (x >= y) & (x >= z) {
            CutAxis::X
        } else if y >= z {
            CutAxis::Y
        } else {
            CutAxis::Z
        }
    }
}

impl Course {
    fn new(start: i64, way: i64, main: i64) -> Course {
        let slope = if main == 0 {
            0
        } else {
            way.wrapping_mul(1 << 20).wrapping_div(main)
        };
        Course { start, slope }
    }

    // The cells of boxes that may be met between two places ahead, from one on and below another.
    fn cells(&self, level: u8, passed: (i64, i64)) -> (i32, i32)
        requires { level < LEVELS }
    {
        let a = self.place(passed.0);
        let b = self.place(passed.1);
        (
            cell_near(level, a.min(b)).wrapping_sub(1),
            cell_near(level, a.max(b)).wrapping_add(1),
        )
    }

    fn place(&self, ahead: i64) -> i64 {
        self.start
            .wrapping_add(ahead.wrapping_mul(self.slope) >> 20)
    }
}

// A cut in the middle of an axis.
fn middle_of(block: &CellBlock, axis: CutAxis) -> BlockCut {
    let (from, end) = block.ends_on(axis);
    BlockCut::between(axis, from, end)
}

// How far a direction goes.
fn way_of(dir: &WPoint) -> Way {
    Way {
        x: dir.x(),
        y: dir.y(),
        z: dir.z(),
    }
}

// How far it is from one point to another.
fn way_between(a: &WPoint, b: &WPoint) -> Way {
    Way {
        x: b.x().wrapping_sub(a.x()),
        y: b.y().wrapping_sub(a.y()),
        z: b.z().wrapping_sub(a.z()),
    }
}

// The cell of a place on an axis, as far as 32 bits go.
fn cell_near(level: u8, place: i64) -> i32
    requires { level < LEVELS }
{
    (place >> (12 + 2 * level)).clamp(i64::from(i32::MIN), i64::from(i32::MAX)) as i32
}

// Each cell on the main axis takes about so many steps.
const STEPS_PER_CELL: u32 = 3;

// So many cells a slab is thick at most.
const SLAB: u32 = 2;

// A look at so few cells costs less than a cut.
const FEW: u64 = 8;

// So many cells about the path are looked at one by one.
const MANY: u64 = 48;
