//! The spatial hash: which bucket a cell falls into, and whether two keys are one cell.

ghost use Rattle.std.specs.Prelude.{◌≡◌, ◌<◌};
ghost use Rattle.cell_table.specs.Cells.{bucket_of, same_cell};

use crate::{BUCKETS, CellKey};

// The bucket of a key: a sum of products with constants, as in a spatial hash (Teschner, Heidelberger, Müller, Pomerantes,
// Gross, *Optimized Spatial Hashing for Collision Detection of Deformable Objects*, 2003). The cells of a row along z have
// neighbouring buckets, so they are read together, and the constants part any two cells of one level that are less than 22
// cells from each other on each axis.
pub(crate) fn bucket_of(key: &CellKey) -> u32
    ensures value { result ≡ bucket_of key.now }
    ensures bound { result < BUCKETS }
{
    let x = u64::from(key.x.cast_unsigned()) * 7_539;
    let y = u64::from(key.y.cast_unsigned()) * 2_395;
    let z = u64::from(key.z.cast_unsigned());
    ((x + y + z + u64::from(key.level) * 5_003) % u64::from(BUCKETS)) as u32
}

// Whether two keys are one.
pub(crate) fn is_same(a: &CellKey, b: &CellKey) -> bool
    ensures { result ≡ same_cell a.now b.now }
{
    (a.level == b.level) & (a.x == b.x) & (a.y == b.y) & (a.z == b.z)
}
