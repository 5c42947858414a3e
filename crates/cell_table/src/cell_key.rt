//! The key of a cell: its level and its place on each axis.

/// A cell of one level, by its place on each axis in sides of its level's cells.
#[derive(Clone, Copy, Debug, PartialEq, Eq)]
pub struct CellKey {
    pub level: u8,
    pub x: i32,
    pub y: i32,
    pub z: i32,
}
