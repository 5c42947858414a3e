//! How many slots a list by bucket has in rows of cells, as a hint of where boxes lie in heaps. It may be told of another
//! moment, and of other cells of the same buckets: whatever it says, only a time depends on it.

use cell_table::BucketList;
use fixed_box::NoMemory;
use grid_cells::{CellBlock, CellRow, RowSearch, search_block};

// A walk that counts what stands in the rows of a list.
#[derive(Drop)]
struct RowCount<'a> {
    list: &'a BucketList,
    len: usize,
}

// What it counted is a hint, of which nothing is told.
impl RowSearch for RowCount<'_> {
    ghost searched = { λ _ _ _. Unit {0} };

    ghost stopped = { λ _ _. Unit {0} };

    fn search_row(&mut self, row: &CellRow) -> Result<(), NoMemory> {
        self.len = self.len.saturating_add(row_len(self.list, row));
        Ok(())
    }

    ghost none = { λ _. tt };

    ghost both = { λ _ _ _ _ _ _ _. tt };

    ghost stops = { λ _ _ _ _ _ _. tt };
}

/// How many slots stand in the rows of a block of cells, and in others that share their buckets.
pub(crate) fn block_len(list: &BucketList, block: &CellBlock) -> usize {
    let mut count = RowCount { list, len: 0 };
    // it takes no memory
    let _ = search_block(block, &mut count);
    count.len
}

/// The same of one row.
pub(crate) fn row_len(list: &BucketList, row: &CellRow) -> usize {
    let places = list.row(&row.key, row.end);
    (places.to - places.from).saturating_add(places.wrapped)
}
