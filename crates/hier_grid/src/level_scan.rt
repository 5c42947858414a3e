//! The scan of a level for the partners of a box, and where it costs less than a look at the cells beside the box.

ghost use Rattle.std.specs.Prelude.{◌≡◌, ◌<◌, true, max, OnOk};
ghost use Rattle.fixed_box.specs.Bounds.{Bounds, level_of};
ghost use Rattle.hier_grid.specs.Search.{Finds};

use crate::found::Found;
use crate::searched::Searched;
use cell_table::LEVELS;
use fixed_box::NoMemory;
use grid_boxes::{BOXES_PER_SCANNED, GridBoxes, SlotBox};

/// Whether the level at which a slot stands is scanned for its partners: it has few boxes, and none of a lower level stands there.
#[inline(always)]
pub(crate) fn is_own_scanned(boxes: &Searched, level: u8, own: &SlotBox) -> bool
    requires { level < LEVELS }
    ensures { result ≡ true → (b : Bounds) → max (level_of b) boxes.now.floor ≡ level → level_of b ≡ level }
{
    (level > boxes.copied().floor || level == 0) && boxes.kept().has_few_beside(level, &own.body)
}

/// Whether a level above that of a slot is scanned for its partners: it has few boxes, or its cells are crowded.
#[inline(always)]
pub(crate) fn is_scanned(boxes: &Searched, level: u8, own: &SlotBox) -> bool
    requires { level < LEVELS }
{
    boxes.kept().has_few_beside(level, &own.body) || is_crowded(boxes, level, own)
}

// Whether the cells of a level beside a slot share the buckets of a heap, which may be of other levels: a scan of the level
// costs less than a look at the boxes there.
#[inline(always)]
fn is_crowded(boxes: &Searched, level: u8, own: &SlotBox) -> bool
    requires { level < LEVELS }
{
    let copied = boxes.copied();
    let most = boxes.kept().level_len(level) / BOXES_PER_SCANNED;
    // few lists have a bucket that is worth a look
    copied.fullest() > most && copied.block_len(&boxes.cells_beside(level, &own.body)) > most
}

/// Finds the pairs of a slot with its partners of a level by a scan of the level.
pub(crate) fn pairs_by_scan(
    kept: &GridBoxes,
    level: u8,
    own: &SlotBox,
    found: &mut Found,
) -> Result<(), NoMemory>
    requires { level < LEVELS }
    ensures { OnOk result (Finds kept.now own.now true (λ _ b. level_of b ≡ level) found.old.pairs.items found.new.pairs.items) }
{
    found.slots.clear();
    kept.scan(level, &own.body, &mut found.looked, &mut found.slots)?;
    found.pairs_among(kept.boxes(), own, true)?;
    Ok(())
}
