//! Where the last line and the bytes behind it stand in the buffer, and how room is made.

ghost use Rattle.std.specs.Prelude.{◌≡◌, ◌+◌, ◌<◌, ◌≤◌, length, slice_range};
ghost use Rattle.scene_lines.specs.Layout.{IsLaidOut};
ghost use Rattle.scene_lines.specs.declared.TheConstants.{LONGEST_LINE};

use crate::BUFFER_LEN;

/// Where the last line, `line_start..line_end`, and the bytes held, `at..end`, stand in a buffer.
#[derive(Clone, Copy)]
pub(crate) struct Layout {
    pub(crate) line_start: usize,
    pub(crate) line_end: usize,
    pub(crate) at: usize,
    pub(crate) end: usize,
}

/// Where no room is left behind the bytes held, moves them down to the front of the buffer, with the last line before
/// them.
pub(crate) fn make_room(bytes: &mut [u8], layout: Layout) -> Layout
    requires whole { length bytes.old ≡ BUFFER_LEN }
    requires laid_out { IsLaidOut layout }
    requires few { layout.end ≤ layout.at + (LONGEST_LINE + 1) }
    ensures laid_out { IsLaidOut result }
    ensures room { result.end < BUFFER_LEN }
    ensures line { slice_range bytes.new result.line_start result.line_end ≡ slice_range bytes.old layout.line_start layout.line_end }
    ensures held { slice_range bytes.new result.at result.end ≡ slice_range bytes.old layout.at layout.end }
{
    if layout.end < BUFFER_LEN {
        return layout;
    }
    let start = layout.line_start;
    bytes.copy_within(start.., 0);
    Layout {
        line_start: 0,
        line_end: layout.line_end - start,
        at: layout.at - start,
        end: layout.end - start,
    }
}
