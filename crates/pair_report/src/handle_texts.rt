//! A cache of the texts of handles by slot, since a handle is told again and again.

ghost use Rattle.std.specs.Prelude.{◌≡◌, ◌++◌, OnOk, OnErr, IfSome};
ghost use Rattle.pair_report.specs.PairReport.{told_line};

use crate::handle_text::HandleText;
use crate::put_told;
use crate::short_line::put_short;
use fixed_box::{NoMemory, SLOTS};
use live_table::Handle;
use pair_events::Told;
use std::alloc::Global;

/// The text of handles by their slots, each as it was put last, so that it is made once and copied then.
///
/// It takes 28 bytes for each slot up to the greatest that it has seen, where there is memory for them.
#[derive(Drop)]
pub struct HandleTexts {
    // Each text has its own handle beside it, so that an entry at any slot is right.
    kept: Vec<HandleText>,
}

impl HandleTexts {
    /// No text yet. It takes no memory.
    pub fn new(alloc: Global) -> HandleTexts {
        HandleTexts {
            kept: Vec::new(alloc),
        }
    }

    /// What became of a pair, as the function `put_told` has it. A line of handles that were put before is a few copies of fixed
    /// size. Any other line is made as that function makes it, and its texts are kept where there is memory for them.
    #[inline]
    pub fn put_told(&mut self, told: &Told, out: &mut Vec<u8>) -> Result<(), NoMemory>
        ensures ok { OnOk result (out.new.items ≡ out.old.items ++ told_line told.now) }
        ensures err { OnErr result (out.new.items ≡ out.old.items) }
    {
        if let Some(a) = self.text(told.pair.a) {
            if let Some(b) = self.text(told.pair.b) {
                return put_short(told.event, a, b, out);
            }
        }
        self.keep(told.pair.a);
        self.keep(told.pair.b);
        put_told(told, out)
    }

    // The text of a handle, where it is kept.
    #[inline(always)]
    fn text(&self, handle: Handle) -> Option<&HandleText>
        ensures { IfSome result (λ text. text.now.handle ≡ handle) }
    {
        let slot = handle.slot as usize;
        if slot < self.kept.len() {
            let text = &self.kept[slot];
            if text.handle == handle {
                return Some(text);
            }
        }
        None
    }

    // Keeps the text of a handle. Slots before it that have none get a copy, which is none of theirs.
    #[inline(never)]
    fn keep(&mut self, handle: Handle) {
        if handle.slot >= SLOTS {
            return;
        }
        let slot = handle.slot as usize;
        let Some(text) = HandleText::new(handle) else {
            return;
        };
        if slot < self.kept.len() {
            self.kept[slot] = text;
            return;
        }
        // Without memory the text isn't kept.
        let _ = self.kept.resize(slot + 1, text);
    }
}
