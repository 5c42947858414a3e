//! What a play is handed: threads, gate, options and limits.

ghost use Rattle.std.specs.Prelude.{◌≤◌};
ghost use Rattle.scene_lines.specs.declared.TheConstants.{MOST_LINES};
ghost use Rattle.work_pieces.specs.declared.TheConstants.{MOST_WORKERS};

use crate::{Limits, Options};

// How a scene is played: the runtime whose threads search, the gate that they enter, the options, and what it may have at most.
#[derive(Drop)]
pub(crate) struct Setup<'a, R, G> {
    pub rt: &'a R,
    pub gate: &'a G,
    pub options: Options,
    pub limits: Limits,
    ghost workers: { (1 ≤ options.workers) × (options.workers ≤ MOST_WORKERS) },
    ghost some_lines: { 1 ≤ limits.lines },
    ghost most_lines: { limits.lines ≤ MOST_LINES },
}
