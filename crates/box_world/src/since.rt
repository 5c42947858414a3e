//! How much of the last frame a world still knows to hold.

ghost use Rattle.std.specs.Prelude.{◌≡◌};
ghost use Rattle.box_world.specs.Parts.{still_current};

// What of the last frame still holds of the boxes as they stand.
#[derive(Clone, Copy)]
pub(crate) enum Since {
    // A box got other masks or another owner and fixed mark, or went, or the world went back: nothing is known.
    Changed,
    // Boxes moved or came, and no more: those of the last pairs are live, and may pair.
    Current,
    // The pairs of the last frame are those of the boxes.
    Same,
}

impl Since {
    // What still holds after a box moved or came.
    pub(crate) fn still_current(self) -> Since
        ensures { result ≡ still_current self }
    {
        match self {
            Since::Changed => Since::Changed,
            Since::Current => Since::Current,
            Since::Same => Since::Current,
        }
    }
}
