//! A report on its way: the text that isn't written yet, and the sink.

ghost use Rattle.std.specs.Prelude.{◌≡◌, [], length, OnOk, option_map};
ghost use Rattle.frame_player.specs.Outlet.{IsSentBy};

use crate::writing::{write_all, write_pieces};
use play_io::{Sink, SinkFault};

// From this many bytes on a text is written.
const FULL: usize = 65_536;

// A report on its way: the sink that it goes to, and the text that isn't written yet.
#[derive(Drop)]
pub(crate) struct Report<'a, K> {
    pub sink: &'a mut K,
    pub text: &'a mut Vec<u8>,
}

impl<K: Sink> Report<'_, K> {
    // Writes a text that is full, and holds one that isn't.
    pub(crate) fn hand_on(&mut self) -> Result<(), SinkFault>
        ensures { IsSentBy K.written K.faults K.since self.old self.new self.old.text.now.items self.new.text.now.items result }
    {
        if self.text.len() < FULL {
            return Ok(());
        }
        write_pieces(self.sink, self.text)?;
        self.text.clear();
        Ok(())
    }

    // Writes all of the text, and settles what was written.
    pub(crate) fn write_rest(&mut self) -> Result<(), SinkFault>
        ensures sent { IsSentBy K.written K.faults K.since self.old self.new self.old.text.now.items [] result }
        ensures settled { OnOk result (K.settled self.new.sink.now ≡ option_map length (K.written self.new.sink.now)) }
    {
        write_all(self.sink, self.text)
    }
}
