//! A whole text written to a sink in as many writes as it takes.

ghost use Rattle.std.specs.Prelude.{◌≡◌, [], length, OnOk, option_map};
ghost use Rattle.frame_player.specs.Outlet.{outlet, IsSent};

use play_io::{Sink, SinkFault};

/// Writes a whole text to a sink, in as many writes as it takes, and settles it with one flush.
///
/// After an `Err` a part of the text is written, and the sink isn't called again.
pub fn write_all<K: Sink>(sink: &mut K, text: &[u8]) -> Result<(), SinkFault>
    ensures sent { IsSent (outlet (K.written sink.old) (K.faults sink.old) (K.since sink.old))
        (outlet (K.written sink.new) (K.faults sink.new) (K.since sink.new))
        text.now [] result }
    ensures settled { OnOk result (K.settled sink.new ≡ option_map length (K.written sink.new)) }
{
    write_pieces(sink, text)?;
    sink.flush()
}

// Writes a whole text.
pub(crate) fn write_pieces<K: Sink>(sink: &mut K, text: &[u8]) -> Result<(), SinkFault>
    ensures { IsSent (outlet (K.written sink.old) (K.faults sink.old) (K.since sink.old))
        (outlet (K.written sink.new) (K.faults sink.new) (K.since sink.new))
        text.now [] result }
{
    let mut rest = text;
    'writes: while !rest.is_empty() {
        let count = sink.write(rest)?;
        rest = rest.split_at(count).1;
    }
    Ok(())
}
