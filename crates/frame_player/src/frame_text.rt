//! The text of a frame: its line and those of its events.

ghost use Rattle.std.specs.Prelude.{◌++◌, flat_map};
ghost use Rattle.pair_report.specs.PairReport.{frame_line, told_line};
ghost use Rattle.frame_player.specs.FrameText.{shown_number};
ghost use Rattle.frame_player.specs.Outlet.{IsAppended};

use crate::report::Report;
use pair_events::{Events, Told};
use pair_report::{HandleTexts, put_exchanges, put_frame};
use play_io::{Sink, SinkFault};

// The line of a frame, one for each of its events, and that of its exchanges if they are to be shown. The text is
// written a part at a time.
#[tactic(auto, using(crate::proofs::Sending::report_out_of_memory))]
pub(crate) fn send_frame<K: Sink>(
    number: u64,
    pairs: u32,
    events: Events<'_>,
    exchanges: Option<u64>,
    texts: &mut HandleTexts,
    out: &mut Report<'_, K>,
) -> Result<(), SinkFault>
    ensures { IsAppended K.written K.faults K.since out.old out.new
        (frame_line number pairs ++ (flat_map told_line events.entry ++ shown_number exchanges)) result }
{
    put_frame(number, pairs, out.text)?;
    out.hand_on()?;
    send_events(events, texts, out)?;
    send_exchanges(exchanges, out)
}

// A line for each event.
fn send_events<K: Sink>(
    events: Events<'_>,
    texts: &mut HandleTexts,
    out: &mut Report<'_, K>,
) -> Result<(), SinkFault>
    ensures { IsAppended K.written K.faults K.since out.old out.new (flat_map told_line events.entry) result }
{
    let mut rest = events;
    'events: while let Some(event) = rest.next() {
        send_event(&event, texts, out)?;
    }
    Ok(())
}

#[tactic(auto, using(crate::proofs::Sending::report_out_of_memory))]
fn send_event<K: Sink>(
    event: &Told,
    texts: &mut HandleTexts,
    out: &mut Report<'_, K>,
) -> Result<(), SinkFault>
    ensures { IsAppended K.written K.faults K.since out.old out.new (told_line event.now) result }
{
    texts.put_told(event, out.text)?;
    out.hand_on()
}

#[tactic(auto, using(crate::proofs::Sending::report_out_of_memory))]
fn send_exchanges<K: Sink>(exchanges: Option<u64>, out: &mut Report<'_, K>) -> Result<(), SinkFault>
    ensures { IsAppended K.written K.faults K.since out.old out.new (shown_number exchanges) result }
{
    if let Some(number) = exchanges {
        put_exchanges(number, out.text)?;
    }
    out.hand_on()
}
