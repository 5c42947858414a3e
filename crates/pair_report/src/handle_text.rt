//! The text of a handle, in bytes of fixed size.

ghost use Rattle.std.specs.Prelude.{◌≡◌, ◌≤◌, take, length, IfSome};
ghost use Rattle.pair_report.specs.PairReport.{handle_text};

use crate::lines::put_handle;
use live_table::Handle;
use text_line::TextLine;

// The text of a handle, in bytes of fixed size, of which the first `len` are it.
#[derive(Clone, Copy)]
pub(crate) struct HandleText {
    pub(crate) handle: Handle,
    pub(crate) bytes: [u8; 16],
    pub(crate) len: u32,
    ghost same: { take len bytes ≡ handle_text handle },
    ghost few: { len ≤ 16 },
}

impl HandleText {
    // `None` comes where the text has more bytes: a slot that is live has four digits at most, and a generation ten.
    pub(crate) fn new(handle: Handle) -> Option<HandleText>
        ensures { IfSome result (λ text. text.handle ≡ handle) }
    {
        let mut line = TextLine::new();
        put_handle(handle, &mut line);
        let text = line.bytes();
        if text.len() > 16 {
            return None;
        }
        let mut bytes = [0; 16];
        bytes[..text.len()].copy_from_slice(text);
        Some(HandleText {
            handle,
            bytes,
            len: text.len() as u32,
        })
    }
}
