//! The read buffer: the last line that was cut, and the bytes behind it.

ghost use Rattle.std.specs.Prelude.{◌≡◌, ◌+◌, ◌<◌, ◌≤◌, ◌↔◌, true, false, [], length, take, drop, vec_len, IsTrue, IfOk, OnOk, OnErr, IfSome, MatchResult};
ghost use Rattle.play_io.specs.Source.{TakesNext, IsReadOf, ReadCount, CountsFault};
ghost use Rattle.scene_lines.specs.Reading.{coming};
ghost use Rattle.scene_lines.specs.SceneLines.{has_feed, length_ahead, line_ahead, past_line};
ghost use Rattle.scene_lines.specs.declared.TheConstants.{LONGEST_LINE};

use crate::BUFFER_LEN;
use crate::layout::{Layout, make_room};
use fixed_box::NoMemory;
use memchr::memchr;
use play_io::{Failed, Source};
use std::alloc::Global;
use std::marker::Model;

/// The last line handed out, and behind it the bytes that were taken from a source and not handed out.
#[derive(Drop)]
pub(crate) struct LineBuffer {
    bytes: Vec<u8>,
    layout: Layout,
    over: bool,
}

impl Model for LineBuffer {
    ghost use Rattle.std.specs.Prelude.{◌≡◌, slice_range, vec_len};
    ghost use Rattle.scene_lines.specs.Reading.{Buffered};
    ghost use Rattle.scene_lines.specs.Layout.{IsLaidOut};
    ghost use Rattle.scene_lines.specs.declared.TheConstants.{BUFFER_LEN};

    ghost Value = { Buffered };

    ghost view = { λ b. record {
      line = slice_range b.bytes.items b.layout.line_start b.layout.line_end;
      held = slice_range b.bytes.items b.layout.at b.layout.end;
      over = b.over;
    } };

    ghost invariant = { λ b. (vec_len b.bytes ≡ BUFFER_LEN) × IsLaidOut b.layout };
}

impl LineBuffer {
    /// A buffer with no line and no byte held.
    pub(crate) fn new(alloc: Global) -> Result<LineBuffer, NoMemory>
        ensures { IfOk result (λ buffer. buffer ≡ record { line = []; held = []; over = false }) }
    {
        let layout = Layout {
            line_start: 0,
            line_end: 0,
            at: 0,
            end: 0,
        };
        let bytes = Vec::from_elem(alloc, 0u8, BUFFER_LEN)?;
        Ok(LineBuffer {
            bytes,
            layout,
            over: false,
        })
    }

    /// The last line handed out.
    pub(crate) fn line(&self) -> &[u8]
        ensures value { result.now ≡ self.now.line }
        ensures short { length self.now.line ≤ LONGEST_LINE }
    {
        let all = self.bytes.as_slice();
        &all[self.layout.line_start..self.layout.line_end]
    }

    /// The bytes taken and not handed out.
    pub(crate) fn held(&self) -> &[u8]
        ensures value { result.now ≡ self.now.held }
        ensures small { length self.now.held ≤ BUFFER_LEN }
    {
        let all = self.bytes.as_slice();
        &all[self.layout.at..self.layout.end]
    }

    /// Reads until the bytes held have a line feed, are more than `most`, or the input has ended. Answers how many of
    /// them stand before the first line feed.
    pub(crate) fn seek<S: Source>(&mut self, source: &mut S, most: usize) -> Result<usize, Failed>
        requires few { most ≤ LONGEST_LINE + 1 }
        requires at_end { self.old.over ≡ true → IfSome (S.left source.old) (λ left. left ≡ []) }
        ensures ahead { IfOk result (λ len. len ≡ length_ahead self.new.held) }
        ensures settled { OnOk result (has_feed self.new.held ≡ false → self.new.over ≡ false → most < length self.new.held) }
        ensures unsettled { OnErr result ((has_feed self.new.held ≡ false) × (length self.new.held ≤ most)) }
        ensures coming { coming self.new.held (S.left source.new) ≡ coming self.old.held (S.left source.old) }
        ensures line { self.new.line ≡ self.old.line }
        ensures small { length self.new.held ≤ BUFFER_LEN }
        ensures at_end { self.new.over ≡ true → IfSome (S.left source.new) (λ left. left ≡ []) }
        ensures over { self.old.over ≡ true → (source.new ≡ source.old) × (self.new ≡ self.old) }
        ensures found { has_feed self.old.held ≡ true → (source.new ≡ source.old) × (self.new ≡ self.old) }
        ensures enough { most < length self.old.held → (source.new ≡ source.old) × (self.new ≡ self.old) }
        ensures count { MatchResult result (λ _. S.faults source.new ≡ S.faults source.old) (λ _. CountsFault (S.faults source.old) (S.faults source.new)) }
    {
        let mut len = place_of_feed(self.held(), 0);
        'reads: while self.is_unsettled(len, most) {
            self.read_more(source)?;
            len = place_of_feed(self.held(), len);
        }
        Ok(len)
    }

    // Whether more is to be read, where `len` bytes stand before the first line feed: there is none, the input goes on,
    // and no more than `most` bytes are held.
    #[tactic(auto, using(crate::proofs::Cutting::no_feed_from, crate::proofs::Cutting::no_feed_below))]
    fn is_unsettled(&self, len: usize, most: usize) -> bool
        requires { len ≡ length_ahead self.now.held }
        ensures { IsTrue result ↔ ((has_feed self.now.held ≡ false) × (self.now.over ≡ false) × (length self.now.held ≤ most)) }
    {
        let held = self.held().len();
        if self.over || held > most {
            return false;
        }
        len == held
    }

    // Reads once. No byte is taken only at the end of the input.
    fn read_more<S: Source>(&mut self, source: &mut S) -> Result<(), Failed>
        requires few { length self.old.held ≤ LONGEST_LINE + 1 }
        requires unended { self.old.over ≡ false }
        ensures coming { coming self.new.held (S.left source.new) ≡ coming self.old.held (S.left source.old) }
        ensures line { self.new.line ≡ self.old.line }
        ensures kept { take (length self.old.held) self.new.held ≡ self.old.held }
        ensures more { OnOk result (self.new.over ≡ false → length self.old.held < length self.new.held) }
        ensures at_end { OnOk result (self.new.over ≡ true → IfSome (S.left source.new) (λ left. left ≡ [])) }
        ensures end { OnOk result (self.new.over ≡ true → self.new.held ≡ self.old.held) }
        ensures err { OnErr result ((self.new.held ≡ self.old.held) × (self.new.over ≡ self.old.over)) }
        ensures small { length self.new.held ≤ BUFFER_LEN }
        ensures count { MatchResult result (λ _. S.faults source.new ≡ S.faults source.old) (λ _. CountsFault (S.faults source.old) (S.faults source.new)) }
    {
        self.layout = make_room(&mut self.bytes, self.layout);
        let count = fill(source, &mut self.bytes, self.layout.end, &mut self.over)?;
        self.layout.end += count;
        Ok(())
    }

    /// Hands out the first line of the bytes held, which ends before byte `len`.
    pub(crate) fn hand_out(&mut self, len: usize)
        requires ahead { len ≡ length_ahead self.old.held }
        requires short { length (line_ahead self.old.held) ≤ LONGEST_LINE }
        ensures { self.new ≡ record { line = line_ahead self.old.held; held = past_line self.old.held; over = self.old.over } }
    {
        let line_len = line_len(self.held(), len);
        let layout = self.layout;
        self.layout = Layout {
            line_start: layout.at,
            line_end: layout.at + line_len,
            at: (layout.at + len + 1).min(layout.end),
            end: layout.end,
        };
    }
}

// Reads once into what lies behind the first `end` bytes of a buffer. Whoever reads says by `over` that no read has
// answered the end before, so none follows one that has.
fn fill<S: Source>(
    source: &mut S,
    bytes: &mut [u8],
    end: usize,
    over: &mut bool,
) -> Result<usize, Failed>
    requires within { end ≤ length bytes.old }
    requires unended { over.old ≡ false }
    ensures over { (over.new ≡ true) ↔ (result ≡ Ok 0) }
    ensures fault { OnErr result (over.new ≡ false) }
    ensures kept { take end bytes.new ≡ take end bytes.old }
    ensures next { TakesNext (S.left source.old) (S.left source.new) result (drop end bytes.new) }
    ensures length { IsReadOf (S.left source.old) result (drop end bytes.new) }
    ensures count { ReadCount (S.faults source.old) (S.faults source.new) result }
{
    let given = source.read(&mut bytes[end..]);
    *over = given == Ok(0);
    given
}

// How many bytes stand before the first line feed. The first `seen` are known to be none.
fn place_of_feed(bytes: &[u8], seen: usize) -> usize
    requires { seen ≤ length_ahead bytes.now }
    ensures { result ≡ length_ahead bytes.now }
{
    match memchr(b'\n', bytes.split_at(seen).1) {
        Some(found) => seen + found,
        None => bytes.len(),
    }
}

/// How many bytes the first line has, where `len` bytes stand before the first line feed.
pub(crate) fn line_len(bytes: &[u8], len: usize) -> usize
    requires { len ≡ length_ahead bytes.now }
    ensures line { take result bytes.now ≡ line_ahead bytes.now }
    ensures value { result ≡ length (line_ahead bytes.now) }
    ensures near { len ≤ result + 1 }
    ensures within { result ≤ len }
{
    match bytes.split_at(len).0 {
        [front @ .., b'\r'] => front.len(),
        line => line.len(),
    }
}
