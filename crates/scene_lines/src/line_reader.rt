//! The reader of lines: it cuts them out of a source, counts them and keeps their limits.

ghost use Rattle.std.specs.Prelude.{◌≡◌, ◌≢◌, ◌+◌, ◌-◌, ◌^◌, ◌<◌, ◌≤◌, ◌∷◌, [], length, true, false, IfOk, IfSome, option_map, nat_lt, if◌then◌else◌};
ghost use Rattle.scene_lines.specs.Next.{answer_at, number_after, is_last, OnLine, OnLast, OnFault, UnlessFault};
ghost use Rattle.scene_lines.specs.Reading.{coming, IsSound};
ghost use Rattle.scene_lines.specs.SceneLines.{lines, has_feed, length_ahead, line_ahead, past_line};
ghost use Rattle.scene_lines.specs.declared.TheConstants.{MOST_LINES, BUFFER_LEN};

use crate::line_buffer::{LineBuffer, line_len};
use crate::{LONGEST_LINE, Next};
use fixed_box::NoMemory;
use play_io::{Failed, Source};
use std::alloc::Global;
use std::marker::Model;

/// Hands out the lines of a source one at a time. It takes all its memory when it is made.
#[derive(Drop)]
pub struct LineReader {
    buffer: LineBuffer,
    limit: u32,
    number: u32,
    ended: bool,
}

impl Model for LineReader {
    ghost use Rattle.scene_lines.specs.Reading.{Reading, IsSound};

    ghost Value = { Reading };

    ghost view = { λ r. record { limit = r.limit; line = r.buffer.line; number = r.number; ended = r.ended; over = r.buffer.over; held = r.buffer.held } };

    ghost invariant = { λ r. IsSound record {
      limit = r.limit;
      line = r.buffer.line;
      number = r.number;
      ended = r.ended;
      over = r.buffer.over;
      held = r.buffer.held;
    } };
}

impl LineReader {
    /// A reader that hands out at most `limit` lines. It has handed out none, and takes a buffer of `BUFFER_LEN` bytes.
    pub fn new(alloc: Global, limit: u32) -> Result<LineReader, NoMemory>
        requires some { 1 ≤ limit }
        requires within { limit ≤ MOST_LINES }
        ensures { IfOk result (λ reader. reader ≡ record { limit = limit; line = []; number = 0; ended = false; over = false; held = [] }) }
    {
        Ok(LineReader {
            buffer: LineBuffer::new(alloc)?,
            limit,
            number: 0,
            ended: false,
        })
    }

    /// Seeks the next line: the bytes up to a line feed, or up to the end of the input where bytes remain there, without
    /// one carriage return at their end. The source is read only where the bytes held don't settle the answer. Any answer
    /// but `Line` is the last.
    pub fn next<S: Source>(&mut self, source: &mut S) -> Next
        requires open { self.old.ended ≡ false }
        requires countable { S.faults source.old < 2 ^ 64 - 1 }
        requires at_end { self.old.over ≡ true → IfSome (S.left source.old) (λ left. left ≡ []) }

        // The answer, of the bytes held and those that the source has left.
        ensures exact { UnlessFault result (IfSome (coming self.old.held (S.left source.old))
            (λ bytes. result ≡ answer_at self.old.limit self.old.number bytes)) }

        // A line, and what comes after it.
        ensures line { OnLine result (IfSome (coming self.old.held (S.left source.old)) (λ bytes. self.new.line ≡ line_ahead bytes)) }
        ensures rest { OnLine result (coming self.new.held (S.left source.new) ≡ option_map past_line (coming self.old.held (S.left source.old))) }
        ensures first { OnLine result (IfSome (coming self.old.held (S.left source.old)) (λ bytes. IfSome (coming self.new.held (S.left source.new))
            (λ rest. lines bytes true ≡ self.new.line ∷ lines rest true))) }
        ensures last_at_end { OnLine result (IfSome (coming self.old.held (S.left source.old)) (λ bytes. has_feed bytes ≡ false → self.new.over ≡ true)) }
        ensures within { OnLine result (self.new.number ≤ self.new.limit) }

        // Any other answer hands out nothing.
        ensures kept { OnLast result (coming self.new.held (S.left source.new) ≡ coming self.old.held (S.left source.old)) }
        ensures kept_line { OnLast result (self.new.line ≡ self.old.line) }
        ensures end_over { result ≡ Next.End → self.new.over ≡ true }

        // Always.
        ensures number { self.new.number ≡ number_after result self.old.number }
        ensures ended { self.new.ended ≡ is_last result }
        ensures limit { self.new.limit ≡ self.old.limit }
        ensures countable { self.new.number ≤ self.new.limit + 1 }
        ensures short { length self.new.line ≤ LONGEST_LINE }
        ensures small { length self.new.held ≤ BUFFER_LEN }

        // A read that fails leaves bytes from which no answer follows.
        ensures fault { OnFault result (S.faults source.old < S.faults source.new) }
        ensures no_fault { UnlessFault result (S.faults source.new ≡ S.faults source.old) }
        ensures unfinished { OnFault result (has_feed self.new.held ≡ false) }
        ensures unfinished_short { OnFault result (length self.new.held ≤ LONGEST_LINE + 1) }
        ensures unfinished_within { OnFault result (self.new.limit ≤ self.new.number → self.new.held ≡ []) }

        // Once a read has answered the end of the input, none follows.
        ensures over_unread { self.old.over ≡ true → source.new ≡ source.old }
        ensures over_stays { self.old.over ≡ true → self.new.over ≡ true }
        ensures over_sound { self.old.over ≡ true → result ≢ Next.ReadFault }
        ensures over_at_end { self.new.over ≡ true → IfSome (S.left source.new) (λ left. left ≡ []) }

        // Nor is the source read where the bytes held settle the answer.
        ensures line_unread { has_feed self.old.held ≡ true → source.new ≡ source.old }
        ensures long_unread { LONGEST_LINE + 1 < length self.old.held → source.new ≡ source.old }
        ensures too_many_unread { self.old.limit ≤ self.old.number → 0 < length self.old.held → source.new ≡ source.old }
    {
        let most = self.most_unsettled();
        match self.buffer.seek(source, most) {
            Ok(len) => self.settle(len),
            Err(Failed) => {
                self.ended = true;
                Next::ReadFault
            }
        }
    }

    // How many bytes may be held with no line feed among them, and not settle the answer: none past the limit, and else
    // those of the longest line with a carriage return.
    fn most_unsettled(&self) -> usize
        ensures { result ≡ (if nat_lt self.now.number self.now.limit then LONGEST_LINE + 1 else 0) }
    {
        if self.number < self.limit {
            LONGEST_LINE + 1
        } else {
            0
        }
    }

    // Answers the bytes held, `len` of which stand before the first line feed, and hands out their first line.
    fn settle(&mut self, len: usize) -> Next
        requires ahead { len ≡ length_ahead self.old.held }
        requires open { self.old.ended ≡ false }
        ensures answer { result ≡ answer_at self.old.limit self.old.number self.old.held }
        ensures line { OnLine result (self.new ≡ record self.old {
          line = line_ahead self.old.held;
          held = past_line self.old.held;
          number = self.old.number + 1;
        }) }
        ensures last { OnLast result (self.new ≡ record self.old { number = number_after result self.old.number; ended = true }) }
        ensures sound { IsSound self.new }
    {
        let next = self.answer(len);
        match next {
            Next::Line => {
                self.buffer.hand_out(len);
                self.number += 1;
            }
            Next::Long | Next::TooMany => {
                self.number += 1;
                self.ended = true;
            }
            _ => self.ended = true,
        }
        next
    }

    // The answer at the bytes held, `len` of which stand before the first line feed.
    fn answer(&self, len: usize) -> Next
        requires { len ≡ length_ahead self.now.held }
        ensures answer { result ≡ answer_at self.now.limit self.now.number self.now.held }
        ensures short { OnLine result (length (line_ahead self.now.held) ≤ LONGEST_LINE) }
        ensures within { OnLine result (self.now.number < self.now.limit) }
    {
        let held = self.buffer.held();
        if held.is_empty() {
            Next::End
        } else if self.number >= self.limit {
            Next::TooMany
        } else if line_len(held, len) > LONGEST_LINE {
            Next::Long
        } else {
            Next::Line
        }
    }

    /// The last line handed out, without its end. Empty before the first.
    pub fn line(&self) -> &[u8]
        ensures value { result.now ≡ self.now.line }
        ensures short { length result.now ≤ LONGEST_LINE }
    {
        self.buffer.line()
    }

    /// The number of the last line, 0 before the first. After `Long` and `TooMany` it is the number of the line refused.
    pub fn number(&self) -> u32
        ensures value { result ≡ self.now.number }
        ensures countable { result ≤ self.now.limit + 1 }
        ensures small { self.now.limit ≤ MOST_LINES }
    {
        self.number
    }

    /// Whether an answer other than a line was given. It is for callers of `next`, which asks that none was.
    pub fn ended(&self) -> bool
        ensures { result ≡ self.now.ended }
    {
        self.ended
    }
}
