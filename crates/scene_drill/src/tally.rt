//! The counts of a report, line by line.

ghost use Rattle.std.specs.Prelude.{◌≡◌, ◌^◌, ◌∷◌, []};
ghost use Rattle.scene_drill.specs.Summary.{lines, is_answer_word};
ghost use Rattle.scene_drill.specs.Tally.{IsWithin, plus, tally_of};

use crate::number::number;
use crate::pieces::{cut, first_word};

// How many lines of each kind there are, and the sums of their numbers.
#[derive(Clone, Copy)]
pub(crate) struct Tally {
    pub(crate) adds: u128,
    pub(crate) pairs: u128,
    pub(crate) begin: u128,
    pub(crate) stay: u128,
    pub(crate) over: u128,
    pub(crate) hits: u128,
    pub(crate) exchanges: u128,
}

// The tally of all lines of a report.
pub(crate) fn tally_of(report: &[u8]) -> Tally
    ensures { result ≡ tally_of (lines report.now) }
{
    let mut tally = Tally {
        adds: 0,
        pairs: 0,
        begin: 0,
        stay: 0,
        over: 0,
        hits: 0,
        exchanges: 0,
    };
    let mut rest = report;
    'lines: loop {
        let (line, more) = cut(b'\n', rest);
        tally = with_line(tally, line);
        let Some(after) = more else {
            return tally;
        };
        rest = after;
    }
}

// The tally with one line more. The words that a report has most of are looked for first.
fn with_line(tally: Tally, line: &[u8]) -> Tally
    requires small { IsWithin (2 ^ 63) tally }
    ensures { result ≡ plus tally (tally_of (line.now ∷ [])) }
{
    let (word, rest) = first_word(line);
    if word == b"stay".as_slice() {
        let stay = tally.stay + 1;
        Tally { stay, ..tally }
    } else if word == b"begin".as_slice() {
        let begin = tally.begin + 1;
        Tally { begin, ..tally }
    } else if word == b"over".as_slice() {
        let over = tally.over + 1;
        Tally { over, ..tally }
    } else if word == b"frame".as_slice() {
        let pairs = tally.pairs + number(first_word(first_word(rest).1).0);
        Tally { pairs, ..tally }
    } else if word == b"exchanges".as_slice() {
        let exchanges = tally.exchanges + number(first_word(rest).0);
        Tally { exchanges, ..tally }
    } else if word == b"add".as_slice() {
        let adds = tally.adds + 1;
        Tally { adds, ..tally }
    } else if is_answer_word(word) {
        let hits = tally.hits + number(first_word(rest).0);
        Tally { hits, ..tally }
    } else {
        tally
    }
}

// Whether a line with this first word answers a query.
fn is_answer_word(word: &[u8]) -> bool
    ensures { result ≡ is_answer_word word.now }
{
    word == b"box".as_slice()
        || word == b"point".as_slice()
        || word == b"ray".as_slice()
        || word == b"seg".as_slice()
}
