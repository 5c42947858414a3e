//! The words that may end a line of version 2: owner, fixed and entry.

ghost use Rattle.std.specs.Prelude.{◌≡◌, ◌≤◌, None, length, take, reverse, option_map};
ghost use Rattle.scene_words.specs.declared.verb.Verb.TheVariants as verb;
ghost use Rattle.scene_words.specs.SceneWords.{words};
ghost use Rattle.scene_words.specs.Tails.{off_flag, off_owner, tail_of, counted, shortened};

use crate::Version;
use crate::line_words::{count_words, past_words, word_at};
use crate::verb::Verb;

// How many words of a line count for a row.
pub(crate) fn count_for(verb: Verb, version: Version, further: &[u8]) -> usize
    ensures { result ≡ counted verb version (words further.now) }
{
    match version {
        Version::One => count_words(further),
        Version::Two => match verb {
            Verb::Add => count_for_add(further),
            Verb::Ray => count_for_ray(further),
            _ => count_words(further),
        },
    }
}

// How many words of an `add` there are, without its tail.
fn count_for_add(further: &[u8]) -> usize
    ensures { result ≡ shortened verb.Add (words further.now) }
{
    let count = count_words(further);
    if count < 6 {
        return count;
    }
    6 + add_tail(Version::Two, past_words(further, 6)).0
}

// How many words of a `ray` there are, without its tail.
fn count_for_ray(further: &[u8]) -> usize
    ensures { result ≡ shortened verb.Ray (words further.now) }
{
    let count = count_words(further);
    if count < 6 {
        return count;
    }
    6 + ray_tail(Version::Two, past_words(further, 6)).0
}

// What stands behind the corners of an `add`: how many words before the tail, whose word the owner's is, and whether the
// box is fixed.
pub(crate) fn add_tail(version: Version, rest: &[u8]) -> (usize, Option<&[u8]>, bool)
    ensures tail { tail_of verb.Add version (words rest.now) ≡ record {
      plain = take result.0 (words rest.now);
      owner = option_map (λ word. word.now) result.1;
      flagged = result.2;
    } }
    ensures within { result.0 ≤ length (words rest.now) }
{
    match version {
        Version::One => (count_words(rest), None, false),
        Version::Two => {
            let (count, fixed) = without_flag(b"fixed".as_slice(), rest);
            let (count, owner) = without_owner(rest, count);
            (count, owner, fixed)
        }
    }
}

// What stands behind the direction of a `ray`: how many words before the tail, and whether it lists by entry.
pub(crate) fn ray_tail(version: Version, rest: &[u8]) -> (usize, bool)
    ensures tail { tail_of verb.Ray version (words rest.now) ≡ record {
      plain = take result.0 (words rest.now);
      owner = None;
      flagged = result.1;
    } }
    ensures within { result.0 ≤ length (words rest.now) }
{
    match version {
        Version::One => (count_words(rest), false),
        Version::Two => without_flag(b"entry".as_slice(), rest),
    }
}

// How many words are left without a last one that is this flag, and whether it is there.
fn without_flag(flag: &[u8], rest: &[u8]) -> (usize, bool)
    ensures off { off_flag flag.now (reverse (words rest.now)) ≡ (result.1, reverse (take result.0 (words rest.now))) }
    ensures within { result.0 ≤ length (words rest.now) }
{
    let count = count_words(rest);
    if count == 0 {
        return (count, false);
    }
    if word_at(rest, count - 1) == flag {
        return (count - 1, true);
    }
    (count, false)
}

// How many of the first words are left without an owner at their end, and its word.
fn without_owner(rest: &[u8], count: usize) -> (usize, Option<&[u8]>)
    requires { count ≤ length (words rest.now) }
    ensures off { off_owner (reverse (take count (words rest.now))) ≡ (option_map (λ word. word.now) result.1, reverse (take result.0 (words rest.now))) }
    ensures within { result.0 ≤ length (words rest.now) }
{
    if count < 2 {
        return (count, None);
    }
    if word_at(rest, count - 2) == b"owner".as_slice() {
        return (count - 2, Some(word_at(rest, count - 1)));
    }
    (count, None)
}
