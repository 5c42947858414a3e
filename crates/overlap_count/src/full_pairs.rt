//! The pairs of a set of slots, read by words of 64 slots.

ghost use Rattle.std.specs.Prelude.{◌≡◌, ◌≢◌, ◌+◌, ◌*◌, ◌<◌, ◌≤◌, ◌++◌, ◌==◌, ◌^◌, ℕ, OnOk, length, slice_index, take, vec_len};
ghost use Rattle.std.specs.Int.{bit_at};
ghost use Rattle.overlap_count.specs.FullPairs.{pairs_with};
ghost use Rattle.overlap_count.specs.SlotCounts.{bits_of, pairs_of_bits};

use broad_index::Pair;
use fixed_box::NoMemory;

// Appends the pairs of slot `a` with those slots whose bit is set. What was there stays, after an `Err` too.
pub(crate) fn push_words(a: u32, words: &[u64], out: &mut Vec<Pair>) -> Result<(), NoMemory>
    requires { length words.now ≤ 128 }
    ensures ok { OnOk result (out.new.items
        ≡ out.old.items ++ pairs_with a (λ b. slice_index (bits_of words.now) b == 1) (64 * length words.now)) }
    ensures kept { take (vec_len out.old) out.new.items ≡ out.old.items }
{
    'words: for at in 0..words.len() {
        let word = words[at];
        if word != 0 {
            push_bits(a, 64 * at as u32, word, out)?;
        }
    }
    Ok(())
}

// Appends the pairs of slot `a` with the places of a word whose bit is set. What was there stays, after an `Err` too.
fn push_bits(a: u32, base: u32, word: u64, out: &mut Vec<Pair>) -> Result<(), NoMemory>
    requires { base + 64 < 2 ^ 32 }
    ensures ok { OnOk result (out.new.items ≡ out.old.items ++ pairs_of_bits a base word 64) }
    ensures kept { take (vec_len out.old) out.new.items ≡ out.old.items }
{
    let mut rest = word;
    'bits: while rest != 0 {
        let place = take_lowest(&mut rest);
        out.push(Pair { a, b: base + place })?;
    }
    Ok(())
}

// Takes the lowest bit out of a word, and answers its place.
fn take_lowest(word: &mut u64) -> u32
    requires { 0 < word.old }
    ensures within { result < 64 }
    ensures set { bit_at word.old result ≡ 1 }
    ensures lowest { (k : ℕ) → k < result → bit_at word.old k ≡ 0 }
    ensures taken { bit_at word.new result ≡ 0 }
    ensures others { (k : ℕ) → k < 64 → k ≢ result → bit_at word.new k ≡ bit_at word.old k }
    ensures less { word.new < word.old }
{
    let place = word.trailing_zeros();
    *word &= !(1 << place);
    place
}
