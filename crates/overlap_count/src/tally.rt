//! Counts in words of 64: each has one bit in either of two words, and changes without a branch.

ghost use Rattle.std.specs.Prelude.{◌≡◌, ◌≢◌, ◌+◌, ◌-◌, ◌<◌, ◌≤◌, ◌==◌, ◌&&◌, true, ℕ, if◌then◌else◌};
ghost use Rattle.std.specs.Int.{bit_at};
ghost use Rattle.overlap_count.specs.SlotCounts.{blank, digit};

// Sixty-four counts from 0 to 3. Bit k of each word is one of the two binary digits of count k.
#[derive(Clone, Copy)]
pub(crate) struct Tally {
    pub(crate) low: u64,
    pub(crate) high: u64,
}

impl Tally {
    // All counts are 0.
    pub(crate) fn blank() -> Tally
        ensures { result ≡ blank }
    {
        Tally { low: 0, high: 0 }
    }

    // The count at a place.
    pub(crate) fn count(self, place: u32) -> u8
        requires { place < 64 }
        ensures count { result ≡ digit self place }
        ensures small { result ≤ 3 }
    {
        let low = (self.low >> place) & 1;
        let high = (self.high >> place) & 1;
        (low + 2 * high) as u8
    }

    // Whether one more at a place, where it `rises`, makes 3.
    pub(crate) fn fills(self, place: u32, rises: bool) -> bool
        requires { place < 64 }
        ensures { result ≡ (rises && digit self place == 2) }
    {
        let bit = bit_if(place, rises);
        self.high & (self.low ^ bit) & bit != 0
    }

    // Whether the count at a place is 3, where it `lowers`.
    pub(crate) fn empties(self, place: u32, lowers: bool) -> bool
        requires { place < 64 }
        ensures { result ≡ (lowers && digit self place == 3) }
    {
        let bit = bit_if(place, lowers);
        self.high & self.low & bit != 0
    }

    // The tally with one more at a place, where it `rises`: a low digit of 1 carries.
    pub(crate) fn raised(self, place: u32, rises: bool) -> Tally
        requires place { place < 64 }
        requires room { rises ≡ true → digit self place < 3 }
        ensures here { digit result place ≡ (if rises then digit self place + 1 else digit self place) }
        ensures others { (k : ℕ) → k < 64 → k ≢ place → digit result k ≡ digit self k }
    {
        let bit = bit_if(place, rises);
        let carry = self.low & bit;
        Tally {
            low: self.low ^ bit,
            high: self.high ^ carry,
        }
    }

    // The tally with one less at a place, where it `lowers`: a low digit that comes to 1 was borrowed.
    pub(crate) fn lowered(self, place: u32, lowers: bool) -> Tally
        requires place { place < 64 }
        requires above { lowers ≡ true → digit self place ≢ 0 }
        ensures here { digit result place ≡ (if lowers then digit self place - 1 else digit self place) }
        ensures others { (k : ℕ) → k < 64 → k ≢ place → digit result k ≡ digit self k }
    {
        let bit = bit_if(place, lowers);
        let low = self.low ^ bit;
        let borrow = low & bit;
        Tally {
            low,
            high: self.high ^ borrow,
        }
    }

    // The tally with 0 at a place.
    pub(crate) fn without(self, place: u32) -> Tally
        requires { place < 64 }
        ensures here { digit result place ≡ 0 }
        ensures others { (k : ℕ) → k < 64 → k ≢ place → digit result k ≡ digit self k }
    {
        let bit = 1u64 << place;
        Tally {
            low: self.low & !bit,
            high: self.high & !bit,
        }
    }
}

// The word of one bit at a place, where it `does`, and else 0.
fn bit_if(place: u32, does: bool) -> u64
    requires { place < 64 }
    ensures here { bit_at result place ≡ (if does then 1 else 0) }
    ensures others { (k : ℕ) → k ≢ place → bit_at result k ≡ 0 }
{
    u64::from(does) << place
}
