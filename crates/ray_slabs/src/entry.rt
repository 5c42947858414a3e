//! Where a ray enters a box: an exact fraction of its direction, ordered by value.

ghost use Rattle.std.specs.Prelude.{◌≡◌, pos, ◌^◌, ◌≤ℤ◌, refl};
ghost use Rattle.std.specs.Cmp.{partial_equiv_from_equiv, partial_order_from_agreeing_total};
ghost use Rattle.std.specs.Ordering.{as_partial_cmp, eq_by_cmp};
ghost use Rattle.std.proofs.lemmas.Cmp.{eq_by_cmp_equiv};
ghost use Rattle.ray_slabs.specs.Crossing.{Fraction};
ghost use Rattle.ray_slabs.specs.First.{value_cmp};
ghost use Rattle.ray_slabs.specs.FirstLaws.{value_total};
ghost use Rattle.ray_slabs.specs.Mirrored.{is_before, later_by};

use crate::mirrored_slab::{MirroredSlab, product};
use std::cmp::Ordering;
use std::marker::Model;

/// Where a ray first meets a box: `num / den` of its direction from its start. The numbers have no common factor taken
/// out, and entries are equal and in order by value, so 1/2 equals 2/4.
#[derive(Clone, Copy, Debug)]
pub struct Entry {
    num: i64,
    den: i64,
}

impl Model for Entry {
    ghost use Rattle.ray_slabs.specs.Crossing.{Fraction};
    ghost use Rattle.ray_slabs.specs.Range.{IsEntry};

    ghost Value = { Fraction };

    ghost view = { λ e. record { num = e.num; den = e.den } };

    ghost invariant = { λ e. IsEntry (record { num = e.num; den = e.den }) };

    ghost inverse = { λ v. record { num = v.num; den = v.den } };
}

impl Entry {
    // Where a ray starts.
    pub(crate) fn start() -> Entry
        ensures { result ≡ record { num = pos 0; den = pos 1 } }
    {
        Entry { num: 0, den: 1 }
    }

    // The later of it and where the line comes to the slab, and itself where the line runs along the slab.
    pub(crate) fn later_by(self, slab: &MirroredSlab) -> Entry
        requires { slab.now.way ≤ℤ pos (2 ^ 34) }
        ensures { result ≡ later_by self slab.now }
    {
        if self.is_before(slab) {
            let (num, den) = slab.entry();
            Entry { num, den }
        } else {
            self
        }
    }

    // Whether the line comes to the slab no sooner. Where it runs along the slab it comes to no face.
    fn is_before(&self, slab: &MirroredSlab) -> bool
        ensures { result ≡ is_before self.now slab.now }
    {
        let (near, way) = slab.entry();
        way > 0 && product(self.num, way) <= product(near, self.den)
    }

    /// How many of the `den` parts of the direction lead to the box: 0 where the ray starts in it.
    pub fn num(&self) -> i64
        ensures num { result ≡ self.now.num }
        ensures least { pos 0 ≤ℤ result }
        ensures most { result ≤ℤ pos (2 ^ 35) }
    {
        self.num
    }

    /// Into how many equal parts the direction is cut: its length on one axis in raw units, or 1.
    pub fn den(&self) -> i64
        ensures den { result ≡ self.now.den }
        ensures least { pos 1 ≤ℤ result }
        ensures most { result ≤ℤ pos (2 ^ 34) }
    {
        self.den
    }
}

impl PartialEq for Entry {
    ghost eq = { eq_by_cmp value_cmp };

    ghost laws = { partial_equiv_from_equiv (eq_by_cmp_equiv value_total) };

    fn eq(&self, other: &Entry) -> bool {
        self.cmp(other).is_eq()
    }
}

impl Eq for Entry {
    ghost laws = { eq_by_cmp_equiv value_total };
}

impl PartialOrd for Entry {
    ghost partial_cmp = { as_partial_cmp value_cmp };

    ghost laws = { partial_order_from_agreeing_total value_cmp value_total (λ x y. refl) (λ x y. refl) };

    fn partial_cmp(&self, other: &Entry) -> Option<Ordering> {
        Some(self.cmp(other))
    }
}

/// By value, by cross products in 128 bits.
impl Ord for Entry {
    ghost cmp = { value_cmp };

    ghost total = { value_total };

    ghost matches_partial_cmp = { λ x y. refl };

    ghost matches_eq = { λ x y. refl };

    fn cmp(&self, other: &Entry) -> Ordering {
        product(self.num, other.den).cmp(&product(other.num, self.den))
    }
}
