//! The layout of the bits of binary32 and binary64.

// How the bits of a format are laid out: from the highest on a sign, the biased exponent and the trailing significand
// (IEEE 754-2019, 3.4).
#[derive(Clone, Copy)]
pub(crate) struct Format {
    pub exponent_bits: u32,
    pub fraction_bits: u32,
    pub bias: u32,
}

pub(crate) const BINARY32: Format = Format {
    exponent_bits: 8,
    fraction_bits: 23,
    bias: 127,
};

pub(crate) const BINARY64: Format = Format {
    exponent_bits: 11,
    fraction_bits: 52,
    bias: 1_023,
};
