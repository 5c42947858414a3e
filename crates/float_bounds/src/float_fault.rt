//! The reasons why floats give no coordinate or no box.

/// Why floating-point numbers give no coordinate, or no box.
#[derive(Clone, Copy, Debug, PartialEq, Eq)]
pub enum FloatFault {
    /// The bits are those of a NaN.
    NotANumber,
    /// An infinity, or a number that is rounded to a raw number outside 32 bits.
    OutOfRange,
    /// On some axis of a box the lower number lies above the upper one.
    Inverted,
}
