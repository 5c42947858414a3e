//! The two reasons why a text is no coordinate.

/// Why a text is no coordinate.
#[derive(Clone, Copy, Debug, PartialEq, Eq)]
pub enum FixFault {
    /// The text hasn't the shape of a number.
    Form,
    /// The number lies outside 32 bits.
    Range,
}
