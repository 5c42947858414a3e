//! The causes for which a line of a scene is refused.

/// Why a line of a scene is refused.
#[derive(Clone, Copy, Debug, PartialEq, Eq)]
pub enum Cause {
    /// The line is past the limit.
    Lines,
    /// It has more than 1,024 bytes before its end.
    Long,
    /// It comes before a header, or is a second one.
    Header,
    /// Its first word is none of the language.
    Word,
    /// It has too few or too many words.
    Count,
    /// A handle isn't two numbers of 32 bits with a colon between them.
    Handle,
    /// A coordinate hasn't the form of a number.
    Number,
    /// A coordinate isn't among those of 16.16 fixed point.
    Range,
    /// A mask isn't one to eight digits of base 16.
    Mask,
    /// An owner isn't a number of 32 bits in one to ten digits.
    Owner,
    /// A box has a lower corner above its upper one.
    Inverted,
    /// 8,192 boxes live.
    Full,
}
