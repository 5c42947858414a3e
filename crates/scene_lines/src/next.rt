//! The answers of the reader of lines.

/// What a reader of lines answers.
#[derive(Clone, Copy, Debug, PartialEq, Eq)]
pub enum Next {
    /// The next line is handed out.
    Line,
    /// The input has ended, and no byte is left.
    End,
    /// The next line has more than `LONGEST_LINE` bytes without its end.
    Long,
    /// A line begins past the limit of lines.
    TooMany,
    /// A read failed.
    ReadFault,
}
