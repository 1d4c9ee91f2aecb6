/// What a call for the next line answers.
#[derive(Clone, Copy, Debug, PartialEq, Eq)]
pub enum Next {
    /// A line that ended by LF.
    Line,
    /// The last bytes, which no LF ends.
    Last,
    /// Nothing is left.
    End,
    /// The line has more bytes than a line may have.
    LineTooLong,
    /// The document has as many bytes as its bound, and the line reaches that byte.
    DocumentTooLong,
    /// The source failed.
    Failed,
}
