/// What a reader came to.
#[derive(Clone, Copy, Debug, PartialEq, Eq)]
pub enum Step {
    /// A line, which the reader shows.
    Line,
    /// A line of more than `MAX_IMPORT_LINE` bytes, which is gone.
    TooLong,
    /// The end of the input.
    End,
}
