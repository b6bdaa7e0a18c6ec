//! How far a reader has come.

/// What one more word leads to, where it is no wrong one.
#[derive(Debug, Drop)]
pub enum Progress<S, V> {
    /// More words are to be read, from this state.
    Goes(S),
    /// It was the closing bracket: this is what the words before it say.
    Done(V),
}
