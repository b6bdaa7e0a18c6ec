//! A token of a query's text.

/// What a token is.
#[derive(Clone, Copy, Debug, PartialEq, Eq)]
pub enum TokenKind {
    /// `[A-Za-z_:][A-Za-z0-9_:]*`: a name or a word of the language.
    Name,
    /// A number without a sign, as `10`, `.5` or `1e-3`.
    Number,
    /// Digits and a unit, once or more often, as `5m` or `1h30m`.
    Duration,
    /// A text between `"` or `'`, with the quotes.
    Str,
    /// One of `( ) { } [ ] , = =~ == != !~ < <= > >= + - * / %`.
    Mark,
}

/// One token, as a part of the text that it stands in.
#[derive(Clone, Copy, Debug, PartialEq, Eq)]
pub struct Token {
    /// What it is.
    pub kind: TokenKind,
    /// The place of its first byte, counted from 0.
    pub at: u64,
    /// How many bytes it has, at least 1.
    pub len: u64,
}
