//! Tokens: bytes that belong together, with their place.

/// What a token is.
#[derive(Clone, Copy, Debug, PartialEq, Eq)]
pub enum TokenKind {
    /// A letter or `_` and then letters, digits and `_`, as long as possible.
    Word,
    /// Digits, as long as possible.
    Digits,
    /// One of the signs of the formats, the longest that fits.
    Sign,
    /// A byte that begins no token.
    Bad,
}

/// A token of a text, with its place. Lines and columns count from 1, and columns in bytes.
#[derive(Clone, Copy, Debug)]
pub struct Token<'a> {
    /// What it is.
    pub kind: TokenKind,
    /// Its bytes, as they stand in the text.
    pub text: &'a [u8],
    /// Its line.
    pub line: u32,
    /// The column of its first byte.
    pub column: u32,
}
