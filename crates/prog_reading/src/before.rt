//! A piece of a program, with what stands before it.
ghost use Rattle.std.specs.Prelude.{◌≡◌, ◌+◌, ◌<◌, ◌^◌};
ghost use Rattle.std.specs.List.{list_all};
ghost use Rattle.std.specs.Str.{bytes_eq};
ghost use Rattle.trop_text.specs.Bytes.{is_digit};
ghost use Rattle.trop_text.specs.Lexed.{are_digits};
ghost use Rattle.trop_text.specs.Pieces.{piece_of};
ghost use Rattle.prog_texts.specs.Words as spec;
ghost use Rattle.prog_reading.specs.Left.{before_of, entry_of};

use trop_text::{Piece, is_name};

/// What stands before a piece.
#[derive(Clone, Copy)]
pub struct Before<'a> {
    /// The text of the last token.
    pub last: &'a [u8],
    /// Whether that token is the `(` behind `max` or `min`.
    pub sums: bool,
    /// Whether the declaration is not ended.
    pub declares: bool,
    /// How many names the declaration has.
    pub names: u64,
    /// How many commas stand behind the last `[`.
    pub commas: u64,
    /// How many statements have begun.
    pub statements: u64,
    /// How many atoms, that is comparisons and `?`, have begun.
    pub atoms: u64,
}

/// A piece, with what stands before it.
#[derive(Clone, Copy)]
pub struct Entry<'a> {
    /// A token, the end of a line or the end of the input.
    pub piece: Piece<'a>,
    /// What stands before it in its text.
    pub before: Before<'a>,
}

impl<'a> Before<'a> {
    /// The beginning of a text.
    pub fn nothing() -> Before<'a>
        ensures { before_of result ≡ spec.nothing_before }
    {
        Before {
            last: &[],
            sums: false,
            declares: true,
            names: 0,
            commas: 0,
            statements: 0,
            atoms: 0,
        }
    }
}

// The bytes of a token, and none of an end.
fn text_of<'a>(piece: Piece<'a>) -> &'a [u8]
    ensures { result.now ≡ spec.text_of (piece_of piece.entry) }
{
    match piece {
        Piece::Token(token) => token.text,
        Piece::LineEnd(_) | Piece::InputEnd => &[],
    }
}

/// Whether a text is this word.
pub fn is(text: &[u8], word: &[u8]) -> bool
    ensures { result ≡ bytes_eq text.now word.now }
{
    text == word
}

fn is_digit(b: u8) -> bool
    ensures { result ≡ is_digit b }
{
    b'0' <= b && b <= b'9'
}

fn are_digits(text: &[u8]) -> bool
    ensures { result ≡ are_digits text.now }
{
    match text {
        [] => false,
        [first, rest @ ..] => is_digit(*first) && are_more_digits(rest),
    }
}

fn are_more_digits(text: &[u8]) -> bool
    ensures { result ≡ list_all is_digit text.now }
{
    text.iter().all(|b| is_digit(*b))
}

impl<'a> Entry<'a> {
    /// The bytes of a token, and none of an end.
    pub fn text(self) -> &'a [u8]
        ensures { result.now ≡ spec.text (entry_of self.entry) }
    {
        text_of(self.piece)
    }

    /// Whether it is this word or sign.
    pub fn says(self, word: &[u8]) -> bool
        ensures { result ≡ spec.says word.now (entry_of self.entry) }
    {
        is(self.text(), word)
    }

    /// Whether it is digits.
    pub fn is_digits(self) -> bool
        ensures { result ≡ spec.is_digits (entry_of self.entry) }
    {
        are_digits(self.text())
    }

    /// Whether a variable may have its text as a name.
    pub fn is_variable(self) -> bool
        ensures { result ≡ spec.is_variable (entry_of self.entry) }
    {
        is_name(self.text())
    }

    /// Whether it is the end of the input.
    pub fn is_end(self) -> bool
        ensures { result ≡ spec.is_end (entry_of self.entry) }
    {
        match self.piece {
            Piece::InputEnd => true,
            Piece::Token(_) | Piece::LineEnd(_) => false,
        }
    }

    /// Whether it ends a program that is part of a text.
    pub fn closes(self) -> bool
        ensures { result ≡ spec.closes (entry_of self.entry) }
    {
        self.says(b"end") || self.says(b"start") || self.is_end()
    }

    /// Whether an operand may begin with it.
    pub fn begins_operand(self) -> bool
        ensures { result ≡ spec.begins_operand (entry_of self.entry) }
    {
        self.is_digits() || self.says(b"-") || self.is_variable()
    }

    /// Whether a statement begins with it.
    pub fn begins_statement(self) -> bool
        ensures { result ≡ spec.begins_statement (entry_of self.entry) }
    {
        self.says(b"havoc")
            || self.says(b"assume")
            || self.says(b"assert")
            || self.says(b"if")
            || self.says(b"while")
            || self.says(b"skip")
            || (self.is_variable() && is_fresh(self.before.last))
    }

    /// Whether an atom begins with it.
    pub fn begins_atom(self) -> bool
        ensures { result ≡ spec.begins_atom (entry_of self.entry) }
    {
        (self.says(b"?") || self.begins_operand())
            && is_asking(self.before.last)
            && !self.before.sums
    }

    /// What stands before the piece that follows.
    pub fn behind(self) -> Before<'a>
        requires names { self.before.names + 1 < 2 ^ 64 }
        requires commas { self.before.commas + 1 < 2 ^ 64 }
        requires statements { self.before.statements + 1 < 2 ^ 64 }
        requires atoms { self.before.atoms + 1 < 2 ^ 64 }
        ensures { before_of result ≡ spec.behind (entry_of self.entry) }
    {
        let before = self.before;
        let text = self.text();
        Before {
            last: self.last_text(),
            sums: self.sums_after(),
            declares: until_end(before.declares, text),
            names: one_more(before.declares && self.is_variable(), before.names),
            commas: commas_after(before.commas, text),
            statements: one_more(self.begins_statement(), before.statements),
            atoms: one_more(self.begins_atom(), before.atoms),
        }
    }

    // The text of the last token behind this piece.
    fn last_text(self) -> &'a [u8]
        ensures { result.now ≡ spec.last_text self.entry.before.last.now (piece_of self.entry.piece) }
    {
        match self.piece {
            Piece::Token(token) => token.text,
            Piece::LineEnd(_) | Piece::InputEnd => self.before.last,
        }
    }

    // Whether the last token behind this piece is the `(` behind `max` or `min`.
    fn sums_after(self) -> bool
        ensures { result ≡ spec.sums_after (before_of self.entry.before) (piece_of self.entry.piece) }
    {
        match self.piece {
            Piece::Token(token) => is(token.text, b"(") && is_sum_word(self.before.last),
            Piece::LineEnd(_) | Piece::InputEnd => self.before.sums,
        }
    }
}

// A set begins behind one of these.
fn is_fresh(last: &[u8]) -> bool
    ensures { result ≡ spec.is_fresh last.now }
{
    is(last, b";") || is(last, b"{") || is(last, b"}")
}

// An atom begins behind one of these.
fn is_asking(last: &[u8]) -> bool
    ensures { result ≡ spec.is_asking last.now }
{
    is(last, b"assume")
        || is(last, b"if")
        || is(last, b"while")
        || is(last, b"!")
        || is(last, b"(")
        || is(last, b"&&")
        || is(last, b"||")
}

fn is_sum_word(word: &[u8]) -> bool
    ensures { result ≡ spec.is_sum_word word.now }
{
    is(word, b"max") || is(word, b"min")
}

fn one_more(counts: bool, n: u64) -> u64
    requires { n + 1 < 2 ^ 64 }
    ensures { result ≡ spec.one_more counts n }
{
    if counts { n + 1 } else { n }
}

// `;` ends the declaration.
fn until_end(declares: bool, text: &[u8]) -> bool
    ensures { result ≡ spec.until_end declares text.now }
{
    if is(text, b";") { false } else { declares }
}

// How many commas stand behind the last `[`.
fn commas_after(commas: u64, text: &[u8]) -> u64
    requires { commas + 1 < 2 ^ 64 }
    ensures { result ≡ spec.commas_after commas text.now }
{
    if is(text, b"[") {
        0
    } else {
        one_more(is(text, b","), commas)
    }
}
