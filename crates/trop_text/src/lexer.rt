//! From bytes to tokens.
ghost use Rattle.std.specs.Prelude.{◌≡◌, ◌+◌, ◌-◌, ◌<◌, ◌≤◌, ◌^◌, ◌↔◌, ◌≢◌, ◌⊎◌, [], length, IfSome, IsSome, IsTrue};
ghost use Rattle.std.specs.List.{prefix_len};
ghost use Rattle.trop_text.specs.Bytes as bytes;
ghost use Rattle.trop_text.specs.Lines as lines;
ghost use Rattle.trop_text.specs.Tokens as tokens;

use crate::bytes::{is_blank, is_digit, is_letter, is_word_byte};
use crate::{Token, TokenKind, lines};

/// What is left of a source, and the place where it begins. Space, tab and carriage return separate tokens and mean
/// nothing else; `#` begins a comment that goes on to the end of its line.
#[derive(Clone, Copy)]
pub struct Lexer<'a> {
    source: &'a [u8],
    rest: &'a [u8],
    line: u32,
    column: u32,
    ghost small: { length source.now ≤ 2 ^ 31 },
    ghost line_fits: { line + length rest.now ≤ 1 + length source.now },
    ghost column_fits: { column + length rest.now ≤ 1 + length source.now },
}

impl<'a> Lexer<'a> {
    ghost use Rattle.trop_text.specs.Lexer.{left, source, line_at, bytes_left, IsAtToken, GivesToken};
    ghost use Rattle.trop_text.specs.Tokens.{tokens_of};
    ghost use Rattle.trop_text.specs.Lexed.{AreTokens};

    /// A lexer over all tokens of a source.
    pub fn new(bytes: &'a [u8]) -> Lexer<'a>
        requires { length bytes.now ≤ 2 ^ 31 }
        ensures tokens { left result ≡ tokens_of bytes.now }
        ensures lexed { AreTokens [] bytes.now (left result) }
        ensures source { source result ≡ bytes.now }
    {
        Lexer {
            source: bytes,
            rest: bytes,
            line: 1,
            column: 1,
        }
    }

    /// The next token. `None` where none is left.
    pub fn next(&mut self) -> Option<Token<'a>>
        ensures tokens { GivesToken (left self.old) result (left self.new) }
        ensures source { source self.new ≡ source self.old }
    {
        self.skip();
        self.take()
    }

    /// Moves to the first byte of the next token, or to the end.
    #[tactic(auto, using(crate::proofs::Skips::tokens_skip), unfolding(crate::specs::Tokens::tokens_past))]
    #[inline(always)]
    pub(crate) fn skip(&mut self)
        ensures tokens { left self.new ≡ left self.old }
        ensures source { source self.new ≡ source self.old }
        ensures at_token { IsAtToken self.new }
    {
        let mut rest = self.rest;
        let mut line = self.line;
        let mut column = self.column;
        'bytes: while let Some((first, after)) = rest.split_first() {
            let b = *first;
            if b == b'\n' {
                line += 1;
                column = 1;
                rest = after;
            } else if is_blank(b) {
                column += 1;
                rest = after;
            } else if b == b'#' {
                let len = lines::line_len(after);
                column += 1 + len as u32;
                rest = after.split_at(len).1;
            } else {
                break;
            }
        }
        *self = Lexer {
            source: self.source,
            rest,
            line,
            column,
        };
    }

    /// Whether no byte is left, or the first one is of another line than this.
    pub(crate) fn is_outside(&self, line: u32) -> bool
        ensures { IsTrue result ↔ ((bytes_left self.now ≡ []) ⊎ (line_at self.now ≢ line)) }
    {
        self.rest.is_empty() || self.line != line
    }

    /// The token with which the rest begins. `None` at the end.
    #[tactic(auto, using(crate::proofs::Skips::tokens_skip), unfolding(crate::specs::Tokens::tokens_past))]
    #[inline(always)]
    pub(crate) fn take(&mut self) -> Option<Token<'a>>
        requires { IsAtToken self.old }
        ensures tokens { GivesToken (left self.old) result (left self.new) }
        ensures source { source self.new ≡ source self.old }
        ensures line { IfSome result (λ t. t.line ≡ line_at self.old) }
        ensures end { IsSome result ↔ (bytes_left self.old ≢ []) }
    {
        let (first, after) = self.rest.split_first()?;
        let (kind, len) = shape(*first, after);
        let (text, rest) = self.rest.split_at(len + 1);
        let token = Token {
            kind,
            text,
            line: self.line,
            column: self.column,
        };
        *self = Lexer {
            source: self.source,
            rest,
            line: self.line,
            column: self.column + 1 + len as u32,
        };
        Some(token)
    }

    /// A lexer over the same source at the same place.
    pub fn copy(&self) -> Lexer<'a>
        ensures tokens { left result ≡ left self.now }
        ensures source { source result ≡ source self.now }
    {
        *self
    }

    /// The number of lines of the source: that of its line feeds, and one more where bytes follow the last.
    pub fn lines(&self) -> u32
        ensures { result ≡ lines.line_count (source self.now) }
    {
        lines::line_count(self.source)
    }

    /// One more than the number of bytes of a line of the source, its line feed not counted, so the column behind its
    /// last byte. Lines count from 1.
    pub fn line_end(&self, line: u32) -> u32
        ensures value { result ≡ lines.end_column (source self.now) line }
        ensures end { 1 ≤ line → line ≤ lines.line_count (source self.now) →
            lines.EndsLine (source self.now) line result }
    {
        lines::line_end(self.source, line)
    }
}

// The kind of the token that begins with b, before the rest, and how many bytes of the rest belong to it.
#[tactic(auto, unfolding(crate::specs::Tokens::tail_len))]
#[inline(always)]
fn shape(b: u8, rest: &[u8]) -> (TokenKind, usize)
    ensures kind { result.0 ≡ tokens.kind_of b rest.now }
    ensures tail { result.1 ≡ tokens.tail_len b rest.now }
    ensures within { result.1 ≤ length rest.now }
{
    if is_letter(b) {
        return (TokenKind::Word, word_len(rest));
    }
    if is_digit(b) {
        return (TokenKind::Digits, digits_len(rest));
    }
    match sign_len(b, rest) {
        0 => (TokenKind::Bad, 0),
        len => (TokenKind::Sign, len - 1),
    }
}

fn word_len(rest: &[u8]) -> usize
    ensures value { result ≡ prefix_len bytes.is_word_byte rest.now }
    ensures within { result ≤ length rest.now }
{
    rest.iter().take_while(|b| is_word_byte(**b)).count()
}

fn digits_len(rest: &[u8]) -> usize
    ensures value { result ≡ prefix_len bytes.is_digit rest.now }
    ensures within { result ≤ length rest.now }
{
    rest.iter().take_while(|b| is_digit(**b)).count()
}

// The length of the longest sign that begins with b, 0 where none does.
#[tactic(auto, unfolding(crate::specs::Tokens::sign_len))]
fn sign_len(b: u8, rest: &[u8]) -> usize
    ensures value { result ≡ tokens.sign_len b rest.now }
    ensures within { result ≤ 1 + length rest.now }
{
    match rest {
        [c, ..] if is_long_sign(b, *c) => 2,
        _ if is_short_sign(b) => 1,
        _ => 0,
    }
}

fn is_long_sign(b: u8, c: u8) -> bool
    ensures { result ≡ tokens.is_long_sign b c }
{
    match b {
        b'<' | b'>' | b'!' | b':' => c == b'=',
        b'=' => c == b'=' || c == b'>',
        b'&' => c == b'&',
        b'|' => c == b'|',
        _ => false,
    }
}

fn is_short_sign(b: u8) -> bool
    ensures { result ≡ tokens.is_short_sign b }
{
    match b {
        b'<' | b'>' | b'=' | b'!' | b'?' | b'(' | b')' | b'[' | b']' => true,
        b'{' | b'}' | b',' | b';' | b'+' | b'-' => true,
        _ => false,
    }
}
