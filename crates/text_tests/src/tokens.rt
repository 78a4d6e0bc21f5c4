//! Tokens with their places, names and digits.
use row_examples::same_text;
use std::test::Fail;
use trop_text::{Lexer, Names, Token, TokenKind, as_name, digits_value, is_name, is_reserved};

// Words, and whether they are names.
const WORDS: [(&str, bool); 6] = [
    ("x", true),
    ("_y2", true),
    ("2y", false),
    ("", false),
    ("inv", false),
    ("inv2", true),
];

#[test]
fn words_that_are_names(rt: HostRuntime) {
    for (word, wanted) in &WORDS {
        assert_eq!(rt; is_name(word.as_bytes()), *wanted, "{word}");
    }
    assert_eq!(rt; is_reserved(b"inv"), true);
}

#[test]
fn names_keep_their_first_order(rt: HostRuntime) -> Result<(), Fail> {
    let mut names = Names::new(rt.alloc());
    let x = as_name(b"x").ok_or("x")?;
    let y = as_name(b"_y2").ok_or("y")?;
    assert_eq!(rt; names.push(rt.alloc(), x)?, true, "the first");
    assert_eq!(rt; names.push(rt.alloc(), y)?, true, "another");
    assert_eq!(rt; names.push(rt.alloc(), x)?, false, "the first again");
    assert_eq!(rt; names.len(), 2);
    same_text(rt.alloc(), "the first", "x", names.name(0))?;
    same_text(rt.alloc(), "the other", "_y2", names.name(1))?;
    assert_eq!(rt;
        (names.position("_y2"), names.position("z")),
        (Some(1), None)
    );
    Ok(())
}

/// Why a case stands, a source, the number of a token of it from 0, its kind and text, and its line and column.
type Case = (
    &'static str,
    &'static [u8],
    u32,
    TokenKind,
    &'static [u8],
    (u32, u32),
);

const TOKENS: [Case; 12] = [
    ("a word", b"vars x y\n", 1, TokenKind::Word, b"x", (1, 6)),
    (
        "a word before a comment",
        b"\t x_1# y z\n\n  007",
        0,
        TokenKind::Word,
        b"x_1",
        (1, 3),
    ),
    (
        "digits behind a comment",
        b"\t x_1# y z\n\n  007",
        1,
        TokenKind::Digits,
        b"007",
        (3, 3),
    ),
    (
        "the longest sign",
        b"a<==b",
        1,
        TokenKind::Sign,
        b"<=",
        (1, 2),
    ),
    (
        "the sign behind it",
        b"a<==b",
        2,
        TokenKind::Sign,
        b"=",
        (1, 4),
    ),
    ("a minus", b"x:=-5;", 2, TokenKind::Sign, b"-", (1, 4)),
    (
        "a double sign",
        b"a&&b&c",
        1,
        TokenKind::Sign,
        b"&&",
        (1, 2),
    ),
    ("half of it", b"a&&b&c", 3, TokenKind::Bad, b"&", (1, 5)),
    (
        "digits before letters",
        b"12ab",
        0,
        TokenKind::Digits,
        b"12",
        (1, 1),
    ),
    (
        "letters behind digits",
        b"12ab",
        1,
        TokenKind::Word,
        b"ab",
        (1, 3),
    ),
    (
        "lines with two ends",
        b"\r\n\r\n?",
        0,
        TokenKind::Sign,
        b"?",
        (3, 1),
    ),
    (
        "a byte that is no text",
        b"x\xff",
        1,
        TokenKind::Bad,
        b"\xff",
        (1, 2),
    ),
];

fn token(source: &'static [u8], index: u32) -> Option<Token<'static>> {
    if source.len() > 100 {
        return None;
    }
    let mut lexer = Lexer::new(source);
    for _ in 0..index {
        lexer.next()?;
    }
    lexer.next()
}

#[test]
fn tokens_have_their_places(rt: HostRuntime) -> Result<(), Fail> {
    for (why, source, index, kind, text, place) in &TOKENS {
        let found = token(source, *index).ok_or("no token")?;
        assert_eq!(rt; found.kind, *kind, "{why}");
        assert_eq!(rt; found.text, *text, "{why}");
        assert_eq!(rt; (found.line, found.column), *place, "{why}");
    }
    assert!(rt; token(b"x # y", 1).is_none());
    Ok(())
}

// Digits, a bound, and their value up to it.
const DIGITS: [(&str, u64, Option<u64>); 5] = [
    ("0", 0, Some(0)),
    ("0001099511627776", 1 << 40, Some(1 << 40)),
    ("1099511627777", 1 << 40, None),
    ("18446744073709551615", u64::MAX, Some(u64::MAX)),
    ("18446744073709551616", u64::MAX, None),
];

#[test]
fn digits_have_values_to_a_bound(rt: HostRuntime) {
    for (digits, bound, wanted) in &DIGITS {
        assert_eq!(rt;
            digits_value(digits.as_bytes(), *bound),
            *wanted,
            "{digits} up to {bound}"
        );
    }
}
