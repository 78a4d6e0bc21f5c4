//! Which texts a variable may have as its name.
ghost use Rattle.std.specs.Prelude.{◌≡◌, MatchOption, true, false};
ghost use Rattle.std.specs.List.{list_all, list_any};
ghost use Rattle.std.specs.Str.{bytes_eq};
ghost use Rattle.trop_text.specs.Bytes as bytes;
ghost use Rattle.trop_text.specs.Name as spec;

use crate::bytes::{is_letter, is_word_byte};
use std::str;

/// The longest name of a variable, in bytes.
const LONGEST_NAME: usize = 32;

// The words that have a meaning in one of the formats.
const RESERVED: [&[u8]; 22] = [
    b"oo", b"max", b"min", b"or", b"true", b"false", b"vars", b"havoc", b"assume", b"assert",
    b"if", b"else", b"while", b"skip", b"point", b"ray", b"and", b"at", b"inv", b"end", b"start",
    b"choices",
];

/// Whether a text is one of the words that no variable has as its name.
pub fn is_reserved(text: &[u8]) -> bool
    ensures { result ≡ spec.is_reserved text.now }
{
    is_among(text, &RESERVED)
}

fn is_among(text: &[u8], words: &[&[u8]]) -> bool
    ensures { result ≡ list_any (λ word. bytes_eq text.now word.now) words.now }
{
    words.iter().any(|word| text == *word)
}

/// Whether a variable may have this text as its name: a letter or `_`, then letters, digits and `_`, at most 32 bytes
/// together and no reserved word.
pub fn is_name(text: &[u8]) -> bool
    ensures { result ≡ spec.is_name text.now }
{
    is_word(text) && text.len() <= LONGEST_NAME && !is_reserved(text)
}

/// The text as a name, where it is one.
pub fn as_name(text: &[u8]) -> Option<&str>
    ensures { MatchOption result (spec.is_name text.now ≡ false)
        (λ name. (spec.is_name text.now ≡ true) × (name.now ≡ text.now)) }
{
    if is_name(text) {
        str::from_utf8(text).ok()
    } else {
        None
    }
}

// A letter or `_`, and then letters, digits and `_`.
fn is_word(text: &[u8]) -> bool
    ensures { result ≡ spec.is_word text.now }
{
    match text {
        [] => false,
        [first, rest @ ..] => is_letter(*first) && are_word_bytes(rest),
    }
}

fn are_word_bytes(text: &[u8]) -> bool
    ensures { result ≡ list_all bytes.is_word_byte text.now }
{
    text.iter().all(|b| is_word_byte(*b))
}
