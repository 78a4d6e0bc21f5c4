//! Numbers among the words of a command: `key=number`, without sign and without leading zeros.
ghost use Rattle.std.specs.Prelude.{◌≡◌, ◌≢◌, ◌≤◌, ◌<◌, ◌^◌, ◌++◌, ℕ, List, decimal, MatchOption};
ghost use Rattle.trop_words.specs.Words.{key_word};

use itoa::Buffer;

// The text behind the key.
pub(crate) fn after_key<'a>(word: &'a str, key: &str) -> Option<&'a str>
    ensures { MatchOption result ((text : List ℕ) → word.now ≢ key.now ++ text)
        (λ text. word.now ≡ key.now ++ text.now) }
{
    word.strip_prefix(key)
}

// The number that the text writes, without sign and without leading zeros.
pub(crate) fn plain_number(text: &str) -> Option<u32>
    ensures { MatchOption result ((n : ℕ) → n < 2 ^ 32 → text.now ≢ decimal n) (λ n. text.now ≡ decimal n) }
{
    let number = text.parse::<u32>().ok()?;
    let mut buffer = Buffer::new();
    if buffer.format(number) == text {
        Some(number)
    } else {
        None
    }
}

// The number from `least` to `most` that the word gives behind the key.
pub(crate) fn key_number(word: &str, key: &str, least: u32, most: u32) -> Option<u32>
    ensures { MatchOption result
        ((n : ℕ) → least ≤ n → n ≤ most → word.now ≢ key_word key.now n)
        (λ n. (least ≤ n) × (n ≤ most) × (word.now ≡ key_word key.now n)) }
{
    let number = plain_number(after_key(word, key)?)?;
    if least <= number && number <= most {
        Some(number)
    } else {
        None
    }
}
